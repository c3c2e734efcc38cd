ghost use Rattle.std.specs.Prelude.{◌≡◌, ◌+◌, ◌<◌, ◌≤◌, ◌^◌, ◌++◌, ◌∷◌, ℕ, IsTrue, List, OnOk, IfOk};
ghost use Rattle.dali_entry.specs.EntryRecord.{EntryRecord};
ghost use Rattle.dali_machine.specs.History.{HasItsChoice, state_of};
ghost use Rattle.dali_machine.specs.Step.{judged};
ghost use Rattle.dali_outside.specs.Outside.{Sight, Goes, SameDisk};
ghost use Rattle.dali_record.specs.IsRecord.{IsWithin};
ghost use Rattle.dali_register.specs.Repeating.{Repeats, Repeated};
ghost use Rattle.dali_recover.specs.Spells.{AreEntriesIn};

use crate::refusal::RegisterNo;
use dali_base::OutOfMemory;
use dali_entry::Entry;
use dali_machine::State;
use dali_outside::{Failed, Site};
use dali_reply::reply;
use dali_tree::Choice;
use std::alloc::Global;

/// Prints the reply to a kept entry again, in one put, with the choice that was kept and no search, and brings the state
/// behind it. The entry may come next, after fewer than 2^63 others. `PrintFault` comes only where its count rose; at want
/// of memory nothing was printed.
pub fn repeat<T: Site>(
    alloc: Global,
    state: &mut State,
    entry: &Entry,
    site: &mut T,
) -> Result<(), RegisterNo>
    requires few { state.old.machine.commands < 2 ^ 63 }
    requires choice { HasItsChoice state.old.machine (judged entry.now.edition state.old.machine entry.now.line) entry.now.choice }
    ensures repeated { (before : Sight) (found done todo : List EntryRecord) (tail edition : ℕ) → found ≡ done ++ entry.now ∷ todo → state.old.machine ≡ state_of done →
        AreEntriesIn edition found → Repeats T.tells before found done tail edition (T.sight site.old) →
        Repeated T.tells before found done entry.now tail edition state.new.machine (T.sight site.old) (T.sight site.new) result }
    ensures counted { OnOk result (state.new.machine.commands ≡ state.old.machine.commands + 1) }
    ensures disk { IsTrue T.tells → SameDisk (T.sight site.old) (T.sight site.new) }
    ensures goes { Goes (T.sight site.old) (T.sight site.new) }
    ensures syncs { (T.sight site.new).syncs ≤ (T.sight site.old).syncs }
{
    let choice = copy_of(alloc, &entry.choice)?;
    let ready = state.prepare(entry.edition, &entry.line, choice)?;
    let text = reply(alloc, ready.number(), ready.outcome())?;
    let _outcome = state.commit(ready);
    // Asked for its clause alone: the site tells of each of its bytes.
    let _size = site.size();
    match site.put(text.bytes()) {
        Ok(()) => Ok(()),
        Err(Failed) => Err(RegisterNo::PrintFault),
    }
}

fn copy_of(alloc: Global, choice: &Option<Choice>) -> Result<Option<Choice>, OutOfMemory>
    ensures { IfOk result (λ copied. copied ≡ choice.now) }
{
    match choice {
        Some(choice) => Ok(Some(choice.copy(alloc)?)),
        None => Ok(None),
    }
}
