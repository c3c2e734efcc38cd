ghost use Rattle.std.specs.Prelude.{◌≡◌, ◌+◌, ◌<◌, ◌≤◌, ◌^◌, ◌++◌, [], ◌∷◌, IfOk, IfErr, OnOk};
ghost use Rattle.dali_machine.specs.History.{HasItsChoice, after_entry, state_of};
ghost use Rattle.dali_machine.specs.Outcomes.{IsReported};
ghost use Rattle.dali_machine.specs.Step.{judged, step};
ghost use Rattle.dali_recover.specs.Damaged.{last_edition, IsNoEntry};
ghost use Rattle.dali_recover.specs.Taking.{IsEntryFor, Denies, DeniesEntry, GoesOnWith, choice_in};

use crate::judging::has_its_choice;
use crate::refusal::Denial;
use dali_machine::{Outcome, State};
use dali_record::{Entries, Entry, RecordNo, decode};
use dali_tree::Choice;
use std::alloc::Global;

/// Takes the payload of a journal of this edition as the record of one more entry. The state is that of the entries.
pub(crate) fn take_payload(
    alloc: Global,
    edition: u8,
    payload: &[u8],
    state: &mut State,
    entries: &mut Entries,
) -> Result<(), Denial>
    requires few { state.old.machine.commands < 2 ^ 63 }
    requires state { state.old.machine ≡ state_of entries.old }
    ensures taken { OnOk result (GoesOnWith edition payload.now entries.old entries.new) }
    ensures state { OnOk result (state.new.machine ≡ state_of entries.new) }
    ensures counted { OnOk result (state.new.machine.commands ≡ state.old.machine.commands + 1) }
    ensures denied { IfErr result (λ e. Denies e edition entries.old payload.now) }
{
    let entry = entry_of(alloc, edition, last_edition(entries), payload)?;
    take_entry(alloc, entry, state, entries)
}

/// The edition of the last entry, or 0 where there is none.
pub fn last_edition(entries: &Entries) -> u8
    ensures { result ≡ last_edition 0 entries.now }
{
    match entries.as_slice().last() {
        Some(entry) => entry.edition,
        None => 0,
    }
}

/// The entry whose record this payload is, of an edition from `last` to `edition`.
fn entry_of(alloc: Global, edition: u8, last: u8, payload: &[u8]) -> Result<Entry, Denial>
    ensures entry { IfOk result (IsEntryFor edition last payload.now) }
    ensures denied { IfErr result (λ e. DeniesEntry e edition last payload.now) }
{
    match decode(alloc, payload) {
        Ok(entry) => {
            if entry.edition < last || edition < entry.edition {
                return Err(Denial::Entry);
            }
            Ok(entry)
        }
        Err(RecordNo::Form) => Err(Denial::Entry),
        Err(RecordNo::OutOfMemory) => Err(Denial::OutOfMemory),
    }
}

/// Takes one more entry, where it makes the history legal.
fn take_entry(
    alloc: Global,
    entry: Entry,
    state: &mut State,
    entries: &mut Entries,
) -> Result<(), Denial>
    requires few { state.old.machine.commands < 2 ^ 63 }

    // where the entry is taken
    ensures choice { OnOk result (HasItsChoice state.old.machine (judged entry.edition state.old.machine entry.line) entry.choice) }
    ensures entries { OnOk result (entries.new ≡ entries.old ++ entry ∷ []) }
    ensures state { OnOk result (state.new.machine ≡ after_entry state.old.machine entry) }
    ensures counted { OnOk result (state.new.machine.commands ≡ state.old.machine.commands + 1) }
    ensures reported { OnOk result (IsReported (step entry.edition state.old.machine entry.line entry.choice).outcome) }

    // where it is denied
    ensures denied { IfErr result (λ e. e ≡ Denial.Illegal → HasItsChoice state.old.machine (judged entry.edition state.old.machine entry.line) entry.choice → ⊥) }
    ensures judged { IfErr result (λ e. e ≡ Denial.Entry → ⊥) }
{
    if !has_its_choice(alloc, state, &entry)? {
        return Err(Denial::Illegal);
    }
    let Entry {
        edition,
        line,
        choice,
    } = entry;
    let ready = state.prepare(edition, &line, choice)?;
    let choice = choice_in(state.commit(ready));
    entries.push(Entry {
        edition,
        line,
        choice,
    })?;
    Ok(())
}

/// The choice of the cycle that was answered, where it is one: the machine gives back what it was given.
fn choice_in(outcome: Outcome) -> Option<Choice>
    ensures { result ≡ choice_in outcome }
{
    match outcome {
        Outcome::Cycle { report } => Some(report.choice),
        _ => None,
    }
}
