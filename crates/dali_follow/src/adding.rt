ghost use Rattle.std.specs.Prelude.{◌≡◌, ◌≤◌, IfOk, OnOk, IfErr, length};
ghost use Rattle.dali_recover.specs.Recovers.{IsFound};
ghost use Rattle.dali_replica.specs.Judging.{GoesOn};
ghost use Rattle.dali_replica.specs.Limits.{most_record};
ghost use Rattle.dali_follow.specs.SoFar.{Adds, AddsNot};

use crate::end::{FollowEnd, end_of_append};
use dali_base::OutOfMemory;
use dali_entry::Entry;
use dali_journal::frame;
use dali_outside::Site;
use dali_recover::Found;
use dali_tree::Choice;
use std::alloc::Global;

/// Appends the record of the entry that comes next, and takes the entry behind those found. All memory is taken before the
/// append. An error is how the run ends.
pub(crate) fn add<T: Site>(
    alloc: Global,
    entry: Entry,
    bytes: &[u8],
    found: &mut Found,
    site: &mut T,
) -> Result<(), FollowEnd>
    requires found { IsFound (T.sight site.old).size found.old }
    requires next { GoesOn found.old.journal.edition found.old.entries bytes.now entry }
    requires short { length bytes.now ≤ most_record }
    ensures found { OnOk result (IsFound (T.sight site.new).size found.new) }
    ensures added { OnOk result (Adds T.tells entry found.old found.new (T.sight site.old) (T.sight site.new)) }
    ensures ended { IfErr result (AddsNot T.tells entry found.old (T.sight site.old) (T.sight site.new)) }
{
    // Called for its clause alone: the number of commands is bounded by the size.
    let _size = site.size();
    let sealed = frame(alloc, bytes)?;
    let choice = copy_of(alloc, &entry.choice)?;
    let ready = found.state.prepare(entry.edition, &entry.line, choice)?;
    // Called for its clause alone: what is answered is true.
    let _outcome = ready.outcome();
    found.entries.push(entry)?;
    match found.journal.append(site, &sealed) {
        Ok(()) => {}
        Err(no) => return Err(end_of_append(no)),
    }
    let _outcome = found.state.commit(ready);
    Ok(())
}

fn copy_of(alloc: Global, choice: &Option<Choice>) -> Result<Option<Choice>, OutOfMemory>
    ensures { IfOk result (λ copied. copied ≡ choice.now) }
{
    match choice {
        Some(choice) => Ok(Some(choice.copy(alloc)?)),
        None => Ok(None),
    }
}
