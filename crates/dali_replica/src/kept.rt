ghost use Rattle.std.specs.Prelude.{◌↔◌, ◌≤◌, IsTrue, IfOk, IfSome};
ghost use Rattle.dali_base.specs.Limits.{most_budget};
ghost use Rattle.dali_record.specs.IsRecord.{IsRecord, IsWithin, IsChoiceWithin, branches_of};

use dali_base::limits::{MOST_BUDGET, MOST_ITEMS, MOST_LINES};
use dali_base::{NEWEST, OutOfMemory};
use dali_fits::choice_fits;
use dali_record::{Entry, encode};
use dali_tree::{Choice, Part, branchings};
use std::alloc::Global;

/// Whether these bytes are the record of the entry, which has one or not.
pub(crate) fn is_record_of(alloc: Global, bytes: &[u8], entry: &Entry) -> Result<bool, OutOfMemory>
    ensures { IfOk result (λ is. IsTrue is ↔ IsRecord bytes.now entry.now) }
{
    if !has_record(entry) {
        return Ok(false);
    }
    let record = encode(alloc, entry)?;
    Ok(record.bytes() == bytes)
}

/// Whether the entry is within the bounds of a record.
fn has_record(entry: &Entry) -> bool
    ensures { IsTrue result ↔ IsWithin entry.now }
{
    // Called for its clause alone: a line is a command's.
    let _line = entry.line.bytes();
    1 <= entry.edition && entry.edition <= NEWEST && may_be_recorded(&entry.choice)
}

/// Whether the choice, if there is one, is within the bounds of a record.
fn may_be_recorded(choice: &Option<Choice>) -> bool
    ensures { IsTrue result ↔ IfSome choice.now IsChoiceWithin }
{
    match choice {
        Some(choice) => {
            choice_fits(choice, MOST_ITEMS, MOST_LINES)
                && has_few_branches(choice.parts.as_slice(), MOST_BUDGET)
        }
        None => true,
    }
}

/// Whether the trees of the parts have at most so many branches in all.
fn has_few_branches(parts: &[Part], most: u64) -> bool
    requires { most ≤ most_budget }
    ensures { IsTrue result ↔ (branches_of parts.now ≤ most) }
{
    match parts {
        [] => true,
        [first, rest @ ..] => {
            let count = branchings(&first.tree);
            count <= most && has_few_branches(rest, most - count)
        }
    }
}
