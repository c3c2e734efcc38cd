ghost use Rattle.std.specs.Prelude.{◌≡◌, ◌==◌, ◌++◌, [], ◌∷◌, IfOk, OnOk, Some, None, if◌then◌else◌};
ghost use Rattle.std.specs.List.{list_all};
ghost use Rattle.dali_base.specs.Limits.{most_lines};
ghost use Rattle.dali_record.specs.Multipliers.{Rises, behind, multiplier, changes, list_of};
ghost use Rattle.dali_record.specs.Reading.{Gives, rises_from, differs, made_of as made};
ghost use Rattle.dali_record.specs.Merging.{least, taken_value, taken_rest, own_of};

use crate::refusal::RecordNo;
use dali_base::limits::{MOST_LINES, MOST_MULTIPLIER};
use dali_base::{OutOfMemory, Seq};
use dali_tree::Lam;
use std::alloc::Global;

/// The least of the first lines of two lists, where there is one.
fn least_line(first: &[(u32, u64)], second: &[(u32, u64)]) -> Option<u32>
    ensures { result ≡ least first.now second.now }
{
    match (first, second) {
        ([], []) => None,
        ([a, ..], []) => Some(a.0),
        ([], [b, ..]) => Some(b.0),
        ([a, ..], [b, ..]) => Some(a.0.min(b.0)),
    }
}

/// What a list begins with on this line, and the rest of it.
fn taken(list: &[(u32, u64)], line: u32) -> (Option<u64>, &[(u32, u64)])
    ensures value { result.0 ≡ taken_value list.now line }
    ensures rest { result.1.now ≡ taken_rest list.now line }
{
    match list {
        [head, rest @ ..] if head.0 == line => (Some(head.1), rest),
        _ => (None, list),
    }
}

/// How a node's own multipliers differ from those of the branch above, both on rising lines.
pub(crate) fn changes_between(
    alloc: Global,
    above: &[(u32, u64)],
    own: &[(u32, u64)],
) -> Result<Lam, OutOfMemory>
    ensures { IfOk result (λ found. Rises 0 most_lines above.now → Rises 0 most_lines own.now → found ≡ changes (multiplier above.now) (multiplier own.now)) }
{
    let mut found = Seq::new(alloc);
    let mut above_left = above;
    let mut own_left = own;
    while let Some(line) = least_line(above_left, own_left) {
        let (before, above_rest) = taken(above_left, line);
        let (after, own_rest) = taken(own_left, line);
        push_change(&mut found, line, before.unwrap_or(0), after.unwrap_or(0))?;
        above_left = above_rest;
        own_left = own_rest;
    }
    Ok(found)
}

/// Adds a line's change, where it has one.
fn push_change(found: &mut Lam, line: u32, before: u64, after: u64) -> Result<(), OutOfMemory>
    ensures { OnOk result (found.new ≡ found.old ++ (if after == before then [] else (line, after) ∷ [])) }
{
    if after == before {
        return Ok(());
    }
    found.push((line, after))
}

/// The multiplier that a change makes of the one before it. `None` exactly where the change is to that one.
fn own_multiplier(before: u64, change: Option<u64>) -> Option<u64>
    ensures { result ≡ own_of before change }
{
    match change {
        None => Some(before),
        Some(own) if own == before => None,
        Some(own) => Some(own),
    }
}

/// Whether changes are those of rising lines of the greatest problem, each to at most the greatest multiplier.
fn rise(changes: &[(u32, u64)]) -> bool
    ensures { result ≡ rises_from 0 changes.now }
{
    let mut from = 0;
    for change in changes {
        if change.0 < from || change.0 >= MOST_LINES || change.1 > MOST_MULTIPLIER {
            return false;
        }
        from = change.0 + 1;
    }
    true
}

/// The multipliers that changes make of those of the branch above. `Form` exactly where they are no changes of them.
pub(crate) fn made_of(
    alloc: Global,
    above: &[(u32, u64)],
    changes: &[(u32, u64)],
) -> Result<Lam, RecordNo>
    requires { Rises 0 most_lines above.now }
    ensures made { Gives (λ lam. lam) result (made (multiplier above.now) changes.now) }
    ensures rises { IfOk result (λ lam. Rises 0 most_lines lam) }
{
    if !rise(changes) {
        return Err(RecordNo::Form);
    }
    merged(alloc, above, changes)
}

/// The same of changes on rising lines.
fn merged(alloc: Global, above: &[(u32, u64)], changes: &[(u32, u64)]) -> Result<Lam, RecordNo>
    requires above { Rises 0 most_lines above.now }
    requires changes { Rises 0 most_lines changes.now }
    ensures { Gives (λ lam. lam) result
        (if list_all (differs (multiplier above.now)) changes.now then Some (list_of (behind (multiplier above.now) changes.now)) else None) }
{
    let mut lam = Seq::new(alloc);
    let mut above_left = above;
    let mut changes_left = changes;
    while let Some(line) = least_line(above_left, changes_left) {
        let (before, above_rest) = taken(above_left, line);
        let (change, changes_rest) = taken(changes_left, line);
        let Some(own) = own_multiplier(before.unwrap_or(0), change) else {
            return Err(RecordNo::Form);
        };
        push_change(&mut lam, line, 0, own)?;
        above_left = above_rest;
        changes_left = changes_rest;
    }
    Ok(lam)
}
