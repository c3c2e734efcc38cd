ghost use Rattle.std.specs.Prelude.{suc};
ghost use Rattle.dali_base.specs.Limits.{most_lines};
ghost use Rattle.dali_record.specs.Multipliers.{Rises, multiplier};
ghost use Rattle.dali_record.specs.Reading.{Gives, branch_at, any_end_at, no_branch_at, end_at, tree_at};

use crate::numbers::two_of;
use crate::reading::{fixes_of, lam_of};
use crate::refusal::RecordNo;
use dali_tree::{End, Tree};
use sqlite_items::Boxed;
use std::alloc::Global;

/// What was read, how many branches are left behind it, and the bytes behind it.
type Left<'a, X> = (X, u32, &'a [u8]);

/// The tree at the front, on whose paths are at most `depth` branches, and in all at most `left`.
#[cycle(trees)]
#[tactic(auto, unfolding(crate::specs::Reading::node_at))]
pub(crate) fn tree_of<'a>(
    alloc: Global,
    depth: u32,
    left: u32,
    above: &[(u32, u64)],
    bytes: &'a [u8],
) -> Result<Left<'a, Tree>, RecordNo>
    requires { Rises 0 most_lines above.now }
    ensures { Gives (λ x. (x.0, x.1, x.2.now)) result (tree_at depth left (multiplier above.now) bytes.now) }
{
    let (fixes, rest) = fixes_of(alloc, bytes)?;
    let (end, left, rest) = end_of(alloc, depth, left, above, rest)?;
    Ok((Tree { fixes, end }, left, rest))
}

/// The end at the front, likewise.
#[cycle(trees)]
fn end_of<'a>(
    alloc: Global,
    depth: u32,
    left: u32,
    above: &[(u32, u64)],
    bytes: &'a [u8],
) -> Result<Left<'a, End>, RecordNo>
    requires { Rises 0 most_lines above.now }
    ensures { Gives (λ x. (x.0, x.1, x.2.now)) result (end_at depth left (multiplier above.now) bytes.now) }
{
    if depth == 0 {
        return flat_end_of(alloc, left, above, bytes);
    }
    deep_end_of(alloc, depth - 1, left, above, bytes)
}

/// The end at the front, which is no branch.
#[tactic(auto, unfolding(crate::specs::Reading::any_end_at))]
fn flat_end_of<'a>(
    alloc: Global,
    left: u32,
    above: &[(u32, u64)],
    bytes: &'a [u8],
) -> Result<Left<'a, End>, RecordNo>
    requires { Rises 0 most_lines above.now }
    ensures { Gives (λ x. (x.0, x.1, x.2.now)) result (any_end_at no_branch_at left (multiplier above.now) bytes.now) }
{
    match bytes {
        [4, rest @ ..] => {
            let (lam, rest) = lam_of(alloc, above, rest)?;
            Ok((End::Bound { lam }, left, rest))
        }
        [5, rest @ ..] => {
            let (line, rest) = two_of(rest)?;
            Ok((End::Short { line }, left, rest))
        }
        // No more branches may stand on this path.
        [6, ..] => Err(RecordNo::Form),
        _ => Err(RecordNo::Form),
    }
}

/// The end at the front, with at most `depth` more branches on a path behind a branch.
#[cycle(trees)]
#[tactic(auto, unfolding(crate::specs::Reading::any_end_at))]
fn deep_end_of<'a>(
    alloc: Global,
    depth: u32,
    left: u32,
    above: &[(u32, u64)],
    bytes: &'a [u8],
) -> Result<Left<'a, End>, RecordNo>
    requires { Rises 0 most_lines above.now }
    ensures { Gives (λ x. (x.0, x.1, x.2.now)) result (any_end_at (branch_at (tree_at depth)) left (multiplier above.now) bytes.now) }
{
    match bytes {
        [4, rest @ ..] => {
            let (lam, rest) = lam_of(alloc, above, rest)?;
            Ok((End::Bound { lam }, left, rest))
        }
        [5, rest @ ..] => {
            let (line, rest) = two_of(rest)?;
            Ok((End::Short { line }, left, rest))
        }
        [6, rest @ ..] => any_branch_of(alloc, depth, left, above, rest),
        _ => Err(RecordNo::Form),
    }
}

/// What stands behind the byte of a branch, where at most `left` branches stand in all, this one among them.
#[cycle(trees)]
fn any_branch_of<'a>(
    alloc: Global,
    depth: u32,
    left: u32,
    above: &[(u32, u64)],
    bytes: &'a [u8],
) -> Result<Left<'a, End>, RecordNo>
    requires { Rises 0 most_lines above.now }
    ensures { Gives (λ x. (x.0, x.1, x.2.now)) result (branch_at (tree_at depth) left (multiplier above.now) bytes.now) }
{
    if left == 0 {
        return Err(RecordNo::Form);
    }
    branch_of(alloc, depth, left - 1, above, bytes)
}

/// What stands behind the byte of a branch, where at most `depth` branches more are on a path, and `left` more in all.
#[cycle(trees)]
#[tactic(auto, unfolding(crate::specs::Reading::branch_at))]
fn branch_of<'a>(
    alloc: Global,
    depth: u32,
    left: u32,
    above: &[(u32, u64)],
    bytes: &'a [u8],
) -> Result<Left<'a, End>, RecordNo>
    requires { Rises 0 most_lines above.now }
    ensures { Gives (λ x. (x.0, x.1, x.2.now)) result (branch_at (tree_at depth) (suc left) (multiplier above.now) bytes.now) }
{
    let (place, rest) = two_of(bytes)?;
    let (lam, rest) = lam_of(alloc, above, rest)?;
    let (inside, left, rest) = tree_of(alloc, depth, left, lam.as_slice(), rest)?;
    let (outside, left, rest) = tree_of(alloc, depth, left, lam.as_slice(), rest)?;
    let end = End::Branch {
        place,
        lam,
        inside: Boxed::new(alloc, inside)?,
        outside: Boxed::new(alloc, outside)?,
    };
    Ok((end, left, rest))
}
