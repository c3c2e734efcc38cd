ghost use Rattle.std.specs.Prelude.{◌≡◌, ℕ, ◌+◌, ◌*◌, ◌^◌, ◌<◌, ◌≤◌, ◌↔◌, false, List, length, slice_index_or, IsTrue, IfSome, IfNone, sum_by};
ghost use Rattle.std.specs.List.{All, filter};
ghost use Rattle.dali_problem.specs.Feasible.{value_of, has};
ghost use Rattle.dali_problem.specs.Limits.{IsProblem};
ghost use Rattle.dali_tree.specs.Fits.{AreRising};
ghost use Rattle.dali_tree.specs.Tree.{branch_count};
ghost use Rattle.dali_tree.specs.Ends.{end_count};
ghost use Rattle.dali_check.specs.Parts.{bound_of, branchings_of};

use dali_problem::Problem;
use dali_tree::{End, Part, Tree};

/// What a budget has left after the branchings of all parts, or `None` exactly where they are more than it has.
pub(crate) fn left_of(parts: &[Part], budget: u64) -> Option<u64>
    ensures some { IfSome result (λ left. left + branchings_of parts.now ≡ budget) }
    ensures none { IfNone result (budget < branchings_of parts.now) }
{
    let mut left = budget;
    for part in parts {
        match after_tree(&part.tree, left) {
            Some(rest) => left = rest,
            None => return None,
        }
    }
    Some(left)
}

/// What is left after a tree.
#[cycle(spending)]
fn after_tree(tree: &Tree, left: u64) -> Option<u64>
    ensures some { IfSome result (λ rest. rest + branch_count tree.now ≡ left) }
    ensures none { IfNone result (left < branch_count tree.now) }
{
    after_end(&tree.end, left)
}

/// What is left after an end.
#[cycle(spending)]
fn after_end(end: &End, left: u64) -> Option<u64>
    ensures some { IfSome result (λ rest. rest + end_count end.now ≡ left) }
    ensures none { IfNone result (left < end_count end.now) }
{
    match end {
        End::Bound { .. } | End::Short { .. } => Some(left),
        End::Branch {
            inside,
            outside,
            ..
        } => {
            if left == 0 {
                return None;
            }
            match after_tree(inside.get(), left - 1) {
                Some(rest) => after_tree(outside.get(), rest),
                None => None,
            }
        }
    }
}

/// The sum of the bounds, in centavos.
pub(crate) fn bound_of(parts: &[Part]) -> u128
    ensures { result ≡ bound_of parts.now }
{
    let mut total = 0;
    for part in parts {
        total += u128::from(part.bound);
    }
    total
}

/// What the marked members are worth, in centavos.
pub(crate) fn marked_value(problem: &Problem, members: &[u32], marks: &[bool]) -> u64
    requires members { AreRising (length problem.now.items) members.now }
    requires marks { length marks.now ≡ length problem.now.items }
    ensures { result ≡ value_of problem.now (filter (λ j. slice_index_or marks.now j false) members.now) }
{
    let _items = problem.items();
    let mut total = 0;
    for place in members {
        if marks[*place as usize] {
            total += problem.value(*place);
        }
    }
    total
}

/// Whether a budget is enough for every set of so many places.
pub(crate) fn covers_all(items: u32, budget: u64) -> bool
    ensures { IsTrue result ↔ (2 ^ items ≤ budget + 1) }
{
    let mut sets = 1;
    for place in 0..items {
        let _ = place;
        if sets > u128::from(budget) + 1 {
            return false;
        }
        sets *= 2;
    }
    sets <= u128::from(budget) + 1
}
