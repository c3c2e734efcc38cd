ghost use Rattle.std.specs.Prelude.{◌≡◌, ℕ, ◌+◌, ◌<◌, true, length, slice_index};
ghost use Rattle.std.specs.Int.RustNames.{unsigned_abs};
ghost use Rattle.dali_problem.specs.Clearing.{Clearing};
ghost use Rattle.dali_problem.specs.Kept.{IsOf};
ghost use Rattle.dali_problem.specs.Partial.{mark};
ghost use Rattle.dali_problem.specs.declared.mark.Mark.TheVariants.{Undecided};
ghost use Rattle.dali_lagrange.specs.Bound.{reduced};
ghost use Rattle.dali_lagrange.specs.KeptSum.{IsSumOf};
ghost use Rattle.dali_lagrange.specs.Multipliers.{AreMultipliers, multiplier};
ghost use Rattle.dali_check.specs.Lean.{is_open, is_nearest};
ghost use Rattle.dali_search.specs.Nearest.{nearer_of, FoundBelow};

use dali_lagrange::Kept;
use dali_problem::{Partial, Problem};
use dali_tree::Lam;

/// An undecided place with the size of its reduced value.
#[derive(Clone, Copy)]
struct Near {
    place: u32,
    size: u128,
}

/// The first of the undecided places whose reduced value at these multipliers is least in size.
pub(crate) fn nearest(problem: &Problem, partial: &Partial, lam: &Lam, kept: &mut Kept) -> u32
    requires of { IsOf problem.now partial.now }
    requires kept { IsSumOf problem.now kept.old }
    requires lam { AreMultipliers (length problem.now.lines) lam.now }
    requires some { is_open problem.now partial.now.marks ≡ true }
    ensures kept { IsSumOf problem.now kept.new }
    ensures nearest { is_nearest problem.now lam.now partial.now.marks result ≡ true }
    ensures undecided { mark partial.now.marks result ≡ Undecided }
{
    kept.load(problem, lam);
    let mut found = None;
    for place in 0..problem.items() {
        found = consider(problem, partial, lam, kept, place, found);
    }
    match found {
        Some(near) => near.place,
        None => unreachable!(),
    }
}

/// What is nearest up to a place, where it is known before it.
fn consider(
    problem: &Problem,
    partial: &Partial,
    lam: &Lam,
    kept: &Kept,
    place: u32,
    found: Option<Near>,
) -> Option<Near>
    requires of { IsOf problem.now partial.now }
    requires kept { IsSumOf problem.now kept.now }
    requires loaded { (l : ℕ) → l < length problem.now.lines → slice_index kept.now.multipliers l ≡ multiplier lam.now l }
    requires place { place < length problem.now.items }
    requires found { FoundBelow problem.now lam.now partial.now.marks place found }
    ensures { FoundBelow problem.now lam.now partial.now.marks (place + 1) result }
{
    let _items = problem.items();
    if !partial.mark(place).is_undecided() {
        return found;
    }
    nearer(found, place, size(kept, place))
}

/// The nearer one of a place and those before it.
fn nearer(found: Option<Near>, place: u32, size: u128) -> Option<Near>
    ensures { result ≡ nearer_of found place size }
{
    match found {
        Some(near) if near.size <= size => found,
        _ => Some(Near { place, size }),
    }
}

/// The size of a place's reduced value.
fn size(kept: &Kept, place: u32) -> u128
    requires { place < length kept.now.reduced }
    ensures { (p : Clearing) → IsSumOf p kept.now → result ≡ unsigned_abs (reduced p (slice_index kept.now.multipliers) place) }
{
    kept.reduced(place).unsigned_abs()
}
