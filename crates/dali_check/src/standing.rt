ghost use Rattle.std.specs.Prelude.{◌≡◌, ◌≢◌, ◌↔◌, ℕ, ◌+◌, ◌*◌, ◌^◌, ◌<◌, pos, Bool, ◌&&◌, ◌||◌, not, nat_lt, nat_le, List, length, slice_set, IsTrue, if◌then◌else◌};
ghost use Rattle.std.specs.Int.Signed.{le_z};
ghost use Rattle.std.specs.List.{All};
ghost use Rattle.dali_problem.specs.declared.mark.Mark.{Mark};
ghost use Rattle.dali_problem.specs.declared.mark.Mark.TheVariants.{Stranger, Undecided, Chosen, Left};
ghost use Rattle.dali_problem.specs.Clearing.{Clearing};
ghost use Rattle.dali_problem.specs.Limits.{Within};
ghost use Rattle.dali_problem.specs.Partial.{mark, is_undecided, is_chosen};
ghost use Rattle.dali_problem.specs.Kept.{IsOf};
ghost use Rattle.dali_tree.specs.Range.{lam_in_range};
ghost use Rattle.dali_lagrange.specs.KeptSum.{IsSumOf};
ghost use Rattle.dali_lagrange.specs.Limits.{scale};
ghost use Rattle.dali_check.specs.Lean.{reaches, nearness, is_nearest, is_worked, is_tight};
ghost use Rattle.dali_check.specs.Room.{IsReady, IsSumFor, as_member};

use crate::reduced::is_reduced;
use dali_lagrange::Kept;
use dali_lagrange::limits::SCALE;
use dali_problem::{Mark, Partial, Problem};
use dali_tree::Lam;

/// A centavo on the scale of the Sum.
const CENTAVO: i128 = SCALE as i128;

/// Takes on the marks of a partial choice and these multipliers. Costs the places, the lines and what touches the
/// lines whose multipliers change.
pub(crate) fn take_on(problem: &Problem, lam: &Lam, partial: &Partial, kept: &mut Kept)
    requires of { IsOf problem.now partial.now }
    requires ready { IsReady problem.now kept.old }
    requires in_range { IsTrue (lam_in_range (length problem.now.lines) lam.now) }
    ensures ready { IsReady problem.now kept.new }
    ensures stands { IsSumFor problem.now lam.now partial.now.marks kept.new }
{
    align(problem, partial, kept);
    kept.load(problem, lam);
}

/// Gives each place the mark that it has in a partial choice.
fn align(problem: &Problem, partial: &Partial, kept: &mut Kept)
    requires of { IsOf problem.now partial.now }
    requires ready { IsReady problem.now kept.old }
    ensures ready { IsReady problem.now kept.new }
    ensures undecided { (j : ℕ) → is_undecided (mark partial.now.marks j) ≡ is_undecided (mark kept.new.marks j) }
    ensures chosen { (j : ℕ) → is_chosen (mark partial.now.marks j) ≡ is_chosen (mark kept.new.marks j) }
{
    for place in 0..problem.items() {
        give(problem, place, partial.mark(place), kept);
    }
}

/// Gives a place this mark, where it has another. A stranger becomes left.
fn give(problem: &Problem, place: u32, to: Mark, kept: &mut Kept)
    requires ready { IsReady problem.now kept.old }
    requires place { place < length problem.now.items }
    ensures of { IsSumOf problem.now kept.new }
    ensures marks { kept.new.marks ≡ slice_set kept.old.marks place (as_member to) }
{
    if is_aligned(kept.mark(place), to) {
        return;
    }
    turn(problem, place, to, kept);
}

/// Whether a member has this mark, where a stranger is left.
fn is_aligned(now: Mark, to: Mark) -> bool
    ensures { IsTrue result ↔ (now ≡ as_member to) }
{
    match to {
        Mark::Undecided => now == Mark::Undecided,
        Mark::Chosen => now == Mark::Chosen,
        Mark::Left | Mark::Stranger => now == Mark::Left,
    }
}

/// Gives a place this mark, where a stranger becomes left.
fn turn(problem: &Problem, place: u32, to: Mark, kept: &mut Kept)
    requires ready { IsReady problem.now kept.old }
    requires place { place < length problem.now.items }
    ensures of { IsSumOf problem.now kept.new }
    ensures marks { kept.new.marks ≡ slice_set kept.old.marks place (as_member to) }
{
    release(problem, place, kept);
    match to {
        Mark::Undecided => {}
        Mark::Chosen => kept.fix(problem, place, true),
        Mark::Left | Mark::Stranger => kept.fix(problem, place, false),
    }
}

/// Makes a member undecided, whatever it is.
fn release(problem: &Problem, place: u32, kept: &mut Kept)
    requires ready { IsReady problem.now kept.old }
    requires place { place < length problem.now.items }
    ensures of { IsSumOf problem.now kept.new }
    ensures marks { kept.new.marks ≡ slice_set kept.old.marks place Undecided }
{
    if !kept.mark(place).is_undecided() {
        kept.free(problem, place);
    }
}

/// Whether the bound of the multipliers is at least this, in centavos.
#[tactic(auto, unfolding(crate::specs::Lean::reaches))]
pub(crate) fn reaches(kept: &Kept, bound: u64) -> bool
    ensures { (p : Clearing) (lam : List (ℕ × ℕ)) (f : List Mark) → IsSumFor p lam f kept.now → result ≡ reaches p bound lam f }
{
    is_at_least(&kept.sum(), bound)
}

/// Whether the bound of the multipliers is above this, in centavos.
#[tactic(auto, unfolding(crate::specs::Lean::reaches))]
pub(crate) fn exceeds(kept: &Kept, value: u64) -> bool
    ensures { (p : Clearing) (lam : List (ℕ × ℕ)) (f : List Mark) → IsSumFor p lam f kept.now → result ≡ reaches p (value + 1) lam f }
{
    is_above(&kept.sum(), value)
}

/// Whether the bound of the multipliers is this, in centavos.
pub(crate) fn is_tight(kept: &Kept, bound: u64) -> bool
    ensures { (p : Clearing) (lam : List (ℕ × ℕ)) (f : List Mark) → IsSumFor p lam f kept.now → result ≡ is_tight p bound lam f }
{
    reaches(kept, bound) && !exceeds(kept, bound)
}

#[tactic(auto, using(std::proofs::lemmas::Int::ints))]
fn is_at_least(sum: &i128, bound: u64) -> bool
    ensures { result ≡ le_z (pos (scale * bound)) sum.now }
{
    CENTAVO * i128::from(bound) <= *sum
}

#[tactic(auto, using(std::proofs::lemmas::Int::ints))]
fn is_above(sum: &i128, value: u64) -> bool
    ensures { result ≡ le_z (pos (scale * (value + 1))) sum.now }
{
    CENTAVO * (i128::from(value) + 1) <= *sum
}

/// Whether the multipliers are settled, and no fix rule is left.
pub(crate) fn is_worked(problem: &Problem, partial: &Partial, kept: &Kept) -> bool
    requires of { IsOf problem.now partial.now }
    requires kept { IsSumOf problem.now kept.now }
    ensures { (lam : List (ℕ × ℕ)) → IsSumFor problem.now lam partial.now.marks kept.now → result ≡ is_worked problem.now lam partial.now.marks }
{
    kept.is_settled(problem) && is_reduced(problem, partial)
}

/// Whether the place is undecided, and the first of those whose reduced value is least in size.
#[tactic(auto, unfolding(crate::specs::Lean::is_nearest))]
pub(crate) fn is_nearest(problem: &Problem, partial: &Partial, kept: &Kept, place: u32) -> bool
    requires of { IsOf problem.now partial.now }
    requires kept { IsSumOf problem.now kept.now }
    requires place { place < length problem.now.items }
    ensures answer { (lam : List (ℕ × ℕ)) → IsSumFor problem.now lam partial.now.marks kept.now → result ≡ is_nearest problem.now lam partial.now.marks place }
    ensures undecided { IsTrue result → mark partial.now.marks place ≡ Undecided }
{
    if !partial.mark(place).is_undecided() {
        return false;
    }
    for other in 0..problem.items() {
        if !is_behind(problem, partial, kept, place, other) {
            return false;
        }
    }
    true
}

/// Whether the other place is decided, or farther, or as far and not before.
fn is_behind(problem: &Problem, partial: &Partial, kept: &Kept, place: u32, other: u32) -> bool
    requires of { IsOf problem.now partial.now }
    requires kept { IsSumOf problem.now kept.now }
    requires place { place < length problem.now.items }
    requires other { other < length problem.now.items }
    ensures { (lam : List (ℕ × ℕ)) → IsSumFor problem.now lam partial.now.marks kept.now → result
        ≡ (not (is_undecided (mark partial.now.marks other))
        || (if nat_lt other place then nat_lt (nearness problem.now lam place) (nearness problem.now lam other)
        else nat_le (nearness problem.now lam place) (nearness problem.now lam other))) }
{
    let _items = problem.items();
    if !partial.mark(other).is_undecided() {
        return true;
    }
    let near = nearness(kept, place);
    let far = nearness(kept, other);
    is_ahead(near, far, other < place)
}

/// Whether a number is below another, or the same where that will do.
fn is_ahead(near: u128, far: u128, strictly: bool) -> bool
    ensures { result ≡ (if strictly then nat_lt near far else nat_le near far) }
{
    if strictly { near < far } else { near <= far }
}

/// The size of a place's reduced value.
fn nearness(kept: &Kept, place: u32) -> u128
    requires { place < length kept.now.reduced }
    ensures { (p : Clearing) (lam : List (ℕ × ℕ)) (f : List Mark) → IsSumFor p lam f kept.now → result ≡ nearness p lam place }
{
    kept.reduced(place).unsigned_abs()
}
