ghost use Rattle.std.specs.Prelude.{◌≡◌, ℕ, ◌*◌, ◌+◌, ◌^◌, ◌<◌, ◌≤◌, ℤ, pos, ◌≤ℤ◌, ◌<ℤ◌, true, length, IfSome, IfNone, false, IsTrue};
ghost use Rattle.dali_base.specs.Limits.{most_bound};
ghost use Rattle.dali_problem.specs.Kept.{IsOf};
ghost use Rattle.dali_problem.specs.Rules.{is_short};
ghost use Rattle.dali_lagrange.specs.Bound.{sum_of};
ghost use Rattle.dali_lagrange.specs.Limits.{scale};
ghost use Rattle.dali_lagrange.specs.Multipliers.{AreMultipliers, multiplier};
ghost use Rattle.dali_check.specs.Proves.{closes};
ghost use Rattle.dali_check.specs.Lean.{reaches};

use dali_lagrange::limits::SCALE;
use dali_lagrange::{Point, sum};
use dali_problem::{Partial, Problem};
use dali_tree::Lam;

/// The bound of multipliers whose Sum is at most that of all multipliers 0, in centavos, and 0 where the Sum is below 0.
pub(crate) fn bound(problem: &Problem, partial: &Partial, lam: &Lam, point: &mut Point) -> u64
    requires of { IsOf problem.now partial.now }
    requires point { length point.old ≡ length problem.now.lines }
    requires lam { AreMultipliers (length problem.now.lines) lam.now }
    requires under { sum_of problem.now partial.now.marks (multiplier lam.now) ≤ℤ sum_of problem.now partial.now.marks (λ _. 0) }

    // the multipliers that were settled
    ensures point { length point.new ≡ length point.old }

    // the bound that they prove
    ensures small { result ≤ most_bound }
    ensures above { closes problem.now result lam.now partial.now.marks ≡ true }
    ensures least { 0 < result → reaches problem.now result lam.now partial.now.marks ≡ true }
{
    let _items = problem.items();
    floor(&sum_of_lam(problem, partial, lam, point))
}

/// The Sum of these multipliers.
pub(crate) fn sum_of_lam(problem: &Problem, partial: &Partial, lam: &Lam, point: &mut Point) -> i128
    requires of { IsOf problem.now partial.now }
    requires point { length point.old ≡ length problem.now.lines }
    requires lam { AreMultipliers (length problem.now.lines) lam.now }
    ensures point { length point.new ≡ length point.old }
    ensures exact { result ≡ sum_of problem.now partial.now.marks (multiplier lam.now) }
{
    point.load(lam);
    sum(problem, partial, point)
}

/// Whether the Sum of these multipliers is at most that of the others.
pub(crate) fn is_at_most(
    problem: &Problem,
    partial: &Partial,
    lam: &Lam,
    other: &Lam,
    point: &mut Point,
) -> bool
    requires of { IsOf problem.now partial.now }
    requires point { length point.old ≡ length problem.now.lines }
    requires lam { AreMultipliers (length problem.now.lines) lam.now }
    requires other { AreMultipliers (length problem.now.lines) other.now }
    ensures point { length point.new ≡ length point.old }
    ensures told { IsTrue result → sum_of problem.now partial.now.marks (multiplier lam.now) ≤ℤ sum_of problem.now partial.now.marks (multiplier other.now) }
{
    let sum = sum_of_lam(problem, partial, lam, point);
    let above = sum_of_lam(problem, partial, other, point);
    is_least(&sum, &above)
}

#[tactic(auto, using(std::proofs::lemmas::Int::ints))]
fn is_least(sum: &i128, other: &i128) -> bool
    ensures { IsTrue result → sum.now ≤ℤ other.now }
{
    *sum <= *other
}

/// How many whole centavos a Sum has.
fn floor(sum: &i128) -> u64
    requires { sum.now ≤ℤ pos (scale * most_bound) }
    ensures small { result ≤ most_bound }
    ensures above { sum.now <ℤ pos (scale * (result + 1)) }
    ensures least { 0 < result → pos (scale * result) ≤ℤ sum.now }
{
    if *sum < 0 {
        return 0;
    }
    (*sum as u128 / SCALE as u128) as u64
}

/// The first line that is short.
pub(crate) fn first_short(problem: &Problem, partial: &Partial) -> Option<u32>
    requires { IsOf problem.now partial.now }
    ensures within { IfSome result (λ line. line < length problem.now.lines) }
    ensures short { IfSome result (λ line. is_short problem.now partial.now.marks line ≡ true) }
    ensures none { IfNone result ((l : ℕ) → l < length problem.now.lines → is_short problem.now partial.now.marks l ≡ false) }
{
    for line in 0..problem.lines() {
        if partial.is_short(line) {
            return Some(line);
        }
    }
    None
}
