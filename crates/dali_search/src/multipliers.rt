ghost use Rattle.std.specs.Prelude.{◌≡◌, ◌≤ℤ◌, length, IfOk, IsTrue};
ghost use Rattle.dali_problem.specs.Kept.{IsOf};
ghost use Rattle.dali_tree.specs.Fits.{lam_fits};
ghost use Rattle.dali_lagrange.specs.Bound.{sum_of};
ghost use Rattle.dali_lagrange.specs.Multipliers.{AreMultipliers, multiplier};
ghost use Rattle.dali_lagrange.specs.Settled.{IsSettled};

use crate::bound::{is_at_most, sum_of_lam};
use dali_base::OutOfMemory;
use dali_guess::{smoothed, smoothed_near};
use dali_lagrange::limits::SCALE;
use dali_lagrange::{Point, settle};
use dali_problem::{Partial, Problem};
use dali_tree::Lam;
use std::alloc::Global;

/// Settled multipliers of a partial choice whose Sum isn't above that of the multipliers given: where their bound is above
/// what the best set is worth, the better ones of these and of settled guesses.
pub(crate) fn settle_well(
    alloc: Global,
    problem: &Problem,
    partial: &Partial,
    start: &Lam,
    is_root: bool,
    value: u64,
    point: &mut Point,
) -> Result<Lam, OutOfMemory>
    requires partial { IsOf problem.now partial.now }
    requires start { AreMultipliers (length problem.now.lines) start.now }
    requires point { length point.old ≡ length problem.now.lines }
    ensures point { length point.new ≡ length point.old }
    ensures fits { IfOk result (λ lam. IsTrue (lam_fits (length problem.now.lines) lam)) }
    ensures settled { IfOk result (λ lam. IsSettled problem.now partial.now.marks (multiplier lam)) }
    ensures not_above { IfOk result (λ lam. sum_of problem.now partial.now.marks (multiplier lam) ≤ℤ sum_of problem.now partial.now.marks (multiplier start.now)) }
{
    let lam = settle(alloc, problem, partial, start)?;
    if is_closed(problem, partial, &lam, value, point) {
        return Ok(lam);
    }
    let guess = guessed(alloc, problem, partial, &lam, is_root)?;
    let other = settle(alloc, problem, partial, &guess)?;
    if is_at_most(problem, partial, &other, &lam, point) {
        return Ok(other);
    }
    Ok(lam)
}

/// Whether the bound of multipliers isn't above this value.
fn is_closed(problem: &Problem, partial: &Partial, lam: &Lam, value: u64, point: &mut Point) -> bool
    requires of { IsOf problem.now partial.now }
    requires point { length point.old ≡ length problem.now.lines }
    requires lam { AreMultipliers (length problem.now.lines) lam.now }
    ensures point { length point.new ≡ length point.old }
{
    let sum = sum_of_lam(problem, partial, lam, point);
    let next = i128::from(value).saturating_add(1);
    sum < next.saturating_mul(SCALE as i128)
}

/// Guessed multipliers of a partial choice: at the root from all 0, and else near those given.
fn guessed(
    alloc: Global,
    problem: &Problem,
    partial: &Partial,
    lam: &Lam,
    is_root: bool,
) -> Result<Lam, OutOfMemory>
    requires { IsOf problem.now partial.now }
    ensures { IfOk result (λ lam. IsTrue (lam_fits (length problem.now.lines) lam)) }
{
    if is_root {
        smoothed(alloc, problem, partial)
    } else {
        smoothed_near(alloc, problem, partial, lam)
    }
}
