ghost use Rattle.std.specs.Prelude.{◌≡◌, true, length, IfOk};
ghost use Rattle.dali_problem.specs.Kept.{IsOf};
ghost use Rattle.dali_tree.specs.Fits.{lam_fits};
ghost use Rattle.dali_search.specs.Lead.{IsLead};

use crate::bound::is_at_most;
use dali_base::OutOfMemory;
use dali_guess::aim;
use dali_lagrange::{Point, settle};
use dali_problem::{Partial, Problem};
use dali_tree::Lam;
use std::alloc::Global;

/// How many places a guess looks at.
const LOOKS: u32 = 32;

/// The multipliers by which a branch goes: guessed ones, settled, where their Sum isn't smaller than that of those given, and
/// else those given.
pub(crate) fn lead(
    alloc: Global,
    problem: &Problem,
    partial: &Partial,
    lam: &Lam,
    value: u64,
    point: &mut Point,
) -> Result<Lam, OutOfMemory>
    requires partial { IsOf problem.now partial.now }
    requires lam { lam_fits (length problem.now.lines) lam.now ≡ true }
    requires point { length point.old ≡ length problem.now.lines }
    ensures point { length point.new ≡ length point.old }
    ensures lead { IfOk result (IsLead problem.now partial.now.marks lam.now) }
{
    let guess = aim(alloc, problem, partial, lam, LOOKS, value)?;
    let aimed = settle(alloc, problem, partial, &guess)?;
    if is_at_most(problem, partial, lam, &aimed, point) {
        return Ok(aimed);
    }
    let same = lam.copy(alloc)?;
    Ok(same)
}
