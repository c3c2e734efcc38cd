ghost use Rattle.std.specs.Prelude.{◌≤◌, length, IfOk, IsTrue};
ghost use Rattle.dali_base.specs.Limits.{most_multiplier};
ghost use Rattle.dali_problem.specs.Feasible.{ArePlaces};
ghost use Rattle.dali_tree.specs.Fits.{lam_fits};

use dali_base::limits::MOST_MULTIPLIER;
use dali_base::{OutOfMemory, Places, Seq};
use dali_problem::Problem;
use dali_tree::Lam;
use std::alloc::Global;

/// The multipliers that aren't 0, on rising lines.
pub(crate) fn listed(
    alloc: Global,
    problem: &Problem,
    multipliers: &[i64],
) -> Result<Lam, OutOfMemory>
    ensures { IfOk result (λ lam. IsTrue (lam_fits (length problem.now.lines) lam)) }
{
    let mut lam = Seq::new(alloc);
    for line in 0..problem.lines() {
        let multiplier = in_range(multipliers, line);
        if multiplier > 0 {
            lam.push((line, multiplier))?;
        }
    }
    Ok(lam)
}

/// The multiplier of a line, or the nearest one that is in range.
fn in_range(multipliers: &[i64], line: u32) -> u64
    ensures { result ≤ most_multiplier }
{
    match multipliers.get(line as usize) {
        Some(multiplier) => (*multiplier).clamp(0, MOST_MULTIPLIER as i64) as u64,
        None => 0,
    }
}

/// The flagged places, rising.
pub(crate) fn places_of(
    alloc: Global,
    problem: &Problem,
    flags: &[bool],
) -> Result<Places, OutOfMemory>
    ensures { IfOk result (ArePlaces problem.now) }
{
    let mut places = Places::new(alloc);
    for place in 0..problem.items() {
        if is_flagged(flags, place) {
            places.push(place)?;
        }
    }
    Ok(places)
}

/// Whether a place is flagged.
pub(crate) fn is_flagged(flags: &[bool], place: u32) -> bool {
    matches!(flags.get(place as usize), Some(true))
}
