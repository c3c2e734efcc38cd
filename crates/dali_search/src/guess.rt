ghost use Rattle.std.specs.Prelude.{◌≤◌};
ghost use Rattle.dali_search.specs.Best.{IsBest};
ghost use Rattle.dali_search.specs.Sides.{IsDesk};

use crate::best::Best;
use crate::desk::Desk;
use crate::offer::suggest;
use dali_base::OutOfMemory;
use dali_guess::{flips, repaired};
use dali_problem::Problem;
use dali_tree::Lam;
use std::alloc::Global;

/// How many flips for each undecided place the guess at the root makes.
pub(crate) const FLIPS_AT_ROOT: u64 = 200;

/// How many the guess at another node makes.
const FLIPS_AT_NODE: u64 = 20;

/// How many flips for each undecided place the guesses make at the sides of the branch behind so many: each fifth one
/// guesses, and each fortieth from the fortieth on.
pub(crate) fn flips_behind(branches: u64) -> u64 {
    let every = if branches < 40 { 5 } else { 40 };
    if branches % every == every - 1 {
        FLIPS_AT_NODE
    } else {
        0
    }
}

/// Guesses a set that agrees with the partial choice on the desk, where one may be worth more than the best one, which is
/// where the guess begins; and keeps it where it is. At the root a set is first repaired at its multipliers.
pub(crate) fn guess(
    alloc: Global,
    problem: &Problem,
    desk: &Desk,
    lam: &Lam,
    bound: u64,
    best: &mut Best,
) -> Result<(), OutOfMemory>
    requires desk { IsDesk problem.now desk.now }
    requires best { IsBest problem.now best.old }
    ensures best { IsBest problem.now best.new }
    ensures not_worse { best.old.value ≤ best.new.value }
{
    if desk.flips_each == 0 || bound <= best.value {
        return Ok(());
    }
    if desk.is_root {
        let set = repaired(alloc, problem, &desk.partial, lam)?;
        suggest(alloc, problem, &desk.whole, &set, best)?;
    }
    let set = flips(alloc, problem, &desk.partial, &best.places, desk.flips_each)?;
    suggest(alloc, problem, &desk.whole, &set, best)
}
