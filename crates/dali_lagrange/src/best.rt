ghost use Rattle.std.specs.Prelude.{◌≡◌, ◌+◌, ◌^◌, ◌<◌, ◌↔◌, ◌≤ℤ◌, length, IsTrue};
ghost use Rattle.dali_base.specs.Limits.{most_multiplier};
ghost use Rattle.dali_problem.specs.Kept.{IsOf};
ghost use Rattle.dali_lagrange.specs.Best.{sum_with, IsBestAt};

use crate::point::Point;
use crate::probe::Probe;
use crate::total::sum_at;
use dali_base::limits::MOST_MULTIPLIER;
use dali_problem::{Partial, Problem};

/// The least of the multipliers from 0 to 2^44 that give the smallest Sum, with those of the other lines kept, as
/// `specs/Best.antt` defines it.
pub fn best_at(problem: &Problem, partial: &Partial, point: &Point, line: u32) -> u64
    requires partial { IsOf problem.now partial.now }
    requires point { length point.now ≡ length problem.now.lines }
    requires line { line < length problem.now.lines }
    ensures { IsBestAt problem.now partial.now.marks point.now line result }
{
    let mut low = 0;
    let mut high = MOST_MULTIPLIER;
    'search: while low < high {
        let middle = low + (high - low) / 2;
        if is_rising(problem, partial, point, line, middle) {
            high = middle;
        } else {
            low = middle + 1;
        }
    }
    low
}

/// Whether one more on this line doesn't make the Sum smaller.
fn is_rising(problem: &Problem, partial: &Partial, point: &Point, line: u32, at: u64) -> bool
    requires partial { IsOf problem.now partial.now }
    requires point { length point.now ≡ length problem.now.lines }
    requires at { at < most_multiplier }
    ensures { IsTrue result
        ↔ (sum_with problem.now partial.now.marks point.now line at
        ≤ℤ sum_with problem.now partial.now.marks point.now line (at + 1)) }
{
    let here = sum_at(problem, partial, &Probe::with(point, line, at));
    let next = sum_at(problem, partial, &Probe::with(point, line, at + 1));
    is_at_most(&here, &next)
}

#[tactic(auto, using(std::proofs::lemmas::Int::ints))]
pub(crate) fn is_at_most(sum: &i128, other: &i128) -> bool
    ensures { IsTrue result ↔ (sum.now ≤ℤ other.now) }
{
    *sum <= *other
}
