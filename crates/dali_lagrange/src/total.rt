ghost use Rattle.std.specs.Prelude.{◌≡◌, ◌-◌, ◌*◌, ◌^◌, ◌<◌, ◌≤◌, ℤ, pos, ◌+ℤ◌, ◌*ℤ◌, length, slice_index};
ghost use Rattle.std.specs.Int.{int_max};
ghost use Rattle.std.specs.Prelude.{List, ℕ, ◌≤ℤ◌};
ghost use Rattle.dali_problem.specs.Feasible.{ArePlaces, IsFeasible, value_of};
ghost use Rattle.dali_problem.specs.Sums.{sum_below, sum_over, pick};
ghost use Rattle.dali_problem.specs.Clearing.{balance, item_at};
ghost use Rattle.dali_problem.specs.Limits.{Within, AreEffects, IsProblem};
ghost use Rattle.dali_problem.specs.Partial.{mark, Agrees};
ghost use Rattle.dali_problem.specs.Kept.{IsOf};
ghost use Rattle.dali_lagrange.specs.Bound.{reduced, sum_of, bound_of, count_of, ArePartsSmall};
ghost use Rattle.dali_lagrange.specs.Limits.{scale};

use crate::limits::SCALE;
use crate::point::Point;
use crate::probe::Probe;
use crate::product::{add_counted, add_scaled, add_weighted, scaled};
use dali_problem::{Effect, Partial, Problem};

/// The Sum of a partial choice at a point, as `specs/Bound.antt` defines it: 4,096 times an upper bound on what any
/// feasible set that agrees is worth. It is below 2^117 in size.
pub fn sum(problem: &Problem, partial: &Partial, point: &Point) -> i128
    requires partial { IsOf problem.now partial.now }
    requires point { length point.now ≡ length problem.now.lines }
    ensures exact { result ≡ sum_of problem.now partial.now.marks (slice_index point.now) }
    ensures bounded { Within (2 ^ 117 - 1) result }
    ensures parts { ArePartsSmall problem.now partial.now.marks (slice_index point.now) }
    ensures bound { (t : List ℕ) → ArePlaces problem.now t → IsFeasible problem.now t → Agrees partial.now.marks t → pos (scale * value_of problem.now t) ≤ℤ result }
    ensures floor { (t : List ℕ) → ArePlaces problem.now t → IsFeasible problem.now t → Agrees partial.now.marks t → pos (value_of problem.now t) ≤ℤ bound_of result }
{
    sum_at(problem, partial, &Probe::of(point))
}

/// The Sum of a partial choice at a point that may be changed.
pub(crate) fn sum_at(problem: &Problem, partial: &Partial, point: &Probe) -> i128
    requires partial { IsOf problem.now partial.now }
    requires point { length point.now ≡ length problem.now.lines }
    ensures exact { result ≡ sum_of problem.now partial.now.marks (slice_index point.now) }
    ensures bounded { Within (2 ^ 117 - 1) result }
    ensures limits { IsProblem problem.now }
{
    let mut total = 0;
    add_lines(problem, point, &mut total);
    add_places(problem, partial, point, &mut total);
    total
}

/// Adds each line's multiplier times its balance.
fn add_lines(problem: &Problem, point: &Probe, total: &mut i128)
    requires point { length point.now ≡ length problem.now.lines }
    requires start { total.old ≡ pos 0 }
    ensures exact { total.new ≡ sum_below (λ l. pos (slice_index point.now l) *ℤ balance problem.now l) (length problem.now.lines) }
    ensures bounded { Within (2 ^ 116) total.new }
    ensures limits { IsProblem problem.now }
{
    for line in 0..problem.lines() {
        add_scaled(total, point.get(line), problem.line(line).balance);
    }
}

/// Adds what each place counts.
fn add_places(problem: &Problem, partial: &Partial, point: &Probe, total: &mut i128)
    requires partial { IsOf problem.now partial.now }
    requires point { length point.now ≡ length problem.now.lines }
    requires room { Within (2 ^ 116) total.old }
    ensures exact { total.new
        ≡ total.old
        +ℤ sum_below (λ j. count_of (mark partial.now.marks j) (reduced problem.now (slice_index point.now) j)) (length problem.now.items) }
    ensures bounded { Within (2 ^ 117 - 1) total.new }
{
    for place in 0..problem.items() {
        let worth = reduced_at(problem, point, place);
        add_counted(total, partial.mark(place), &worth);
    }
}

/// The value of a place on the scale, with what its effects are worth at the point.
fn reduced_at(problem: &Problem, point: &Probe, place: u32) -> i128
    requires place { place < length problem.now.items }
    requires point { length point.now ≡ length problem.now.lines }
    ensures exact { result ≡ reduced problem.now (slice_index point.now) place }
    ensures bounded { Within (2 ^ 103) result }
{
    let mut worth = scaled(SCALE, problem.value(place));
    add_effects(problem.effects(place), point, &mut worth);
    worth
}

/// Adds what each effect is worth at the point.
fn add_effects(effects: &[Effect], point: &Probe, total: &mut i128)
    requires effects { AreEffects (length point.now) effects.now }
    requires room { Within (2 ^ 102) total.old }
    ensures exact { total.new ≡ total.old +ℤ sum_over (λ e. pos (slice_index point.now e.line) *ℤ e.amount) effects.now }
    ensures bounded { Within (2 ^ 103) total.new }
{
    for effect in effects {
        add_weighted(total, point.get(effect.line), effect);
    }
}
