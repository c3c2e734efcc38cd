ghost use Rattle.std.specs.Prelude.{◌≡◌, ℕ, ◌-◌, ◌^◌, ◌<◌, pos, ◌*ℤ◌, length, IfOk, slice_index_or};
ghost use Rattle.std.specs.List.{All};
ghost use Rattle.dali_problem.specs.Clearing.{worth};
ghost use Rattle.dali_problem.specs.Kept.{IsOf, AllUndecided};
ghost use Rattle.dali_problem.specs.Limits.{Within};
ghost use Rattle.dali_lagrange.specs.Bound.{sum_of};
ghost use Rattle.dali_lagrange.specs.Limits.{scale};
ghost use Rattle.dali_lagrange.specs.Touched.{reduced_in};

use crate::limits::SCALE;
use crate::product::{add_counted, scaled};
use dali_base::OutOfMemory;
use dali_problem::{Mark, Partial, Problem};
use std::alloc::Global;

/// The marks of these members, all undecided.
pub(crate) fn members_of(
    alloc: Global,
    problem: &Problem,
    members: &[u32],
) -> Result<Vec<Mark>, OutOfMemory>
    requires { All (λ j. j < length problem.now.items) members.now }
    ensures size { IfOk result (λ marks. length marks.items ≡ length problem.now.items) }
    ensures undecided { IfOk result (λ marks. AllUndecided marks.items members.now) }
{
    let mut marks = vec![in alloc; Mark::Stranger; problem.items() as usize]?;
    for place in members {
        marks[*place as usize] = Mark::Undecided;
    }
    Ok(marks)
}

/// The marks of a partial choice.
pub(crate) fn marks_of(
    alloc: Global,
    problem: &Problem,
    partial: &Partial,
) -> Result<Vec<Mark>, OutOfMemory>
    requires { IsOf problem.now partial.now }
    ensures { IfOk result (λ marks. marks.items ≡ partial.now.marks) }
{
    let mut marks = Vec::with_capacity(alloc, problem.items() as usize)?;
    for place in 0..problem.items() {
        marks.push(partial.mark(place))?;
    }
    Ok(marks)
}

/// Each place's value on the scale.
pub(crate) fn values(alloc: Global, problem: &Problem) -> Result<Vec<i128>, OutOfMemory>
    ensures size { IfOk result (λ values. length values.items ≡ length problem.now.items) }
    ensures exact { IfOk result (λ values. (j : ℕ) → j < length problem.now.items → reduced_in values.items j ≡ pos scale *ℤ pos (worth problem.now j)) }
    ensures bounded { IfOk result (λ values. All (Within (2 ^ 103)) values.items) }
{
    let mut values = Vec::with_capacity(alloc, problem.items() as usize)?;
    for place in 0..problem.items() {
        values.push(scaled(SCALE, problem.value(place)))?;
    }
    Ok(values)
}

/// The Sum of these marks with all multipliers 0.
pub(crate) fn zero_sum(problem: &Problem, marks: &[Mark]) -> i128
    requires { length marks.now ≡ length problem.now.items }
    ensures exact { result ≡ sum_of problem.now marks.now (λ _. 0) }
    ensures bounded { Within (2 ^ 117 - 1) result }
{
    let mut total = 0;
    add_values(&mut total, problem, marks);
    total
}

/// Adds what each place with its mark counts where all multipliers are 0.
fn add_values(total: &mut i128, problem: &Problem, marks: &[Mark])
    requires marks { length marks.now ≡ length problem.now.items }
    requires total { total.old ≡ pos 0 }
    ensures exact { total.new ≡ sum_of problem.now marks.now (λ _. 0) }
    ensures bounded { Within (2 ^ 116) total.new }
{
    for place in 0..problem.items() {
        let value = scaled(SCALE, problem.value(place));
        add_counted(total, marks[place as usize], &value);
    }
}
