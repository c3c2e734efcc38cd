ghost use Rattle.std.specs.Prelude.{◌≡◌, ◌≤◌, [], IfOk, OnOk};
ghost use Rattle.dali_problem.specs.Feasible.{ArePlaces, IsFeasible, value_of};
ghost use Rattle.dali_problem.specs.Kept.{IsOf};
ghost use Rattle.dali_greedy.specs.Grown.{IsGrown};
ghost use Rattle.dali_search.specs.Best.{IsBest, IsOffered};
ghost use Rattle.dali_search.specs.Start.{start_of};

use crate::best::Best;
use dali_base::{OutOfMemory, Places, Seq};
use dali_greedy::grow;
use dali_problem::{Partial, Problem};
use std::alloc::Global;

/// The set that is grown from nothing with all places undecided.
pub(crate) fn first_best(
    alloc: Global,
    problem: &Problem,
    whole: &Partial,
) -> Result<Best, OutOfMemory>
    requires whole { IsOf problem.now whole.now }
    requires undecided { whole.now.marks ≡ start_of problem.now }
    ensures { IfOk result (λ best. IsBest problem.now best) }
{
    match grow(alloc, problem, whole, &Seq::new(alloc))? {
        Some(places) => Ok(Best {
            value: problem.value_of(&places),
            places,
        }),
        None => unreachable!(),
    }
}

/// Grows a set from a partial choice. Where it is worth more than the best one, it is grown again with all places
/// undecided, and is the best.
pub(crate) fn offer(
    alloc: Global,
    problem: &Problem,
    partial: &Partial,
    whole: &Partial,
    best: &mut Best,
) -> Result<(), OutOfMemory>
    requires of { IsOf problem.now partial.now }
    requires whole { IsOf problem.now whole.now }
    requires undecided { whole.now.marks ≡ start_of problem.now }
    requires best { IsBest problem.now best.old }
    ensures best { IsBest problem.now best.new }
    ensures not_worse { best.old.value ≤ best.new.value }
    ensures offered { OnOk result (IsOffered problem.now partial.now.marks best.new.value) }
{
    match grow(alloc, problem, partial, &Seq::new(alloc))? {
        Some(set) => {
            keep(alloc, problem, whole, &set, best)?;
            Ok(())
        }
        None => Ok(()),
    }
}

/// Keeps a feasible set, grown again with all places undecided, where it is worth more than the best one.
fn keep(
    alloc: Global,
    problem: &Problem,
    whole: &Partial,
    set: &Places,
    best: &mut Best,
) -> Result<(), OutOfMemory>
    requires whole { IsOf problem.now whole.now }
    requires undecided { whole.now.marks ≡ start_of problem.now }
    requires places { ArePlaces problem.now set.now }
    requires feasible { IsFeasible problem.now set.now }
    requires best { IsBest problem.now best.old }

    // the best set then
    ensures best { IsBest problem.now best.new }
    ensures not_worse { best.old.value ≤ best.new.value }
    ensures kept { OnOk result (value_of problem.now set.now ≤ best.new.value) }
{
    if problem.value_of(set) <= best.value {
        return Ok(());
    }
    match grow(alloc, problem, whole, set)? {
        Some(places) => {
            best.value = problem.value_of(&places);
            best.places = places;
            Ok(())
        }
        None => unreachable!(),
    }
}

/// Grows any set with all places undecided, and keeps what comes of it where that is worth more than the best one.
pub(crate) fn suggest(
    alloc: Global,
    problem: &Problem,
    whole: &Partial,
    set: &Places,
    best: &mut Best,
) -> Result<(), OutOfMemory>
    requires whole { IsOf problem.now whole.now }
    requires undecided { whole.now.marks ≡ start_of problem.now }
    requires places { ArePlaces problem.now set.now }
    requires best { IsBest problem.now best.old }
    ensures best { IsBest problem.now best.new }
    ensures not_worse { best.old.value ≤ best.new.value }
{
    if let Some(places) = grow(alloc, problem, whole, set)? {
        replace(problem, places, best);
    }
    Ok(())
}

/// Keeps a grown set where it is worth more than the best one.
fn replace(problem: &Problem, places: Places, best: &mut Best)
    requires grown { IsGrown problem.now (start_of problem.now) places }
    requires best { IsBest problem.now best.old }
    ensures best { IsBest problem.now best.new }
    ensures not_worse { best.old.value ≤ best.new.value }
{
    let value = problem.value_of(&places);
    if value > best.value {
        *best = Best { places, value };
    }
}
