ghost use Rattle.std.specs.Prelude.{◌≡◌, ◌+◌, ◌^◌, ◌<◌, ◌≤◌, ℕ, false, length, map, slice_index_or, IfOk};
ghost use Rattle.std.specs.List.{All, Contains};
ghost use Rattle.dali_base.specs.Limits.{most_budget, most_items};
ghost use Rattle.dali_problem.specs.Feasible.{value_of};
ghost use Rattle.dali_tree.specs.Fits.{Fits};
ghost use Rattle.dali_tree.specs.Tree.{branch_count};
ghost use Rattle.dali_tree.specs.declared.choice.Part.{Part};
ghost use Rattle.dali_check.specs.Allowed.{Allowed};
ghost use Rattle.dali_check.specs.Parts.{bound_of};
ghost use Rattle.dali_restrict.specs.Below.{places_below};
ghost use Rattle.dali_parts.specs.Finest.{IsClass, AreFinest};
ghost use Rattle.dali_parts.specs.Joined.{IsSearched, AreSearched, AreFree, AreChosen};

use crate::classes::finest;
use dali_base::{OutOfMemory, Places, Seq};
use dali_problem::Problem;
use dali_restrict::{restrict, widen};
use dali_search::solve;
use dali_tree::{Choice, Part, branchings};
use std::alloc::Global;

/// A choice that fits the problem and is allowed for it and this budget of branchings, at most 4,096, by `Fits` of
/// `dali_tree` and `Allowed` of `dali_check`. Its parts' members are the finest parts, as `specs/Finest.antt` defines them. Each
/// part is searched over its restriction, in order, with what the parts before left of the budget. Answers only want of
/// memory but Ok.
///
/// Where the budget is at least 2^m - 1, for m items, no set is worth more than the choice's.
pub fn solve_parts(alloc: Global, problem: &Problem, budget: u64) -> Result<Choice, OutOfMemory>
    requires { budget ≤ most_budget }
    ensures fits { IfOk result (λ choice. Fits (length problem.now.items) (length problem.now.lines) choice) }
    ensures allowed { IfOk result (λ choice. Allowed problem.now budget choice) }
    ensures finest { IfOk result (λ choice. AreFinest problem.now (map (λ (part : Part). part.members) choice.parts)) }
    ensures best { IfOk result (λ choice. 2 ^ length problem.now.items ≤ budget + 1 → value_of problem.now choice.places ≡ bound_of choice.parts) }
{
    let lists = finest(alloc, problem)?;
    let mut chosen = vec![in alloc; false; problem.items() as usize]?;
    let choice = joined(
        alloc,
        problem,
        budget,
        lists.as_slice(),
        chosen.as_mut_slice(),
    )?;
    Ok(choice)
}

/// The choice of the finest parts, each searched.
fn joined(
    alloc: Global,
    problem: &Problem,
    budget: u64,
    lists: &[Places],
    chosen: &mut [bool],
) -> Result<Choice, OutOfMemory>
    requires budget { budget ≤ most_budget }
    requires finest { AreFinest problem.now lists.now }
    requires size { length chosen.old ≡ length problem.now.items }
    requires free { AreFree lists.now 0 chosen.old }

    // the choice that is answered
    ensures fits { IfOk result (λ choice. Fits (length problem.now.items) (length problem.now.lines) choice) }
    ensures allowed { IfOk result (λ choice. Allowed problem.now budget choice) }
    ensures finest { IfOk result (λ choice. AreFinest problem.now (map (λ (part : Part). part.members) choice.parts)) }
    ensures best { IfOk result (λ choice. 2 ^ length problem.now.items ≤ budget + 1 → value_of problem.now choice.places ≡ bound_of choice.parts) }
{
    let _items = problem.items();
    let parts = search_all(alloc, problem, budget, lists, chosen)?;
    let places = marked(alloc, chosen)?;
    Ok(Choice {
        places,
        parts: Seq::from_vec(parts),
    })
}

/// Searches each of the finest parts, and marks the places of their sets.
fn search_all(
    alloc: Global,
    problem: &Problem,
    budget: u64,
    lists: &[Places],
    chosen: &mut [bool],
) -> Result<Vec<Part>, OutOfMemory>
    requires budget { budget ≤ most_budget }
    requires finest { AreFinest problem.now lists.now }
    requires size { length chosen.old ≡ length problem.now.items }
    requires free { AreFree lists.now 0 chosen.old }
    ensures searched { IfOk result (λ parts. AreSearched problem.now budget lists.now chosen.new parts.items) }
    ensures size { length chosen.new ≡ length chosen.old }
{
    let mut left = budget;
    let mut parts = Vec::with_capacity(alloc, lists.len())?;
    for at in 0..lists.len() {
        let part = search_one(alloc, problem, left, &lists[at], chosen)?;
        let spent = branchings(&part.tree);
        left -= spent;
        parts.push(part)?;
    }
    Ok(parts)
}

/// Searches a part over its restriction with this budget, and marks the places of its set.
fn search_one(
    alloc: Global,
    problem: &Problem,
    budget: u64,
    members: &Places,
    chosen: &mut [bool],
) -> Result<Part, OutOfMemory>
    requires budget { budget ≤ most_budget }
    requires members { IsClass problem.now members.now }
    requires size { length chosen.old ≡ length problem.now.items }
    requires free { (j : ℕ) → Contains members.now j → slice_index_or chosen.old j false ≡ false }

    // the part that is answered
    ensures searched { IfOk result (λ part. IsSearched problem.now budget members.now chosen.new part) }

    // what is chosen then
    ensures others { (j : ℕ) → ¬ (Contains members.now j) → slice_index_or chosen.new j false ≡ slice_index_or chosen.old j false }
    ensures size { length chosen.new ≡ length chosen.old }
    ensures within { IfOk result (λ part. branch_count part.tree ≤ budget) }
{
    let _items = problem.items();
    let inner = restrict(alloc, problem, members)?;
    let found = solve(alloc, &inner.problem, budget)?;
    let parts = found.parts.as_slice();
    let part = widen(alloc, problem, &inner, &parts[0])?;
    let places = found.places.as_slice();
    choose(members.as_slice(), places, chosen);
    Ok(part)
}

/// Marks the places behind these numbers.
fn choose(members: &[u32], numbers: &[u32], chosen: &mut [bool])
    requires numbers { All (λ i. i < length members.now) numbers.now }
    requires members { All (λ j. j < length chosen.old) members.now }
    ensures chosen { AreChosen members.now numbers.now chosen.old chosen.new }
    ensures size { length chosen.new ≡ length chosen.old }
{
    for number in numbers {
        chosen[members[*number as usize] as usize] = true;
    }
}

/// The places that are marked, rising.
fn marked(alloc: Global, marks: &[bool]) -> Result<Places, OutOfMemory>
    requires { length marks.now ≤ most_items }
    ensures { IfOk result (λ places. places ≡ places_below (λ j. slice_index_or marks.now j false) (length marks.now)) }
{
    let mut places = Seq::new(alloc);
    for at in 0..marks.len() as u32 {
        if marks[at as usize] {
            places.push(at)?;
        }
    }
    Ok(places)
}
