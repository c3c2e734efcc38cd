ghost use Rattle.std.specs.Prelude.{◌≡◌, ◌+◌, ◌^◌, ◌<◌, ◌≤◌, ◌∷◌, [], true, max, length, IfOk, OnOk};
ghost use Rattle.dali_base.specs.Limits.{most_budget};
ghost use Rattle.dali_problem.specs.Feasible.{value_of};
ghost use Rattle.dali_tree.specs.Fits.{Fits};
ghost use Rattle.dali_check.specs.Allowed.{Allowed};
ghost use Rattle.dali_check.specs.Lean.{is_open};
ghost use Rattle.dali_check.specs.Parts.{bound_of};
ghost use Rattle.dali_search.specs.Best.{IsBest};
ghost use Rattle.dali_search.specs.Nodes.{node_at, total_at};
ghost use Rattle.dali_search.specs.Searched.{IsSearched};
ghost use Rattle.dali_search.specs.Sides.{IsDesk, IsSplitAt, IsOpenEnd, lam_of};
ghost use Rattle.dali_search.specs.Start.{all_places, start_of};
ghost use Rattle.dali_search.specs.Whole.{IsWhole};

use crate::arena::Arena;
use crate::best::Best;
use crate::branch::branch;
use crate::build::tree_of;
use crate::descend::descend;
use crate::desk::Desk;
use crate::guess::flips_behind;
use crate::leaf::leaf;
use crate::node::{Node, NodeEnd};
use crate::offer::first_best;
use crate::places::{all_places, new_desk, reset};
use crate::split::Split;
use dali_base::{OutOfMemory, Places, Seq};
use dali_problem::Problem;
use dali_tree::{Choice, Part, Parts};
use std::alloc::Global;

/// A choice that fits the problem and is allowed for it and this budget of branchings, at most 4,096, by `Fits` of
/// `dali_tree` and `Allowed` of `dali_check`. Its one part has all places as members; an empty problem has the choice
/// without parts. Answers only want of memory but Ok.
///
/// Where the budget is at least 2^m - 1, for m items, no set is worth more than the choice's.
pub fn solve(alloc: Global, problem: &Problem, budget: u64) -> Result<Choice, OutOfMemory>
    requires { budget ≤ most_budget }
    ensures fits { IfOk result (λ choice. Fits (length problem.now.items) (length problem.now.lines) choice) }
    ensures allowed { IfOk result (λ choice. Allowed problem.now budget choice) }
    ensures whole { IfOk result (λ choice. IsWhole (length problem.now.items) choice) }
    ensures best { IfOk result (λ choice. 2 ^ length problem.now.items ≤ budget + 1 → value_of problem.now choice.places ≡ bound_of choice.parts) }
{
    if problem.items() == 0 {
        return Ok(Choice {
            places: Seq::new(alloc),
            parts: Seq::new(alloc),
        });
    }
    let members = all_places(alloc, problem)?;
    let mut desk = new_desk(alloc, problem, &members)?;
    let mut best = first_best(alloc, problem, &desk.whole)?;
    let mut arena = root(alloc, problem, &mut desk, &mut best)?;
    'search: while arena.branches() < budget && arena.greatest() > best.value {
        step(alloc, problem, &mut arena, &mut desk, &mut best)?;
    }
    let choice = conclude(alloc, problem, budget, members, &arena, best)?;
    Ok(choice)
}

/// The arena of the root.
fn root(
    alloc: Global,
    problem: &Problem,
    desk: &mut Desk,
    best: &mut Best,
) -> Result<Arena, OutOfMemory>
    requires desk { IsDesk problem.now desk.old }
    requires start { desk.old.partial.marks ≡ start_of problem.now }
    requires best { IsBest problem.now best.old }

    // the desk, and the best set
    ensures desk { OnOk result (IsDesk problem.now desk.new) }
    ensures start { OnOk result (desk.new.partial.marks ≡ start_of problem.now) }
    ensures best { IsBest problem.now best.new }

    // the arena that is made
    ensures searched { IfOk result (λ arena. IsSearched problem.now best.new.value arena.nodes.items arena.totals.items) }
    ensures none { IfOk result (λ arena. (total_at arena.totals.items 0).branches ≡ 0) }
{
    let node = leaf(alloc, problem, 0, &Seq::new(alloc), desk, best)?;
    let arena = Arena::new(alloc, node)?;
    Ok(arena)
}

/// Branches the open node of greatest bound.
fn step(
    alloc: Global,
    problem: &Problem,
    arena: &mut Arena,
    desk: &mut Desk,
    best: &mut Best,
) -> Result<(), OutOfMemory>
    requires desk { IsDesk problem.now desk.old }
    requires start { desk.old.partial.marks ≡ start_of problem.now }
    requires best { IsBest problem.now best.old }
    requires searched { IsSearched problem.now best.old.value arena.old.nodes.items arena.old.totals.items }
    requires above { best.old.value < (total_at arena.old.totals.items 0).greatest }
    requires few { (total_at arena.old.totals.items 0).branches < most_budget }

    // the desk, and the best set
    ensures desk { OnOk result (IsDesk problem.now desk.new) }
    ensures start { OnOk result (desk.new.partial.marks ≡ start_of problem.now) }
    ensures best { IsBest problem.now best.new }

    // the arena then
    ensures searched { OnOk result (IsSearched problem.now best.new.value arena.new.nodes.items arena.new.totals.items) }
    ensures more { OnOk result ((total_at arena.new.totals.items 0).branches ≡ (total_at arena.old.totals.items 0).branches + 1) }
{
    let _items = problem.items();
    desk.flips_each = flips_behind(arena.branches());
    desk.is_root = false;
    let nodes = arena.nodes.as_slice();
    let totals = arena.totals.as_slice();
    let at = descend(problem, nodes, totals, &mut desk.partial);
    let split = branch_at(alloc, problem, at, nodes, desk, best)?;
    reset(problem, &mut desk.partial);
    arena.add(at, split)?;
    Ok(())
}

/// Branches an open node, whose partial choice is on the desk and is put back.
fn branch_at(
    alloc: Global,
    problem: &Problem,
    at: u32,
    nodes: &[Node],
    desk: &mut Desk,
    best: &mut Best,
) -> Result<Split, OutOfMemory>
    requires desk { IsDesk problem.now desk.old }
    requires at { at < length nodes.now }
    requires open { IsOpenEnd problem.now (node_at nodes.now at).end }
    requires some { is_open problem.now desk.old.partial.marks ≡ true }
    requires best { IsBest problem.now best.old }

    // the desk, and the best set
    ensures desk { OnOk result (IsDesk problem.now desk.new) }
    ensures marks { OnOk result (desk.new.partial.marks ≡ desk.old.partial.marks) }
    ensures best { IsBest problem.now best.new }
    ensures not_worse { best.old.value ≤ best.new.value }

    // the branch that is made
    ensures split { IfOk result (λ split. IsSplitAt problem.now best.new.value at desk.old.partial.marks (lam_of (node_at nodes.now at).end) split) }
{
    match &nodes[at as usize].end {
        NodeEnd::Open { lam, .. } => branch(alloc, problem, at, lam, desk, best),
        _ => unreachable!(),
    }
}

/// The choice of a search that has ended.
fn conclude(
    alloc: Global,
    problem: &Problem,
    budget: u64,
    members: Places,
    arena: &Arena,
    best: Best,
) -> Result<Choice, OutOfMemory>
    requires some { 0 < length problem.now.items }
    requires members { members ≡ all_places (length problem.now.items) }
    requires best { IsBest problem.now best }
    requires searched { IsSearched problem.now best.value arena.now.nodes.items arena.now.totals.items }
    requires within { (total_at arena.now.totals.items 0).branches ≤ budget }
    requires ended { (total_at arena.now.totals.items 0).branches < budget → (total_at arena.now.totals.items 0).greatest ≤ best.value }

    // the choice that is answered
    ensures fits { IfOk result (λ choice. Fits (length problem.now.items) (length problem.now.lines) choice) }
    ensures allowed { IfOk result (λ choice. Allowed problem.now budget choice) }
    ensures whole { IfOk result (λ choice. IsWhole (length problem.now.items) choice) }
    ensures least { IfOk result (λ choice. value_of problem.now choice.places ≤ bound_of choice.parts) }
{
    let _items = problem.items();
    let bound = tree_bound(arena, best.value);
    let tree = tree_of(alloc, arena.nodes.as_slice(), 0)?;
    let parts = one_part(
        alloc,
        Part {
            members,
            bound,
            tree,
        },
    )?;
    Ok(Choice {
        places: best.places,
        parts,
    })
}

/// The bound of the tree, where the best set is worth so much, in centavos.
fn tree_bound(arena: &Arena, value: u64) -> u64
    requires { 0 < length arena.now.totals.items }
    ensures { result ≡ max value (total_at arena.now.totals.items 0).greatest }
{
    value.max(arena.greatest())
}

/// A list of one part.
fn one_part(alloc: Global, part: Part) -> Result<Parts, OutOfMemory>
    ensures { IfOk result (λ parts. parts ≡ part ∷ []) }
{
    let mut parts = Seq::new(alloc);
    parts.push(part)?;
    Ok(parts)
}
