ghost use Rattle.std.specs.Prelude.{◌≡◌, ℕ, ◌<◌, ◌≤◌, length, slice_set, if◌then◌else◌, IfOk, OnOk};
ghost use Rattle.dali_problem.specs.declared.mark.Mark.TheVariants.{Undecided, Chosen, Left};
ghost use Rattle.dali_problem.specs.Partial.{mark};
ghost use Rattle.dali_lagrange.specs.Multipliers.{AreMultipliers};
ghost use Rattle.dali_reduce.specs.Reduced.{IsDone};
ghost use Rattle.dali_search.specs.Best.{IsBest};
ghost use Rattle.dali_search.specs.Sides.{IsDesk, LeafHolds, IsLeafAt, IsBelow};
ghost use Rattle.dali_search.specs.Nodes.{leaf_bound};

use crate::best::Best;
use crate::bound::{bound, first_short};
use crate::desk::Desk;
use crate::guess::guess;
use crate::multipliers::settle_well;
use crate::node::{Node, NodeEnd};
use crate::offer::offer;
use dali_base::OutOfMemory;
use dali_fixes::undo;
use dali_problem::Problem;
use dali_reduce::reduce;
use dali_tree::Lam;
use std::alloc::Global;

/// The side of a branch on which its place is chosen, or left.
pub(crate) fn side(
    alloc: Global,
    problem: &Problem,
    above: u32,
    place: u32,
    chosen: bool,
    start: &Lam,
    desk: &mut Desk,
    best: &mut Best,
) -> Result<Node, OutOfMemory>
    requires desk { IsDesk problem.now desk.old }
    requires undecided { mark desk.old.partial.marks place ≡ Undecided }
    requires start { AreMultipliers (length problem.now.lines) start.now }
    requires best { IsBest problem.now best.old }

    // the desk, and the best set
    ensures desk { OnOk result (IsDesk problem.now desk.new) }
    ensures marks { OnOk result (desk.new.partial.marks ≡ desk.old.partial.marks) }
    ensures best { IsBest problem.now best.new }
    ensures not_worse { best.old.value ≤ best.new.value }

    // the node that is made
    ensures above { IfOk result (λ node. node.above ≡ above) }
    ensures leaf { IfOk result (λ node. IsLeafAt problem.now best.new.value (slice_set desk.old.partial.marks place (if chosen then Chosen else Left)) node) }
    ensures below { IfOk result (λ node. IsBelow problem.now start.now desk.old.partial.marks (leaf_bound node.end)) }
{
    desk.partial.fix(problem, place, chosen);
    let node = leaf(alloc, problem, above, start, desk, best)?;
    desk.partial.free(problem, place);
    Ok(node)
}

/// The node of this partial choice, which is put back.
pub(crate) fn leaf(
    alloc: Global,
    problem: &Problem,
    above: u32,
    start: &Lam,
    desk: &mut Desk,
    best: &mut Best,
) -> Result<Node, OutOfMemory>
    requires desk { IsDesk problem.now desk.old }
    requires start { AreMultipliers (length problem.now.lines) start.now }
    requires best { IsBest problem.now best.old }

    // the desk, and the best set
    ensures desk { OnOk result (IsDesk problem.now desk.new) }
    ensures marks { OnOk result (desk.new.partial.marks ≡ desk.old.partial.marks) }
    ensures best { IsBest problem.now best.new }
    ensures not_worse { best.old.value ≤ best.new.value }

    // the node that is made
    ensures above { IfOk result (λ node. node.above ≡ above) }
    ensures leaf { IfOk result (λ node. IsLeafAt problem.now best.new.value desk.old.partial.marks node) }
    ensures below { IfOk result (λ node. IsBelow problem.now start.now desk.old.partial.marks (leaf_bound node.end)) }
{
    let fixes = reduce(alloc, problem, &mut desk.partial)?;
    let end = finish(alloc, problem, start, desk, best)?;
    undo(problem, fixes.as_slice(), &mut desk.partial);
    Ok(Node { above, fixes, end })
}

/// How a node ends whose fixes were taken.
fn finish(
    alloc: Global,
    problem: &Problem,
    start: &Lam,
    desk: &mut Desk,
    best: &mut Best,
) -> Result<NodeEnd, OutOfMemory>
    requires desk { IsDesk problem.now desk.old }
    requires done { IsDone problem.now desk.old.partial.marks }
    requires start { AreMultipliers (length problem.now.lines) start.now }
    requires best { IsBest problem.now best.old }

    // the desk, and the best set
    ensures desk { OnOk result (IsDesk problem.now desk.new) }
    ensures partial { OnOk result (desk.new.partial ≡ desk.old.partial) }
    ensures best { IsBest problem.now best.new }
    ensures not_worse { best.old.value ≤ best.new.value }

    // the end that is made
    ensures holds { IfOk result (λ end. LeafHolds problem.now best.new.value desk.old.partial.marks end) }
    ensures below { IfOk result (λ end. IsBelow problem.now start.now desk.old.partial.marks (leaf_bound end)) }
{
    if let Some(line) = first_short(problem, &desk.partial) {
        return Ok(NodeEnd::Pruned { line });
    }
    let lam = settle_well(
        alloc,
        problem,
        &desk.partial,
        start,
        desk.is_root,
        best.value,
        &mut desk.point,
    )?;
    let bound = bound(problem, &desk.partial, &lam, &mut desk.point);
    guess(alloc, problem, desk, &lam, bound, best)?;
    offer(alloc, problem, &desk.partial, &desk.whole, best)?;
    Ok(NodeEnd::Open { lam, bound })
}
