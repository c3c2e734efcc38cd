ghost use Rattle.std.specs.Prelude.{◌≡◌, ◌≢◌, ℕ, ◌<◌, true, Some, List, length, slice_set};
ghost use Rattle.dali_problem.specs.declared.mark.Mark.{Mark};
ghost use Rattle.dali_problem.specs.declared.mark.Mark.TheVariants.{Stranger, Undecided};
ghost use Rattle.dali_problem.specs.Partial.{mark};
ghost use Rattle.dali_problem.specs.Kept.{IsOf};
ghost use Rattle.std.specs.List.{list_all};
ghost use Rattle.dali_tree.specs.Fits.{fix_fits};
ghost use Rattle.dali_fixes.specs.Fixed.{after};
ghost use Rattle.dali_search.specs.Nodes.{node_at, total_at, AreTotals, IsOpen};
ghost use Rattle.dali_search.specs.Descent.{side_mark, IsDown, IsTurned};
ghost use Rattle.dali_search.specs.Arena.{IsArena, SomeArena, HoldFrom};

use crate::node::{Node, NodeEnd, Total};
use dali_fixes::apply;
use dali_problem::{Partial, Problem};
use dali_tree::Fixes;

/// The open node of greatest bound, where one is above 0. The partial choice, in which all places are undecided, becomes
/// that to which the node's fixes lead.
pub(crate) fn descend(
    problem: &Problem,
    nodes: &[Node],
    totals: &[Total],
    partial: &mut Partial,
) -> u32
    requires of { IsOf problem.now partial.old }
    requires members { (j : ℕ) → j < length problem.now.items → mark partial.old.marks j ≢ Stranger }
    requires arena { SomeArena problem.now partial.old.marks nodes.now }
    requires totals { AreTotals nodes.now totals.now }
    requires above { 0 < (total_at totals.now 0).greatest }

    // the places there
    ensures of { IsOf problem.now partial.new }
    ensures members { (j : ℕ) → j < length problem.now.items → mark partial.new.marks j ≢ Stranger }

    // the node that is found
    ensures within { result < length nodes.now }
    ensures open { IsOpen (node_at nodes.now result).end }
    ensures greatest { (total_at totals.now result).greatest ≡ (total_at totals.now 0).greatest }

    // the way to it
    ensures leads { (u v : ℕ) (enter : ℕ → List Mark) → IsArena problem.now u v nodes.now enter → enter 0 ≡ partial.old.marks →
        after problem.now (node_at nodes.now result).fixes (enter result) ≡ Some partial.new.marks }
{
    let mut at = 0;
    take(problem, &nodes[0].fixes, partial);
    'walk: while let NodeEnd::Branched {
        place,
        inside,
        outside,
        ..
    } = &nodes[at as usize].end
    {
        at = turn(
            problem, nodes, totals, at, *place, *inside, *outside, partial,
        );
    }
    at
}

/// Goes from a branched node to its side of greater bound.
fn turn(
    problem: &Problem,
    nodes: &[Node],
    totals: &[Total],
    from: u32,
    place: u32,
    inside: u32,
    outside: u32,
    partial: &mut Partial,
) -> u32
    requires of { IsOf problem.now partial.old }
    requires down { IsDown problem.now partial.old.marks nodes.now totals.now from place inside outside }
    ensures of { IsOf problem.now partial.new }
    ensures later { from < result }
    ensures within { result < length nodes.now }
    ensures greatest { (total_at totals.now result).greatest ≡ (total_at totals.now from).greatest }
    ensures turned { IsTurned problem.now partial.old.marks partial.new.marks nodes.now place inside outside result }
{
    if totals[inside as usize].greatest >= totals[outside as usize].greatest {
        enter(problem, nodes, place, inside, true, partial);
        inside
    } else {
        enter(problem, nodes, place, outside, false, partial);
        outside
    }
}

/// Decides the place of a branch, and takes the fixes of the node on that side.
fn enter(
    problem: &Problem,
    nodes: &[Node],
    place: u32,
    at: u32,
    chosen: bool,
    partial: &mut Partial,
)
    requires of { IsOf problem.now partial.old }
    requires undecided { mark partial.old.marks place ≡ Undecided }
    requires at { at < length nodes.now }
    requires fits { list_all (fix_fits (length problem.now.items) (length problem.now.lines)) (node_at nodes.now at).fixes ≡ true }
    requires holds { HoldFrom problem.now (slice_set partial.old.marks place (side_mark chosen)) (node_at nodes.now at).fixes }
    ensures of { IsOf problem.now partial.new }
    ensures leads { after problem.now (node_at nodes.now at).fixes (slice_set partial.old.marks place (side_mark chosen)) ≡ Some partial.new.marks }
{
    partial.fix(problem, place, chosen);
    take(problem, &nodes[at as usize].fixes, partial);
}

/// Takes the fixes of a node, which hold.
fn take(problem: &Problem, fixes: &Fixes, partial: &mut Partial)
    requires of { IsOf problem.now partial.old }
    requires fits { list_all (fix_fits (length problem.now.items) (length problem.now.lines)) fixes.now ≡ true }
    requires hold { HoldFrom problem.now partial.old.marks fixes.now }
    ensures of { IsOf problem.now partial.new }
    ensures taken { after problem.now fixes.now partial.old.marks ≡ Some partial.new.marks }
{
    apply(problem, fixes.as_slice(), partial);
}
