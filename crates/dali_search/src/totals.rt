ghost use Rattle.std.specs.Prelude.{◌≡◌, ◌+◌, ◌<◌, ◌≤◌, ◌^◌, [], length, slice_set};
ghost use Rattle.dali_search.specs.Nodes.{node_at, total_at, total_of, IsLeaf, SidesWithin, AreLinked, AreTotals, AreTotalsBut};

use crate::node::{Node, NodeEnd, Total};

/// Makes the totals exact again after node `from` was branched: its own, and those of the nodes above it.
pub(crate) fn refresh(nodes: &[Node], totals: &mut [Total], from: u32)
    requires linked { AreLinked nodes.now }
    requires from { from < length nodes.now }
    requires but { AreTotalsBut nodes.now totals.old from }
    requires few { (total_at totals.old 0).branches < 2 ^ 32 }
    ensures totals { AreTotals nodes.now totals.new }
    ensures lower { (total_at totals.new 0).greatest ≤ (total_at totals.old 0).greatest }
    ensures more { (total_at totals.new 0).branches ≡ (total_at totals.old 0).branches + 1 }
{
    let mut at = from;
    'climb: while at > 0 {
        renew(nodes, totals, at);
        at = nodes[at as usize].above;
    }
    renew(nodes, totals, 0);
}

/// Makes the total of a node exact.
fn renew(nodes: &[Node], totals: &mut [Total], at: u32)
    requires size { length totals.old ≡ length nodes.now }
    requires at { at < length nodes.now }
    requires linked { AreLinked nodes.now }
    requires room { (total_of totals.old (node_at nodes.now at).end).branches < 2 ^ 64 }
    ensures { totals.new ≡ slice_set totals.old at (total_of totals.old (node_at nodes.now at).end) }
{
    let total = total_of(&nodes[at as usize].end, totals);
    totals[at as usize] = total;
}

/// The total of a node with this end.
fn total_of(end: &NodeEnd, totals: &[Total]) -> Total
    requires sides { SidesWithin (length totals.now) end.now }
    requires room { (total_of totals.now end.now).branches < 2 ^ 64 }
    ensures { result ≡ total_of totals.now end.now }
{
    match end {
        NodeEnd::Open { bound, .. } => Total {
            greatest: *bound,
            branches: 0,
        },
        NodeEnd::Pruned { .. } => Total {
            greatest: 0,
            branches: 0,
        },
        NodeEnd::Branched {
            inside,
            outside,
            ..
        } => {
            let inner = totals[*inside as usize];
            let outer = totals[*outside as usize];
            Total {
                greatest: inner.greatest.max(outer.greatest),
                branches: inner.branches + outer.branches + 1,
            }
        }
    }
}

/// The total of a node that isn't branched.
pub(crate) fn leaf_total(end: &NodeEnd) -> Total
    requires { IsLeaf end.now }
    ensures { result ≡ total_of [] end.now }
{
    match end {
        NodeEnd::Open { bound, .. } => Total {
            greatest: *bound,
            branches: 0,
        },
        NodeEnd::Pruned { .. } => Total {
            greatest: 0,
            branches: 0,
        },
        NodeEnd::Branched { .. } => unreachable!(),
    }
}
