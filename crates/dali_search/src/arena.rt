ghost use Rattle.std.specs.Prelude.{◌≡◌, ◌∷◌, ◌++◌, [], ◌<◌, ◌≤◌, ◌^◌, ◌+◌, length, IfOk, OnOk};
ghost use Rattle.dali_search.specs.Nodes.{node_at, total_at, total_of, IsLeaf, AreLinked, AreTotals, IsOpen};
ghost use Rattle.dali_search.specs.Adding.{added, CanAdd};

use crate::node::{Node, NodeEnd, Total};
use crate::split::Split;
use crate::totals::{leaf_total, refresh};
use dali_base::OutOfMemory;
use std::alloc::Global;

/// The nodes of a search, each behind the one above it, and the total of each.
#[derive(Drop)]
pub(crate) struct Arena {
    pub(crate) nodes: Vec<Node>,
    pub(crate) totals: Vec<Total>,
}

impl Arena {
    /// The arena of a root that isn't branched.
    pub(crate) fn new(alloc: Global, root: Node) -> Result<Arena, OutOfMemory>
        requires { IsLeaf root.end }
        ensures nodes { IfOk result (λ arena. arena.nodes.items ≡ root ∷ []) }
        ensures totals { IfOk result (λ arena. arena.totals.items ≡ total_of [] root.end ∷ []) }
    {
        let mut nodes = Vec::new(alloc);
        let mut totals = Vec::new(alloc);
        totals.push(leaf_total(&root.end))?;
        nodes.push(root)?;
        Ok(Arena { nodes, totals })
    }

    /// The greatest bound of an open node, or 0, in centavos.
    pub(crate) fn greatest(&self) -> u64
        requires { 0 < length self.now.totals.items }
        ensures { result ≡ (total_at self.now.totals.items 0).greatest }
    {
        self.totals[0].greatest
    }

    /// How many nodes are branched.
    pub(crate) fn branches(&self) -> u64
        requires { 0 < length self.now.totals.items }
        ensures { result ≡ (total_at self.now.totals.items 0).branches }
    {
        self.totals[0].branches
    }

    /// Branches an open node. After want of memory the arena is given up.
    pub(crate) fn add(&mut self, at: u32, split: Split) -> Result<(), OutOfMemory>
        requires linked { AreLinked self.old.nodes.items }
        requires totals { AreTotals self.old.nodes.items self.old.totals.items }
        requires few { length self.old.nodes.items < 2 ^ 31 }
        requires spent { (total_at self.old.totals.items 0).branches < 2 ^ 32 }
        requires at { at < length self.old.nodes.items }
        requires open { IsOpen (node_at self.old.nodes.items at).end }
        requires split { CanAdd self.old.totals.items at split }

        // the arena then
        ensures nodes { OnOk result (self.new.nodes.items ≡ added self.old.nodes.items at split) }
        ensures linked { OnOk result (AreLinked self.new.nodes.items) }
        ensures totals { OnOk result (AreTotals self.new.nodes.items self.new.totals.items) }

        // what becomes less, and what more
        ensures lower { OnOk result ((total_at self.new.totals.items 0).greatest ≤ (total_at self.old.totals.items 0).greatest) }
        ensures more { OnOk result ((total_at self.new.totals.items 0).branches ≡ (total_at self.old.totals.items 0).branches + 1) }
    {
        add_totals(&mut self.totals, &split)?;
        add_nodes(&mut self.nodes, at, split)?;
        refresh(self.nodes.as_slice(), self.totals.as_mut_slice(), at);
        Ok(())
    }
}

/// Adds the totals of both sides.
fn add_totals(totals: &mut Vec<Total>, split: &Split) -> Result<(), OutOfMemory>
    requires inside { IsLeaf split.now.inside.end }
    requires outside { IsLeaf split.now.outside.end }
    ensures { OnOk result (totals.new.items ≡ totals.old.items ++ total_of [] split.now.inside.end ∷ total_of [] split.now.outside.end ∷ []) }
{
    totals.push(leaf_total(&split.inside.end))?;
    totals.push(leaf_total(&split.outside.end))?;
    Ok(())
}

/// Adds both sides behind the other nodes, and branches the node.
fn add_nodes(nodes: &mut Vec<Node>, at: u32, split: Split) -> Result<(), OutOfMemory>
    requires few { length nodes.old.items < 2 ^ 31 }
    requires at { at < length nodes.old.items }
    ensures { OnOk result (nodes.new.items ≡ added nodes.old.items at split) }
{
    let first = nodes.len() as u32;
    let Split {
        place,
        lam,
        inside,
        outside,
    } = split;
    nodes[at as usize].end = NodeEnd::Branched {
        place,
        lam,
        inside: first,
        outside: first + 1,
    };
    nodes.push(inside)?;
    nodes.push(outside)?;
    Ok(())
}
