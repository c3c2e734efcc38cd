ghost use Rattle.std.specs.Prelude.{◌<◌, length, IfOk};
ghost use Rattle.dali_search.specs.Nodes.{AreLinked};
ghost use Rattle.dali_search.specs.Stands.{IsTreeOf};

use crate::node::{Node, NodeEnd};
use dali_base::OutOfMemory;
use dali_tree::{End, Tree};
use sqlite_items::Boxed;
use std::alloc::Global;

/// The certificate tree of a node and all below it.
pub(crate) fn tree_of(alloc: Global, nodes: &[Node], at: u32) -> Result<Tree, OutOfMemory>
    requires linked { AreLinked nodes.now }
    requires at { at < length nodes.now }
    ensures { IfOk result (λ tree. IsTreeOf nodes.now at tree) }
{
    let node = &nodes[at as usize];
    let fixes = node.fixes.copy(alloc)?;
    match &node.end {
        NodeEnd::Open { lam, .. } => {
            let lam = lam.copy(alloc)?;
            Ok(Tree {
                fixes,
                end: End::Bound { lam },
            })
        }
        NodeEnd::Pruned { line } => Ok(Tree {
            fixes,
            end: End::Short { line: *line },
        }),
        NodeEnd::Branched {
            place,
            lam,
            inside,
            outside,
        } => {
            let lam = lam.copy(alloc)?;
            let inside = tree_of(alloc, nodes, *inside)?;
            let outside = tree_of(alloc, nodes, *outside)?;
            Ok(Tree {
                fixes,
                end: End::Branch {
                    place: *place,
                    lam,
                    inside: Boxed::new(alloc, inside)?,
                    outside: Boxed::new(alloc, outside)?,
                },
            })
        }
    }
}
