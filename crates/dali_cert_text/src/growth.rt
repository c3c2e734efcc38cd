ghost use Rattle.std.specs.Prelude.{◌≡◌, IfOk};
ghost use Rattle.dali_tree.specs.declared.tree.End.TheOpen.{End-F};
ghost use Rattle.dali_cert_text.specs.Growth.{tree_of, grown as grown_to, grow as grows_to};
ghost use Rattle.dali_cert_text.specs.Refusal.{Gives};

use crate::refused::Refused;
use crate::stack::Stack;
use dali_base::limits::{MOST_DEPTH, MOST_FIXES};
use dali_base::{OutOfMemory, Seq};
use dali_cert_print::Row;
use dali_tree::{End, Fixes, Lam, Tree};
use sqlite_items::Boxed;
use std::alloc::Global;

/// A branch above the open node, with the branch's own fixes.
#[derive(Drop)]
pub(crate) enum Frame {
    /// The open node lies inside.
    Inside {
        fixes: Fixes,
        place: u32,
        lam: Lam,
    },
    /// The inside was read, and the open node lies outside.
    Outside {
        fixes: Fixes,
        place: u32,
        lam: Lam,
        inside: Tree,
    },
}

/// What stands behind a row of a tree.
#[derive(Drop)]
pub(crate) enum Growth {
    /// A node is open, with these fixes so far.
    Open { frames: Stack<Frame>, fixes: Fixes },
    /// The tree is whole.
    Grown { tree: Tree },
}

/// What stands behind a row, where the branches above the open node and the node's fixes so far are these.
#[tactic(auto, unfolding(crate::specs::Growth::grow))]
pub(crate) fn grow(
    alloc: Global,
    frames: Stack<Frame>,
    fixes: Fixes,
    row: Row,
) -> Result<Growth, Refused>
    ensures { Gives result (grows_to frames fixes row) }
{
    match row {
        Row::Fix { fix } => {
            let mut fixes = fixes;
            if fixes.len() >= MOST_FIXES {
                return Err(Refused::Form);
            }
            fixes.push(fix)?;
            Ok(Growth::Open { frames, fixes })
        }
        Row::Bound { lam } => Ok(grown(alloc, frames, bound_node(fixes, lam))?),
        Row::Short { line } => Ok(grown(alloc, frames, short_node(fixes, line))?),
        Row::Branch { place, lam } => {
            let mut frames = frames;
            if frames.len() >= MOST_DEPTH as usize {
                return Err(Refused::Form);
            }
            frames.push(Frame::Inside { fixes, place, lam })?;
            Ok(Growth::Open {
                frames,
                fixes: Seq::new(alloc),
            })
        }
        _ => Err(Refused::Form),
    }
}

/// What stands when the open node is this tree.
fn grown(alloc: Global, frames: Stack<Frame>, tree: Tree) -> Result<Growth, OutOfMemory>
    ensures { IfOk result (λ growth. growth ≡ grown_to frames tree) }
{
    let mut frames = frames;
    let mut tree = tree;
    while let Some(frame) = frames.pop() {
        match frame {
            Frame::Inside { fixes, place, lam } => {
                frames.push(Frame::Outside {
                    fixes,
                    place,
                    lam,
                    inside: tree,
                })?;
                return Ok(Growth::Open {
                    frames,
                    fixes: Seq::new(alloc),
                });
            }
            Frame::Outside {
                fixes,
                place,
                lam,
                inside,
            } => tree = branch_node(alloc, fixes, place, lam, inside, tree)?,
        }
    }
    Ok(Growth::Grown { tree })
}

fn bound_node(fixes: Fixes, lam: Lam) -> Tree
    ensures { result ≡ tree_of fixes (End-F.Bound lam) }
{
    Tree {
        fixes,
        end: End::Bound { lam },
    }
}

fn short_node(fixes: Fixes, line: u32) -> Tree
    ensures { result ≡ tree_of fixes (End-F.Short line) }
{
    Tree {
        fixes,
        end: End::Short { line },
    }
}

fn branch_node(
    alloc: Global,
    fixes: Fixes,
    place: u32,
    lam: Lam,
    inside: Tree,
    outside: Tree,
) -> Result<Tree, OutOfMemory>
    ensures { IfOk result (λ tree. tree ≡ tree_of fixes (End-F.Branch place lam inside outside)) }
{
    Ok(Tree {
        fixes,
        end: End::Branch {
            place,
            lam,
            inside: Boxed::new(alloc, inside)?,
            outside: Boxed::new(alloc, outside)?,
        },
    })
}
