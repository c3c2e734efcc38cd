ghost use Rattle.std.specs.Prelude.{◌≡◌, ◌-◌, ◌^◌, min};
ghost use Rattle.dali_tree.specs.Tree.{branch_count, branch_depth};

use crate::tree::{End, Tree};

/// The number of branches of the tree, or u64's last value where there are more.
pub fn branchings(tree: &Tree) -> u64
    ensures { result ≡ min (branch_count tree.now) (2 ^ 64 - 1) }
{
    match &tree.end {
        End::Bound { .. } | End::Short { .. } => 0,
        End::Branch {
            inside,
            outside,
            ..
        } => branchings(inside.get())
            .saturating_add(branchings(outside.get()))
            .saturating_add(1),
    }
}

/// The number of branches on the tree's longest path, or u32's last value where there are more.
pub fn depth(tree: &Tree) -> u32
    ensures { result ≡ min (branch_depth tree.now) (2 ^ 32 - 1) }
{
    match &tree.end {
        End::Bound { .. } | End::Short { .. } => 0,
        End::Branch {
            inside,
            outside,
            ..
        } => {
            let longest = depth(inside.get()).max(depth(outside.get()));
            longest.saturating_add(1)
        }
    }
}
