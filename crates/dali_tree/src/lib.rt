//! Certificate trees: how a part's bound is claimed to be proved, branch by branch, and the choice that carries them.
//!
//! The promise to the crates above: a tree is plain data, seen by contracts without pointers; its branches and its
//! depth are counted as `specs/Tree.antt` defines them, and a copy of a choice equals it. When a choice fits a problem
//! is defined in `specs/Fits.antt`. Lines and places are counted from 0.
#![tactic(auto)]

mod choice;
mod copy;
mod count;
mod fix;
mod tree;

pub use choice::{Choice, Part, Parts};
pub use count::{branchings, depth};
pub use fix::{Fix, Fixes};
pub use tree::{End, Lam, Tree};

#[cfg(test)]
mod tests;
