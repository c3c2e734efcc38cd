//! The search: which set of a clearing problem's items to settle, and the certificate that says how good it is.
//!
//! The promise to the crates above: `solve` answers a choice that fits the problem and is allowed for it and the budget,
//! as `dali_tree` and `dali_check` define that, with all places in one part; want of memory is the only other answer. Lines
//! and places are counted from 0, values and bounds are in centavos.
#![tactic(auto)]

mod arena;
mod best;
mod bound;
mod branch;
mod build;
mod descend;
mod desk;
mod guess;
mod lead;
mod leaf;
mod multipliers;
mod nearest;
mod node;
mod offer;
mod places;
mod solving;
mod split;
mod totals;

pub use solving::solve;
