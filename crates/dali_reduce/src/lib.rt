//! What can be decided of a partial choice before any branch: the fixes that its rules give.
//!
//! The promise to the crates above: the fixes that are answered hold one after the other, as `specs/Fixed.antt` of
//! `dali_fixes` defines, and lead to where no rule is left, or a line is short, as `specs/Reduced.antt` says. Lines and
//! places are counted from 0.
#![tactic(auto)]

mod line;
mod reducing;
mod taking;

pub use reducing::{reduce, reduce_after};

#[cfg(test)]
mod tests;
