//! Trials: the generated day of a number taken without a journal, and its summary.
//!
//! The promise to the crates above: the text of a trial is the summary of a legal history whose lines are exactly the
//! commands of the generated file, in edition 1, each choice of which has the finest parts (`specs/Tried.antt`).
#![tactic(auto)]

mod course;
mod running;

pub use running::trial;

#[cfg(test)]
mod tests;
