//! Summaries: what is printed of a whole day in place of its replies.
//!
//! The promise to the crates above: a [`Summary`] keeps of the answers that it was given what `specs/Tally.antt` says, and
//! its text is exactly the one that is defined for the list of them (`specs/Summary.antt`).
#![tactic(auto)]

mod figures;
mod rows;
mod summary;

pub use figures::CycleFigures;
pub use summary::Summary;

#[cfg(test)]
mod tests;
