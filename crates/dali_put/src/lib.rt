//! Printing in one put, for the words that do nothing else to their site.
//!
//! The promise to the crates above: what was printed at any moment is some first bytes of the text, and the disk stays as it
//! was (`specs/PutRun.antt`).
#![tactic(auto)]

mod putting;
mod refusal;

pub use putting::put;
pub use refusal::PutNo;

#[cfg(test)]
mod tests;
