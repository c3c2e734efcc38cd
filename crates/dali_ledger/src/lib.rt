//! The ledger: the numbered postings of all accepted commands.
//!
//! The promise to the crates above: a [`Ledger`] is the list of its postings (`specs/Postings.antt`). They are numbered
//! 1, 2 and so on, the `after` of each is the sum of its pair's deltas up to it, and each such sum is from 0 to 10^18.
#![tactic(auto)]

mod ledger;
mod places;
mod posting;
#[cfg(test)]
mod tests;

pub use ledger::Ledger;
pub use posting::{Posting, Postings};
