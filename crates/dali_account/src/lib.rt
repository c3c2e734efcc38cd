//! The book of accounts, codes, balances and earmarks.
//!
//! The promise to the crates above: a [`Book`] is two lists and two finite maps (`specs/Book.antt`), and each call
//! changes it by exactly one equation. Each balance and each earmark is from 0 to its asset's total, and each total is
//! at most 10^18. A refusal leaves the book as it was.
#![tactic(auto)]

mod assets;
mod book;
mod cash;
mod holdings;
pub mod limits;
mod net;
mod pairs;
mod refusal;

pub use book::Book;
pub use cash::{cash_name, is_cash};
pub use net::{Move, Net};
pub use pairs::{Pair, Pairs};
pub use refusal::BookNo;

#[cfg(test)]
mod tests;
