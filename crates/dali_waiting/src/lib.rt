//! The rows of a queue and of an account's instructions.
//!
//! The promise to the crates above: the rows are filters of the queue's list (`specs/Rows.antt`). How fields make a row of
//! text is defined in `specs/RowText.antt`.
#![tactic(auto)]

mod rows;

pub use rows::{Ids, WaitRow, WaitRows, held, waiting};

#[cfg(test)]
mod tests;
