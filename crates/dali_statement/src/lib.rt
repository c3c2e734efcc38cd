//! Statements: the rows of a queue and of an account's instructions, and the table of all postings as text.
//!
//! The promise to the crates above: the rows are filters of the queue's list (`specs/Rows.antt` of `dali_waiting`), and the
//! table is a header row and one row for each posting, in order (`specs/Export.antt`).
#![tactic(auto)]

mod export;

pub use dali_waiting::{Ids, WaitRow, WaitRows, held, waiting};
pub use export::ledger_csv;

#[cfg(test)]
mod tests;
