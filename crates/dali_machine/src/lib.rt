//! The machine: what one command does to the state of a day.
//!
//! The promise to the crates above: a [`State`] is a book, a queue, a list of postings and a few numbers
//! (`specs/Machine.antt`). [`State::prepare`] judges a line without changing the state and takes all memory that the
//! command needs; [`State::commit`] then takes none and can't fail. Together they are the step of `specs/Step.antt`.
#![tactic(auto)]

mod judged;
mod names;
mod outcome;
mod ready;
mod report;
mod state;

pub use outcome::{Code, Outcome};
pub use ready::Ready;
pub use report::{CycleMark, CycleReport};
pub use state::State;

#[cfg(test)]
mod tests;
