//! The lines of a generated day, one after the other.
//!
//! The promise to the crates above: the commands of a generated day's text are exactly its lines, each of them a line as a
//! history keeps it, and [`DayLines`] gives them in order.
#![tactic(auto)]

mod day_lines;

pub use day_lines::DayLines;

#[cfg(test)]
mod tests;
