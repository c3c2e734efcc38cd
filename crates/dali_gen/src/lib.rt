//! Generated days: a day file made from a number.
//!
//! The promise to the crates above: the file of a number is exactly the text that is defined for it, by its lines
//! (`specs/Day.antt`) and the draws behind them (`specs/Draws.antt`, `specs/Instructions.antt`).
#![tactic(auto)]

mod day;
mod draws;
mod fields;
mod group;
mod instruction;
pub mod limits;
mod opening;

pub use day::generate;
pub use instruction::Instruction;

#[cfg(test)]
mod tests;
