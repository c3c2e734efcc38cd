//! The queue of instructions: deliveries and payments that wait for settlement, their groups and the cut-offs.
//!
//! The promise to the crates above: a [`Queue`] is a plain list of instructions in order of entry, each with its group,
//! beside the ids ever accepted and a cut-off for each kind (`specs/Queue.antt`, `specs/Groups.antt`). Each call changes
//! it by exactly one equation, and the net of some places is the sum of the effects of their instructions, pair by pair.
//! The problem of a cycle is that of `specs/CycleProblem.antt`, whatever the book and the moment.
#![tactic(auto)]

mod changes;
mod cutoffs;
mod cycle;
mod draft;
mod eligible;
mod entries;
mod instruction;
pub mod limits;
mod queue;

pub use cycle::CycleInput;
pub use instruction::{Gone, Instruction};
pub use queue::Queue;

#[cfg(test)]
mod tests;
