//! Names, moments, numbers and the small lists that every crate above uses.
//!
//! The promise to the crates above: a reader gives a value exactly for its one spelling, and a list is seen by
//! contracts as a plain list. The spellings stand in `specs/Spelling.antt`, the limits in `specs/Limits.antt`.
#![tactic(auto)]

mod kind;
pub mod limits;
mod memory;
mod moment;
mod name;
mod names;
mod number;
mod seq;
#[cfg(test)]
mod tests;
mod text;

pub use kind::Kind;
pub use memory::OutOfMemory;
pub use moment::{Moment, read_moment};
pub use name::{Name, read_name};
pub use names::Names;
pub use number::read_number;
pub use seq::Seq;
pub use text::{Places, Text, Words};

/// The newest edition of the day file's grammar, counted from 1. `limits::hold` says that it is the one of `specs/Limits.antt`.
pub const NEWEST: u8 = 4;
