//! An entry of a history: a line, the edition in which it is read, and the choice of its cycle.
//!
//! The promise to the crates above: an entry is plain data, seen by contracts without pointers as
//! `specs/EntryRecord.antt` says it, and entries are seen as the plain list of them.
#![tactic(auto)]

mod entry;

pub use entry::{Entries, Entry};
