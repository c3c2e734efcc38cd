//! A part of a problem as a problem of its own, and what is proved of it there taken back to the whole.
//!
//! The promise to the crates above: a restriction is the problem of its places and of the lines that they change, both
//! renumbered in order, as `specs/Restriction.antt` defines; a part of it with the old numbers proves and is lean in the
//! whole problem exactly where it does and is so in the restriction. Lines and places are counted from 0.
#![tactic(auto)]

mod lines;
mod restriction;
mod widening;

pub use restriction::{Restricted, restrict};
pub use widening::{old_of, widen};
