//! Independent parts of a problem: places that no chain of shared lines joins can be searched apart.
//!
//! The promise to the crates above: the finest parts are exactly the classes of linked places, as `specs/Finest.antt`
//! defines; `solve_parts` answers an allowed choice whose parts are just these, and want of memory is its only other answer.
//! Lines, places and parts are counted from 0.
#![tactic(auto)]

mod classes;
mod flood;
mod solving;

pub use classes::{PartLists, finest};
pub use dali_restrict::{Restricted, restrict, widen};
pub use solving::solve_parts;
