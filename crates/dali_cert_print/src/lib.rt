//! Certificate blocks as text: what the text of a block is, and the call that prints it.
//!
//! The promise to the crates above: a block is printed exactly as `specs/Block.antt` defines it, row by row
//! (`specs/Rows.antt`). Lines and places are counted from 0.
#![tactic(auto)]

mod fields;
mod printing;
mod row;
mod sizes;
mod writing;

pub use fields::{add_field, add_number, end};
pub use printing::print_block;
pub use row::Row;
pub use sizes::{MOST_SMALL_BOUND, is_small, is_wide};
