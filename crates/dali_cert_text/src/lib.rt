//! Certificate blocks: a problem, a budget and a choice as text that anybody can check.
//!
//! The promise to the crates above: bytes are read as a block exactly where they are the text that `dali_cert_print` defines
//! and prints; where they are none, the line from which they aren't is the one of `specs/Form.antt`. Lines, places and parts
//! are counted from 0, rows from 1.
#![tactic(auto)]

mod block;
mod fields;
mod growth;
mod lists;
mod reading;
mod refused;
mod rows;
mod split;
mod stack;
mod statement;
mod unread;

pub use block::{Block, BlockNo};
pub use dali_cert_print::print_block;
pub use reading::read_block;

#[cfg(test)]
mod tests;
