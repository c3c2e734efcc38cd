//! Records: an entry of a history as bytes.
//!
//! The promise to the crates above: `encode` gives the one record of an entry (`specs/RecordText.antt`), no other entry
//! within the bounds of `specs/IsRecord.antt` has it, and `decode` gives an entry exactly for its record. Lines and places
//! are counted from 0.
#![tactic(auto)]

mod decoding;
mod encoding;
mod length;
mod multipliers;
mod numbers;
mod reading;
mod refusal;
mod trees;
mod writing;

pub use dali_entry::{Entries, Entry};
pub use decoding::decode;
pub use encoding::encode;
pub use length::greatest_length;
pub use refusal::RecordNo;

#[cfg(test)]
mod tests;
