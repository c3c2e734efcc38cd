//! The fixes of one node of a certificate tree: what it means that they hold, one after the other, and where they lead.
//!
//! The promise to the crates above: fixes are applied to a partial choice exactly as `specs/Fixed.antt` defines, keep
//! what the best set is worth as `specs/Worth.antt` says, and are taken back so that the partial choice is as before.
//! Lines and places are counted from 0.
#![tactic(auto)]

mod laws;
mod steps;

pub use laws::safe_exchanges;
pub use steps::{apply, undo};
