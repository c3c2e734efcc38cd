//! The gateway: what several participants send at once, as their inboxes and a list of turns, and the one day file that the
//! turns make of them.
//!
//! The promise to the crates above: bytes are read as a gateway input exactly where they are the text that `specs/Form.antt`
//! defines, and where they are none, the place is the length of their longest front with which some gateway input begins. A
//! `Gate` is a source that tells, whose bytes are the merge of `specs/Merge.antt`. Whatever the turns, the merge keeps each
//! inbox's order (`specs/Order.antt`, `keep_order`).
#![tactic(auto)]

mod form;
mod gate;
mod inbox;
pub mod limits;
mod order;
mod pieces;
mod reading;
mod refusal;

pub use gate::Gate;
pub use order::keep_order;
pub use reading::read_gate;
pub use refusal::GateNo;
