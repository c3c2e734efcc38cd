//! The register of a day: its state and its journal between two commands, and what it holds back.
//!
//! The promise to the crates above: a command is taken with its record before its reply is printed (`specs/Taking.antt`),
//! up to 64 of them behind one gate write, and at every stop the device spells a history whose text begins with all that
//! was printed (`specs/Leaving.antt`). Commands are counted from 1.
#![tactic(auto)]

mod cycle;
mod flush;
mod hold;
mod making;
mod plain;
mod refusal;
mod register;
mod repeating;
mod take;

pub use refusal::RegisterNo;
pub use register::Register;
pub use repeating::repeat;
