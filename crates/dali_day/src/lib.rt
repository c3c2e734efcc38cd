//! A day over its journal: what was found on the device is gone over again beside the file, and the commands behind it are
//! taken.
//!
//! The promise to the crates above: at every stop the device spells a legal history of the file's first commands, whose
//! replies begin with all that was printed (`specs/CrashPrefix.antt`); what the day took, printed and left when it ended,
//! and why it ended so, is `specs/DayRun.antt`. Commands are counted from 1, places of the journal from 0.
#![tactic(auto)]

mod day;
mod end;
mod replay;
mod taking;

pub use day::take_day;
pub use end::DayEnd;
