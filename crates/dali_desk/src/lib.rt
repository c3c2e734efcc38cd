//! The desk: what each word of the command line does, from the bytes that come in to the bytes that go out.
//!
//! The promise to the program: `run` with `init` leaves an empty journal (`specs/InitRun.antt`), `run` with `day` takes
//! the commands of the file over a journal, so that at every stop the device spells a legal history of the first of them,
//! whose replies begin with all that was printed, `run` with `gate` takes the merge of several inboxes as such a file, so
//! that of each inbox the commands kept are its first ones (`specs/GateOver.antt`), `run` with `check` says whether its
//! input is a block of an allowed choice, and every status comes by its cause (`specs/DayOver.antt`,
//! `specs/CheckRun.antt`).
#![tactic(auto)]

mod check;
mod day;
mod desk;
mod gate;
mod init;
mod input;
mod job;
pub mod limits;
mod replica;
mod rerun;
mod status;
#[cfg(test)]
mod tests;
mod upkeep;

pub use dali_journal::Damage;
pub use dali_verdict::Why;
pub use desk::run;
pub use job::{Job, Usage, plan};
pub use rerun::again;
pub use status::{Status, exit_number, status_line};
