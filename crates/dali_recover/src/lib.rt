//! Recovery: the one legal history that a device spells, read back from its journal, or where it is damaged and why.
//!
//! The promise to the crates above: what `recover` gives is the legal history whose records the device holds
//! (`specs/Spells.antt`), with the state after it and the journal at its closed gate (`specs/Recovers.antt`); a device that
//! spells none is told by the first place that is wrong, and by what is first wrong there (`specs/Damaged.antt`).
#![tactic(auto)]

mod found;
mod judging;
mod piece;
mod recovering;
mod refusal;
mod taking;
mod window;

pub use found::Found;
pub use judging::has_its_choice;
pub use recovering::recover;
pub use refusal::RecoverNo;
pub use taking::last_edition;

#[cfg(test)]
mod tests;
