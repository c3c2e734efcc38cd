//! Shipping a journal: the frames of the history that a device spells, printed for the journals that follow it.
//!
//! The promise to the crates above: `ship_journal` prints all frames of the one history that the device spells, in order and
//! numbered from 1, a front of them at every stop, and writes nothing (`specs/ShipRun.antt`); a reader of what was printed gets
//! exactly these frames (`specs/Shipping.antt`).
#![tactic(auto)]

mod printing;
mod ship;
#[cfg(test)]
mod tests;

pub use ship::{ShipEnd, ship_journal};
