//! Guesses for the search: sets of places that may be worth much, multipliers that may give a small Sum, and multipliers
//! whose branch may be a good one.
//!
//! The promise to the crates above: places that are answered rise and are places of the problem, multipliers that are
//! answered are 1 to 2^44 on rising lines of the problem, and each call ends after work that its arguments bound. Nothing is
//! said of how good a guess is, nor that a set is feasible. Lines and places are counted from 0.
#![tactic(auto)]

mod ahead;
mod aiming;
mod board;
mod flipping;
mod listing;
mod repairing;
mod run;
mod score;
mod sketch;
mod smooth;
mod smoothing;
mod state;

pub use aiming::aim;
pub use flipping::flips;
pub use repairing::repaired;
pub use smoothing::{smoothed, smoothed_near};
