//! What can still be done with a feasible set of places: whether one place, or all that can be paid together, can be
//! added, and whether a place can be exchanged for one of greater value.
//!
//! The promise to the crates above: each test of a feasible set answers exactly as `specs/Addable.antt` and
//! `specs/Swappable.antt` define it, in a room that is made once for a problem. Places and lines are counted from 0, and
//! values are in centavos.
#![tactic(auto)]

mod add;
mod rest;
mod room;
mod swap;

pub use room::Room;

#[cfg(test)]
mod tests;
