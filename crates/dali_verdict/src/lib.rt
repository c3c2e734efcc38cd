//! What `check` says of bytes: whether they are a certificate block of an allowed choice, and else why not.
//!
//! The promise to the crates above: bytes are judged valid exactly where they are a block of an allowed choice, with the
//! figures of that choice, and else the first reason stands, as `specs/Verdict.antt` defines it; the line that says so is
//! that of `specs/VerdictLine.antt`. Parts are counted from 0, lines of a block from 1, values and bounds are in centavos.
#![tactic(auto)]

mod judging;
mod line;
#[cfg(test)]
mod tests;
mod verdict;

pub use judging::judge;
pub use line::verdict_line;
pub use verdict::{Figures, Verdict, Why};
