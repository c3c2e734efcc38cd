//! Good sets for a partial choice: sets that nothing undecided can be added to, and in which no undecided place can be
//! exchanged for a better one.
//!
//! The promise to the crates above: `grow` answers sets as `specs/Grown.antt` defines them, and none that is worth less
//! than a start that is one of them but for that. Places and lines are counted from 0, and values are in centavos.
#![tactic(auto)]

mod begin;
mod exchange;
mod finish;
mod growing;
mod lines;
mod order;
mod passes;
mod stand;
mod turns;

pub use growing::grow;

#[cfg(test)]
mod tests;
