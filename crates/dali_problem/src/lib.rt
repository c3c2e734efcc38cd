//! The clearing problem: lines with balances, items with values and effects on them, and what can be told of a
//! choice among the items.
//!
//! The promise to the crates above: whether a set of items is feasible, what it is worth, and whether a rule lets a
//! place be fixed are answered exactly as `specs/` defines them. Lines and places are counted from 0. A line's balance and
//! the amounts on it are in units of its asset, which are centavos on a line of MXN. An item's value is in centavos
//! times rank.
#![tactic(auto)]

mod columns;
mod enter;
mod feasible;
mod line_sum;
mod mark;
mod partial;
mod problem;
mod row;
mod turn;

pub use columns::{Columns, Touch};
pub use feasible::Sums;
pub use mark::Mark;
pub use partial::Partial;
pub use problem::Problem;
pub use row::{Effect, LineRow};

#[cfg(test)]
mod tests;
