//! Multipliers for the lines of a clearing problem, and the bound that they give.
//!
//! The promise to the crates above: the Sum of a partial choice at a point is exactly the number that
//! `specs/Bound.antt` defines, whether it is added from scratch or kept while marks and multipliers change, and no sum
//! wraps; `settle` gives multipliers that are settled as `specs/Settled.antt` defines it. Multipliers are whole numbers
//! from 0 to 2^44, on a scale of 4,096 to the centavo. Lines and places are counted from 0.
#![tactic(auto)]

mod best;
mod kept;
pub mod limits;
mod listed;
mod point;
mod probe;
mod product;
mod settled;
mod settling;
mod start;
mod total;
mod touched;

pub use best::best_at;
pub use kept::Kept;
pub use point::Point;
pub use settling::settle;
pub use total::sum;

#[cfg(test)]
mod tests;
