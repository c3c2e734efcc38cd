use dali_lagrange::{Kept, Point};
use dali_problem::Partial;

/// What a search works with, made once for a problem.
#[derive(Drop)]
pub(crate) struct Desk {
    /// The partial choice of the node that is looked at.
    pub(crate) partial: Partial,
    /// The one in which all places are undecided.
    pub(crate) whole: Partial,
    /// Room for the multipliers of a Sum.
    pub(crate) point: Point,
    /// Reduced values at a node's multipliers.
    pub(crate) kept: Kept,
    /// How many flips for each undecided place a guess makes; none where this is 0.
    pub(crate) flips_each: u64,
    /// Whether the root is looked at, whose multipliers are guessed too.
    pub(crate) is_root: bool,
}
