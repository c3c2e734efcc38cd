use crate::node::Node;
use dali_tree::Lam;

/// A branch that an open node gets, with its two sides.
#[derive(Drop)]
pub(crate) struct Split {
    /// The place that is decided.
    pub(crate) place: u32,
    /// The node's multipliers.
    pub(crate) lam: Lam,
    /// The side on which the place is chosen.
    pub(crate) inside: Node,
    /// The side on which it is left.
    pub(crate) outside: Node,
}
