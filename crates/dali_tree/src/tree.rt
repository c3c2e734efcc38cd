use crate::fix::Fixes;
use dali_base::Seq;
use sqlite_items::Boxed;

/// Multipliers: pairs of a line and its multiplier, on rising lines. A line that isn't listed has 0. In a tree that fits a
/// problem each is 1 to 2^44.
pub type Lam = Seq<(u32, u64)>;

/// A node of a certificate: the fixes that are taken there in order, and how the node ends.
#[cycle(tree)]
#[derive(Drop)]
pub struct Tree {
    /// What is fixed at the node: at most 1,024 in a tree that fits.
    pub fixes: Fixes,
    /// How the node ends.
    pub end: End,
}

/// How a node ends.
#[cycle(tree)]
#[derive(Drop)]
pub enum End {
    /// With these multipliers the node's bound is at most the bound that is claimed.
    Bound {
        lam: Lam,
    },
    /// This line is short.
    Short {
        line: u32,
    },
    /// Both sides are claimed to prove the bound: inside with the place chosen, outside with it left.
    Branch {
        place: u32,
        lam: Lam,
        inside: Boxed<Tree>,
        outside: Boxed<Tree>,
    },
}
