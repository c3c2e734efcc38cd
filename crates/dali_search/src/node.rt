use dali_tree::{Fixes, Lam};

/// A node of the search, kept as what changes from the node above it.
#[derive(Drop)]
pub(crate) struct Node {
    /// The node of which it is a side; 0 at the root.
    pub(crate) above: u32,
    /// The fixes that are taken at the node.
    pub(crate) fixes: Fixes,
    /// How the node ends.
    pub(crate) end: NodeEnd,
}

/// How a node ends.
#[derive(Drop)]
pub(crate) enum NodeEnd {
    /// It may be branched: its multipliers give this bound, in centavos.
    Open {
        lam: Lam,
        bound: u64,
    },
    /// No set is left: this line is short.
    Pruned {
        line: u32,
    },
    /// It was branched by these multipliers: the place is chosen on the side inside, and left on the side outside.
    Branched {
        place: u32,
        lam: Lam,
        inside: u32,
        outside: u32,
    },
}

/// What a node and all below it have.
#[derive(Clone, Copy)]
pub(crate) struct Total {
    /// The greatest bound of an open node, or 0, in centavos.
    pub(crate) greatest: u64,
    /// How many nodes are branched.
    pub(crate) branches: u64,
}
