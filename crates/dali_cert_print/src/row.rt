use dali_base::{Name, Places, Seq};
use dali_problem::{Effect, LineRow};
use dali_tree::{Fix, Lam};

/// A line of a block. Its text is defined in `specs/Rows.antt`.
#[derive(Drop)]
pub enum Row {
    /// The first line: edition 2 where it is wide, else edition 1.
    Block {
        wide: bool,
    },
    /// The budget, in branchings.
    Budget {
        budget: u64,
    },
    /// A line of the problem.
    Line {
        line: LineRow,
    },
    /// An item of the problem, whose value is in centavos times rank.
    Item {
        id: Name,
        value: u64,
        effects: Seq<Effect>,
    },
    /// The places of the set.
    Set {
        places: Places,
    },
    /// A part's bound, in centavos times rank, and its members.
    Part {
        bound: u64,
        members: Places,
    },
    /// A fix of a node.
    Fix {
        fix: Fix,
    },
    /// The end of a node that is bounded by multipliers.
    Bound {
        lam: Lam,
    },
    /// The end of a node with a short line.
    Short {
        line: u32,
    },
    /// The end of a node that has two sides.
    Branch {
        place: u32,
        lam: Lam,
    },
    /// The last line.
    Last,
}
