/// Why a choice isn't allowed: the first of nine reasons that holds, in this order.
#[derive(Clone, Copy, Debug, PartialEq, Eq)]
pub enum NotAllowed {
    /// The members of the parts aren't a partition of the places.
    Members,
    /// Two parts touch one line.
    Shared,
    /// The set isn't feasible.
    Infeasible,
    /// The set stays feasible with one place more, or with all of the rest of a part.
    Addable,
    /// The set stays feasible with a member of a part exchanged for one of greater value.
    Swappable,
    /// This is the first part, counted from 0, whose tree doesn't prove its bound.
    Unproved { part: u32 },
    /// This is the first part, counted from 0, that isn't lean.
    NotLean { part: u32 },
    /// The branchings are more than the budget.
    Overspent,
    /// The bounds are above the value of the set, though the budget isn't spent or is enough for every set.
    Idle,
}
