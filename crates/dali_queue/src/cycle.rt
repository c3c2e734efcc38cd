use dali_base::Places;
use dali_problem::Problem;

/// What a cycle decides: its problem, and where its items come from.
#[derive(Debug, Drop)]
pub struct CycleInput {
    /// The eligible groups as items.
    pub problem: Problem,
    /// The queue places of all instructions in items, rising.
    pub at: Places,
    /// For each of them the number of its item.
    pub item: Places,
}
