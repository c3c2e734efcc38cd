use dali_problem::Problem;
use dali_tree::Choice;
use dali_waiting::Ids;

/// How good the set of a cycle is known to be.
#[derive(Clone, Copy, Debug, PartialEq, Eq)]
pub enum CycleMark {
    /// No feasible set has a greater value.
    Optimal,
    /// The budget was spent before that was shown.
    Unfinished,
}

/// What a cycle did, and the certificate of how good its set is. What it says is defined in `specs/Cycles.antt`.
#[derive(Drop)]
pub struct CycleReport {
    /// Whether the set is known to be best.
    pub mark: CycleMark,
    /// The value of the set, in centavos times rank.
    pub value: u64,
    /// The number of instructions that were settled.
    pub count: u32,
    /// The sum of the parts' bounds, in centavos times rank. No feasible set has a greater value.
    pub bound: u64,
    /// The number of branches of all trees.
    pub branchings: u64,
    /// The ids of the settled instructions, in queue order.
    pub ids: Ids,
    /// The problem that was decided.
    pub problem: Problem,
    /// The most branches that were allowed, 0 to 4,096.
    pub budget: u64,
    /// The set, and the parts with their trees.
    pub choice: Choice,
}
