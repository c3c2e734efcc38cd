ghost use Rattle.std.specs.Prelude.{◌≡◌};
ghost use Rattle.dali_summary.specs.Tally.{figures_of};

use dali_machine::{CycleMark, CycleReport};

/// What a summary keeps of a cycle.
#[derive(Clone, Copy, Debug, PartialEq, Eq)]
pub struct CycleFigures {
    /// The number of its command, counted from 1.
    pub command: u64,
    /// Whether the set is known to be best.
    pub mark: CycleMark,
    /// The value of the set, in centavos times rank.
    pub value: u64,
    /// The number of instructions that were settled.
    pub count: u32,
    /// The most that a set can be worth, in centavos times rank.
    pub bound: u64,
    /// The number of branches of all trees.
    pub branchings: u64,
}

impl CycleFigures {
    /// Those of the cycle that the command of this number did.
    pub(crate) fn of(command: u64, report: &CycleReport) -> CycleFigures
        ensures { result ≡ figures_of command report.now }
    {
        CycleFigures {
            command,
            mark: report.mark,
            value: report.value,
            count: report.count,
            bound: report.bound,
            branchings: report.branchings,
        }
    }
}
