use crate::report::CycleReport;
use dali_account::Pairs;
use dali_ledger::Postings;
use dali_waiting::{Ids, WaitRows};

/// Why a command was refused. `Form`, `Back` and `Closed`, and that they come before the others, are defined in
/// `specs/Step.antt`; what each of the others says, and their order for each verb, in `specs/Refusals.antt`.
#[derive(Clone, Copy, Debug, PartialEq, Eq)]
pub enum Code {
    /// The line is no command of its edition.
    Form,
    /// The moment is before the greatest one so far.
    Back,
    /// The day is closed.
    Closed,
    /// It is there already.
    There,
    /// There is no place left.
    Full,
    /// An account or an asset doesn't exist.
    Name,
    /// The asset's total would be more than 10^18.
    Total,
    /// A balance or an earmark would be negative.
    Short,
    /// The code is `MXN`.
    Cash,
    /// Both sides are the same.
    SelfDeal,
    /// The moment is past the cut-off of the kind.
    Late,
    /// The value is more than 10^15.
    Value,
    /// The instruction isn't queued.
    Gone,
    /// The instruction is linked to another.
    Linked,
}

/// What is answered to a command.
#[derive(Drop)]
pub enum Outcome {
    /// It was accepted, and prints no rows.
    Done,
    /// It was refused.
    No { code: Code },
    /// The set of a cycle was booked.
    Cycle { report: CycleReport },
    /// The queued instructions, in queue order.
    Queue { rows: WaitRows },
    /// An account's balances other than 0 in byte order of asset, and the ids of its queued instructions in queue
    /// order.
    Stat { pairs: Pairs, ids: Ids },
    /// The postings of an account, in order.
    Ledger { rows: Postings },
}
