use dali_base::{Kind, Moment, Name};

/// A command of the day file.
#[derive(Clone, Copy, Debug, PartialEq, Eq)]
pub struct Command {
    /// When it was given.
    pub moment: Moment,
    /// What it asks for.
    pub verb: Verb,
}

/// What a command asks for. Quantities are in units of their asset, and cash is in centavos: both 1 to 10^15.
#[derive(Clone, Copy, Debug, PartialEq, Eq)]
pub enum Verb {
    /// Opens an account.
    Part {
        account: Name,
    },
    /// Adds a code, with its price in centavos, 1 to 10^9.
    Inst {
        code: Name,
        price: u64,
    },
    /// Adds to a balance.
    Issue {
        account: Name,
        asset: Name,
        quantity: u64,
    },
    /// Takes from a balance.
    Draw {
        account: Name,
        asset: Name,
        quantity: u64,
    },
    /// Enters a delivery against payment.
    Dvp {
        id: Name,
        seller: Name,
        buyer: Name,
        code: Name,
        quantity: u64,
        cash: u64,
    },
    /// Enters a delivery free of payment.
    Fop {
        id: Name,
        from: Name,
        to: Name,
        code: Name,
        quantity: u64,
    },
    /// Enters a payment.
    Pay {
        id: Name,
        from: Name,
        to: Name,
        cash: u64,
    },
    /// Takes an instruction out of the queue.
    Cancel {
        id: Name,
    },
    /// Books one instruction alone.
    Settle {
        id: Name,
    },
    /// Sets the cut-off of a kind.
    Cutoff {
        kind: Kind,
        moment: Moment,
    },
    /// Settles the best set of the queue, with at most this many branchings, 0 to 4,096.
    Cycle {
        budget: u64,
    },
    /// Lists the queue.
    Queue,
    /// Closes the day.
    Close,
    /// Lists an account's balances and instructions.
    Stat {
        account: Name,
    },
    /// Lists an account's postings.
    Ledger {
        account: Name,
    },
    /// Moves units from a balance to its earmark.
    Earmark {
        account: Name,
        asset: Name,
        quantity: u64,
    },
    /// Moves units from an earmark to its balance.
    Release {
        account: Name,
        asset: Name,
        quantity: u64,
    },
    /// Makes one group of the groups of two instructions.
    Link {
        first: Name,
        second: Name,
    },
    /// Sets an instruction's rank, 1 to 16.
    Rank {
        id: Name,
        rank: u8,
    },
}
