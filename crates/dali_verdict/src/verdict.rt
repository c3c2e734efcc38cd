use dali_check::NotAllowed;

/// The figures of an allowed choice.
#[derive(Clone, Copy, Debug, PartialEq, Eq)]
pub struct Figures {
    /// The value of the set, in centavos times rank.
    pub value: u64,
    /// The number of items in the set.
    pub count: u64,
    /// The sum of the parts' bounds, in centavos times rank.
    pub bound: u64,
    /// The branchings of all parts.
    pub branchings: u64,
}

/// Why bytes aren't a block of an allowed choice.
#[derive(Clone, Copy, Debug, PartialEq, Eq)]
pub enum Why {
    /// They are no block. The line, counted from 1, is the first such that no block begins with the lines up to it.
    Form { line: u64 },
    /// The choice of the block isn't allowed, for this first reason.
    NotAllowed(NotAllowed),
}

/// What is said of bytes.
#[derive(Clone, Copy, Debug, PartialEq, Eq)]
pub enum Verdict {
    /// They are a block of an allowed choice with these figures.
    Valid(Figures),
    /// They aren't.
    Invalid(Why),
}
