use dali_base::{Name, Seq};

/// A change of one balance by a command: units of an asset that an account received, or gave where the delta is
/// negative, and its balance afterwards.
#[derive(Clone, Copy, Debug, PartialEq, Eq)]
pub struct Posting {
    /// Counted from 1 over all postings.
    pub number: u64,
    /// The number of the command that wrote it.
    pub command: u64,
    pub account: Name,
    pub asset: Name,
    /// In units of the asset, centavos for `MXN`.
    pub delta: i64,
    /// The balance of the account in the asset with this posting, in the same units: the sum of their deltas up to it.
    pub after: u64,
}

/// A list of postings.
pub type Postings = Seq<Posting>;
