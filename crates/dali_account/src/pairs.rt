use dali_base::{Name, Seq};

/// The units of an asset that an account holds free, without what it has earmarked.
#[derive(Clone, Copy, Debug, PartialEq, Eq)]
pub struct Pair {
    pub asset: Name,
    /// In units of the asset, centavos for `MXN`.
    pub balance: u64,
}

/// A list of pairs.
pub type Pairs = Seq<Pair>;
