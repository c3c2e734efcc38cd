use dali_base::Name;

/// A line of a problem: an account's balance of an asset.
#[derive(Clone, Copy, Debug, PartialEq, Eq)]
pub struct LineRow {
    /// The account.
    pub account: Name,
    /// The asset.
    pub asset: Name,
    /// What the account holds of the asset, in the asset's units: at most 10^18.
    pub balance: u64,
}

/// What an item adds to a line.
#[derive(Clone, Copy, Debug, PartialEq, Eq)]
pub struct Effect {
    /// The line, counted from 0.
    pub line: u32,
    /// What is added, in units of the line's asset, and negative where the item takes from the line. Not 0, and at most
    /// 8 * 10^15 in size.
    pub amount: i64,
}
