use thiserror::Error;

/// Why the book refused a call, or want of memory.
#[derive(Clone, Copy, Debug, PartialEq, Eq, Error)]
pub enum BookNo {
    /// The account exists, or the code exists or is `MXN`.
    #[error("it is there already")]
    There,
    /// There are 1,000 accounts, or 1,000 codes without `MXN`.
    #[error("there is no place left")]
    Full,
    /// The account or the asset doesn't exist.
    #[error("no such account or asset")]
    Name,
    /// The asset's total with the quantity is more than 10^18.
    #[error("the total would be too great")]
    Total,
    /// The balance, or for a release the earmark, is less than the quantity.
    #[error("there are too few units")]
    Short,
    /// Memory was wanted and wasn't there.
    #[error("out of memory")]
    OutOfMemory,
}
