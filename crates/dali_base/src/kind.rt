/// The kind of an instruction.
#[derive(Clone, Copy, Debug, PartialEq, Eq, Hash)]
pub enum Kind {
    /// A delivery against payment.
    Dvp,
    /// A delivery free of payment.
    Fop,
    /// A payment.
    Pay,
}
