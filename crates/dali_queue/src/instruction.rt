use dali_base::{Kind, Name};

/// An instruction to deliver units of a code, against payment or free of it, or to pay cash. All cash is in centavos.
/// What it changes is defined in `specs/Instruction.antt`.
#[derive(Clone, Copy, Debug, PartialEq, Eq)]
pub struct Instruction {
    pub id: Name,
    pub kind: Kind,
    /// Who gives the quantity of the code.
    pub giver: Name,
    /// Who takes it, and pays the cash.
    pub taker: Name,
    /// `MXN` for a payment.
    pub code: Name,
    /// The units of the code, for a payment its cash. 1 to 10^15.
    pub quantity: u64,
    /// The cash against which a delivery is made, 1 to 10^15, and else 0.
    pub cash: u64,
    /// What it is worth, 1 to 10^15, without its rank.
    pub value: u64,
    /// What a cycle multiplies its value by. 1 to 16.
    pub rank: u8,
}

/// No queued instruction has the id.
#[derive(Clone, Copy, Debug, PartialEq, Eq)]
pub struct Gone;
