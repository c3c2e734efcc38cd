use dali_base::Seq;

/// A claim that one member can be fixed to one side, by the rule that it names. The rules are `is_barred`, `is_needed` and
/// `is_safe` of `dali_problem`'s `specs/Rules.antt`.
#[derive(Clone, Copy, Debug, PartialEq, Eq)]
pub enum Fix {
    /// The place is left: with it chosen, this line is short.
    Barred { place: u32, line: u32 },
    /// The place is chosen: with it left, this line is short.
    Needed { place: u32, line: u32 },
    /// The place is chosen: each line that it debits has enough whatever else is chosen.
    Safe { place: u32 },
}

/// A list of fixes, which are taken in order.
pub type Fixes = Seq<Fix>;
