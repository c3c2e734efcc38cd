ghost use Rattle.std.specs.Prelude.{◌≡◌};

/// What a partial choice says of a place.
#[derive(Clone, Copy, Debug, PartialEq, Eq)]
pub enum Mark {
    /// It isn't a member.
    Stranger,
    /// A member of which nothing is decided.
    Undecided,
    /// A member that is taken.
    Chosen,
    /// A member that isn't taken.
    Left,
}

impl Mark {
    ghost use Rattle.dali_problem.specs.Partial.{is_undecided};

    /// Whether it is a member of which nothing is decided.
    pub fn is_undecided(self) -> bool
        ensures { result ≡ is_undecided self }
    {
        matches!(self, Mark::Undecided)
    }
}
