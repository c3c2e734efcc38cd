//! The limits of a gateway input, each once. They are defined in `specs/Limits.antt`, and `hold` says that each constant is
//! the limit of its name.
ghost use Rattle.std.specs.Prelude.{◌≡◌};
ghost use Rattle.dali_gateway.specs.Limits.{most_inboxes, most_inbox, most_turns};

/// The most inboxes.
pub const MOST_INBOXES: u64 = 16;

/// The most bytes of an inbox.
pub const MOST_INBOX: u64 = 67_108_864;

/// The most turns.
pub const MOST_TURNS: u64 = 1_048_576;

/// Does nothing. It stands for its clauses: each constant is the limit of its name, so one that is one less or one more is
/// refused here.
pub fn hold()
    ensures inboxes { MOST_INBOXES ≡ most_inboxes }
    ensures inbox { MOST_INBOX ≡ most_inbox }
    ensures turns { MOST_TURNS ≡ most_turns }
{}
