//! The limits of a journal, each once. They are defined in `specs/Limits.antt`, and `hold` says that each constant is the
//! limit of its name.
ghost use Rattle.std.specs.Prelude.{◌≡◌};
ghost use Rattle.dali_journal.specs.Limits.{least_size, most_payload, most_payloads, most_grouped};

/// The least size of a device, in bytes.
pub const LEAST_SIZE: u64 = 64;

/// The most bytes of a payload.
pub const MOST_PAYLOAD: usize = 536_870_912;

/// The most payloads of a group.
pub const MOST_PAYLOADS: usize = 64;

/// The most bytes of a payload in a group.
pub const MOST_GROUPED: usize = 204;

/// Does nothing. It stands for its clauses: each constant is the limit of its name, so one that is one less or one more
/// is refused here.
pub fn hold()
    ensures size { LEAST_SIZE ≡ least_size }
    ensures payload { MOST_PAYLOAD ≡ most_payload }
    ensures payloads { MOST_PAYLOADS ≡ most_payloads }
    ensures grouped { MOST_GROUPED ≡ most_grouped }
{}
