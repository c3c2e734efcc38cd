//! The limits of a queue, each once. They are defined in `specs/Limits.antt`, and `hold` says that each constant is the limit
//! of its name.
ghost use Rattle.std.specs.Prelude.{◌≡◌};
ghost use Rattle.dali_queue.specs.Limits.{most_queued, most_linked};

/// The most queued instructions.
pub const MOST_QUEUED: usize = 1024;

/// The most instructions of a group.
pub const MOST_LINKED: u32 = 8;

/// Does nothing. It stands for its clauses: each constant is the limit of its name, so one that is one less or one more
/// is refused here.
pub fn hold()
    ensures queued { MOST_QUEUED ≡ most_queued }
    ensures linked { MOST_LINKED ≡ most_linked }
{}
