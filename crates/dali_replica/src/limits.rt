//! The limits of shipped frames, each once. They are defined in `specs/Limits.antt`, and `hold` says that each constant is the
//! limit of its name.
ghost use Rattle.std.specs.Prelude.{◌≡◌};
ghost use Rattle.dali_replica.specs.Limits.{most_record, most_stream};

/// The most bytes of a frame's record.
pub const MOST_RECORD: u32 = 536_870_912;

/// The most bytes of a stream of frames.
pub const MOST_STREAM: u64 = 1_099_511_627_776;

/// Does nothing. It stands for its clauses: each constant is the limit of its name, so one that is one less or one more
/// is refused here.
pub fn hold()
    ensures of_record { MOST_RECORD ≡ most_record }
    ensures of_stream { MOST_STREAM ≡ most_stream }
{}
