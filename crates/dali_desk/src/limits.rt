//! The limits of the words, each once. They are defined in `specs/Limits.antt`, and `hold` says that each constant is the limit
//! of its name.
ghost use Rattle.std.specs.Prelude.{◌≡◌};
ghost use Rattle.dali_desk.specs.Limits.{most_size, most_gated};

use dali_line::limits::MOST_FILE;

/// The greatest size of a journal, in bytes.
pub const MOST_SIZE: u64 = 1 << 40;

/// The most bytes of the input of `gate`: as many as a day file may have.
pub const MOST_GATED: usize = MOST_FILE as usize;

/// Does nothing. It stands for its clauses: each constant is the limit of its name, so one that is one less or one more
/// is refused here.
pub fn hold()
    ensures size { MOST_SIZE ≡ most_size }
    ensures gated { MOST_GATED ≡ most_gated }
{}
