//! The limits of a day file, each once. They are defined in `specs/Limits.antt`, and `hold` says that each constant is the
//! limit of its name.
ghost use Rattle.std.specs.Prelude.{◌≡◌};
ghost use Rattle.dali_line.specs.Limits.{most_command, most_file};

/// The most bytes of a command.
pub const MOST_COMMAND: usize = 200;

/// The most bytes of a day file.
pub const MOST_FILE: u64 = 67_108_864;

/// Does nothing. It stands for its clauses: each constant is the limit of its name, so one that is one less or one more
/// is refused here.
pub fn hold()
    ensures command { MOST_COMMAND ≡ most_command }
    ensures file { MOST_FILE ≡ most_file }
{}
