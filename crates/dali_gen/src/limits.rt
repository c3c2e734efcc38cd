//! The sizes of a generated day, each once. They are defined in `specs/Limits.antt`, and `hold` says that each constant is the
//! size of its name.
ghost use Rattle.std.specs.Prelude.{◌≡◌};
ghost use Rattle.dali_gen.specs.Limits.{most_number, account_count, code_count, group_count, group_share};

/// The greatest number of a generated day. The least is 1.
pub const MOST_NUMBER: u32 = 64;

/// The accounts of a generated day.
pub const ACCOUNT_COUNT: u32 = 12;

/// The codes of a generated day.
pub const CODE_COUNT: u32 = 30;

/// The groups of instructions, each with a cycle behind it.
pub const GROUP_COUNT: u32 = 4;

/// How many instructions a group has for each one of the day's number.
pub const GROUP_SHARE: u32 = 4;

/// Does nothing. It stands for its clauses: each constant is the size of its name, so one that is one less or one more
/// is refused here.
pub fn hold()
    ensures number { MOST_NUMBER ≡ most_number }
    ensures accounts { ACCOUNT_COUNT ≡ account_count }
    ensures codes { CODE_COUNT ≡ code_count }
    ensures groups { GROUP_COUNT ≡ group_count }
    ensures share { GROUP_SHARE ≡ group_share }
{}
