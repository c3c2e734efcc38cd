//! The limits of a book, each once. They are defined in `specs/Limits.antt`, and `hold` says that each constant is the limit
//! of its name.
ghost use Rattle.std.specs.Prelude.{◌≡◌};
ghost use Rattle.dali_account.specs.Limits.{most_accounts, most_codes};

/// The most accounts.
pub const MOST_ACCOUNTS: u32 = 1000;

/// The most codes, without `MXN`.
pub const MOST_CODES: u32 = 1000;

/// Does nothing. It stands for its clauses: each constant is the limit of its name, so one that is one less or one more
/// is refused here.
pub fn hold()
    ensures accounts { MOST_ACCOUNTS ≡ most_accounts }
    ensures codes { MOST_CODES ≡ most_codes }
{}
