ghost use Rattle.std.specs.Prelude.{◌≡◌};
ghost use Rattle.dali_day.specs.Ending.{end_of_input, end_of_register, end_of_recovery};

use dali_journal::Damage;
use dali_line::LineEnd;
use dali_recover::RecoverNo;
use dali_register::RegisterNo;

/// How a day over its journal ends. Which causes each has is `specs/DayRun.antt`.
#[derive(Clone, Copy, Debug, PartialEq, Eq)]
pub enum DayEnd {
    /// Each command of the file stands in the journal, and its reply was printed.
    Done,
    /// The source failed.
    ReadFault,
    /// The site failed to print.
    PrintFault,
    /// A call of the disk failed.
    DiskFault,
    /// The device spells no legal history: the first place that is wrong, and what is first wrong there.
    Damaged { place: u64, why: Damage },
    /// The journal is of another file, from this command on.
    OtherDay { command: u64 },
    /// This command has more than 200 bytes.
    LongLine { command: u64 },
    /// The file has more than 67,108,864 bytes.
    LongFile,
    /// The next command's record doesn't fit: the bytes that it needs, and the bytes left.
    JournalFull { need: u64, left: u64 },
    /// Memory was wanted and wasn't there.
    OutOfMemory,
}

/// How the day ends where the reader of lines gives no more.
pub(crate) fn end_of_input(end: LineEnd) -> DayEnd
    ensures { result ≡ end_of_input end }
{
    match end {
        LineEnd::ReadFault => DayEnd::ReadFault,
        LineEnd::LongLine { command } => DayEnd::LongLine { command },
        LineEnd::LongFile => DayEnd::LongFile,
        LineEnd::OutOfMemory => DayEnd::OutOfMemory,
    }
}

/// How the day ends where the register couldn't take or flush.
pub(crate) fn end_of_register(no: RegisterNo) -> DayEnd
    ensures { result ≡ end_of_register no }
{
    match no {
        RegisterNo::DiskFault => DayEnd::DiskFault,
        RegisterNo::PrintFault => DayEnd::PrintFault,
        RegisterNo::JournalFull { need, left } => DayEnd::JournalFull { need, left },
        RegisterNo::OutOfMemory => DayEnd::OutOfMemory,
    }
}

/// How the day ends where no history was recovered.
pub(crate) fn end_of_recovery(no: RecoverNo) -> DayEnd
    ensures { result ≡ end_of_recovery no }
{
    match no {
        RecoverNo::DiskFault => DayEnd::DiskFault,
        RecoverNo::Damaged { place, why } => DayEnd::Damaged { place, why },
        RecoverNo::OutOfMemory => DayEnd::OutOfMemory,
    }
}
