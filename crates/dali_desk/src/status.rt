ghost use Rattle.std.specs.Prelude.{◌≡◌, ◌+◌, ◌++◌, ◌≤◌, take, decimal, length};
ghost use Rattle.dali_desk.specs.StatusLine.{line_of, words_of as words_of_status, rest_of, damage_word, number_of};

use dali_journal::Damage;
use dali_verdict::Why;

/// How a run ended.
#[derive(Clone, Copy, Debug, PartialEq, Eq)]
pub enum Status {
    /// Of `day` the input was read to its end, each command stands in the journal, and its reply was printed, and of `gate`
    /// so with the merge of its inboxes; of `check` the verdict was printed, and the input is a block of an allowed choice;
    /// of `init` the journal was made.
    Done,
    /// Of `check` the verdict was printed, and the input isn't a block of an allowed choice, for this reason.
    Invalid(Why),
    /// The words are none of the table.
    Usage,
    /// The source failed.
    ReadFault,
    /// The site failed to print.
    PrintFault,
    /// The disk failed.
    DiskFault,
    /// The journal spells no legal history: the first place that is wrong, counted from 0, and what is first wrong there.
    Damaged { place: u64, why: Damage },
    /// The journal is of another file, from this command on, counted from 1. Of `follow` the frame with this number is
    /// another one than the journal's entry.
    OtherDay { command: u64 },
    /// This command, counted from 1, has more than 200 bytes.
    LongLine { command: u64 },
    /// Of `day` the next command doesn't end within the 67,108,864 bytes that a day file may have, and there was one byte
    /// more; of `gate` the input has more than 67,108,864 bytes, or the merge is such a file; of `check` the input has more
    /// than 1,073,741,824 bytes.
    LongFile,
    /// The next record doesn't fit into the journal: the bytes that it needs, and the bytes left.
    JournalFull { need: u64, left: u64 },
    /// Memory was wanted and wasn't there.
    OutOfMemory,
    /// Of `gate` the whole input was read and is no gateway input: the length of its longest front with which some gateway
    /// input begins. Nothing was read from the site or printed.
    NoGate { place: u64 },
    /// Of `follow` the frame at this place of the stream, counted from 0, is none that may come.
    BadFrame { place: u64 },
}

/// The line that the program prints on standard error for the status, without LF, put into the front of `into`; its
/// length is returned, which is 0 at `Done`. The lines are defined in `specs/StatusLine.antt`. Takes no memory.
pub fn status_line(status: &Status, into: &mut [u8; 160]) -> usize
    ensures line { take result into.new ≡ line_of status.now }
    ensures within { result ≤ 160 }
{
    let len = put_behind(into, 0, words_of(status));
    match status {
        Status::Damaged { place, why } => {
            let len = put_number(into, len, *place);
            let len = put_behind(into, len, b": ");
            put_behind(into, len, damage_word(*why))
        }
        Status::OtherDay { command } | Status::LongLine { command } => {
            put_number(into, len, *command)
        }
        Status::JournalFull { need, left } => {
            let len = put_number(into, len, *need);
            let len = put_behind(into, len, b", left ");
            put_number(into, len, *left)
        }
        Status::NoGate { place } | Status::BadFrame { place } => put_number(into, len, *place),
        _ => len,
    }
}

/// Puts the bytes behind the first `len` ones, and answers how many these are then.
fn put_behind(into: &mut [u8; 160], len: usize, bytes: &[u8]) -> usize
    requires { len + length bytes.now ≤ 160 }
    ensures put { take result into.new ≡ take len into.old ++ bytes.now }
    ensures len { result ≡ len + length bytes.now }
{
    into[len..len + bytes.len()].copy_from_slice(bytes);
    len + bytes.len()
}

/// Puts the number behind the first `len` bytes.
fn put_number(into: &mut [u8; 160], len: usize, number: u64) -> usize
    requires { len + 20 ≤ 160 }
    ensures put { take result into.new ≡ take len into.old ++ decimal number }
    ensures len { result ≤ len + 20 }
{
    let mut buffer = itoa::Buffer::new();
    put_behind(into, len, buffer.format(number).as_bytes())
}

/// The words of a status's line, up to its first number.
fn words_of(status: &Status) -> &'static [u8]
    ensures words { result.now ≡ words_of_status status.now }
    ensures short { length result.now ≤ 141 }
{
    match status {
        Status::Done => b"",
        Status::Invalid(_) => b"dali: invalid",
        Status::Usage =>
            b"dali: usage: init JOURNAL SIZE, day JOURNAL, check, export JOURNAL, gen N, trial N, raise JOURNAL, gate JOURNAL, ship JOURNAL, follow JOURNAL",
        Status::ReadFault => b"dali: read fault",
        Status::PrintFault => b"dali: print fault",
        Status::DiskFault => b"dali: disk fault",
        Status::Damaged { .. } => b"dali: damaged at ",
        Status::OtherDay { .. } => b"dali: other day at command ",
        Status::LongLine { .. } => b"dali: long line at command ",
        Status::LongFile => b"dali: long file",
        Status::JournalFull { .. } => b"dali: journal full: need ",
        Status::OutOfMemory => b"dali: out of memory",
        Status::NoGate { .. } => b"dali: no gateway input at ",
        Status::BadFrame { .. } => b"dali: bad frame at ",
    }
}

/// In which way a journal is damaged.
fn damage_word(why: Damage) -> &'static [u8]
    ensures word { result.now ≡ damage_word why }
    ensures short { length result.now ≤ 7 }
{
    match why {
        Damage::Short => b"short",
        Damage::Header => b"header",
        Damage::Length => b"length",
        Damage::Entry => b"entry",
        Damage::Illegal => b"illegal",
    }
}

/// The number that the program ends with: 0 at `Done`. The numbers are defined in `specs/StatusLine.antt`.
pub fn exit_number(status: &Status) -> u8
    ensures { result ≡ number_of status.now }
{
    match status {
        Status::Done => 0,
        Status::Invalid(_) => 1,
        Status::Usage => 2,
        Status::ReadFault => 3,
        Status::PrintFault => 4,
        Status::DiskFault => 5,
        Status::Damaged { .. } => 6,
        Status::OtherDay { .. } => 7,
        Status::LongLine { .. } => 8,
        Status::LongFile => 9,
        Status::JournalFull { .. } => 10,
        Status::OutOfMemory => 11,
        Status::NoGate { .. } => 12,
        Status::BadFrame { .. } => 13,
    }
}
