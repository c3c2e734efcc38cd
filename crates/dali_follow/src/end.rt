ghost use Rattle.std.specs.Prelude.{◌≡◌};
ghost use Rattle.dali_follow.specs.Ending.{end_of_recovery, end_of_stream, end_of_append};
ghost use Rattle.dali_follow.specs.declared.end.FollowEnd.TheVariants.{OutOfMemory as Memory};

use dali_base::OutOfMemory;
use dali_journal::{AppendNo, Damage};
use dali_recover::RecoverNo;
use dali_replica::FrameNo;
use thiserror::Error;

/// How a run of `follow` ends. Which causes each has is `specs/FollowRun.antt`.
#[derive(Clone, Copy, Debug, PartialEq, Eq, Error)]
pub enum FollowEnd {
    /// The stream was read to its end, and the number of commands held was printed.
    #[error("done")]
    Done,
    /// The source failed.
    #[error("read fault")]
    ReadFault,
    /// The site failed to print.
    #[error("print fault")]
    PrintFault,
    /// A call of the disk failed.
    #[error("the disk failed")]
    DiskFault,
    /// The device spells no legal history: the first place that is wrong, and what is first wrong there.
    #[error("damaged at {place}")]
    Damaged { place: u64, why: Damage },
    /// The frame of this command has another entry than the journal.
    #[error("other day at command {command}")]
    OtherDay { command: u64 },
    /// The frame at this place of the stream is bad, or would have too long a record.
    #[error("bad frame at {place}")]
    BadFrame { place: u64 },
    /// The stream has more than 1,099,511,627,776 bytes.
    #[error("long file")]
    LongFile,
    /// The next entry's record doesn't fit: the bytes that it needs, and the bytes left.
    #[error("need {need} bytes, {left} left")]
    JournalFull { need: u64, left: u64 },
    /// Memory was wanted and wasn't there.
    #[error("out of memory")]
    OutOfMemory,
}

impl From<OutOfMemory> for FollowEnd {
    ghost from_gives = { λ _ e. e ≡ Memory };

    fn from(_: OutOfMemory) -> FollowEnd {
        FollowEnd::OutOfMemory
    }
}

/// How a run ends where no history was recovered.
pub(crate) fn end_of_recovery(no: RecoverNo) -> FollowEnd
    ensures { result ≡ end_of_recovery no }
{
    match no {
        RecoverNo::DiskFault => FollowEnd::DiskFault,
        RecoverNo::Damaged { place, why } => FollowEnd::Damaged { place, why },
        RecoverNo::OutOfMemory => FollowEnd::OutOfMemory,
    }
}

/// Where the reader of frames gives no more.
pub(crate) fn end_of_stream(no: FrameNo) -> FollowEnd
    ensures { result ≡ end_of_stream no }
{
    match no {
        FrameNo::ReadFault => FollowEnd::ReadFault,
        FrameNo::BadLength { place } => FollowEnd::BadFrame { place },
        FrameNo::LongFile => FollowEnd::LongFile,
        FrameNo::OutOfMemory => FollowEnd::OutOfMemory,
    }
}

/// And where a record couldn't be appended.
pub(crate) fn end_of_append(no: AppendNo) -> FollowEnd
    ensures { result ≡ end_of_append no }
{
    match no {
        AppendNo::DiskFault => FollowEnd::DiskFault,
        AppendNo::JournalFull { need, left } => FollowEnd::JournalFull { need, left },
    }
}
