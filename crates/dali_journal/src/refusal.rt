ghost use Rattle.std.specs.Prelude.{◌≡◌};

use dali_outside::Failed;
use thiserror::Error;

/// What is wrong with a journal's bytes.
#[derive(Clone, Copy, Debug, PartialEq, Eq)]
pub enum Damage {
    /// The device has fewer than 17 bytes.
    Short,
    /// The first 16 bytes are no header.
    Header,
    /// Behind an open gate a length stands that doesn't fit.
    Length,
    /// A payload is no record, or one of an edition that may not stand there.
    Entry,
    /// An entry doesn't make the history legal.
    Illegal,
}

/// A call of the disk failed. The site's count of disk faults rose, or stands at u64's last value.
#[derive(Clone, Copy, Debug, PartialEq, Eq, Error)]
#[error("the disk failed")]
pub struct DiskFault;

/// Why a journal couldn't be opened or read on.
#[derive(Clone, Copy, Debug, PartialEq, Eq, Error)]
pub enum OpenNo {
    /// A call of the disk failed.
    #[error("the disk failed")]
    DiskFault,
    /// The bytes are no journal: what is wrong, and at which place.
    #[error("damaged at {place}")]
    Damaged { place: u64, why: Damage },
    /// Memory was wanted and wasn't there.
    #[error("out of memory")]
    OutOfMemory,
}

/// Why an append didn't work.
#[derive(Clone, Copy, Debug, PartialEq, Eq, Error)]
pub enum AppendNo {
    /// A call of the disk failed. The journal is given up: either list may stand on the device.
    #[error("the disk failed")]
    DiskFault,
    /// It doesn't fit: the bytes that it needs, and the bytes left. Nothing was written.
    #[error("need {need} bytes, {left} left")]
    JournalFull { need: u64, left: u64 },
}

impl From<Failed> for DiskFault {
    fn from(_: Failed) -> DiskFault {
        DiskFault
    }
}

impl From<Failed> for OpenNo {
    ghost use Rattle.dali_journal.specs.declared.refusal.OpenNo.TheVariants.{DiskFault};

    ghost from_gives = { λ _ e. e ≡ DiskFault };

    fn from(_: Failed) -> OpenNo {
        OpenNo::DiskFault
    }
}
