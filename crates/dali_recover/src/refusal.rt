ghost use Rattle.std.specs.Prelude.{◌≡◌};
ghost use Rattle.dali_recover.specs.declared.refusal.Denial.TheVariants as denials;

use dali_base::OutOfMemory;
use dali_journal::{Damage, OpenNo};
use thiserror::Error;

/// Why no history was found.
#[derive(Clone, Copy, Debug, PartialEq, Eq, Error)]
pub enum RecoverNo {
    /// A call of the disk failed. The site's count of disk faults rose, or stands at u64's last value.
    #[error("the disk failed")]
    DiskFault,
    /// The bytes spell no legal history: what is wrong, and at which place.
    #[error("damaged at {place}")]
    Damaged { place: u64, why: Damage },
    /// Memory was wanted and wasn't there.
    #[error("out of memory")]
    OutOfMemory,
}

impl From<OpenNo> for RecoverNo {
    ghost use Rattle.dali_recover.specs.Recovers.{no_of};

    ghost from_gives = { λ cause e. e ≡ no_of cause };

    fn from(cause: OpenNo) -> RecoverNo {
        match cause {
            OpenNo::DiskFault => RecoverNo::DiskFault,
            OpenNo::Damaged { place, why } => RecoverNo::Damaged { place, why },
            OpenNo::OutOfMemory => RecoverNo::OutOfMemory,
        }
    }
}

/// Why a payload doesn't go on with the history before it.
#[derive(Clone, Copy, Debug, PartialEq, Eq, Error)]
pub(crate) enum Denial {
    /// It is no record, or one of an edition that may not stand there.
    #[error("no entry")]
    Entry,
    /// Its entry doesn't make the history legal.
    #[error("illegal")]
    Illegal,
    /// Memory was wanted and wasn't there.
    #[error("out of memory")]
    OutOfMemory,
}

impl From<OutOfMemory> for Denial {
    ghost from_gives = { λ _ e. e ≡ denials.OutOfMemory };

    fn from(_: OutOfMemory) -> Denial {
        Denial::OutOfMemory
    }
}
