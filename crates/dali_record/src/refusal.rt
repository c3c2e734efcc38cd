ghost use Rattle.std.specs.Prelude.{◌≡◌};
ghost use Rattle.dali_record.specs.declared.refusal.RecordNo.TheVariants as errors;

use dali_base::OutOfMemory;
use std::alloc::{AllocError, AllocFailed};
use thiserror::Error;

/// Why bytes aren't read as a record.
#[derive(Clone, Copy, Debug, PartialEq, Eq, Error)]
pub enum RecordNo {
    /// The bytes are no record.
    #[error("no record")]
    Form,
    /// Memory was wanted and wasn't there.
    #[error("out of memory")]
    OutOfMemory,
}

impl From<OutOfMemory> for RecordNo {
    ghost from_gives = { λ _ e. e ≡ errors.OutOfMemory };

    fn from(_: OutOfMemory) -> RecordNo {
        RecordNo::OutOfMemory
    }
}

impl From<AllocError> for RecordNo {
    ghost from_gives = { λ _ e. e ≡ errors.OutOfMemory };

    fn from(_: AllocError) -> RecordNo {
        RecordNo::OutOfMemory
    }
}

impl<T: Drop> From<AllocFailed<T>> for RecordNo {
    ghost from_gives = { λ _ e. e ≡ errors.OutOfMemory };

    fn from(_: AllocFailed<T>) -> RecordNo {
        RecordNo::OutOfMemory
    }
}
