ghost use Rattle.std.specs.Prelude.{◌≡◌};
ghost use Rattle.dali_gateway.specs.declared.refusal.Refused.TheVariants as refused;

use dali_base::OutOfMemory;
use std::alloc::AllocFailed;
use thiserror::Error;

/// Why no gateway input was read.
#[derive(Clone, Copy, Debug, PartialEq, Eq, Error)]
pub enum GateNo {
    /// The bytes are no gateway input. The place is the length of their longest front with which some gateway input begins;
    /// `specs/Form.antt` defines it.
    #[error("no gateway input at {place}")]
    Form { place: u64 },
    /// Memory was wanted and wasn't there.
    #[error("out of memory")]
    OutOfMemory,
}

/// Why a piece of a gateway input wasn't read.
#[derive(Clone, Copy, Debug, PartialEq, Eq)]
pub(crate) enum Refused {
    /// No gateway input has these bytes here. So many of them stand behind the longest front that one may have.
    Form { left: usize },
    /// Memory was wanted and wasn't there.
    Memory,
}

impl From<OutOfMemory> for Refused {
    ghost from_gives = { λ _ e. e ≡ refused.Memory };

    fn from(_: OutOfMemory) -> Refused {
        Refused::Memory
    }
}

impl<T: Drop> From<AllocFailed<T>> for Refused {
    ghost from_gives = { λ _ e. e ≡ refused.Memory };

    fn from(_: AllocFailed<T>) -> Refused {
        Refused::Memory
    }
}
