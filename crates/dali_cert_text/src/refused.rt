ghost use Rattle.std.specs.Prelude.{◌≡◌};
ghost use Rattle.dali_cert_text.specs.declared.refused.Refused.TheVariants.{Memory};

use dali_base::OutOfMemory;

/// Why a row wasn't taken.
#[derive(Clone, Copy, Debug, PartialEq, Eq)]
pub(crate) enum Refused {
    /// No block has the row here.
    Form,
    /// Memory was wanted and wasn't there.
    Memory,
}

impl From<OutOfMemory> for Refused {
    ghost from_gives = { λ _ e. e ≡ Memory };

    fn from(_: OutOfMemory) -> Refused {
        Refused::Memory
    }
}
