ghost use Rattle.std.specs.Prelude.{◌≡◌};
ghost use Rattle.dali_register.specs.declared.refusal.RegisterNo.TheVariants.{OutOfMemory as Memory};

use dali_base::OutOfMemory;
use thiserror::Error;

/// Why a register couldn't take a command, or bring what it holds back to its device and its console.
#[derive(Clone, Copy, Debug, PartialEq, Eq, Error)]
pub enum RegisterNo {
    /// A call of the disk failed. The register is given up.
    #[error("the disk failed")]
    DiskFault,
    /// The site failed to print. The register is given up.
    #[error("printing failed")]
    PrintFault,
    /// The command's record doesn't fit: the bytes that it needs, and the bytes left. Nothing of it was written.
    #[error("need {need} bytes, {left} left")]
    JournalFull { need: u64, left: u64 },
    /// Memory was wanted and wasn't there.
    #[error("out of memory")]
    OutOfMemory,
}

impl From<OutOfMemory> for RegisterNo {
    ghost from_gives = { λ _ e. e ≡ Memory };

    fn from(_: OutOfMemory) -> RegisterNo {
        RegisterNo::OutOfMemory
    }
}
