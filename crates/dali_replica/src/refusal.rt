ghost use Rattle.std.specs.Prelude.{◌≡◌};
ghost use Rattle.dali_replica.specs.declared.refusal.FrameNo.TheVariants.{OutOfMemory as Memory};

use dali_base::OutOfMemory;
use thiserror::Error;

/// Why a reader of frames gives no more.
#[derive(Clone, Copy, Debug, PartialEq, Eq, Error)]
pub enum FrameNo {
    /// The source failed: its count of faults rose, or stands at u64's last value.
    #[error("read fault")]
    ReadFault,
    /// The record of the frame at this place of the stream, counted in bytes from 0, would have more than 536,870,912 bytes.
    #[error("bad length of the frame at {place}")]
    BadLength { place: u64 },
    /// The next frame doesn't end within 1,099,511,627,776 bytes, and one byte more was taken.
    #[error("long file")]
    LongFile,
    /// Memory was wanted and wasn't there.
    #[error("out of memory")]
    OutOfMemory,
}

impl From<OutOfMemory> for FrameNo {
    ghost from_gives = { λ _ e. e ≡ Memory };

    fn from(_: OutOfMemory) -> FrameNo {
        FrameNo::OutOfMemory
    }
}
