use thiserror::Error;

/// Why a reader of lines gives no more commands.
#[derive(Clone, Copy, Debug, PartialEq, Eq, Error)]
pub enum LineEnd {
    /// The source failed: its count of faults rose, or stands at u64's last value.
    #[error("read fault")]
    ReadFault,
    /// This command, counted from 1, has more than 200 bytes.
    #[error("long line at command {command}")]
    LongLine { command: u64 },
    /// The next command doesn't end within 67,108,864 bytes, and one byte more was taken.
    #[error("long file")]
    LongFile,
    /// Memory was wanted and wasn't there.
    #[error("out of memory")]
    OutOfMemory,
}
