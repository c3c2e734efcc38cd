use thiserror::Error;

/// Why a text wasn't printed.
#[derive(Clone, Copy, Debug, PartialEq, Eq, Error)]
pub enum PutNo {
    /// The site failed to print.
    #[error("printing failed")]
    PrintFault,
    /// Memory was wanted and wasn't there. The site wasn't touched.
    #[error("out of memory")]
    OutOfMemory,
}
