use dali_base::Text;

/// A frame as it was read from a stream. Contracts see it as a `ShippedRecord` (`specs/Stream.antt`).
#[derive(Debug, Drop)]
pub struct Shipped {
    /// The place of its first byte in the stream, counted from 0.
    pub place: u64,
    /// The number of its command, counted from 1 in a frame that was shipped.
    pub number: u64,
    /// Its record.
    pub bytes: Text,
}
