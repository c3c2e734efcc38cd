/// A step of a site in memory, noted so that what stood before it can be told: the range of a write, a range that a
/// failed write made loose, a sync that worked, and the length of what was printed.
#[derive(Clone, Copy, Debug)]
pub(crate) enum Step {
    Wrote { at: usize, len: usize },
    Loosened { at: usize, len: usize },
    Synced,
    Printed { len: usize },
}
