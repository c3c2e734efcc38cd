use dali_base::Places;

/// The best set so far.
#[derive(Drop)]
pub(crate) struct Best {
    /// Its places, rising.
    pub(crate) places: Places,
    /// What it is worth, in centavos.
    pub(crate) value: u64,
}
