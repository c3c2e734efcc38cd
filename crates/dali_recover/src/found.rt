use dali_journal::Journal;
use dali_machine::State;
use dali_record::Entries;

/// A history that was found on a device. What each part of it says of the others is `IsFound` of `specs/Recovers.antt`.
#[derive(Drop)]
pub struct Found {
    /// The state after the history.
    pub state: State,
    /// The history.
    pub entries: Entries,
    /// The journal that holds its records, at its closed gate.
    pub journal: Journal,
}
