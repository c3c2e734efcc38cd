use dali_entry::Entry;

/// What a frame is to a history. Each is defined in `specs/Judging.antt`.
#[derive(Drop)]
pub enum Judged {
    /// Its number is the next one, and its record is that of this entry, which may come next.
    Next { entry: Entry },
    /// The history has its entry.
    Kept,
    /// Its number is greater than the next one.
    Ahead,
    /// The history has another entry by its number.
    Other,
    /// It has no number, or its number is the next one and no entry that may come next has its record.
    Bad,
}
