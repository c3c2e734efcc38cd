use dali_base::Seq;
use dali_line::Line;
use dali_tree::Choice;

/// One entry of a history. Contracts see it as an `EntryRecord` (`specs/EntryRecord.antt`).
#[derive(Drop)]
pub struct Entry {
    /// The edition of the grammar in which the line is read: 1 to 4 in an entry that has a record.
    pub edition: u8,
    /// The command's line.
    pub line: Line,
    /// The choice of the cycle, where the line is an accepted one.
    pub choice: Option<Choice>,
}

/// A list of entries, in the order of the history.
pub type Entries = Seq<Entry>;
