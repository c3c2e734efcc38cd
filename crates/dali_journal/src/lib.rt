//! The journal: records behind gates on a site's disk.
//!
//! The promise to the crates above: an image holds at most one list of payloads; whatever moment a stop comes at, an
//! append leaves an image of the list before it or of the longer one, and after Ok only of the longer one; a journal is
//! read back record by record as it stands; and a device that is too short, a header that is none, and a length that
//! doesn't fit are told exactly where they are. What an image holds is defined in `specs/Holds.antt`, what an append does
//! in `specs/Appends.antt`.
#![tactic(auto)]

mod appending;
mod firm;
mod formatting;
mod group;
mod journal;
pub mod limits;
mod next;
mod open;
mod raise;
mod refusal;
mod sealed;

pub use formatting::format;
pub use group::Group;
pub use journal::Journal;
pub use limits::{MOST_PAYLOAD, MOST_PAYLOADS};
pub use open::open_journal;
pub use refusal::{AppendNo, Damage, DiskFault, OpenNo};
pub use sealed::{Sealed, frame};
