//! What keeps up a journal from outside a day: the table of all its postings, and its next edition.
//!
//! The promise to the crates above: `export_journal` prints the table of the one history that the device spells, a front of
//! it at every stop, and writes nothing (`specs/ExportRun.antt`); `raise_journal` brings a sound journal one edition up in
//! place, and every image since its start spells what an image at the start spelled, in that image's edition or the next
//! (`specs/RaiseRun.antt`).
#![tactic(auto)]

mod export;
mod raise;
#[cfg(test)]
mod tests;

pub use export::{ExportEnd, export_journal};
pub use raise::{RaiseEnd, raise_journal};
