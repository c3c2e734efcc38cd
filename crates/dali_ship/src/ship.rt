ghost use Rattle.std.specs.Prelude.{◌≡◌, ◌<◌, ◌^◌, ℕ, List, length, take};
ghost use Rattle.dali_entry.specs.EntryRecord.{EntryRecord};
ghost use Rattle.dali_machine.specs.History.{IsLegal};
ghost use Rattle.dali_recover.specs.Spells.{AreEntriesIn};
ghost use Rattle.dali_replica.specs.Stream.{HasFrames};
ghost use Rattle.dali_ship.specs.Ending.{unshipped, ended};
ghost use Rattle.dali_ship.specs.ShipRun.{ShipRun};
ghost use Rattle.dali_replica.specs.Shipping.{frames_of, shipped};
ghost use Rattle.dali_ship.specs.Shipping.{HasFirstFrames};

use crate::printing::{PrintNo, print_frames};
use dali_journal::Damage;
use dali_outside::Site;
use dali_recover::{RecoverNo, recover};
use std::alloc::Global;

/// How a ship ended.
#[derive(Clone, Copy, Debug, PartialEq, Eq)]
pub enum ShipEnd {
    /// All frames were printed.
    Done,
    /// The site failed to print. A front of the frames is printed.
    PrintFault,
    /// The disk failed. Nothing is printed.
    DiskFault,
    /// The bytes spell no legal history: what is first wrong, and at which place, counted from 0. Nothing is printed.
    Damaged { place: u64, why: Damage },
    /// Memory was wanted and wasn't there. Nothing is printed, or a front of the frames.
    OutOfMemory,
}

/// Recovers the history that the device spells, and prints its frames: the record of each entry in order, with the number of
/// its command, counted from 1. They come in pieces of 64 KiB and more, each held in memory whole before it is printed. Nothing
/// is written; opening the journal syncs.
///
/// What it answers, when, and what it has printed at every stop is defined in `specs/ShipRun.antt`. The frames of a history
/// (`specs/Shipping.antt` of dali_replica) are those that a reader of its shipped bytes gets, by the clause `frames`, and of a
/// front of these bytes he gets the first of them, by `fronts`.
pub fn ship_journal<T: Site>(alloc: Global, site: &mut T) -> ShipEnd
    ensures run { ShipRun T.tells (T.sight site.old) (T.sight site.new) result }
    ensures frames { (edition : ℕ) (history : List EntryRecord) → AreEntriesIn edition history → IsLegal history → length history < 2 ^ 64 →
        HasFrames (shipped history) (frames_of history) }
    ensures fronts { (edition : ℕ) (history : List EntryRecord) → AreEntriesIn edition history → IsLegal history → length history < 2 ^ 64 →
        (n : ℕ) → HasFirstFrames (take n (shipped history)) history }
{
    let recovered = recover(alloc, site);
    // Called for its clause alone: a site that tells has a byte and a mark for each place.
    let _size = site.size();
    match recovered {
        Ok(found) => ended(print_frames(alloc, found.entries.as_slice(), site)),
        Err(refusal) => unshipped(refusal),
    }
}

/// How a ship ends that found a history, by how its printing ended.
fn ended(printed: Result<(), PrintNo>) -> ShipEnd
    ensures { result ≡ ended printed }
{
    match printed {
        Ok(()) => ShipEnd::Done,
        Err(PrintNo::PrintFault) => ShipEnd::PrintFault,
        Err(PrintNo::OutOfMemory) => ShipEnd::OutOfMemory,
    }
}

/// How a ship ends that found no history.
fn unshipped(refusal: RecoverNo) -> ShipEnd
    ensures { result ≡ unshipped refusal }
{
    match refusal {
        RecoverNo::DiskFault => ShipEnd::DiskFault,
        RecoverNo::Damaged { place, why } => ShipEnd::Damaged { place, why },
        RecoverNo::OutOfMemory => ShipEnd::OutOfMemory,
    }
}
