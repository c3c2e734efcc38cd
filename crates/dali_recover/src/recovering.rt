ghost use Rattle.std.specs.Prelude.{◌≡◌, ◌⊎◌, ◌+◌, ◌<◌, ◌≤◌, ℕ, List, [], false, IfOk, IsErrOf, IsTrue, MatchResult};
ghost use Rattle.dali_outside.specs.Outside.{Rose, Goes, now};
ghost use Rattle.dali_outside.specs.Stops.{MayLeave, LeavesOnly};
ghost use Rattle.dali_entry.specs.EntryRecord.{EntryRecord};
ghost use Rattle.dali_journal.specs.Holds.{HoldsAt};
ghost use Rattle.dali_journal.specs.Appends.{IsFirm};
ghost use Rattle.dali_recover.specs.Spells.{records_of, Spells, SpellsLegal};
ghost use Rattle.dali_recover.specs.Damaged.{ReadsTo, DamagedAt};
ghost use Rattle.dali_recover.specs.Recovers.{IsReadTo, IsFound, RestsWith, IsWant};
ghost use Rattle.dali_recover.specs.Pieces.{StandFrom};
ghost use Rattle.dali_recover.specs.Taking.{Quiet, no_at};

use crate::found::Found;
use crate::refusal::{Denial, RecoverNo};
use crate::taking::take_payload;
use crate::window::{Window, next_record};
use dali_base::Seq;
use dali_journal::{Damage, Journal, open_journal};
use dali_machine::State;
use dali_outside::Site;
use std::alloc::Global;

/// The legal history that the device spells, with the state after it and the journal at its closed gate. Opens the
/// journal, which syncs, and reads its records in one pass, as many at once as a piece has; nothing is written, and nothing
/// is searched.
///
/// `Damaged` comes exactly where the calls of the disk worked, memory was there and the bytes spell no legal history,
/// with the first place that is wrong, and what is first wrong there. `DiskFault` comes only where the count of disk
/// faults rose. A length is compared with the size before memory is taken for it.
pub fn recover<T: Site>(alloc: Global, site: &mut T) -> Result<Found, RecoverNo>

    // what is answered, and when
    ensures found { IfOk result (IsFound (T.sight site.old).size) }
    ensures rests { IsTrue T.tells → IfOk result (λ found. RestsWith found (T.sight site.new)) }
    ensures damaged { IsTrue T.tells → (place : ℕ) (why : Damage) → IsErrOf result (RecoverNo.Damaged place why) → DamagedAt (T.sight site.old).bytes place why }
    ensures spelled { IsTrue T.tells → (history : List EntryRecord) → SpellsLegal (T.sight site.old).bytes history →
        MatchResult result (λ found. found.entries ≡ history) IsWant }
    ensures only { IsTrue T.tells → (place : ℕ) (why : Damage) → DamagedAt (T.sight site.old).bytes place why →
        MatchResult result (λ found. ⊥) (λ e. (e ≡ RecoverNo.Damaged place why) ⊎ IsWant e) }
    ensures one_history { (image : List ℕ) (history other : List EntryRecord) → Spells image history → Spells image other → history ≡ other }
    ensures fault { IsErrOf result RecoverNo.DiskFault → Rose (T.sight site.old).disk_faults (T.sight site.new).disk_faults }

    // the disk, then and at every stop
    ensures bytes { IsTrue T.tells → (T.sight site.new).bytes ≡ (T.sight site.old).bytes }
    ensures firm { IsTrue T.tells → (IsErrOf result RecoverNo.DiskFault → ⊥) → IsFirm (T.sight site.new) }
    ensures stops { IsTrue T.tells → LeavesOnly (MayLeave (now (T.sight site.old))) (T.sight site.old) (T.sight site.new) }

    // what stays, and the counts
    ensures silent { IsTrue T.tells → (T.sight site.new).printed ≡ (T.sight site.old).printed }
    ensures goes { Goes (T.sight site.old) (T.sight site.new) }
    ensures syncs { (T.sight site.new).syncs ≤ (T.sight site.old).syncs + 1 }
{
    read_device(alloc, site)
}

/// Opens the journal and reads its records up to its closed gate.
fn read_device<T: Site>(alloc: Global, site: &mut T) -> Result<Found, RecoverNo>

    // what is answered, and when
    ensures found { IfOk result (IsFound (T.sight site.old).size) }
    ensures rests { IsTrue T.tells → IfOk result (λ found. RestsWith found (T.sight site.new)) }
    ensures damaged { IsTrue T.tells → (place : ℕ) (why : Damage) → IsErrOf result (RecoverNo.Damaged place why) → DamagedAt (T.sight site.old).bytes place why }
    ensures fault { IsErrOf result RecoverNo.DiskFault → Rose (T.sight site.old).disk_faults (T.sight site.new).disk_faults }

    // the disk, then and at every stop
    ensures bytes { IsTrue T.tells → (T.sight site.new).bytes ≡ (T.sight site.old).bytes }
    ensures firm { IsTrue T.tells → (IsErrOf result RecoverNo.DiskFault → ⊥) → IsFirm (T.sight site.new) }
    ensures stops { IsTrue T.tells → LeavesOnly (MayLeave (now (T.sight site.old))) (T.sight site.old) (T.sight site.new) }

    // what stays, and the counts
    ensures silent { IsTrue T.tells → (T.sight site.new).printed ≡ (T.sight site.old).printed }
    ensures goes { Goes (T.sight site.old) (T.sight site.new) }
    ensures syncs { (T.sight site.new).syncs ≤ (T.sight site.old).syncs + 1 }
{
    // Called for its clause alone, here and below: a site that tells has a byte and a mark for each place.
    let _size = site.size();
    let journal = open_journal(alloc, site)?;
    let found = read_history(alloc, site, journal)?;
    let _size = site.size();
    Ok(found)
}

/// Reads the records of a journal that was just opened, up to its closed gate.
fn read_history<T: Site>(alloc: Global, site: &mut T, journal: Journal) -> Result<Found, RecoverNo>
    requires at_site { journal.tail + journal.left ≡ (T.sight site.old).size }
    requires first { journal.tail ≡ 16 }
    requires opened { IsTrue T.tells → ReadsTo 16 journal.edition [] (T.sight site.old).bytes }

    // what is answered, and when
    ensures found { IfOk result (IsFound (T.sight site.old).size) }
    ensures holds { IsTrue T.tells → IfOk result (λ found. HoldsAt found.journal.tail found.journal.edition (records_of found.entries) (T.sight site.old).bytes) }
    ensures damaged { IsTrue T.tells → (place : ℕ) (why : Damage) → IsErrOf result (RecoverNo.Damaged place why) → DamagedAt (T.sight site.old).bytes place why }
    ensures fault { IsErrOf result RecoverNo.DiskFault → Rose (T.sight site.old).disk_faults (T.sight site.new).disk_faults }

    // what stays, and the counts
    ensures quiet { Quiet T.tells (T.sight site.old) (T.sight site.new) }
{
    let mut found = Found {
        state: State::new(alloc),
        entries: Seq::new(alloc),
        journal,
    };
    let mut window = Window::new(alloc);
    loop {
        window.reach(alloc, site, &found.journal)?;
        if !take_next(alloc, site, &window, &mut found)? {
            return Ok(found);
        }
    }
}

/// Takes the entry of the next record, out of the window where it is there: whether there was one.
fn take_next<T: Site>(
    alloc: Global,
    site: &mut T,
    window: &Window,
    found: &mut Found,
) -> Result<bool, RecoverNo>
    requires stand { IsTrue T.tells → StandFrom window.now.from window.now.bytes.items (T.sight site.old).bytes }
    requires read { IsReadTo (T.sight site.old).size found.old }
    requires reads { IsTrue T.tells → ReadsTo found.old.journal.tail found.old.journal.edition found.old.entries (T.sight site.old).bytes }

    // where there may be more
    ensures read { IfOk result (λ more. IsTrue more → IsReadTo (T.sight site.old).size found.new) }
    ensures reads { IsTrue T.tells → IfOk result (λ more. IsTrue more → ReadsTo found.new.journal.tail found.new.journal.edition found.new.entries (T.sight site.old).bytes) }
    ensures shorter { IfOk result (λ more. IsTrue more → found.new.journal.left < found.old.journal.left) }

    // at the end
    ensures found { IfOk result (λ more. more ≡ false → IsFound (T.sight site.old).size found.new) }
    ensures holds { IsTrue T.tells → IfOk result (λ more. more ≡ false → HoldsAt found.new.journal.tail found.new.journal.edition (records_of found.new.entries) (T.sight site.old).bytes) }

    // what is refused, and when
    ensures damaged { IsTrue T.tells → (place : ℕ) (why : Damage) → IsErrOf result (RecoverNo.Damaged place why) → DamagedAt (T.sight site.old).bytes place why }
    ensures fault { IsErrOf result RecoverNo.DiskFault → Rose (T.sight site.old).disk_faults (T.sight site.new).disk_faults }

    // what stays, and the counts
    ensures quiet { Quiet T.tells (T.sight site.old) (T.sight site.new) }
{
    // Called for its clause alone: a site that tells has a byte for each place.
    let _size = site.size();
    let place = found.journal.tail();
    let edition = found.journal.edition();
    match next_record(alloc, site, window, &mut found.journal)? {
        None => Ok(false),
        Some(payload) => {
            match take_payload(
                alloc,
                edition,
                payload.bytes(),
                &mut found.state,
                &mut found.entries,
            ) {
                Ok(()) => Ok(true),
                Err(denial) => Err(no_at(place, denial)),
            }
        }
    }
}

/// What is answered where the payload of the record at this place is denied.
fn no_at(place: u64, denial: Denial) -> RecoverNo
    ensures { result ≡ no_at place denial }
{
    match denial {
        Denial::Entry => RecoverNo::Damaged {
            place,
            why: Damage::Entry,
        },
        Denial::Illegal => RecoverNo::Damaged {
            place,
            why: Damage::Illegal,
        },
        Denial::OutOfMemory => RecoverNo::OutOfMemory,
    }
}
