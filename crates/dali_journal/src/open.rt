ghost use Rattle.std.specs.Prelude.{◌≡◌, ◌↔◌, ◌⊎◌, ◌+◌, ◌≤◌, ◌<◌, [], ◌∷◌, ℕ, List, false, length, take, IfOk, OnOk, IfSome, IfNone, IsErrOf, IsTrue};
ghost use Rattle.dali_base.specs.Limits.{newest_edition};
ghost use Rattle.dali_outside.specs.Outside.{Rose, Goes, now};
ghost use Rattle.dali_outside.specs.Stops.{MayLeave, LeavesOnly};
ghost use Rattle.dali_journal.specs.Holds.{head_text, IsHeader, AreMarks, StandsTo, Holds};
ghost use Rattle.dali_journal.specs.Appends.{IsFirm};

use crate::journal::Journal;
use crate::refusal::{Damage, OpenNo};
use dali_outside::Site;
use std::alloc::Global;

/// Where the first gate stands.
const FIRST_GATE: u64 = 16;

/// Opens the journal on a site's disk: syncs, so that nothing is loose, and reads the header. Nothing is written, and
/// no memory is taken.
///
/// `Damaged` comes exactly where the sync and the read worked, and the device has fewer than 17 bytes (`Short`) or its
/// first 16 bytes are no header (`Header`); the place is 0. `DiskFault` comes only where the count of disk faults rose.
/// `OutOfMemory` isn't answered. What is read on from here is the one list that an image can hold.
pub fn open_journal<T: Site>(_alloc: Global, site: &mut T) -> Result<Journal, OpenNo>

    // what is answered, and when
    ensures ok { IfOk result (λ journal. (journal.tail ≡ 16) × (journal.tail + journal.left ≡ (T.sight site.old).size) × (17 ≤ (T.sight site.old).size) × (journal.ended ≡ false)) }
    ensures header { IsTrue T.tells → IfOk result (λ journal. StandsTo journal.tail journal.edition [] (T.sight site.old).bytes) }
    ensures damaged { (place : ℕ) (why : Damage) → IsErrOf result (OpenNo.Damaged place why) → (place ≡ 0)
        × (((why ≡ Damage.Short) × ((T.sight site.old).size < 17))
        ⊎ ((why ≡ Damage.Header) × (17 ≤ (T.sight site.old).size) × (IsTrue T.tells → (edition : ℕ) → IsHeader edition (take 16 (T.sight site.old).bytes) → ⊥))) }
    ensures one_list { (image : List ℕ) (edition other : ℕ) (list more : List (List ℕ)) → Holds edition list image → Holds other more image → (edition ≡ other) × (list ≡ more) }
    ensures fault { IsErrOf result OpenNo.DiskFault → Rose (T.sight site.old).disk_faults (T.sight site.new).disk_faults }
    ensures memory { IsErrOf result OpenNo.OutOfMemory → ⊥ }

    // the disk, then and at every stop
    ensures bytes { IsTrue T.tells → (T.sight site.new).bytes ≡ (T.sight site.old).bytes }
    ensures firm { IsTrue T.tells → (IsErrOf result OpenNo.DiskFault → ⊥) → IsFirm (T.sight site.new) }
    ensures stops { IsTrue T.tells → LeavesOnly (MayLeave (now (T.sight site.old))) (T.sight site.old) (T.sight site.new) }

    // what stays, and the counts
    ensures silent { IsTrue T.tells → (T.sight site.new).printed ≡ (T.sight site.old).printed }
    ensures goes { Goes (T.sight site.old) (T.sight site.new) }
    ensures syncs { (T.sight site.new).syncs ≤ (T.sight site.old).syncs + 1 }
{
    let size = site.size();
    site.sync()?;
    if size < FIRST_GATE + 1 {
        return Err(OpenNo::Damaged {
            place: 0,
            why: Damage::Short,
        });
    }
    let mut header = [0; 16];
    site.read(0, &mut header)?;
    match edition_of(&header) {
        Some(edition) => Ok(Journal {
            edition,
            tail: FIRST_GATE,
            left: size - FIRST_GATE,
            ended: false,
        }),
        None => Err(OpenNo::Damaged {
            place: 0,
            why: Damage::Header,
        }),
    }
}

/// The edition of a header of 16 bytes. `None` exactly where it is none.
fn edition_of(header: &[u8]) -> Option<u8>
    requires { length header.now ≡ 16 }
    ensures some { IfSome result (λ edition. IsHeader edition header.now) }
    ensures bound { IfSome result (λ edition. (1 ≤ edition) × (edition ≤ newest_edition)) }
    ensures none { IfNone result ((edition : ℕ) → IsHeader edition header.now → ⊥) }
{
    let (text, rest) = header.split_at(12);
    if !is_head_text(text) || rest[3] != 1 {
        return None;
    }
    edition_of_marks(rest[0], rest[1], rest[2])
}

fn is_head_text(text: &[u8]) -> bool
    ensures { IsTrue result ↔ (text.now ≡ head_text) }
{
    text == b"DALI-JOURNAL".as_slice()
}

/// The edition that three edition bytes stand for: one more than the bytes other than 0, behind which only 0 stands.
fn edition_of_marks(a: u8, b: u8, c: u8) -> Option<u8>
    ensures some { IfSome result (λ edition. (j : ℕ) × (edition ≡ j + 1) × AreMarks j (a ∷ b ∷ c ∷ [])) }
    ensures bound { IfSome result (λ edition. (1 ≤ edition) × (edition ≤ newest_edition)) }
    ensures none { IfNone result ((j : ℕ) → AreMarks j (a ∷ b ∷ c ∷ []) → ⊥) }
{
    match (a != 0, b != 0, c != 0) {
        (false, false, false) => Some(1),
        (true, false, false) => Some(2),
        (true, true, false) => Some(3),
        (true, true, true) => Some(4),
        _ => None,
    }
}
