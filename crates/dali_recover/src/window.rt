ghost use Rattle.std.specs.Prelude.{◌≡◌, ◌+◌, ◌-◌, ◌≤◌, ◌++◌, [], ◌∷◌, ℕ, List, true, false, length, IfOk, OnOk, OnErr, IfSome, IfNone, IsOk, IsErrOf, IsTrue};
ghost use Rattle.dali_outside.specs.Outside.{Rose};
ghost use Rattle.dali_journal.specs.Holds.{StandsTo, HoldsAt};
ghost use Rattle.dali_journal.specs.JournalAt.{IsTooLong, Finds};
ghost use Rattle.dali_recover.specs.Pieces.{StandFrom};
ghost use Rattle.dali_recover.specs.Taking.{Quiet};

use crate::piece::Piece;
use dali_base::Text;
use dali_journal::{Damage, Journal, OpenNo};
use dali_outside::{Failed, Site};
use std::alloc::{AllocError, Global};

/// The bytes that one read takes where so many are left. A record that is longer is read by itself.
const PIECE: u64 = 65_536;

/// Bytes of a device that were read from a place on, out of which records are taken.
#[derive(Drop)]
pub(crate) struct Window {
    pub(crate) from: u64,
    pub(crate) bytes: Vec<u8>,
}

impl Window {
    /// No bytes.
    pub(crate) fn new(alloc: Global) -> Window
        ensures { (device : List ℕ) → StandFrom result.from result.bytes.items device }
    {
        Window {
            from: 0,
            bytes: Vec::new(alloc),
        }
    }

    /// Reads on from the journal's tail, where the record there isn't here as a whole.
    pub(crate) fn reach<T: Site>(
        &mut self,
        alloc: Global,
        site: &mut T,
        journal: &Journal,
    ) -> Result<(), OpenNo>
        requires at_site { journal.now.tail + journal.now.left ≡ (T.sight site.old).size }
        requires stand { IsTrue T.tells → StandFrom self.old.from self.old.bytes.items (T.sight site.old).bytes }
        ensures stand { IsTrue T.tells → OnOk result (StandFrom self.new.from self.new.bytes.items (T.sight site.old).bytes) }
        ensures damaged { (place : ℕ) (why : Damage) → IsErrOf result (OpenNo.Damaged place why) → ⊥ }
        ensures fault { IsErrOf result OpenNo.DiskFault → Rose (T.sight site.old).disk_faults (T.sight site.new).disk_faults }
        ensures quiet { Quiet T.tells (T.sight site.old) (T.sight site.new) }
    {
        if !self.has_record(journal.tail()) {
            *self = read_from(alloc, site, journal.tail(), journal.left())?;
        }
        Ok(())
    }

    /// Whether the gate at this place is here, and where it is open the whole record. What is answered decides only how
    /// much is read at once.
    fn has_record(&self, place: u64) -> bool {
        if place < self.from {
            return false;
        }
        let first = (place - self.from) as usize;
        if self.bytes.len() < first {
            return false;
        }
        match &self.bytes[first..] {
            [0, ..] => true,
            [_, a, b, c, d, rest @ ..] => {
                u32::from_be_bytes([*a, *b, *c, *d]) as usize <= rest.len()
            }
            _ => false,
        }
    }
}

/// The bytes from `place` on, from where there are `left`: as many as a piece has.
fn read_from<T: Site>(alloc: Global, site: &mut T, place: u64, left: u64) -> Result<Window, OpenNo>
    requires { place + left ≡ (T.sight site.old).size }
    ensures stand { IsTrue T.tells → IfOk result (λ window. StandFrom window.from window.bytes.items (T.sight site.old).bytes) }
    ensures damaged { (place : ℕ) (why : Damage) → IsErrOf result (OpenNo.Damaged place why) → ⊥ }
    ensures fault { IsErrOf result OpenNo.DiskFault → Rose (T.sight site.old).disk_faults (T.sight site.new).disk_faults }
    ensures quiet { Quiet T.tells (T.sight site.old) (T.sight site.new) }
{
    // Called for its clause alone: a site that tells has a byte for each place.
    let _size = site.size();
    let Ok(mut bytes) = zeros(alloc, left.min(PIECE) as usize) else {
        return Err(OpenNo::OutOfMemory);
    };
    fill(site, place, &mut bytes)?;
    Ok(Window { from: place, bytes })
}

/// Fills the bytes with those of the disk from a place on.
fn fill<T: Site>(site: &mut T, place: u64, into: &mut Vec<u8>) -> Result<(), Failed>
    requires { place + length into.old.items ≤ (T.sight site.old).size }
    ensures stand { IsTrue T.tells → OnOk result (StandFrom place into.new.items (T.sight site.old).bytes) }
    ensures quiet { Quiet T.tells (T.sight site.old) (T.sight site.new) }
    ensures failed { OnErr result (Rose (T.sight site.old).disk_faults (T.sight site.new).disk_faults) }
{
    site.read(place, into.as_mut_slice())
}

fn zeros(alloc: Global, len: usize) -> Result<Vec<u8>, AllocError>
    ensures { IfOk result (λ zeros. length zeros.items ≡ len) }
{
    vec![in alloc; 0; len]
}

/// The next record of a journal: `next_record` of its bytes in the window, where it is there as a whole, and else of the
/// site.
pub(crate) fn next_record<T: Site>(
    alloc: Global,
    site: &mut T,
    window: &Window,
    journal: &mut Journal,
) -> Result<Option<Text>, OpenNo>
    requires at_site { journal.old.tail + journal.old.left ≡ (T.sight site.old).size }
    requires stand { IsTrue T.tells → StandFrom window.now.from window.now.bytes.items (T.sight site.old).bytes }

    // a payload is found, or the end
    ensures found { IsTrue T.tells → IfOk result (λ o. IfSome o (λ payload. Finds payload (T.sight site.old).bytes journal.old.tail journal.new.tail)) }
    ensures more { IsTrue T.tells → (edition : ℕ) (list : List (List ℕ)) → StandsTo journal.old.tail edition list (T.sight site.old).bytes →
        IfOk result (λ o. IfSome o (λ payload. StandsTo journal.new.tail edition (list ++ payload ∷ []) (T.sight site.old).bytes)) }
    ensures end { IsTrue T.tells → (edition : ℕ) (list : List (List ℕ)) → StandsTo journal.old.tail edition list (T.sight site.old).bytes →
        IfOk result (λ o. IfNone o (HoldsAt journal.old.tail edition list (T.sight site.old).bytes)) }

    // the journal behind it
    ensures size { journal.new.tail + journal.new.left ≡ journal.old.tail + journal.old.left }
    ensures edition { journal.new.edition ≡ journal.old.edition }
    ensures moves { IfOk result (λ o. IfSome o (λ payload. journal.new ≡ record journal.old { tail = journal.old.tail + (length payload + 5); left = journal.old.left - (length payload + 5); ended = false })) }
    ensures ended { IfOk result (λ o. IfNone o (journal.new ≡ record journal.old { ended = true })) }

    // what is refused, and when
    ensures damaged { (place : ℕ) (why : Damage) → IsErrOf result (OpenNo.Damaged place why) → (place ≡ journal.old.tail) × (why ≡ Damage.Length)
        × (IsTrue T.tells → IsTooLong (T.sight site.old).size journal.old.tail (T.sight site.old).bytes) }
    ensures too_long { IsTrue T.tells → IsTooLong (T.sight site.old).size journal.old.tail (T.sight site.old).bytes → IsOk result → ⊥ }
    ensures fault { IsErrOf result OpenNo.DiskFault → Rose (T.sight site.old).disk_faults (T.sight site.new).disk_faults }

    // what stays, and the counts
    ensures quiet { Quiet T.tells (T.sight site.old) (T.sight site.new) }
{
    match next_in(alloc, site, window, journal) {
        Err(OpenNo::DiskFault) => journal.next_record(alloc, site),
        answer => answer,
    }
}

/// The next record of a journal out of the window; `DiskFault` where it isn't there as a whole.
fn next_in<T: Site>(
    alloc: Global,
    site: &T,
    window: &Window,
    journal: &mut Journal,
) -> Result<Option<Text>, OpenNo>
    requires at_site { journal.old.tail + journal.old.left ≡ (T.sight site.now).size }
    requires stand { IsTrue T.tells → StandFrom window.now.from window.now.bytes.items (T.sight site.now).bytes }

    // a payload is found, or the end
    ensures found { IsTrue T.tells → IfOk result (λ o. IfSome o (λ payload. Finds payload (T.sight site.now).bytes journal.old.tail journal.new.tail)) }
    ensures more { IsTrue T.tells → (edition : ℕ) (list : List (List ℕ)) → StandsTo journal.old.tail edition list (T.sight site.now).bytes →
        IfOk result (λ o. IfSome o (λ payload. StandsTo journal.new.tail edition (list ++ payload ∷ []) (T.sight site.now).bytes)) }
    ensures end { IsTrue T.tells → (edition : ℕ) (list : List (List ℕ)) → StandsTo journal.old.tail edition list (T.sight site.now).bytes →
        IfOk result (λ o. IfNone o (HoldsAt journal.old.tail edition list (T.sight site.now).bytes)) }

    // the journal behind it
    ensures size { journal.new.tail + journal.new.left ≡ journal.old.tail + journal.old.left }
    ensures edition { journal.new.edition ≡ journal.old.edition }
    ensures moves { IfOk result (λ o. IfSome o (λ payload. journal.new ≡ record journal.old { tail = journal.old.tail + (length payload + 5); left = journal.old.left - (length payload + 5); ended = false })) }
    ensures ended { IfOk result (λ o. IfNone o (journal.new ≡ record journal.old { ended = true })) }

    // what is refused, and when
    ensures damaged { (place : ℕ) (why : Damage) → IsErrOf result (OpenNo.Damaged place why) → (place ≡ journal.old.tail) × (why ≡ Damage.Length)
        × (IsTrue T.tells → IsTooLong (T.sight site.now).size journal.old.tail (T.sight site.now).bytes) }
    ensures too_long { IsTrue T.tells → IsTooLong (T.sight site.now).size journal.old.tail (T.sight site.now).bytes → IsOk result → ⊥ }
    ensures unmoved { OnErr result (journal.new ≡ journal.old) }
{
    let mut piece = Piece::new(site, window.from, window.bytes.as_slice());
    journal.next_record(alloc, &mut piece)
}
