ghost use Rattle.std.specs.Prelude.{◌≡◌, ◌≢◌, ◌⊎◌, ◌+◌, ◌-◌, ◌≤◌, ◌<◌, ◌^◌, ◌++◌, [], ◌∷◌, ℕ, List, true, false, length, drop, slice_index, slice_range, IfOk, OnOk, OnErr, IfSome, IfNone, IsOk, IsErrOf, IsTrue};
ghost use Rattle.std.specs.Int.{w32, from_be_bytes, to_be_bytes};
ghost use Rattle.dali_outside.specs.Outside.{Rose, Goes, SameDisk, SameText};
ghost use Rattle.dali_journal.specs.Holds.{StandsTo, HoldsAt};
ghost use Rattle.dali_journal.specs.JournalAt.{IsTooLong, Finds, HeadsPayload};

use crate::journal::Journal;
use crate::refusal::{Damage, OpenNo};
use dali_base::Text;
use dali_outside::{Failed, Site};
use std::alloc::{AllocError, Global};

impl Journal {
    /// The payload behind the gate at the tail, where it is open; the tail then moves to the gate behind it. `None`
    /// exactly where the gate is closed. Nothing is written.
    ///
    /// `Damaged` comes exactly where the gate is open and the length behind it doesn't fit; the place is the tail.
    /// `DiskFault` comes only where the count of disk faults rose. A length is compared with the size before memory is
    /// taken for it. After an error the journal is as it was.
    pub fn next_record<T: Site>(
        &mut self,
        alloc: Global,
        site: &mut T,
    ) -> Result<Option<Text>, OpenNo>
        requires at_site { self.old.tail + self.old.left ≡ (T.sight site.old).size }

        // a payload is found, or the end
        ensures found { IsTrue T.tells → IfOk result (λ o. IfSome o (λ payload. Finds payload (T.sight site.old).bytes self.old.tail self.new.tail)) }
        ensures more { IsTrue T.tells → (edition : ℕ) (list : List (List ℕ)) → StandsTo self.old.tail edition list (T.sight site.old).bytes →
            IfOk result (λ o. IfSome o (λ payload. StandsTo self.new.tail edition (list ++ payload ∷ []) (T.sight site.old).bytes)) }
        ensures closed { IsTrue T.tells → IfOk result (λ o. IfNone o (slice_index (T.sight site.old).bytes self.old.tail ≡ 0)) }
        ensures end { IsTrue T.tells → (edition : ℕ) (list : List (List ℕ)) → StandsTo self.old.tail edition list (T.sight site.old).bytes →
            IfOk result (λ o. IfNone o (HoldsAt self.old.tail edition list (T.sight site.old).bytes)) }
        ensures shut { IsTrue T.tells → slice_index (T.sight site.old).bytes self.old.tail ≡ 0 → (result ≡ Ok None) ⊎ (result ≡ Err OpenNo.DiskFault) }

        // the journal behind it
        ensures size { self.new.tail + self.new.left ≡ self.old.tail + self.old.left }
        ensures edition { self.new.edition ≡ self.old.edition }
        ensures moves { IfOk result (λ o. IfSome o (λ payload. self.new ≡ record self.old { tail = self.old.tail + (length payload + 5); left = self.old.left - (length payload + 5); ended = false })) }
        ensures ended { IfOk result (λ o. IfNone o (self.new ≡ record self.old { ended = true })) }

        // what is refused, and when
        ensures damaged { (place : ℕ) (why : Damage) → IsErrOf result (OpenNo.Damaged place why) → (place ≡ self.old.tail) × (why ≡ Damage.Length)
            × (IsTrue T.tells → IsTooLong (T.sight site.old).size self.old.tail (T.sight site.old).bytes) }
        ensures too_long { IsTrue T.tells → IsTooLong (T.sight site.old).size self.old.tail (T.sight site.old).bytes → (IsOk result → ⊥) × (IsErrOf result OpenNo.OutOfMemory → ⊥) }
        ensures fault { IsErrOf result OpenNo.DiskFault → Rose (T.sight site.old).disk_faults (T.sight site.new).disk_faults }
        ensures unmoved { OnErr result (self.new ≡ self.old) }

        // what stays, and the counts
        ensures disk { IsTrue T.tells → SameDisk (T.sight site.old) (T.sight site.new) }
        ensures text { IsTrue T.tells → SameText (T.sight site.old) (T.sight site.new) }
        ensures goes { Goes (T.sight site.old) (T.sight site.new) }
        ensures syncs { (T.sight site.new).syncs ≤ (T.sight site.old).syncs }
    {
        match payload_at(alloc, site, self.tail, self.left)? {
            Some(payload) => {
                let len = payload.len() as u64 + 5;
                self.tail += len;
                self.left -= len;
                self.ended = false;
                Ok(Some(payload))
            }
            None => {
                self.ended = true;
                Ok(None)
            }
        }
    }
}

/// The payload behind the gate at `tail`, from where there are `left` bytes. `None` where the gate is closed.
fn payload_at<T: Site>(
    alloc: Global,
    site: &mut T,
    tail: u64,
    left: u64,
) -> Result<Option<Text>, OpenNo>
    requires at_site { tail + left ≡ (T.sight site.old).size }
    requires gate { 1 ≤ left }
    requires bound { tail + left < 2 ^ 64 }

    // a payload is found, or the end
    ensures found { IsTrue T.tells → IfOk result (λ o. IfSome o (λ payload. Finds payload (T.sight site.old).bytes tail (tail + (length payload + 5)))) }
    ensures within { IfOk result (λ o. IfSome o (λ payload. length payload + 6 ≤ left)) }
    ensures inside { IsTrue T.tells → tail < length (T.sight site.old).bytes }
    ensures closed { IsTrue T.tells → IfOk result (λ o. IfNone o (slice_index (T.sight site.old).bytes tail ≡ 0)) }
    ensures shut { IsTrue T.tells → slice_index (T.sight site.old).bytes tail ≡ 0 → (result ≡ Ok None) ⊎ (result ≡ Err OpenNo.DiskFault) }

    // what is refused, and when
    ensures damaged { (place : ℕ) (why : Damage) → IsErrOf result (OpenNo.Damaged place why) → (place ≡ tail) × (why ≡ Damage.Length)
        × (IsTrue T.tells → IsTooLong (T.sight site.old).size tail (T.sight site.old).bytes) }
    ensures too_long { IsTrue T.tells → IsTooLong (T.sight site.old).size tail (T.sight site.old).bytes → (IsOk result → ⊥) × (IsErrOf result OpenNo.OutOfMemory → ⊥) }
    ensures fault { IsErrOf result OpenNo.DiskFault → Rose (T.sight site.old).disk_faults (T.sight site.new).disk_faults }

    // what stays, and the counts
    ensures disk { IsTrue T.tells → SameDisk (T.sight site.old) (T.sight site.new) }
    ensures text { IsTrue T.tells → SameText (T.sight site.old) (T.sight site.new) }
    ensures goes { Goes (T.sight site.old) (T.sight site.new) }
    ensures syncs { (T.sight site.new).syncs ≤ (T.sight site.old).syncs }
{
    let _size = site.size();
    match head_at(site, tail, left)? {
        Head::Closed => Ok(None),
        Head::TooLong => Err(OpenNo::Damaged {
            place: tail,
            why: Damage::Length,
        }),
        Head::Payload { len } => {
            let Ok(mut payload) = zeros(alloc, len) else {
                return Err(OpenNo::OutOfMemory);
            };
            fill(site, tail + 5, &mut payload)?;
            Ok(Some(Text::from_vec(payload)))
        }
    }
}

/// Fills the bytes with those of the disk from place `at` on.
fn fill<T: Site>(site: &mut T, at: u64, into: &mut Vec<u8>) -> Result<(), Failed>
    requires { at + length into.old.items ≤ (T.sight site.old).size }

    // what is read
    ensures given { IsTrue T.tells → OnOk result (into.new.items ≡ slice_range (T.sight site.old).bytes at (at + length into.old.items)) }

    // what stays, and the counts
    ensures disk { IsTrue T.tells → SameDisk (T.sight site.old) (T.sight site.new) }
    ensures text { IsTrue T.tells → SameText (T.sight site.old) (T.sight site.new) }
    ensures len { length into.new.items ≡ length into.old.items }
    ensures goes { Goes (T.sight site.old) (T.sight site.new) }
    ensures syncs { (T.sight site.new).syncs ≤ (T.sight site.old).syncs }
    ensures failed { OnErr result (Rose (T.sight site.old).disk_faults (T.sight site.new).disk_faults) }
{
    site.read(at, into.as_mut_slice())
}

fn zeros(alloc: Global, len: u32) -> Result<Vec<u8>, AllocError>
    ensures { IfOk result (λ zeros. length zeros.items ≡ len) }
{
    vec![in alloc; 0; len as usize]
}

/// What a gate and the four bytes behind it say.
enum Head {
    Closed,
    TooLong,
    Payload { len: u32 },
}

/// What the gate at `tail` says, from where there are `left` bytes.
fn head_at<T: Site>(site: &mut T, tail: u64, left: u64) -> Result<Head, Failed>
    requires at_site { tail + left ≡ (T.sight site.old).size }
    requires gate { 1 ≤ left }
    requires bound { tail + left < 2 ^ 64 }

    // what stands there
    ensures closed { IsTrue T.tells → IfOk result (λ head. head ≡ Head.Closed → slice_index (T.sight site.old).bytes tail ≡ 0) }
    ensures too_long { IsTrue T.tells → IfOk result (λ head. head ≡ Head.TooLong → IsTooLong (T.sight site.old).size tail (T.sight site.old).bytes) }
    ensures payload { IsTrue T.tells → IfOk result (λ head. (len : ℕ) → head ≡ Head.Payload len → HeadsPayload len tail (T.sight site.old).bytes) }
    ensures within { IfOk result (λ head. (len : ℕ) → head ≡ Head.Payload len → (len + 6 ≤ left) × (len < 2 ^ 32)) }

    // what stays, and the counts
    ensures disk { IsTrue T.tells → SameDisk (T.sight site.old) (T.sight site.new) }
    ensures text { IsTrue T.tells → SameText (T.sight site.old) (T.sight site.new) }
    ensures goes { Goes (T.sight site.old) (T.sight site.new) }
    ensures syncs { (T.sight site.new).syncs ≤ (T.sight site.old).syncs }
    ensures failed { OnErr result (Rose (T.sight site.old).disk_faults (T.sight site.new).disk_faults) }
{
    let _size = site.size();
    if left < 6 {
        let mut gate = [0; 1];
        site.read(tail, &mut gate)?;
        return Ok(if gate[0] == 0 {
            Head::Closed
        } else {
            Head::TooLong
        });
    }
    let mut head = [0; 5];
    site.read(tail, &mut head)?;
    Ok(head_of(&head, left))
}

/// What five bytes at a gate say, from where there are `left` bytes.
fn head_of(head: &[u8; 5], left: u64) -> Head
    requires { 6 ≤ left }
    ensures closed { result ≡ Head.Closed → slice_index head.now 0 ≡ 0 }
    ensures too_long { result ≡ Head.TooLong → (slice_index head.now 0 ≢ 0) × (left < from_be_bytes w32 (drop 1 head.now) + 6) }
    ensures payload { (len : ℕ) → result ≡ Head.Payload len → (slice_index head.now 0 ≢ 0) × (drop 1 head.now ≡ to_be_bytes w32 len) × (from_be_bytes w32 (drop 1 head.now) ≡ len) }
    ensures within { (len : ℕ) → result ≡ Head.Payload len → (len + 6 ≤ left) × (len < 2 ^ 32) }
{
    let [gate, a, b, c, d] = *head;
    let len = u32::from_be_bytes([a, b, c, d]);
    if gate == 0 {
        Head::Closed
    } else if left < u64::from(len) + 6 {
        Head::TooLong
    } else {
        Head::Payload { len }
    }
}
