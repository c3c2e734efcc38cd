ghost use Rattle.std.specs.Prelude.{◌≡◌, ◌≢◌, ◌↔◌, ◌+◌, ◌-◌, ◌≤◌, ◌<◌, [], ◌∷◌, ℕ, List, true, false, length, is_ok, OnOk, OnErr, IsErrOf, IsTrue};
ghost use Rattle.dali_outside.specs.Outside.{Rose, Goes, overlay};
ghost use Rattle.dali_journal.specs.Frames.{payload_of, frames_length, AreFrames, AreShort};
ghost use Rattle.dali_journal.specs.Appends.{AtRest, Appends, StaysOutside};

use crate::firm::write_firm;
use crate::group::Group;
use crate::journal::Journal;
use crate::refusal::AppendNo;
use crate::sealed::Sealed;
use dali_outside::{Failed, Site};

impl Journal {
    /// Appends the payload of a frame, under the condition that a `next_record` gave `None`. Takes no memory.
    ///
    /// Where nothing is loose and the device holds a list, whose closed gate is the tail: each stop in the call leaves
    /// the list, or the list with that payload at its end; the longer one only after the first of the two syncs; and
    /// after Ok the device holds the longer one, nothing is loose, and the tail is its closed gate.
    ///
    /// `JournalFull` comes exactly where the frame and the gate before it don't fit, with the bytes that they need and
    /// the bytes left; nothing is written then. `DiskFault` comes only where the count of disk faults rose. Either list
    /// may then stand, and the journal is given up. At every answer the bytes before the tail and behind the frame stay.
    pub fn append<T: Site>(&mut self, site: &mut T, frame: &Sealed) -> Result<(), AppendNo>
        requires at_site { self.old.tail + self.old.left ≡ (T.sight site.old).size }
        requires ended { self.old.ended ≡ true }

        // the disk, at every stop and then
        ensures stops { IsTrue T.tells → (edition : ℕ) (list : List (List ℕ)) → AtRest self.old.tail edition list (T.sight site.old) →
            Appends (is_ok result) self.old.tail edition list (payload_of frame.now ∷ []) frame.now (T.sight site.old) (T.sight site.new) }
        ensures bytes { IsTrue T.tells → OnOk result ((T.sight site.new).bytes ≡ overlay (T.sight site.old).bytes self.old.tail (1 ∷ frame.now)) }
        ensures outside { IsTrue T.tells → StaysOutside self.old.tail (length frame.now + 1) (T.sight site.old) (T.sight site.new) }

        // the journal behind it
        ensures moved { OnOk result (self.new ≡ record self.old { tail = self.old.tail + length frame.now; left = self.old.left - length frame.now }) }
        ensures fits { OnOk result (length frame.now < self.old.left) }

        // what is answered, and when
        ensures full { (need left : ℕ) → IsErrOf result (AppendNo.JournalFull need left) ↔ ((self.old.left < length frame.now + 1) × (need ≡ length frame.now + 1) × (left ≡ self.old.left)) }
        ensures unwritten { self.old.left < length frame.now + 1 → (self.new ≡ self.old) × (T.sight site.new ≡ T.sight site.old) }
        ensures given_up { IsErrOf result AppendNo.DiskFault → self.new ≡ record self.old { ended = false } }
        ensures fault { IsErrOf result AppendNo.DiskFault → Rose (T.sight site.old).disk_faults (T.sight site.new).disk_faults }

        // what stays, and the counts
        ensures silent { IsTrue T.tells → (T.sight site.new).printed ≡ (T.sight site.old).printed }
        ensures goes { Goes (T.sight site.old) (T.sight site.new) }
        ensures syncs { (T.sight site.new).syncs ≤ (T.sight site.old).syncs + 2 }
    {
        self.append_frames(site, frame.bytes())
    }

    /// Appends the payloads of a group that isn't empty, under the condition that a `next_record` gave `None`.
    /// Takes no memory, and makes one gate write for all of them.
    ///
    /// Where nothing is loose and the device holds a list, whose closed gate is the tail: each stop in the call leaves
    /// the list, or the list with all the payloads at its end; the longer one only after the first of the two syncs;
    /// and after Ok the device holds the longer one, nothing is loose, and the tail is its closed gate.
    ///
    /// `JournalFull` comes exactly where the group's bytes and a gate don't fit, with the bytes that they need and the
    /// bytes left; nothing is written then. `DiskFault` comes only where the count of disk faults rose. Either list may
    /// then stand, and the journal is given up. At every answer the bytes before the tail and behind the frames stay.
    pub fn append_group<T: Site>(&mut self, site: &mut T, group: &Group) -> Result<(), AppendNo>
        requires at_site { self.old.tail + self.old.left ≡ (T.sight site.old).size }
        requires ended { self.old.ended ≡ true }
        requires filled { group.now ≢ [] }

        // the disk, at every stop and then
        ensures stops { IsTrue T.tells → (edition : ℕ) (list : List (List ℕ)) → AtRest self.old.tail edition list (T.sight site.old) →
            (frames : List ℕ) × AreFrames group.now frames × (length frames ≡ frames_length group.now) × Appends (is_ok result) self.old.tail edition list group.now frames (T.sight site.old) (T.sight site.new) }
        ensures bytes { IsTrue T.tells → OnOk result ((frames : List ℕ) × AreFrames group.now frames × ((T.sight site.new).bytes ≡ overlay (T.sight site.old).bytes self.old.tail (1 ∷ frames))) }
        ensures outside { IsTrue T.tells → StaysOutside self.old.tail (frames_length group.now + 1) (T.sight site.old) (T.sight site.new) }

        // the journal behind it
        ensures moved { OnOk result (self.new ≡ record self.old { tail = self.old.tail + frames_length group.now; left = self.old.left - frames_length group.now }) }
        ensures fits { OnOk result (frames_length group.now < self.old.left) }

        // what is answered, and when
        ensures full { (need left : ℕ) → IsErrOf result (AppendNo.JournalFull need left) ↔ ((self.old.left < frames_length group.now + 1) × (need ≡ frames_length group.now + 1) × (left ≡ self.old.left)) }
        ensures unwritten { self.old.left < frames_length group.now + 1 → (self.new ≡ self.old) × (T.sight site.new ≡ T.sight site.old) }
        ensures given_up { IsErrOf result AppendNo.DiskFault → self.new ≡ record self.old { ended = false } }
        ensures fault { IsErrOf result AppendNo.DiskFault → Rose (T.sight site.old).disk_faults (T.sight site.new).disk_faults }

        // what stays, and the counts
        ensures silent { IsTrue T.tells → (T.sight site.new).printed ≡ (T.sight site.old).printed }
        ensures goes { Goes (T.sight site.old) (T.sight site.new) }
        ensures syncs { (T.sight site.new).syncs ≤ (T.sight site.old).syncs + 2 }
    {
        self.append_frames(site, group.frames())
    }

    /// Puts frames behind the gate at the tail, and opens it.
    fn append_frames<T: Site>(&mut self, site: &mut T, frames: &[u8]) -> Result<(), AppendNo>
        requires at_site { self.old.tail + self.old.left ≡ (T.sight site.old).size }
        requires ended { self.old.ended ≡ true }

        // the disk, at every stop and then
        ensures stops { IsTrue T.tells → (edition : ℕ) (list more : List (List ℕ)) → AreFrames more frames.now → AreShort more →
            AtRest self.old.tail edition list (T.sight site.old) →
            Appends (is_ok result) self.old.tail edition list more frames.now (T.sight site.old) (T.sight site.new) }
        ensures bytes { IsTrue T.tells → OnOk result ((T.sight site.new).bytes ≡ overlay (T.sight site.old).bytes self.old.tail (1 ∷ frames.now)) }
        ensures outside { IsTrue T.tells → StaysOutside self.old.tail (length frames.now + 1) (T.sight site.old) (T.sight site.new) }

        // the journal behind it
        ensures moved { OnOk result (self.new ≡ record self.old { tail = self.old.tail + length frames.now; left = self.old.left - length frames.now }) }
        ensures fits { OnOk result (length frames.now < self.old.left) }

        // what is answered, and when
        ensures full { (need left : ℕ) → IsErrOf result (AppendNo.JournalFull need left) ↔ ((self.old.left < length frames.now + 1) × (need ≡ length frames.now + 1) × (left ≡ self.old.left)) }
        ensures unwritten { self.old.left < length frames.now + 1 → (self.new ≡ self.old) × (T.sight site.new ≡ T.sight site.old) }
        ensures given_up { IsErrOf result AppendNo.DiskFault → self.new ≡ record self.old { ended = false } }
        ensures fault { IsErrOf result AppendNo.DiskFault → Rose (T.sight site.old).disk_faults (T.sight site.new).disk_faults }

        // what stays, and the counts
        ensures silent { IsTrue T.tells → (T.sight site.new).printed ≡ (T.sight site.old).printed }
        ensures goes { Goes (T.sight site.old) (T.sight site.new) }
        ensures syncs { (T.sight site.new).syncs ≤ (T.sight site.old).syncs + 2 }
    {
        let _size = site.size();
        let len = frames.len() as u64;
        if self.left < len + 1 {
            return Err(AppendNo::JournalFull {
                need: len + 1,
                left: self.left,
            });
        }
        match write_behind(site, self.tail, frames) {
            Ok(()) => {
                self.tail += len;
                self.left -= len;
                Ok(())
            }
            Err(Failed) => {
                self.ended = false;
                Err(AppendNo::DiskFault)
            }
        }
    }
}

/// Puts frames behind the gate at the tail, and then opens it: two writes, each followed by a sync.
fn write_behind<T: Site>(site: &mut T, tail: u64, frames: &[u8]) -> Result<(), Failed>
    requires { tail + length frames.now < (T.sight site.old).size }

    // the disk, at every stop and then
    ensures stops { IsTrue T.tells → (edition : ℕ) (list more : List (List ℕ)) → AreFrames more frames.now → AreShort more →
        AtRest tail edition list (T.sight site.old) →
        Appends (is_ok result) tail edition list more frames.now (T.sight site.old) (T.sight site.new) }
    ensures bytes { IsTrue T.tells → OnOk result ((T.sight site.new).bytes ≡ overlay (T.sight site.old).bytes tail (1 ∷ frames.now)) }
    ensures outside { IsTrue T.tells → StaysOutside tail (length frames.now + 1) (T.sight site.old) (T.sight site.new) }

    // what stays, and the counts
    ensures silent { IsTrue T.tells → (T.sight site.new).printed ≡ (T.sight site.old).printed }
    ensures goes { Goes (T.sight site.old) (T.sight site.new) }
    ensures syncs { (T.sight site.new).syncs ≤ (T.sight site.old).syncs + 2 }
    ensures failed { OnErr result (Rose (T.sight site.old).disk_faults (T.sight site.new).disk_faults) }
{
    let _size = site.size();
    match write_firm(site, tail + 1, frames) {
        Ok(()) => write_firm(site, tail, &[1]),
        Err(Failed) => Err(Failed),
    }
}
