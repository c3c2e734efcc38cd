ghost use Rattle.std.specs.Prelude.{◌≡◌, ◌+◌, ◌≤◌, ◌<◌, ◌∷◌, [], ℕ, List, OnOk, OnErr, IsTrue};
ghost use Rattle.dali_base.specs.Limits.{newest_edition};
ghost use Rattle.dali_outside.specs.Outside.{Rose, Goes, overlay};
ghost use Rattle.dali_outside.specs.Stops.{LeavesOnly};
ghost use Rattle.dali_journal.specs.Appends.{AtRest, EachHolds, EitherEdition, StaysOutside};

use crate::firm::write_firm;
use crate::journal::Journal;
use crate::refusal::DiskFault;
use dali_outside::Site;

impl Journal {
    /// Raises the journal's edition, which is below the newest, by one: writes the byte 1 in its edition byte, and
    /// syncs. Takes no memory.
    ///
    /// Where nothing is loose and the device holds a list in this edition, each stop in the call leaves that list in
    /// this edition or the next. After Ok nothing is loose and the edition is the next one. `DiskFault` comes only where
    /// the count of disk faults rose, and then either edition may stand. At every answer all bytes but that one stay.
    pub fn raise_edition<T: Site>(&mut self, site: &mut T) -> Result<(), DiskFault>
        requires at_site { self.old.tail + self.old.left ≡ (T.sight site.old).size }
        requires below { self.old.edition < newest_edition }

        // the disk, at every stop and then
        ensures stops { IsTrue T.tells → (tail : ℕ) (list : List (List ℕ)) → AtRest tail self.old.edition list (T.sight site.old) →
            LeavesOnly (EitherEdition tail self.old.edition list (T.sight site.old).printed) (T.sight site.old) (T.sight site.new) }
        ensures raised { IsTrue T.tells → (tail : ℕ) (list : List (List ℕ)) → AtRest tail self.old.edition list (T.sight site.old) →
            OnOk result (AtRest tail (self.old.edition + 1) list (T.sight site.new)) }
        ensures images { IsTrue T.tells → (tail : ℕ) (list : List (List ℕ)) → AtRest tail self.old.edition list (T.sight site.old) →
            OnOk result (EachHolds (self.old.edition + 1) list (T.sight site.new)) }
        ensures bytes { IsTrue T.tells → OnOk result ((T.sight site.new).bytes ≡ overlay (T.sight site.old).bytes (11 + self.old.edition) (1 ∷ [])) }
        ensures outside { IsTrue T.tells → StaysOutside (11 + self.old.edition) 1 (T.sight site.old) (T.sight site.new) }

        // the journal behind it
        ensures edition { OnOk result (self.new ≡ record self.old { edition = self.old.edition + 1 }) }
        ensures same { OnErr result (self.new ≡ self.old) }

        // what stays, and the counts
        ensures silent { IsTrue T.tells → (T.sight site.new).printed ≡ (T.sight site.old).printed }
        ensures goes { Goes (T.sight site.old) (T.sight site.new) }
        ensures syncs { (T.sight site.new).syncs ≤ (T.sight site.old).syncs + 1 }
        ensures failed { OnErr result (Rose (T.sight site.old).disk_faults (T.sight site.new).disk_faults) }
    {
        write_firm(site, 11 + u64::from(self.edition), &[1])?;
        self.edition += 1;
        Ok(())
    }
}
