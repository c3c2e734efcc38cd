ghost use Rattle.std.specs.Prelude.{◌≡◌, ◌+◌, ◌≤◌, ◌++◌, List, OnOk};
ghost use Rattle.dali_outside.specs.Outside.{Sight, Goes};
ghost use Rattle.dali_entry.specs.EntryRecord.{EntryRecord};
ghost use Rattle.dali_journal.specs.Frames.{frames_length};
ghost use Rattle.dali_register.specs.Standing.{IsAtSite, Stands};
ghost use Rattle.dali_register.specs.Taking.{Flushed};

use crate::refusal::RegisterNo;
use crate::register::Register;
use dali_base::Seq;
use dali_journal::AppendNo;
use dali_outside::{Failed, Site};

impl Register {
    /// Appends what is held back, behind one gate write, and then prints its replies in one put. Takes no memory. Where
    /// nothing is held back, nothing is written or printed.
    pub fn flush<T: Site>(&mut self, site: &mut T) -> Result<(), RegisterNo>
        requires { IsAtSite self.old (T.sight site.old) }

        // what is kept and printed, and where the journal then stands
        ensures flushed { (before : Sight) (found added held : List EntryRecord) → Stands T.tells before found added held self.old (T.sight site.old) →
            Flushed T.tells before found added held self.new (T.sight site.old) (T.sight site.new) result }
        ensures at_site { OnOk result (IsAtSite self.new (T.sight site.new)) }

        // what stays, and how few syncs it takes
        ensures goes { Goes (T.sight site.old) (T.sight site.new) }
        ensures state { self.new.state ≡ self.old.state }
        ensures edition { self.new.journal.edition ≡ self.old.journal.edition }
        ensures left { OnOk result (self.new.journal.left + frames_length self.old.group ≡ self.old.journal.left) }
        ensures syncs { (T.sight site.new).syncs ≤ (T.sight site.old).syncs + 2 }
    {
        if self.group.len() == 0 {
            return Ok(());
        }
        match self.journal.append_group(site, &self.group) {
            Ok(()) => {}
            Err(AppendNo::DiskFault) => return Err(RegisterNo::DiskFault),
            Err(AppendNo::JournalFull { need, left }) => {
                return Err(RegisterNo::JournalFull { need, left });
            }
        }
        // Asked for its clause alone: the site tells of each of its bytes.
        let _size = site.size();
        let printed = site.put(self.replies.bytes());
        self.group.clear();
        self.replies = Seq::new(self.alloc);
        match printed {
            Ok(()) => Ok(()),
            Err(Failed) => Err(RegisterNo::PrintFault),
        }
    }
}
