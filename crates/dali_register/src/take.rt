ghost use Rattle.std.specs.Prelude.{◌≡◌, ◌+◌, ◌<◌, ◌^◌, ◌++◌, List, length, OnOk};
ghost use Rattle.dali_entry.specs.EntryRecord.{EntryRecord};
ghost use Rattle.dali_journal.specs.Limits.{most_payloads};
ghost use Rattle.dali_outside.specs.Outside.{Sight};
ghost use Rattle.dali_register.specs.Standing.{IsAtSite, SoFar};
ghost use Rattle.dali_register.specs.Taking.{Took};

use crate::refusal::RegisterNo;
use crate::register::Register;
use dali_base::OutOfMemory;
use dali_line::Line;
use dali_outside::Site;

impl Register {
    /// Takes the command of this line as an entry of the journal's edition, after fewer than 2^63 commands, where fewer than 64 are
    /// held back. An accepted
    /// CYCLE is searched, appended and printed by itself, behind what was held back; any other command is held back,
    /// and once 64 are, they are appended and printed.
    ///
    /// `JournalFull` comes exactly where the record made doesn't fit behind those of all commands before it, which are
    /// then on the device and printed, as they are at want of memory. `DiskFault` and `PrintFault` come only where their
    /// count rose.
    pub fn take<T: Site>(&mut self, line: Line, site: &mut T) -> Result<(), RegisterNo>
        requires few { self.old.state.machine.commands < 2 ^ 63 }
        requires at_site { IsAtSite self.old (T.sight site.old) }
        requires room { length self.old.group < most_payloads }
        ensures took { (before : Sight) (found added held : List EntryRecord) → SoFar T.tells before found added held self.old (T.sight site.old) →
            Took T.tells before found (added ++ held) line self.new (T.sight site.old) (T.sight site.new) result }
        ensures counted { OnOk result (self.new.state.machine.commands ≡ self.old.state.machine.commands + 1) }
        ensures edition { self.new.journal.edition ≡ self.old.journal.edition }
    {
        match self
            .state
            .cycle_input(self.alloc, self.journal.edition(), &line)
        {
            Ok(Some(cycle)) => self.take_cycle(line, &cycle.0.problem, cycle.1, site),
            Ok(None) => self.take_plain(line, site),
            Err(OutOfMemory) => self.end_wanting(site),
        }
    }
}
