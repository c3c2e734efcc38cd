ghost use Rattle.std.specs.Prelude.{◌≡◌, ◌+◌, ◌<◌, ◌≤◌, ◌^◌, ◌++◌, ◌∷◌, [], ℕ, List, None, length, OnOk, IsErr};
ghost use Rattle.dali_entry.specs.EntryRecord.{EntryRecord};
ghost use Rattle.dali_journal.specs.Frames.{frames_length};
ghost use Rattle.dali_journal.specs.Limits.{most_payloads};
ghost use Rattle.dali_machine.specs.History.{HasItsChoice, AreNext};
ghost use Rattle.dali_machine.specs.Machine.{opening};
ghost use Rattle.dali_machine.specs.Step.{judged};
ghost use Rattle.dali_outside.specs.Outside.{Sight};
ghost use Rattle.dali_record.specs.RecordText.{record_text};
ghost use Rattle.dali_register.specs.Standing.{IsAtSite, SoFar};
ghost use Rattle.dali_register.specs.Taking.{Took};

use crate::making::make;
use crate::refusal::RegisterNo;
use crate::register::Register;
use dali_base::OutOfMemory;
use dali_entry::Entry;
use dali_journal::MOST_PAYLOADS;
use dali_line::Line;
use dali_outside::Site;

impl Register {
    /// Takes a line that is no accepted CYCLE.
    pub(crate) fn take_plain<T: Site>(&mut self, line: Line, site: &mut T) -> Result<(), RegisterNo>
        requires few { self.old.state.machine.commands < 2 ^ 63 }
        requires at_site { IsAtSite self.old (T.sight site.old) }
        requires room { length self.old.group < most_payloads }
        requires plain { HasItsChoice self.old.state.machine (judged self.old.journal.edition self.old.state.machine line) None }
        ensures took { (before : Sight) (found added held : List EntryRecord) → SoFar T.tells before found added held self.old (T.sight site.old) →
            Took T.tells before found (added ++ held) line self.new (T.sight site.old) (T.sight site.new) result }
        ensures counted { OnOk result (self.new.state.machine.commands ≡ self.old.state.machine.commands + 1) }
        ensures edition { self.new.journal.edition ≡ self.old.journal.edition }
    {
        // Called for its clause alone: an entry has such a line.
        let _bytes = line.bytes();
        let entry = Entry {
            edition: self.journal.edition(),
            line,
            choice: None,
        };
        let Ok(made) = make(self.alloc, &mut self.state, entry) else {
            return self.end_wanting(site);
        };
        let need = made.record.len() as u64 + 6;
        if self.journal.left() - self.group.bytes() < need {
            return self.end_full(need, site);
        }
        if let Err(OutOfMemory) = self.hold(made) {
            return self.end_wanting(site);
        }
        if (self.group.len() as usize) < MOST_PAYLOADS {
            return Ok(());
        }
        self.flush(site)
    }

    /// Brings what is held back to the device and the console, and answers want of memory.
    pub(crate) fn end_wanting<T: Site>(&mut self, site: &mut T) -> Result<(), RegisterNo>
        requires { IsAtSite self.old (T.sight site.old) }
        ensures took { (before : Sight) (found added held : List EntryRecord) (line : List ℕ) → SoFar T.tells before found added held self.old (T.sight site.old) →
            Took T.tells before found (added ++ held) line self.new (T.sight site.old) (T.sight site.new) result }
        ensures err { IsErr result }
        ensures edition { self.new.journal.edition ≡ self.old.journal.edition }
    {
        self.flush(site)?;
        Err(RegisterNo::OutOfMemory)
    }

    /// Brings what is held back to the device and the console, and answers that a record with so many bytes and its
    /// gates doesn't fit behind it.
    fn end_full<T: Site>(&mut self, need: u64, site: &mut T) -> Result<(), RegisterNo>
        requires at_site { IsAtSite self.old (T.sight site.old) }
        requires full { self.old.journal.left < frames_length self.old.group + need }
        ensures took { (before : Sight) (found added held : List EntryRecord) (e : EntryRecord) → SoFar T.tells before found added held self.old (T.sight site.old) →
            e.edition ≡ self.old.journal.edition → AreNext opening 0 (((found ++ added) ++ held) ++ e ∷ []) → need ≡ length (record_text e) + 6 →
            Took T.tells before found (added ++ held) e.line self.new (T.sight site.old) (T.sight site.new) result }
        ensures err { IsErr result }
        ensures edition { self.new.journal.edition ≡ self.old.journal.edition }
    {
        self.flush(site)?;
        Err(RegisterNo::JournalFull {
            need,
            left: self.journal.left(),
        })
    }
}
