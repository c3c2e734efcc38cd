ghost use Rattle.std.specs.Prelude.{◌≡◌, ◌+◌, ◌<◌, ◌≤◌, ◌++◌, ◌∷◌, [], Bool, List, length, OnOk, OnErr};
ghost use Rattle.dali_entry.specs.EntryRecord.{EntryRecord};
ghost use Rattle.dali_journal.specs.Frames.{frames_length};
ghost use Rattle.dali_journal.specs.Limits.{most_payloads, most_grouped};
ghost use Rattle.dali_machine.specs.Ready.{CanCommit};
ghost use Rattle.dali_outside.specs.Outside.{Sight};
ghost use Rattle.dali_register.specs.Making.{IsMade};
ghost use Rattle.dali_register.specs.Standing.{IsAtSite, Stands};
ghost use Rattle.dali_register.specs.Holding.{MayHold};

use crate::making::Made;
use crate::register::Register;
use dali_base::OutOfMemory;

impl Register {
    /// Holds back what was made of an entry, and changes the state by it. At want of memory the register stays as it was.
    pub(crate) fn hold(&mut self, made: Made) -> Result<(), OutOfMemory>
        requires room { length self.old.group < most_payloads }
        requires short { length made.record ≤ most_grouped }
        requires fits { frames_length self.old.group + (length made.record + 5) < self.old.journal.left }
        requires can { CanCommit self.old.state made.ready }

        // what is held then
        ensures held { (told : Bool) (before : Sight) (found added held : List EntryRecord) (e : EntryRecord) (sight : Sight) → Stands told before found added held self.old sight →
            IsMade e self.old.state.machine made → MayHold self.old.journal.edition self.old.state.machine e →
            OnOk result (Stands told before found added (held ++ e ∷ []) self.new sight) }
        ensures at_site { (sight : Sight) → IsAtSite self.old sight → OnOk result (IsAtSite self.new sight) }
        ensures group { OnOk result (self.new.group ≡ self.old.group ++ made.record ∷ []) }
        ensures counted { OnOk result (self.new.state.machine.commands ≡ self.old.state.machine.commands + 1) }

        // what stays
        ensures journal { self.new.journal ≡ self.old.journal }
        ensures err { OnErr result (self.new ≡ self.old) }
    {
        self.replies.add(made.reply.bytes())?;
        self.group.add(made.record.bytes());
        let _outcome = self.state.commit(made.ready);
        Ok(())
    }
}
