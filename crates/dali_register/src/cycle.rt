ghost use Rattle.std.specs.Prelude.{◌≡◌, ◌+◌, ◌<◌, ◌≤◌, ◌^◌, ◌++◌, [], ℕ, List, OnOk, IfOk};
ghost use Rattle.dali_base.specs.Limits.{most_budget};
ghost use Rattle.dali_entry.specs.EntryRecord.{EntryRecord};
ghost use Rattle.dali_journal.specs.Frames.{frame_of, payload_of};
ghost use Rattle.dali_machine.specs.Ready.{CanCommit};
ghost use Rattle.dali_machine.specs.Step.{judged};
ghost use Rattle.dali_outside.specs.Outside.{Sight};
ghost use Rattle.dali_register.specs.Cycling.{AsksFor, IsMadeOf};
ghost use Rattle.dali_register.specs.Standing.{IsAtSite, Stands, SoFar, Spends};
ghost use Rattle.dali_register.specs.Taking.{Took};

use crate::making::{Made, make};
use crate::refusal::RegisterNo;
use crate::register::Register;
use dali_base::OutOfMemory;
use dali_entry::Entry;
use dali_journal::{AppendNo, Sealed, frame};
use dali_line::Line;
use dali_outside::{Failed, Site};
use dali_parts::solve_parts;
use dali_problem::Problem;

impl Register {
    /// Takes an accepted CYCLE, of this problem and budget, by itself: what is held back is appended and printed before
    /// its set is searched.
    pub(crate) fn take_cycle<T: Site>(
        &mut self,
        line: Line,
        problem: &Problem,
        budget: u64,
        site: &mut T,
    ) -> Result<(), RegisterNo>
        requires few { self.old.state.machine.commands < 2 ^ 63 }
        requires at_site { IsAtSite self.old (T.sight site.old) }
        requires budget { budget ≤ most_budget }
        requires cycle { AsksFor problem.now budget self.old.state.machine (judged self.old.journal.edition self.old.state.machine line) }
        ensures took { (before : Sight) (found added held : List EntryRecord) → SoFar T.tells before found added held self.old (T.sight site.old) →
            Took T.tells before found (added ++ held) line self.new (T.sight site.old) (T.sight site.new) result }
        ensures counted { OnOk result (self.new.state.machine.commands ≡ self.old.state.machine.commands + 1) }
        ensures edition { self.new.journal.edition ≡ self.old.journal.edition }
    {
        self.flush(site)?;
        match self.make_cycle(line, problem, budget) {
            Ok(made) => self.add_cycle(made.0, &made.1, site),
            Err(OutOfMemory) => Err(RegisterNo::OutOfMemory),
        }
    }

    /// Searches the set of a cycle, and makes its entry ready with its frame.
    fn make_cycle(
        &mut self,
        line: Line,
        problem: &Problem,
        budget: u64,
    ) -> Result<(Made, Sealed), OutOfMemory>
        requires few { self.old.state.machine.commands < 2 ^ 63 }
        requires budget { budget ≤ most_budget }
        requires cycle { AsksFor problem.now budget self.old.state.machine (judged self.old.journal.edition self.old.state.machine line) }

        // what is made
        ensures made { IfOk result (λ made. IsMadeOf self.old.journal.edition self.old.state.machine line made.0) }
        ensures frame { IfOk result (λ made. made.1 ≡ frame_of made.0.record) }
        ensures payload { IfOk result (λ made. payload_of made.1 ≡ made.0.record) }
        ensures room { IfOk result (λ made. CanCommit self.new.state made.0.ready) }

        // what stays
        ensures machine { self.new.state.machine ≡ self.old.state.machine }
        ensures journal { self.new.journal ≡ self.old.journal }
        ensures group { self.new.group ≡ self.old.group }
        ensures replies { self.new.replies ≡ self.old.replies }
    {
        // Called for its clause alone: an entry has such a line.
        let _bytes = line.bytes();
        // Called for its clause alone: the problem is within its limits.
        let _items = problem.items();
        let choice = solve_parts(self.alloc, problem, budget)?;
        let entry = Entry {
            edition: self.journal.edition(),
            line,
            choice: Some(choice),
        };
        let made = make(self.alloc, &mut self.state, entry)?;
        let sealed = frame(self.alloc, made.record.bytes())?;
        Ok((made, sealed))
    }

    /// Appends the frame of what was made of a cycle, changes the state by it, and prints its reply. Nothing is held
    /// back.
    fn add_cycle<T: Site>(
        &mut self,
        made: Made,
        sealed: &Sealed,
        site: &mut T,
    ) -> Result<(), RegisterNo>
        requires at_site { IsAtSite self.old (T.sight site.old) }
        requires frame { sealed.now ≡ frame_of made.record }
        requires payload { payload_of sealed.now ≡ made.record }
        requires can { CanCommit self.old.state made.ready }
        ensures added { (before : Sight) (found added : List EntryRecord) (line : List ℕ) → Stands T.tells before found added [] self.old (T.sight site.old) → Spends 1 before added (T.sight site.old) →
            IsMadeOf self.old.journal.edition self.old.state.machine line made → Took T.tells before found added line self.new (T.sight site.old) (T.sight site.new) result }
        ensures counted { OnOk result (self.new.state.machine.commands ≡ self.old.state.machine.commands + 1) }
        ensures edition { self.new.journal.edition ≡ self.old.journal.edition }
    {
        match self.journal.append(site, sealed) {
            Ok(()) => {}
            Err(AppendNo::DiskFault) => return Err(RegisterNo::DiskFault),
            Err(AppendNo::JournalFull { need, left }) => {
                return Err(RegisterNo::JournalFull { need, left });
            }
        }
        // Asked for its clause alone: the site tells of each of its bytes.
        let _size = site.size();
        let _outcome = self.state.commit(made.ready);
        match site.put(made.reply.bytes()) {
            Ok(()) => Ok(()),
            Err(Failed) => Err(RegisterNo::PrintFault),
        }
    }
}
