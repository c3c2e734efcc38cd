ghost use Rattle.std.specs.Prelude.{◌≡◌, ◌+◌, ◌<◌, ◌^◌, ◌++◌, ◌∷◌, [], ℕ, List, IfOk, OnOk};
ghost use Rattle.dali_machine.specs.Cycles.{accepted_cycle};
ghost use Rattle.dali_machine.specs.History.{HasItsChoice};
ghost use Rattle.dali_machine.specs.Step.{judged};
ghost use Rattle.dali_register.specs.Added.{HasFinest};
ghost use Rattle.dali_trial.specs.Tried.{trial_edition, summary_of};
ghost use Rattle.dali_trial.specs.Course.{HasTaken};

use dali_base::{OutOfMemory, Text};
use dali_line::Line;
use dali_machine::State;
use dali_parts::solve_parts;
use dali_summary::Summary;
use dali_tree::Choice;
use std::alloc::Global;

/// The edition in which each line is read.
const EDITION: u8 = 1;

/// A trial between two commands: the state after those taken, and what was answered to them.
#[derive(Drop)]
pub(crate) struct Course {
    state: State,
    summary: Summary,
    alloc: Global,
}

impl Course {
    /// A trial before its first command. Takes no memory.
    pub(crate) fn new(alloc: Global) -> Course
        ensures { HasTaken [] result }
    {
        Course {
            state: State::new(alloc),
            summary: Summary::new(alloc),
            alloc,
        }
    }

    /// Takes the command of this line, with fewer than 2^63 taken before. The error is want of memory.
    pub(crate) fn take(&mut self, line: &Line) -> Result<(), OutOfMemory>
        requires few { self.old.state.machine.commands < 2 ^ 63 }
        requires few_answers { self.old.summary.commands < 2 ^ 63 }
        ensures { (lines : List (List ℕ)) → HasTaken lines self.old → OnOk result (HasTaken (lines ++ line.now ∷ []) self.new) }
    {
        // Called for its clause alone: an entry has such a line.
        let _bytes = line.bytes();
        let choice = self.choose(line)?;
        let ready = self.state.prepare(EDITION, line, choice)?;
        let number = ready.number();
        let outcome = self.state.commit(ready);
        self.summary.add(number, &outcome)
    }

    /// The choice that the line's entry has: where it is an accepted CYCLE, one with the finest parts of its problem.
    fn choose(&self, line: &Line) -> Result<Option<Choice>, OutOfMemory>
        ensures choice { IfOk result (HasItsChoice self.now.state.machine (judged trial_edition self.now.state.machine line.now)) }
        ensures finest { IfOk result (λ choice. HasFinest self.now.state.machine choice (accepted_cycle (judged trial_edition self.now.state.machine line.now))) }
    {
        match self.state.cycle_input(self.alloc, EDITION, line)? {
            Some(cycle) => Ok(Some(solve_parts(self.alloc, &cycle.0.problem, cycle.1)?)),
            None => Ok(None),
        }
    }

    /// The summary of the commands taken, in the trial of the number `n`.
    pub(crate) fn text(&self, n: u32) -> Result<Text, OutOfMemory>
        ensures { (lines : List (List ℕ)) → (taken : HasTaken lines self.now) → IfOk result (λ text. text ≡ summary_of n taken.history) }
    {
        let waiting = self.state.queue().len();
        let postings = self.state.ledger().len();
        self.summary
            .text(self.alloc, u64::from(n), waiting, postings)
    }
}
