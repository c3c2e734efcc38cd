ghost use Rattle.std.specs.Prelude.{◌≡◌, ℕ, ◌+◌, ◌≤◌, List, Option, Some};
ghost use Rattle.dali_tree.specs.declared.choice.Choice.{Choice};
ghost use Rattle.dali_machine.specs.Kept.{IsMachine};
ghost use Rattle.dali_machine.specs.Step.{one_command_more, turn, step};
ghost use Rattle.dali_machine.specs.Outcomes.{IsReported};
ghost use Rattle.dali_machine.specs.Refused.{LeavesAll, IsAnswered};
ghost use Rattle.dali_machine.specs.Totals.{KeepsTotals};
ghost use Rattle.dali_machine.specs.Ready.{CanCommit, IsReady, cycle_in};
ghost use Rattle.dali_machine.specs.declared.outcome.Code.{Code};

use super::State;
use crate::judged::Judged;
use crate::outcome::Outcome;
use crate::ready::Ready;

impl State {
    /// Takes the command that was prepared last, on this state as it is since, and gives its answer. Takes no memory,
    /// and refuses nothing. The state afterwards is that of the step of the prepared line (`specs/Step.antt`).
    ///
    /// A refused command leaves all but the count and the greatest moment as it was (`specs/Refused.antt`). An asset's
    /// total changes by an accepted ISSUE or DRAW of it alone, by the quantity (`specs/Totals.antt`). The greatest
    /// moment never falls.
    pub fn commit(&mut self, ready: Ready) -> Outcome
        requires { CanCommit self.old ready }

        // what is answered, and the state then
        ensures outcome { result ≡ ready.outcome }
        ensures next { self.new.machine ≡ (turn (one_command_more self.old.machine) ready.judged (cycle_in ready.outcome)).next }
        ensures reported { IsReported result }
        ensures counted { self.new.machine.commands ≡ self.old.machine.commands + 1 }

        // what a refusal leaves, and what no command changes
        ensures refused { (code : Code) → result ≡ Outcome.No code → LeavesAll code self.old.machine self.new.machine }
        ensures totals { KeepsTotals ready.judged self.old.machine.book self.new.machine.book }

        // this is the step
        ensures step { (edition : ℕ) (line : List ℕ) (choice : Option Choice) → IsReady edition self.old.machine line choice ready → self.new.machine ≡ (step edition self.old.machine line choice).next }
        ensures rises { (edition : ℕ) (line : List ℕ) (choice : Option Choice) → IsReady edition self.old.machine line choice ready → self.old.machine.greatest ≤ self.new.machine.greatest }
    {
        self.take_turn(ready)
    }

    /// Changes the state by what was judged.
    fn take_turn(&mut self, ready: Ready) -> Outcome
        requires { CanCommit self.old ready }
        ensures outcome { result ≡ ready.outcome }
        ensures next { self.new.machine ≡ (turn (one_command_more self.old.machine) ready.judged (cycle_in ready.outcome)).next }
        ensures kept { IsMachine self.old.machine }
        ensures answered { IsAnswered ready.judged ready.outcome }
        ensures reported { IsReported ready.outcome }
    {
        let (judged, outcome, number, net, places) = ready.into_parts();
        self.commands = number;
        match judged {
            Judged::Form | Judged::Back => {}
            Judged::No { moment, .. } => self.greatest = moment,
            Judged::Yes { moment, verb } => {
                self.greatest = moment;
                match &outcome {
                    Outcome::Cycle { .. } => self.book_set(&places, &net),
                    _ => self.accept(&verb, &net),
                }
            }
        }
        outcome
    }
}
