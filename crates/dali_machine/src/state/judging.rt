ghost use Rattle.std.specs.Prelude.{◌≡◌, Some};
ghost use Rattle.dali_line.specs.Grammar.{HasFields};
ghost use Rattle.dali_machine.specs.Refusals.{refusal};
ghost use Rattle.dali_machine.specs.Step.{is_report, verdict, judged_command, judged};
ghost use Rattle.dali_machine.specs.Ready.{HasGoodFields};

use super::State;
use crate::judged::Judged;
use crate::outcome::Code;
use dali_line::{Command, Verb, read_line};

impl State {
    /// What the state makes of this line in this edition.
    #[tactic(auto, unfolding(crate::specs::Step::judged))]
    pub(crate) fn judge(&self, edition: u8, line: &[u8]) -> Judged
        ensures exact { result ≡ judged edition self.now.machine line.now }
        ensures fields { HasGoodFields result }
    {
        match read_line(edition, line) {
            Some(command) => self.judge_command(&command),
            None => Judged::Form,
        }
    }

    fn judge_command(&self, command: &Command) -> Judged
        requires { HasFields command.now.verb }
        ensures exact { result ≡ judged_command self.now.machine (Some command.now) }
        ensures fields { HasGoodFields result }
    {
        if command.moment < self.greatest {
            return Judged::Back;
        }
        match self.verdict(command) {
            Some(code) => Judged::No {
                moment: command.moment,
                code,
            },
            None => Judged::Yes {
                moment: command.moment,
                verb: command.verb,
            },
        }
    }

    /// Why a command that isn't back is refused.
    fn verdict(&self, command: &Command) -> Option<Code>
        requires { HasFields command.now.verb }
        ensures { result ≡ verdict self.now.machine command.now }
    {
        if self.closed && !is_report(&command.verb) {
            return Some(Code::Closed);
        }
        self.refusal(command.moment, &command.verb)
    }
}

/// Whether it is a verb that a closed day still takes.
fn is_report(verb: &Verb) -> bool
    ensures { result ≡ is_report verb.now }
{
    matches!(verb, Verb::Queue | Verb::Stat { .. } | Verb::Ledger { .. })
}
