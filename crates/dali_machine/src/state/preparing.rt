ghost use Rattle.std.specs.Prelude.{◌≡◌, ◌≢◌, ℕ, ◌<◌, ◌≤◌, ◌^◌, pos, None, IfOk, OnOk, IsTrue};
ghost use Rattle.dali_line.specs.Grammar.{HasFields};
ghost use Rattle.dali_line.specs.declared.command.Verb.{Verb as Wish};
ghost use Rattle.dali_machine.specs.Effects.{net_for, one_move};
ghost use Rattle.dali_machine.specs.Step.{judged, turn};
ghost use Rattle.dali_machine.specs.History.{HasItsChoice};
ghost use Rattle.dali_machine.specs.Outcomes.{answered};
ghost use Rattle.dali_machine.specs.Refused.{is_told_apart};
ghost use Rattle.dali_machine.specs.Ready.{HasGoodFields, HasRoomFor, HasPlaceFor, IsAllowed, IsMadeReady, IsReady, CanCommit, net_of_judged};

use super::State;
use super::cycling::accepted_cycle;
use crate::judged::Judged;
use crate::outcome::{Code, Outcome};
use crate::ready::Ready;
use dali_account::{Move, Net};
use dali_base::{Name, OutOfMemory, Seq};
use dali_line::{Line, Verb};
use dali_tree::Choice;
use dali_waiting::{held, waiting};
use std::alloc::Global;

impl State {
    /// Judges the line in this edition as `specs/Step.antt` defines, and takes all memory that its command needs. What is
    /// returned has the judgement, the answer and the command's number, and `commit` may take it. A line is no command
    /// in edition 0 and in those above 4, and so refused with FORM. The state stays as it was but for spare room, at want
    /// of memory too, which is the only error. Fewer than 2^63 commands were taken before.
    ///
    /// A choice is there exactly where the line is an accepted CYCLE, and then it fits and is allowed for the problem of
    /// its moment and its budget.
    pub fn prepare(
        &mut self,
        edition: u8,
        line: &Line,
        choice: Option<Choice>,
    ) -> Result<Ready, OutOfMemory>
        requires few { self.old.machine.commands < 2 ^ 63 }
        requires choice { HasItsChoice self.old.machine (judged edition self.old.machine line.now) choice }
        ensures machine { self.new.machine ≡ self.old.machine }
        ensures ready { IfOk result (IsReady edition self.old.machine line.now choice) }
        ensures room { IfOk result (CanCommit self.new) }
    {
        let judged = self.judge(edition, line.bytes());
        match (accepted_cycle(&judged), choice) {
            (Some(cycle), Some(choice)) => self.make_cycle_ready(cycle.0, cycle.1, choice),
            _ => self.make_ready(judged),
        }
    }

    /// Takes all memory that a judged line needs which is no cycle.
    fn make_ready(&mut self, judged: Judged) -> Result<Ready, OutOfMemory>
        requires few { self.old.machine.commands < 2 ^ 63 }
        requires fields { HasGoodFields judged }
        requires allowed { IsAllowed self.old.machine judged }
        requires apart { IsTrue (is_told_apart judged) }
        ensures machine { self.new.machine ≡ self.old.machine }
        ensures made { IfOk result (IsMadeReady self.old.machine judged None) }
        ensures room { IfOk result (CanCommit self.new) }
    {
        let net = self.net_of_judged(&judged)?;
        self.make_room(&judged, &net)?;
        let outcome = self.outcome_of(&judged)?;
        Ok(Ready::new(
            judged,
            outcome,
            self.commands + 1,
            net,
            Seq::new(self.alloc),
        ))
    }

    /// What is answered to a judged line.
    fn outcome_of(&self, judged: &Judged) -> Result<Outcome, OutOfMemory>
        ensures { IfOk result (λ outcome. outcome ≡ (turn self.now.machine judged.now None).outcome) }
    {
        match judged {
            Judged::Form => Ok(Outcome::No { code: Code::Form }),
            Judged::Back => Ok(Outcome::No { code: Code::Back }),
            Judged::No { code, .. } => Ok(Outcome::No { code: *code }),
            Judged::Yes { verb, .. } => self.answer(verb),
        }
    }

    /// What is answered to an accepted verb.
    fn answer(&self, verb: &Verb) -> Result<Outcome, OutOfMemory>
        ensures { IfOk result (λ outcome. outcome ≡ answered self.now.machine verb.now) }
    {
        match verb {
            Verb::Queue => {
                let rows = waiting(self.alloc, &self.queue)?;
                Ok(Outcome::Queue { rows })
            }
            Verb::Stat { account } => {
                let pairs = self.book.pairs(self.alloc, *account)?;
                let ids = held(self.alloc, &self.queue, *account)?;
                Ok(Outcome::Stat { pairs, ids })
            }
            Verb::Ledger { account } => {
                let rows = self.ledger.rows_of(self.alloc, *account)?;
                Ok(Outcome::Ledger { rows })
            }
            _ => Ok(Outcome::Done),
        }
    }

    /// Makes room for what the command changes.
    pub(super) fn make_room(&mut self, judged: &Judged, net: &Net) -> Result<(), OutOfMemory>
        ensures machine { self.new.machine ≡ self.old.machine }
        ensures room { OnOk result (HasRoomFor self.new judged.now net.now) }
    {
        let Ok(lines) = u32::try_from(net.len()) else {
            return Err(OutOfMemory);
        };
        self.book.reserve(lines)?;
        self.ledger.reserve(lines)?;
        match judged {
            Judged::Yes { verb, .. } => self.make_place(verb),
            _ => Ok(()),
        }
    }

    /// Makes room for the name or the instruction that the verb adds.
    fn make_place(&mut self, verb: &Verb) -> Result<(), OutOfMemory>
        ensures machine { self.new.machine ≡ self.old.machine }
        ensures lines { self.new.lines ≡ self.old.lines }
        ensures rows { self.new.rows ≡ self.old.rows }
        ensures place { OnOk result (HasPlaceFor self.new verb.now) }
    {
        match verb {
            Verb::Part { account } => self.book.ready_account(*account),
            Verb::Inst { code, .. } => self.book.ready_asset(*code),
            Verb::Dvp { .. } | Verb::Fop { .. } | Verb::Pay { .. } => self.queue.reserve(1),
            _ => Ok(()),
        }
    }

    /// The net that a judged line books.
    fn net_of_judged(&self, judged: &Judged) -> Result<Net, OutOfMemory>
        requires { HasGoodFields judged.now }
        ensures { IfOk result (λ net. net ≡ net_of_judged self.now.machine judged.now None) }
    {
        match judged {
            Judged::Yes { verb, .. } => self.net_for(verb),
            _ => Ok(Net::new(self.alloc)),
        }
    }

    /// The net that an accepted verb books.
    #[tactic(auto, unfolding(crate::specs::Effects::net_for))]
    fn net_for(&self, verb: &Verb) -> Result<Net, OutOfMemory>
        requires { HasFields verb.now }
        ensures { IfOk result (λ net. net ≡ net_for self.now.machine verb.now) }
    {
        match verb {
            Verb::Issue {
                account,
                asset,
                quantity,
            }
            | Verb::Release {
                account,
                asset,
                quantity,
            } => one_move(self.alloc, account, asset, *quantity as i64),
            Verb::Draw {
                account,
                asset,
                quantity,
            }
            | Verb::Earmark {
                account,
                asset,
                quantity,
            } => one_move(self.alloc, account, asset, -(*quantity as i64)),
            Verb::Settle { id } => self.settle_net(*id),
            _ => Ok(Net::new(self.alloc)),
        }
    }

    /// The net of the queued instruction alone.
    #[tactic(auto, unfolding(crate::specs::Effects::net_for))]
    fn settle_net(&self, id: Name) -> Result<Net, OutOfMemory>
        ensures { IfOk result (λ net. net ≡ net_for self.now.machine (Wish.Settle id)) }
    {
        let Some(place) = self.queue.place(id) else {
            return Ok(Net::new(self.alloc));
        };
        let mut places = Seq::new(self.alloc);
        places.push(place)?;
        self.queue.net(self.alloc, &places)
    }
}

/// The net of one move that isn't of 0.
fn one_move(alloc: Global, account: &Name, asset: &Name, delta: i64) -> Result<Net, OutOfMemory>
    requires { delta ≢ pos 0 }
    ensures { IfOk result (λ net. net ≡ one_move account.now asset.now delta) }
{
    let mut net = Net::new(alloc);
    net.push(Move {
        account: *account,
        asset: *asset,
        delta,
    })?;
    Ok(net)
}
