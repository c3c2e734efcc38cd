ghost use Rattle.std.specs.Prelude.{◌≡◌, IsTrue};
ghost use Rattle.dali_line.specs.declared.command.Verb.{Verb as Wish};
ghost use Rattle.dali_queue.specs.Queue.{entered};
ghost use Rattle.dali_machine.specs.Effects.{accepted, with_queue};
ghost use Rattle.dali_machine.specs.Refusals.{is_entry};
ghost use Rattle.dali_machine.specs.Ready.{MayTake, MayEnter};

use super::State;
use dali_account::cash_name;
use dali_base::{Kind, Name};
use dali_line::Verb;
use dali_queue::Instruction;

impl State {
    /// Does what a verb asks for that enters an instruction.
    pub(super) fn enter_verb(&mut self, verb: &Verb)
        requires entry { IsTrue (is_entry verb.now) }
        requires take { MayTake self.old verb.now }
        ensures { self.new.machine ≡ accepted self.old.machine verb.now }
    {
        match verb {
            Verb::Dvp {
                id,
                seller,
                buyer,
                code,
                quantity,
                cash,
            } => self.enter_dvp(*id, *seller, *buyer, *code, *quantity, *cash),
            Verb::Fop {
                id,
                from,
                to,
                code,
                quantity,
            } => self.enter_fop(*id, *from, *to, *code, *quantity),
            Verb::Pay { id, from, to, cash } => self.enter_pay(*id, *from, *to, *cash),
            _ => {}
        }
    }

    #[tactic(auto, unfolding(crate::specs::Effects::accepted))]
    fn enter_dvp(
        &mut self,
        id: Name,
        seller: Name,
        buyer: Name,
        code: Name,
        quantity: u64,
        cash: u64,
    )
        requires { MayTake self.old (Wish.Dvp id seller buyer code quantity cash) }
        ensures { self.new.machine ≡ accepted self.old.machine (Wish.Dvp id seller buyer code quantity cash) }
    {
        self.enter(Instruction {
            id,
            kind: Kind::Dvp,
            giver: seller,
            taker: buyer,
            code,
            quantity,
            cash,
            value: cash,
            rank: 1,
        });
    }

    #[tactic(auto, unfolding(crate::specs::Effects::accepted))]
    fn enter_fop(&mut self, id: Name, from: Name, to: Name, code: Name, quantity: u64)
        requires { MayTake self.old (Wish.Fop id from to code quantity) }
        ensures { self.new.machine ≡ accepted self.old.machine (Wish.Fop id from to code quantity) }
    {
        let value = self.worth(code, quantity) as u64;
        self.enter(Instruction {
            id,
            kind: Kind::Fop,
            giver: from,
            taker: to,
            code,
            quantity,
            cash: 0,
            value,
            rank: 1,
        });
    }

    #[tactic(auto, unfolding(crate::specs::Effects::accepted))]
    fn enter_pay(&mut self, id: Name, from: Name, to: Name, cash: u64)
        requires { MayTake self.old (Wish.Pay id from to cash) }
        ensures { self.new.machine ≡ accepted self.old.machine (Wish.Pay id from to cash) }
    {
        self.enter(Instruction {
            id,
            kind: Kind::Pay,
            giver: from,
            taker: to,
            code: cash_name(),
            quantity: cash,
            cash: 0,
            value: cash,
            rank: 1,
        });
    }

    /// Enters the instruction at the queue's end.
    fn enter(&mut self, item: Instruction)
        requires { MayEnter self.old item }
        ensures { self.new.machine ≡ with_queue self.old.machine (entered self.old.machine.queue item) }
    {
        self.queue.enter(item).unwrap();
    }
}
