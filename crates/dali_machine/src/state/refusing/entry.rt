ghost use Rattle.std.specs.Prelude.{◌≡◌, ℕ, ◌<◌, ◌^◌, IsTrue};
ghost use Rattle.dali_line.specs.declared.command.Verb.{Verb as Wish};
ghost use Rattle.dali_machine.specs.Kept.{IsMachine};
ghost use Rattle.dali_machine.specs.Refusals.{is_entry, refusal, worth, unknown_parties, place_refusal};

use crate::outcome::Code;
use crate::state::State;
use dali_account::is_cash;
use dali_base::limits::MOST_QUANTITY;
use dali_base::{Kind, Moment, Name};
use dali_line::Verb;

/// The greatest value of an instruction, in centavos.
const MOST_VALUE: u128 = MOST_QUANTITY as u128;

impl State {
    /// Of the verbs that enter an instruction.
    pub(super) fn entry_refusal(&self, moment: Moment, verb: &Verb) -> Option<Code>
        requires { IsTrue (is_entry verb.now) }
        ensures { result ≡ refusal self.now.machine moment verb.now }
    {
        match verb {
            Verb::Dvp {
                id,
                seller,
                buyer,
                code,
                ..
            } => self.dvp_refusal(moment, *id, *seller, *buyer, *code),
            Verb::Fop {
                id,
                from,
                to,
                code,
                quantity,
            } => self.fop_refusal(moment, *id, *from, *to, *code, *quantity),
            Verb::Pay { id, from, to, .. } => self.pay_refusal(moment, *id, *from, *to),
            _ => None,
        }
    }

    #[tactic(auto, unfolding(crate::specs::Refusals::refusal))]
    fn dvp_refusal(
        &self,
        moment: Moment,
        id: Name,
        seller: Name,
        buyer: Name,
        code: Name,
    ) -> Option<Code>
        ensures { (quantity amount : ℕ) → result ≡ refusal self.now.machine moment (Wish.Dvp id seller buyer code quantity amount) }
    {
        if self.queue.is_used(id) {
            Some(Code::There)
        } else if self.are_unknown(seller, buyer) || !self.book.has_asset(code) {
            Some(Code::Name)
        } else if is_cash(code) {
            Some(Code::Cash)
        } else if seller == buyer {
            Some(Code::SelfDeal)
        } else {
            self.place_refusal(Kind::Dvp, moment)
        }
    }

    #[tactic(auto, unfolding(crate::specs::Refusals::refusal))]
    fn fop_refusal(
        &self,
        moment: Moment,
        id: Name,
        from: Name,
        to: Name,
        code: Name,
        quantity: u64,
    ) -> Option<Code>
        ensures { result ≡ refusal self.now.machine moment (Wish.Fop id from to code quantity) }
    {
        if self.queue.is_used(id) {
            Some(Code::There)
        } else if self.are_unknown(from, to) || !self.book.has_asset(code) {
            Some(Code::Name)
        } else if is_cash(code) {
            Some(Code::Cash)
        } else if from == to {
            Some(Code::SelfDeal)
        } else if self.worth(code, quantity) > MOST_VALUE {
            Some(Code::Value)
        } else {
            self.place_refusal(Kind::Fop, moment)
        }
    }

    #[tactic(auto, unfolding(crate::specs::Refusals::refusal))]
    fn pay_refusal(&self, moment: Moment, id: Name, from: Name, to: Name) -> Option<Code>
        ensures { (amount : ℕ) → result ≡ refusal self.now.machine moment (Wish.Pay id from to amount) }
    {
        if self.queue.is_used(id) {
            Some(Code::There)
        } else if self.are_unknown(from, to) {
            Some(Code::Name)
        } else if from == to {
            Some(Code::SelfDeal)
        } else {
            self.place_refusal(Kind::Pay, moment)
        }
    }

    /// Why no instruction of this kind can be entered at this moment.
    fn place_refusal(&self, kind: Kind, moment: Moment) -> Option<Code>
        ensures { result ≡ place_refusal self.now.machine kind moment }
    {
        if self.queue.is_late(kind, moment) {
            Some(Code::Late)
        } else if self.queue.is_full() {
            Some(Code::Full)
        } else {
            None
        }
    }

    fn are_unknown(&self, giver: Name, taker: Name) -> bool
        ensures { result ≡ unknown_parties self.now.machine giver taker }
    {
        !self.book.has_account(giver) || !self.book.has_account(taker)
    }

    /// What a quantity of a code is worth, in centavos. 0 where there is no such code.
    pub(in crate::state) fn worth(&self, code: Name, quantity: u64) -> u128
        ensures worth { result ≡ worth self.now.machine code quantity }
        ensures machine { IsMachine self.now.machine }
    {
        let price = self.book.price(code).unwrap_or(0);
        u128::from(quantity) * u128::from(price)
    }
}
