ghost use Rattle.std.specs.Prelude.{◌≡◌, ℕ, IfSome, option_copied};
ghost use Rattle.dali_line.specs.declared.command.Verb.{Verb as Wish};
ghost use Rattle.dali_queue.specs.Instruction.{IsInstruction};
ghost use Rattle.dali_machine.specs.Refusals.{refusal, is_short};
ghost use Rattle.dali_queue.specs.Queue.{item_of};

use crate::outcome::Code;
use crate::state::State;
use dali_account::cash_name;
use dali_base::{Moment, Name};
use dali_queue::Instruction;
use dali_queue::limits::MOST_LINKED;

impl State {
    /// Of the verbs that only ask that the instruction is queued.
    #[tactic(auto, unfolding(crate::specs::Refusals::refusal))]
    pub(super) fn queued_refusal(&self, id: Name) -> Option<Code>
        ensures cancel { (t : ℕ) → result ≡ refusal self.now.machine t (Wish.Cancel id) }
        ensures rank { (t rank : ℕ) → result ≡ refusal self.now.machine t (Wish.Rank id rank) }
    {
        if self.queue.place(id).is_some() {
            None
        } else {
            Some(Code::Gone)
        }
    }

    #[tactic(auto, unfolding(crate::specs::Refusals::refusal))]
    pub(super) fn settle_refusal(&self, moment: Moment, id: Name) -> Option<Code>
        ensures { result ≡ refusal self.now.machine moment (Wish.Settle id) }
    {
        let Some(item) = self.queued(id) else {
            return Some(Code::Gone);
        };
        if self.queue.group_size(id) > 1 {
            Some(Code::Linked)
        } else if self.queue.is_late(item.kind, moment) {
            Some(Code::Late)
        } else if self.is_short(item) {
            Some(Code::Short)
        } else {
            None
        }
    }

    /// The queued instruction with this id.
    fn queued(&self, id: Name) -> Option<&Instruction>
        ensures item { option_copied result ≡ item_of self.now.machine.queue.waiting id }
        ensures bounds { IfSome result (λ item. IsInstruction item.now) }
    {
        match self.queue.place(id) {
            Some(place) => self.queue.at(place),
            None => None,
        }
    }

    /// Whether the instruction alone would leave a balance negative. It takes its quantity from the giver, and its
    /// cash from the taker.
    fn is_short(&self, item: &Instruction) -> bool
        requires { IsInstruction item.now }
        ensures { result ≡ is_short self.now.machine.book item.now }
    {
        self.book.balance(item.giver, item.code) < item.quantity
            || self.book.balance(item.taker, cash_name()) < item.cash
    }

    #[tactic(auto, unfolding(crate::specs::Refusals::refusal))]
    pub(super) fn link_refusal(&self, first: Name, second: Name) -> Option<Code>
        ensures { (t : ℕ) → result ≡ refusal self.now.machine t (Wish.Link first second) }
    {
        if self.queue.place(first).is_none() || self.queue.place(second).is_none() {
            Some(Code::Gone)
        } else if first == second {
            Some(Code::SelfDeal)
        } else if self.queue.same_group(first, second) {
            Some(Code::There)
        } else if self.queue.group_size(first) + self.queue.group_size(second) > MOST_LINKED {
            Some(Code::Full)
        } else {
            None
        }
    }
}
