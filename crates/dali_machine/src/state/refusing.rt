ghost use Rattle.std.specs.Prelude.{◌≡◌, ℕ, ◌≤◌, IsTrue};
ghost use Rattle.dali_line.specs.Grammar.{HasFields, IsQuantity};
ghost use Rattle.dali_line.specs.declared.command.Verb.{Verb as Wish};
ghost use Rattle.dali_machine.specs.Refusals.{is_units, is_entry, refusal, unknown_pair};

mod entry;
mod queued;

use super::State;
use crate::outcome::Code;
use dali_account::limits::{MOST_ACCOUNTS, MOST_CODES};
use dali_base::limits::MOST_TOTAL;
use dali_base::{Moment, Name};
use dali_line::Verb;

impl State {
    /// Why the verb is refused at this moment. `None` where it isn't.
    #[tactic(auto, using(crate::proofs::Allowed::cutoff_free, crate::proofs::Allowed::cycle_free, crate::proofs::Allowed::queue_free, crate::proofs::Allowed::close_free))]
    pub(crate) fn refusal(&self, moment: Moment, verb: &Verb) -> Option<Code>
        ensures { result ≡ refusal self.now.machine moment verb.now }
    {
        match verb {
            Verb::Part { account } => self.part_refusal(*account),
            Verb::Inst { code, .. } => self.inst_refusal(*code),
            Verb::Issue { .. } | Verb::Draw { .. } | Verb::Earmark { .. } | Verb::Release { .. } =>
                self.units_refusal(verb),
            Verb::Dvp { .. } | Verb::Fop { .. } | Verb::Pay { .. } => {
                self.entry_refusal(moment, verb)
            }
            Verb::Cancel { id } => self.queued_refusal(*id),
            Verb::Settle { id } => self.settle_refusal(moment, *id),
            Verb::Stat { account } | Verb::Ledger { account } => self.report_refusal(*account),
            Verb::Link { first, second } => self.link_refusal(*first, *second),
            Verb::Rank { id, .. } => self.queued_refusal(*id),
            Verb::Cutoff { .. } | Verb::Cycle { .. } | Verb::Queue | Verb::Close => None,
        }
    }

    #[tactic(auto, unfolding(crate::specs::Refusals::refusal))]
    fn part_refusal(&self, account: Name) -> Option<Code>
        ensures { (t : ℕ) → result ≡ refusal self.now.machine t (Wish.Part account) }
    {
        if self.book.has_account(account) {
            Some(Code::There)
        } else if self.book.accounts() >= MOST_ACCOUNTS {
            Some(Code::Full)
        } else {
            None
        }
    }

    #[tactic(auto, unfolding(crate::specs::Refusals::refusal))]
    fn inst_refusal(&self, code: Name) -> Option<Code>
        ensures { (t price : ℕ) → result ≡ refusal self.now.machine t (Wish.Inst code price) }
    {
        if self.book.has_asset(code) {
            Some(Code::There)
        } else if self.book.assets() >= MOST_CODES {
            Some(Code::Full)
        } else {
            None
        }
    }

    #[tactic(auto, unfolding(crate::specs::Refusals::refusal))]
    fn report_refusal(&self, account: Name) -> Option<Code>
        ensures stat { (t : ℕ) → result ≡ refusal self.now.machine t (Wish.Stat account) }
        ensures ledger { (t : ℕ) → result ≡ refusal self.now.machine t (Wish.Ledger account) }
    {
        if self.book.has_account(account) {
            None
        } else {
            Some(Code::Name)
        }
    }

    /// Of the verbs that name an account, an asset and a quantity.
    fn units_refusal(&self, verb: &Verb) -> Option<Code>
        requires { IsTrue (is_units verb.now) }
        ensures { (t : ℕ) → result ≡ refusal self.now.machine t verb.now }
    {
        match verb {
            Verb::Issue {
                account,
                asset,
                quantity,
            } => self.issue_refusal(*account, *asset, *quantity),
            Verb::Draw {
                account,
                asset,
                quantity,
            }
            | Verb::Earmark {
                account,
                asset,
                quantity,
            } => self.draw_refusal(*account, *asset, *quantity),
            Verb::Release {
                account,
                asset,
                quantity,
            } => self.release_refusal(*account, *asset, *quantity),
            _ => None,
        }
    }

    #[tactic(auto, unfolding(crate::specs::Refusals::refusal))]
    fn issue_refusal(&self, account: Name, asset: Name, quantity: u64) -> Option<Code>
        ensures { (t : ℕ) → result ≡ refusal self.now.machine t (Wish.Issue account asset quantity) }
    {
        if self.is_unknown_pair(account, asset) {
            Some(Code::Name)
        } else if quantity > MOST_TOTAL - self.book.total(asset) {
            Some(Code::Total)
        } else {
            None
        }
    }

    #[tactic(auto, unfolding(crate::specs::Refusals::refusal))]
    fn draw_refusal(&self, account: Name, asset: Name, quantity: u64) -> Option<Code>
        ensures draw { (t : ℕ) → result ≡ refusal self.now.machine t (Wish.Draw account asset quantity) }
        ensures earmark { (t : ℕ) → result ≡ refusal self.now.machine t (Wish.Earmark account asset quantity) }
    {
        if self.is_unknown_pair(account, asset) {
            Some(Code::Name)
        } else if self.book.balance(account, asset) < quantity {
            Some(Code::Short)
        } else {
            None
        }
    }

    #[tactic(auto, unfolding(crate::specs::Refusals::refusal))]
    fn release_refusal(&self, account: Name, asset: Name, quantity: u64) -> Option<Code>
        ensures { (t : ℕ) → result ≡ refusal self.now.machine t (Wish.Release account asset quantity) }
    {
        if self.is_unknown_pair(account, asset) {
            Some(Code::Name)
        } else if self.book.earmarked(account, asset) < quantity {
            Some(Code::Short)
        } else {
            None
        }
    }

    fn is_unknown_pair(&self, account: Name, asset: Name) -> bool
        ensures { result ≡ unknown_pair self.now.machine account asset }
    {
        !(self.book.has_account(account) && self.book.has_asset(asset))
    }
}
