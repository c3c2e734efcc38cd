ghost use Rattle.std.specs.Prelude.{◌≡◌, IsTrue};
ghost use Rattle.dali_line.specs.declared.command.Verb.{Verb as Wish};
ghost use Rattle.dali_machine.specs.Effects.{accepted};
ghost use Rattle.dali_machine.specs.Refusals.{is_units};
ghost use Rattle.dali_machine.specs.Ready.{MayTake, HasNetFor};

use super::State;
use dali_account::Net;
use dali_base::Name;
use dali_line::Verb;

impl State {
    /// Does what a verb asks for that names an account, an asset and a quantity.
    pub(super) fn change_units(&mut self, verb: &Verb, net: &Net)
        requires units { IsTrue (is_units verb.now) }
        requires take { MayTake self.old verb.now }
        requires net { HasNetFor self.old verb.now net.now }
        ensures { self.new.machine ≡ accepted self.old.machine verb.now }
    {
        match verb {
            Verb::Issue {
                account,
                asset,
                quantity,
            } => self.issue(*account, *asset, *quantity, net),
            Verb::Draw {
                account,
                asset,
                quantity,
            } => self.draw(*account, *asset, *quantity, net),
            Verb::Earmark {
                account,
                asset,
                quantity,
            } => self.earmark(*account, *asset, *quantity, net),
            Verb::Release {
                account,
                asset,
                quantity,
            } => self.release(*account, *asset, *quantity, net),
            _ => {}
        }
    }

    #[tactic(auto, unfolding(crate::specs::Effects::accepted))]
    fn issue(&mut self, account: Name, asset: Name, quantity: u64, net: &Net)
        requires take { MayTake self.old (Wish.Issue account asset quantity) }
        requires net { HasNetFor self.old (Wish.Issue account asset quantity) net.now }
        ensures { self.new.machine ≡ accepted self.old.machine (Wish.Issue account asset quantity) }
    {
        self.book.issue(account, asset, quantity).unwrap();
        self.ledger.post(self.commands, net);
    }

    #[tactic(auto, unfolding(crate::specs::Effects::accepted))]
    fn draw(&mut self, account: Name, asset: Name, quantity: u64, net: &Net)
        requires take { MayTake self.old (Wish.Draw account asset quantity) }
        requires net { HasNetFor self.old (Wish.Draw account asset quantity) net.now }
        ensures { self.new.machine ≡ accepted self.old.machine (Wish.Draw account asset quantity) }
    {
        self.book.draw(account, asset, quantity).unwrap();
        self.ledger.post(self.commands, net);
    }

    #[tactic(auto, unfolding(crate::specs::Effects::accepted))]
    fn earmark(&mut self, account: Name, asset: Name, quantity: u64, net: &Net)
        requires take { MayTake self.old (Wish.Earmark account asset quantity) }
        requires net { HasNetFor self.old (Wish.Earmark account asset quantity) net.now }
        ensures { self.new.machine ≡ accepted self.old.machine (Wish.Earmark account asset quantity) }
    {
        self.book.earmark(account, asset, quantity).unwrap();
        self.ledger.post(self.commands, net);
    }

    #[tactic(auto, unfolding(crate::specs::Effects::accepted))]
    fn release(&mut self, account: Name, asset: Name, quantity: u64, net: &Net)
        requires take { MayTake self.old (Wish.Release account asset quantity) }
        requires net { HasNetFor self.old (Wish.Release account asset quantity) net.now }
        ensures { self.new.machine ≡ accepted self.old.machine (Wish.Release account asset quantity) }
    {
        self.book.release(account, asset, quantity).unwrap();
        self.ledger.post(self.commands, net);
    }

    /// Books the queued instruction alone, and takes it out of the queue.
    #[tactic(auto, unfolding(crate::specs::Effects::accepted))]
    pub(super) fn settle(&mut self, id: Name, net: &Net)
        requires take { MayTake self.old (Wish.Settle id) }
        requires net { HasNetFor self.old (Wish.Settle id) net.now }
        ensures { self.new.machine ≡ accepted self.old.machine (Wish.Settle id) }
    {
        self.queue.cancel(id).unwrap();
        self.book.post(net);
        self.ledger.post(self.commands, net);
    }
}
