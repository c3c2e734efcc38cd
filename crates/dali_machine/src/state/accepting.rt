ghost use Rattle.std.specs.Prelude.{◌≡◌};
ghost use Rattle.dali_line.specs.declared.command.Verb.{Verb as Wish};
ghost use Rattle.dali_machine.specs.Effects.{accepted};
ghost use Rattle.dali_machine.specs.Ready.{MayTake, HasNetFor};

use super::State;
use dali_account::Net;
use dali_base::Name;
use dali_line::Verb;

impl State {
    /// Does what the accepted verb asks for.
    #[tactic(auto, unfolding(crate::specs::Effects::accepted))]
    pub(super) fn accept(&mut self, verb: &Verb, net: &Net)
        requires take { MayTake self.old verb.now }
        requires net { HasNetFor self.old verb.now net.now }
        ensures { self.new.machine ≡ accepted self.old.machine verb.now }
    {
        match verb {
            Verb::Part { account } => self.add_account(*account),
            Verb::Inst { code, price } => self.add_asset(*code, *price),
            Verb::Issue { .. } | Verb::Draw { .. } | Verb::Earmark { .. } | Verb::Release { .. } =>
                self.change_units(verb, net),
            Verb::Dvp { .. } | Verb::Fop { .. } | Verb::Pay { .. } => self.enter_verb(verb),
            Verb::Cancel { id } => self.cancel(*id),
            Verb::Settle { id } => self.settle(*id, net),
            Verb::Cutoff { kind, moment } => self.queue.set_cutoff(*kind, *moment),
            Verb::Close => self.closed = true,
            Verb::Link { first, second } => self.link(*first, *second),
            Verb::Rank { id, rank } => self.rank(*id, *rank),
            Verb::Cycle { .. } | Verb::Queue | Verb::Stat { .. } | Verb::Ledger { .. } => {}
        }
    }

    #[tactic(auto, unfolding(crate::specs::Effects::accepted))]
    fn add_account(&mut self, account: Name)
        requires { MayTake self.old (Wish.Part account) }
        ensures { self.new.machine ≡ accepted self.old.machine (Wish.Part account) }
    {
        self.book.add_account(account).unwrap();
    }

    #[tactic(auto, unfolding(crate::specs::Effects::accepted))]
    fn add_asset(&mut self, code: Name, price: u64)
        requires { MayTake self.old (Wish.Inst code price) }
        ensures { self.new.machine ≡ accepted self.old.machine (Wish.Inst code price) }
    {
        self.book.add_asset(code, price).unwrap();
    }

    #[tactic(auto, unfolding(crate::specs::Effects::accepted))]
    fn cancel(&mut self, id: Name)
        requires { MayTake self.old (Wish.Cancel id) }
        ensures { self.new.machine ≡ accepted self.old.machine (Wish.Cancel id) }
    {
        self.queue.cancel(id).unwrap();
    }

    #[tactic(auto, unfolding(crate::specs::Effects::accepted))]
    fn link(&mut self, first: Name, second: Name)
        requires { MayTake self.old (Wish.Link first second) }
        ensures { self.new.machine ≡ accepted self.old.machine (Wish.Link first second) }
    {
        self.queue.link(first, second);
    }

    #[tactic(auto, unfolding(crate::specs::Effects::accepted))]
    fn rank(&mut self, id: Name, rank: u8)
        requires { MayTake self.old (Wish.Rank id rank) }
        ensures { self.new.machine ≡ accepted self.old.machine (Wish.Rank id rank) }
    {
        self.queue.set_rank(id, rank);
    }
}
