ghost use Rattle.std.specs.Prelude.{◌≡◌, ◌<◌, ◌≤◌, ℕ, length, IsTrue, IsFalse};
ghost use Rattle.dali_problem.specs.declared.mark.Mark.{Mark};
ghost use Rattle.dali_problem.specs.Kept.{IsOf};
ghost use Rattle.dali_problem.specs.Partial.{mark};
ghost use Rattle.dali_greedy.specs.Order.{IsOrderOf};
ghost use Rattle.dali_greedy.specs.Standing.{IsStandOf, Holds, GoesWith, IsStuck, AreColumns, left_worth};

use crate::order::Ranked;
use crate::stand::Stand;
use dali_problem::{Columns, Mark, Partial, Problem};

impl Stand {
    /// Goes over the places once, and betters the set by each that it can. Whether there was one.
    fn pass(
        &mut self,
        problem: &Problem,
        columns: &Columns,
        partial: &Partial,
        order: &[Ranked],
    ) -> bool
        requires of { IsStandOf problem.now self.old }
        requires holds { Holds problem.now self.old.marks }
        requires columns { AreColumns problem.now columns.now }
        requires partial { IsOf problem.now partial.now }
        requires goes { GoesWith partial.now.marks self.old.marks }
        requires order { IsOrderOf problem.now order.now }

        // what still holds
        ensures of { IsStandOf problem.now self.new }
        ensures holds { Holds problem.now self.new.marks }
        ensures goes { GoesWith partial.now.marks self.new.marks }

        // what it is worth
        ensures no_more { left_worth problem.now self.new.marks (length problem.now.items) ≤ left_worth problem.now self.old.marks (length problem.now.items) }
        ensures fewer { IsTrue result → left_worth problem.now self.new.marks (length problem.now.items) < left_worth problem.now self.old.marks (length problem.now.items) }

        // where no place can be bettered
        ensures stuck { IsFalse result → (j : ℕ) → mark partial.now.marks j ≡ Mark.Undecided → mark self.new.marks j ≡ Mark.Left → IsStuck problem.now partial.now.marks self.new.marks j }
    {
        let mut bettered = false;
        for ranked in order {
            if self.improve(problem, columns, partial, ranked.place) {
                bettered = true;
            }
        }
        bettered
    }

    /// Betters the set by single places until none can be added or be exchanged for one of less value.
    pub(crate) fn better(
        &mut self,
        problem: &Problem,
        columns: &Columns,
        partial: &Partial,
        order: &[Ranked],
    )
        requires of { IsStandOf problem.now self.old }
        requires holds { Holds problem.now self.old.marks }
        requires columns { AreColumns problem.now columns.now }
        requires partial { IsOf problem.now partial.now }
        requires goes { GoesWith partial.now.marks self.old.marks }
        requires order { IsOrderOf problem.now order.now }

        // what still holds
        ensures of { IsStandOf problem.now self.new }
        ensures holds { Holds problem.now self.new.marks }
        ensures goes { GoesWith partial.now.marks self.new.marks }

        // what it is worth, and that no place can be bettered
        ensures no_more { left_worth problem.now self.new.marks (length problem.now.items) ≤ left_worth problem.now self.old.marks (length problem.now.items) }
        ensures stuck { (j : ℕ) → mark partial.now.marks j ≡ Mark.Undecided → mark self.new.marks j ≡ Mark.Left → IsStuck problem.now partial.now.marks self.new.marks j }
    {
        while self.pass(problem, columns, partial, order) {}
    }
}
