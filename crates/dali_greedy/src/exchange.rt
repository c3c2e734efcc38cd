ghost use Rattle.std.specs.Prelude.{◌≡◌, ◌<◌, ℕ, length, IsTrue, IsFalse};
ghost use Rattle.dali_problem.specs.declared.mark.Mark.{Mark};
ghost use Rattle.dali_problem.specs.Kept.{IsOf};
ghost use Rattle.dali_problem.specs.Partial.{mark};
ghost use Rattle.dali_greedy.specs.Standing.{IsStandOf, Holds, GoesWith, Betters, IsStuck, IsTight, IsTouch, AreColumns, exchanged, left_worth};

use crate::stand::Stand;
use dali_problem::{Columns, Effect, Mark, Partial, Problem, Touch};

impl Stand {
    /// Exchanges a place for another where no line is negative then. Whether it did.
    fn exchange(&mut self, problem: &Problem, given: u32, taken: u32) -> bool
        requires of { IsStandOf problem.now self.old }
        requires holds { Holds problem.now self.old.marks }
        requires given { mark self.old.marks given ≡ Mark.Chosen }
        requires taken { mark self.old.marks taken ≡ Mark.Left }

        // what it has become
        ensures of { IsStandOf problem.now self.new }
        ensures marks { IsTrue result → self.new.marks ≡ exchanged self.old.marks given taken }
        ensures holds { IsTrue result → Holds problem.now (exchanged self.old.marks given taken) }

        // where it doesn't fit
        ensures same { IsFalse result → self.new.marks ≡ self.old.marks }
        ensures fails { IsFalse result → ¬ (Holds problem.now (exchanged self.old.marks given taken)) }
    {
        let _items = problem.items();
        self.leave(problem, given);
        if !self.bears(problem, taken) {
            self.choose(problem, given);
            return false;
        }
        self.choose(problem, taken);
        if self.covers(problem, given) {
            return true;
        }
        self.leave(problem, taken);
        self.choose(problem, given);
        false
    }

    /// Exchanges the item of a touch for a place of greater value whose effect its line can't bear, where no line is
    /// negative then. Whether it did.
    fn exchange_touching(
        &mut self,
        problem: &Problem,
        partial: &Partial,
        place: u32,
        effect: &Effect,
        touch: &Touch,
    ) -> bool
        requires of { IsStandOf problem.now self.old }
        requires holds { Holds problem.now self.old.marks }
        requires partial { IsOf problem.now partial.now }
        requires left { mark self.old.marks place ≡ Mark.Left }
        requires tight { IsTight problem.now self.old place effect.now }
        requires touch { IsTouch problem.now effect.now.line touch.now }

        // what it has become
        ensures of { IsStandOf problem.now self.new }
        ensures marks { IsTrue result → self.new.marks ≡ exchanged self.old.marks touch.now.place place }
        ensures betters { IsTrue result → Betters problem.now partial.now.marks self.old.marks place touch.now.place }

        // where no exchange betters it
        ensures same { IsFalse result → self.new.marks ≡ self.old.marks }
        ensures none { IsFalse result → ¬ (Betters problem.now partial.now.marks self.old.marks place touch.now.place) }
    {
        let _items = problem.items();
        if !self.gives_way(problem, partial, place, effect, touch) {
            return false;
        }
        self.exchange(problem, touch.place, place)
    }

    /// Exchanges some place of less value for one whose effect its line can't bear, where no line is negative then.
    /// Whether it did. Only a place that changes this line can free it.
    fn make_way(
        &mut self,
        problem: &Problem,
        columns: &Columns,
        partial: &Partial,
        place: u32,
        effect: &Effect,
    ) -> bool
        requires of { IsStandOf problem.now self.old }
        requires holds { Holds problem.now self.old.marks }
        requires columns { AreColumns problem.now columns.now }
        requires partial { IsOf problem.now partial.now }
        requires goes { GoesWith partial.now.marks self.old.marks }
        requires left { mark self.old.marks place ≡ Mark.Left }
        requires undecided { mark partial.now.marks place ≡ Mark.Undecided }
        requires tight { IsTight problem.now self.old place effect.now }

        // what still holds
        ensures of { IsStandOf problem.now self.new }
        ensures holds { Holds problem.now self.new.marks }
        ensures goes { GoesWith partial.now.marks self.new.marks }

        // where a way was made
        ensures more { IsTrue result → left_worth problem.now self.new.marks (length problem.now.items) < left_worth problem.now self.old.marks (length problem.now.items) }

        // where none can be
        ensures same { IsFalse result → self.new.marks ≡ self.old.marks }
        ensures stuck { IsFalse result → IsStuck problem.now partial.now.marks self.old.marks place }
    {
        let _items = problem.items();
        for touch in columns.touching(effect.line) {
            if self.exchange_touching(problem, partial, place, effect, touch) {
                return true;
            }
        }
        false
    }

    /// Adds an undecided place outside of the set, or exchanges one of less value for it, where no line is negative then.
    /// Whether it did.
    pub(crate) fn improve(
        &mut self,
        problem: &Problem,
        columns: &Columns,
        partial: &Partial,
        place: u32,
    ) -> bool
        requires of { IsStandOf problem.now self.old }
        requires holds { Holds problem.now self.old.marks }
        requires columns { AreColumns problem.now columns.now }
        requires partial { IsOf problem.now partial.now }
        requires goes { GoesWith partial.now.marks self.old.marks }
        requires place { place < length problem.now.items }

        // what still holds
        ensures of { IsStandOf problem.now self.new }
        ensures holds { Holds problem.now self.new.marks }
        ensures goes { GoesWith partial.now.marks self.new.marks }

        // where it got better
        ensures more { IsTrue result → left_worth problem.now self.new.marks (length problem.now.items) < left_worth problem.now self.old.marks (length problem.now.items) }

        // where it can't
        ensures same { IsFalse result → self.new.marks ≡ self.old.marks }
        ensures stuck { IsFalse result → mark partial.now.marks place ≡ Mark.Undecided → mark self.old.marks place ≡ Mark.Left → IsStuck problem.now partial.now.marks self.old.marks place }
    {
        let _items = problem.items();
        if !partial.mark(place).is_undecided() {
            return false;
        }
        if self.has_place(place) {
            return false;
        }
        match self.first_tight(problem, place) {
            None => {
                self.choose(problem, place);
                true
            }
            Some(effect) => self.make_way(problem, columns, partial, place, &effect),
        }
    }
}
