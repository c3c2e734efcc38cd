ghost use Rattle.std.specs.Prelude.{◌≡◌, ◌↔◌, ◌<◌, length, IsTrue, slice_set};
ghost use Rattle.std.specs.List.{All};
ghost use Rattle.dali_problem.specs.Feasible.{ArePlaces, IsFeasible};
ghost use Rattle.dali_problem.specs.declared.mark.Mark.{Mark};
ghost use Rattle.dali_problem.specs.Partial.{mark};
ghost use Rattle.dali_rest.specs.Room.{IsRoomOf, IsCovered};
ghost use Rattle.dali_rest.specs.Swappable.{CanSwap};
ghost use Rattle.dali_rest.specs.Swaps.{AreDecided, IsCoveredBut, HasBetter};

use crate::room::Room;
use dali_base::Places;
use dali_problem::Problem;

impl Room {
    /// Whether some member in a feasible set can be exchanged for a member outside of it of greater value so that the set
    /// stays feasible, as `specs/Swappable.antt` says.
    pub fn can_swap(&mut self, problem: &Problem, set: &Places, members: &Places) -> bool
        requires room { IsRoomOf problem.now self.old }
        requires places { ArePlaces problem.now set.now }
        requires members { ArePlaces problem.now members.now }
        requires feasible { IsFeasible problem.now set.now }
        ensures answer { IsTrue result ↔ CanSwap problem.now set.now members.now }
        ensures room { IsRoomOf problem.now self.new }
    {
        self.stand(problem, set.as_slice());
        let listed = members.as_slice();
        for given in listed {
            if self.is_chosen(*given) && self.has_better(problem, listed, *given) {
                return true;
            }
        }
        false
    }

    /// Whether a chosen place can be exchanged for a left member of greater value.
    fn has_better(&mut self, problem: &Problem, members: &[u32], given: u32) -> bool
        requires room { IsRoomOf problem.now self.old }
        requires members { All (λ j. j < length problem.now.items) members.now }
        requires decided { AreDecided problem.now self.old.marks }
        requires covered { IsCovered problem.now self.old.marks }
        requires chosen { mark self.old.marks given ≡ Mark.Chosen }

        // the answer
        ensures answer { IsTrue result ↔ HasBetter problem.now (slice_set self.old.marks given Mark.Left) members.now given }

        // what stays
        ensures room { IsRoomOf problem.now self.new }
        ensures same { self.new.marks ≡ self.old.marks }
    {
        self.leave(problem, given);
        let found = self.find_better(problem, members, given);
        self.choose(problem, given);
        found
    }

    /// Whether a left member of greater value than a place can be chosen, where no line is short but those that this
    /// place changes.
    fn find_better(&mut self, problem: &Problem, members: &[u32], given: u32) -> bool
        requires room { IsRoomOf problem.now self.old }
        requires members { All (λ j. j < length problem.now.items) members.now }
        requires given { given < length problem.now.items }
        requires decided { AreDecided problem.now self.old.marks }
        requires covered { IsCoveredBut problem.now self.old.marks given }

        // the answer
        ensures answer { IsTrue result ↔ HasBetter problem.now self.old.marks members.now given }

        // what stays
        ensures room { IsRoomOf problem.now self.new }
        ensures same { self.new.marks ≡ self.old.marks }
    {
        let least = problem.value(given);
        for taken in members {
            if self.is_left(*taken)
                && problem.value(*taken) > least
                && self.mends(problem, *taken, given)
            {
                return true;
            }
        }
        false
    }

    /// Whether no line is short with a left place chosen, where none was but those that another place changes.
    fn mends(&mut self, problem: &Problem, taken: u32, given: u32) -> bool
        requires room { IsRoomOf problem.now self.old }
        requires given { given < length problem.now.items }
        requires decided { AreDecided problem.now self.old.marks }
        requires covered { IsCoveredBut problem.now self.old.marks given }
        requires left { mark self.old.marks taken ≡ Mark.Left }

        // the answer
        ensures answer { IsTrue result ↔ IsCovered problem.now (slice_set self.old.marks taken Mark.Chosen) }

        // what stays
        ensures room { IsRoomOf problem.now self.new }
        ensures same { self.new.marks ≡ self.old.marks }
    {
        self.choose(problem, taken);
        let mended = self.covers(problem, taken) && self.covers(problem, given);
        self.leave(problem, taken);
        mended
    }
}
