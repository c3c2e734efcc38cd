ghost use Rattle.std.specs.Prelude.{◌≡◌, ◌↔◌, ℕ, ◌<◌, [], length, List, IsTrue, IsFalse};
ghost use Rattle.std.specs.List.{All, Contains};
ghost use Rattle.dali_problem.specs.Feasible.{ArePlaces, IsFeasible};
ghost use Rattle.dali_problem.specs.declared.mark.Mark.{Mark};
ghost use Rattle.dali_problem.specs.Partial.{mark};
ghost use Rattle.dali_problem.specs.Rest.{IsRest};
ghost use Rattle.dali_rest.specs.Addable.{CanAddRest};
ghost use Rattle.dali_rest.specs.Room.{IsRoomOf, IsCovered, undecided_below};
ghost use Rattle.dali_rest.specs.Sets.{outside};
ghost use Rattle.dali_rest.specs.Turns.{IsPaid, IsTurn, IsOpened, AreChosen, undecided_count};

use crate::room::Room;
use dali_base::Places;
use dali_problem::Problem;

impl Room {
    /// Whether the rest of the members outside of a feasible set isn't empty, and the set stays feasible with all of it, as
    /// `specs/Addable.antt` says.
    pub fn can_add_rest(&mut self, problem: &Problem, set: &Places, members: &Places) -> bool
        requires room { IsRoomOf problem.now self.old }
        requires places { ArePlaces problem.now set.now }
        requires members { ArePlaces problem.now members.now }
        requires feasible { IsFeasible problem.now set.now }
        ensures answer { IsTrue result ↔ CanAddRest problem.now set.now members.now }
        ensures room { IsRoomOf problem.now self.new }
    {
        self.find_rest(problem, set, members);
        self.choose_rest(problem) && self.is_covered(problem)
    }

    /// Finds the rest of the members outside of a feasible set: the greatest list of them that can be paid with its own
    /// credits. There is only one. `is_in_rest` then tells its places.
    pub fn find_rest(&mut self, problem: &Problem, set: &Places, members: &Places)
        requires room { IsRoomOf problem.now self.old }
        requires places { ArePlaces problem.now set.now }
        requires members { ArePlaces problem.now members.now }
        ensures room { IsRoomOf problem.now self.new }
        ensures set { (j : ℕ) → (mark self.new.marks j ≡ Mark.Chosen) ↔ Contains set.now j }
        ensures rest { IsRest problem.now set.now (outside members.now set.now) (undecided_below self.new.marks (length problem.now.items)) }
        ensures only { (r : List ℕ) → IsRest problem.now set.now (outside members.now set.now) r → r ≡ undecided_below self.new.marks (length problem.now.items) }
    {
        self.stand(problem, set.as_slice());
        self.open_members(problem, members.as_slice());
        while self.take_out(problem) {}
    }

    /// Whether a place is in the rest that was found last, where no other test was made since.
    pub fn is_in_rest(&self, place: u32) -> bool
        requires { place < length self.now.marks }
        ensures { IsTrue result ↔ (mark self.now.marks place ≡ Mark.Undecided) }
    {
        self.is_open(place)
    }

    /// Makes the left members undecided.
    fn open_members(&mut self, problem: &Problem, members: &[u32])
        requires room { IsRoomOf problem.now self.old }
        requires members { All (λ j. j < length problem.now.items) members.now }
        ensures room { IsRoomOf problem.now self.new }
        ensures opened { IsOpened self.old.marks self.new.marks members.now }
    {
        for place in members {
            if self.is_left(*place) {
                self.open(problem, *place);
            }
        }
    }

    /// Goes over the places once, and leaves each undecided one that can't be paid. Whether there was one.
    fn take_out(&mut self, problem: &Problem) -> bool
        requires room { IsRoomOf problem.now self.old }
        ensures room { IsRoomOf problem.now self.new }
        ensures turn { IsTurn problem.now self.old.marks self.new.marks }
        ensures fewer { IsTrue result → undecided_count self.new.marks (length problem.now.items) < undecided_count self.old.marks (length problem.now.items) }
        ensures same { IsFalse result → self.new.marks ≡ self.old.marks }
        ensures paid { IsFalse result → (j : ℕ) → mark self.new.marks j ≡ Mark.Undecided → IsPaid problem.now self.new.marks j }
    {
        let mut taken = false;
        for place in 0..problem.items() {
            if self.is_open(place) && !self.is_paid(problem, place) {
                self.leave(problem, place);
                taken = true;
            }
        }
        taken
    }

    /// Whether each line that an undecided place debits pays it, with all that undecided places give. Looks at each of
    /// its effects once.
    fn is_paid(&self, problem: &Problem, place: u32) -> bool
        requires room { IsRoomOf problem.now self.now }
        requires undecided { mark self.now.marks place ≡ Mark.Undecided }
        ensures { IsTrue result ↔ IsPaid problem.now self.now.marks place }
    {
        let _items = problem.items();
        self.partial.bears(problem, place)
    }

    /// Chooses the undecided places. Whether there was one.
    fn choose_rest(&mut self, problem: &Problem) -> bool
        requires room { IsRoomOf problem.now self.old }
        ensures room { IsRoomOf problem.now self.new }
        ensures chosen { AreChosen (length problem.now.items) self.old.marks self.new.marks }
        ensures some { IsFalse result ↔ (undecided_below self.old.marks (length problem.now.items) ≡ []) }
    {
        let mut some = false;
        for place in 0..problem.items() {
            if self.is_open(place) {
                self.choose(problem, place);
                some = true;
            }
        }
        some
    }

    /// Whether no line is short.
    fn is_covered(&self, problem: &Problem) -> bool
        requires { IsRoomOf problem.now self.now }
        ensures { IsTrue result ↔ IsCovered problem.now self.now.marks }
    {
        for line in 0..problem.lines() {
            if self.partial.is_short(line) {
                return false;
            }
        }
        true
    }
}
