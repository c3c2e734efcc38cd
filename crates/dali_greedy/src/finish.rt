ghost use Rattle.std.specs.Prelude.{◌≡◌, ◌<◌, List, length, IfOk, IfSome, IfNone};
ghost use Rattle.dali_problem.specs.declared.mark.Mark.{Mark};
ghost use Rattle.dali_problem.specs.Feasible.{ArePlaces};
ghost use Rattle.dali_rest.specs.Room.{IsRoomOf};
ghost use Rattle.dali_greedy.specs.Standing.{IsStandOf, Holds, GoesWith, HasMarked, IsDone, IsWithRest, left_worth};

use crate::stand::Stand;
use dali_base::{OutOfMemory, Places};
use dali_problem::{Mark, Problem};
use dali_rest::Room;
use std::alloc::Global;

impl Stand {
    /// Takes in each place of the rest that was found last.
    fn take_rest(&mut self, problem: &Problem, room: &Room)
        requires of { IsStandOf problem.now self.old }
        requires room { IsRoomOf problem.now room.now }
        ensures of { IsStandOf problem.now self.new }
        ensures taken { IsWithRest problem.now room.now.marks self.old.marks self.new.marks }
    {
        for place in 0..problem.items() {
            if room.is_in_rest(place) {
                self.put(problem, place);
            }
        }
    }

    /// Takes in all of the rest of the members outside of the set, where that isn't empty and no line is negative then.
    /// The set where it doesn't, else `None`.
    pub(crate) fn finish(
        &mut self,
        alloc: Global,
        problem: &Problem,
        room: &mut Room,
        members: &Places,
    ) -> Result<Option<Places>, OutOfMemory>
        requires of { IsStandOf problem.now self.old }
        requires holds { Holds problem.now self.old.marks }
        requires room { IsRoomOf problem.now room.old }
        requires members { ArePlaces problem.now members.now }

        // what still holds
        ensures of { IsStandOf problem.now self.new }
        ensures holds { Holds problem.now self.new.marks }
        ensures room { IsRoomOf problem.now room.new }
        ensures goes { (f : List Mark) → HasMarked problem.now f Mark.Undecided members.now → GoesWith f self.old.marks → GoesWith f self.new.marks }

        // where more was added
        ensures added { IfOk result (λ found. IfNone found (left_worth problem.now self.new.marks (length problem.now.items) < left_worth problem.now self.old.marks (length problem.now.items))) }

        // where nothing more can be
        ensures same { IfOk result (λ found. IfSome found (λ set. self.new.marks ≡ self.old.marks)) }
        ensures done { IfOk result (λ found. IfSome found (IsDone problem.now self.old.marks members.now)) }
    {
        let _items = problem.items();
        let set = self.places(alloc, problem)?;
        if !room.can_add_rest(problem, &set, members) {
            return Ok(Some(set));
        }
        room.find_rest(problem, &set, members);
        self.take_rest(problem, room);
        Ok(None)
    }
}
