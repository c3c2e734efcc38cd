ghost use Rattle.std.specs.Prelude.{◌≡◌, ◌↔◌, ◌<◌, length, IsTrue, slice_set};
ghost use Rattle.dali_problem.specs.Feasible.{ArePlaces, IsFeasible};
ghost use Rattle.dali_problem.specs.declared.mark.Mark.{Mark};
ghost use Rattle.dali_problem.specs.Partial.{mark};
ghost use Rattle.dali_rest.specs.Addable.{CanAddOne};
ghost use Rattle.dali_rest.specs.Room.{IsRoomOf, IsCovered};
ghost use Rattle.dali_rest.specs.Swaps.{AreDecided};

use crate::room::Room;
use dali_base::Places;
use dali_problem::Problem;

impl Room {
    /// Whether some one place outside of a feasible set can be added so that the set stays feasible, as
    /// `specs/Addable.antt` says.
    pub fn can_add_one(&mut self, problem: &Problem, set: &Places) -> bool
        requires room { IsRoomOf problem.now self.old }
        requires places { ArePlaces problem.now set.now }
        requires feasible { IsFeasible problem.now set.now }
        ensures answer { IsTrue result ↔ CanAddOne problem.now set.now }
        ensures room { IsRoomOf problem.now self.new }
    {
        self.stand(problem, set.as_slice());
        for place in 0..problem.items() {
            if self.is_left(place) && self.fits_with(problem, place) {
                return true;
            }
        }
        false
    }

    /// Whether no line is short with this left place chosen.
    fn fits_with(&mut self, problem: &Problem, place: u32) -> bool
        requires room { IsRoomOf problem.now self.old }
        requires decided { AreDecided problem.now self.old.marks }
        requires covered { IsCovered problem.now self.old.marks }
        requires left { mark self.old.marks place ≡ Mark.Left }
        ensures answer { IsTrue result ↔ IsCovered problem.now (slice_set self.old.marks place Mark.Chosen) }
        ensures room { IsRoomOf problem.now self.new }
        ensures same { self.new.marks ≡ self.old.marks }
    {
        self.choose(problem, place);
        let fits = self.covers(problem, place);
        self.leave(problem, place);
        fits
    }
}
