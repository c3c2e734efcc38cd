ghost use Rattle.std.specs.Prelude.{◌≡◌, ◌↔◌, ℕ, ◌<◌, false, length, IsTrue, IfOk, slice_set};
ghost use Rattle.std.specs.List.{All, Contains};
ghost use Rattle.dali_problem.specs.Clearing.{item_at};
ghost use Rattle.dali_problem.specs.Feasible.{ArePlaces};
ghost use Rattle.dali_problem.specs.Limits.{IsProblem};
ghost use Rattle.dali_problem.specs.Partial.{mark};
ghost use Rattle.dali_problem.specs.Rules.{is_short};
ghost use Rattle.dali_rest.specs.Room.{IsRoomOf, AreMarksOf};

use dali_base::{OutOfMemory, Places};
use dali_problem::{Mark, Partial, Problem};
use std::alloc::Global;
use std::marker::Model;

/// Room for tests on sets of places of a problem. Contracts see a partial choice of which every place is a member; a
/// test leaves it in any state.
#[derive(Debug, Drop)]
pub struct Room {
    pub(crate) partial: Partial,
}

impl Model for Room {
    ghost use Rattle.dali_problem.specs.Kept.{Kept};

    ghost Value = { Kept };

    ghost view = { λ r. r.partial };
}

impl Room {
    /// Room for tests on sets of places of this problem, or want of memory.
    pub fn new(alloc: Global, problem: &Problem) -> Result<Room, OutOfMemory>
        ensures { IfOk result (λ room. IsRoomOf problem.now room) }
    {
        let places = all_places(alloc, problem)?;
        Ok(Room {
            partial: Partial::new(alloc, problem, &places)?,
        })
    }

    /// Makes a place undecided.
    pub(crate) fn open(&mut self, problem: &Problem, place: u32)
        requires room { IsRoomOf problem.now self.old }
        requires place { place < length problem.now.items }
        ensures room { IsRoomOf problem.now self.new }
        ensures marks { self.new.marks ≡ slice_set self.old.marks place Mark.Undecided }
    {
        match self.partial.mark(place) {
            Mark::Chosen | Mark::Left => self.partial.free(problem, place),
            Mark::Stranger | Mark::Undecided => {}
        }
    }

    /// Chooses a place.
    pub(crate) fn choose(&mut self, problem: &Problem, place: u32)
        requires room { IsRoomOf problem.now self.old }
        requires place { place < length problem.now.items }
        ensures room { IsRoomOf problem.now self.new }
        ensures marks { self.new.marks ≡ slice_set self.old.marks place Mark.Chosen }
    {
        self.open(problem, place);
        self.partial.fix(problem, place, true);
    }

    /// Leaves a place.
    pub(crate) fn leave(&mut self, problem: &Problem, place: u32)
        requires room { IsRoomOf problem.now self.old }
        requires place { place < length problem.now.items }
        ensures room { IsRoomOf problem.now self.new }
        ensures marks { self.new.marks ≡ slice_set self.old.marks place Mark.Left }
    {
        self.open(problem, place);
        self.partial.fix(problem, place, false);
    }

    /// Chooses the places of a set, and leaves all others.
    pub(crate) fn stand(&mut self, problem: &Problem, set: &[u32])
        requires room { IsRoomOf problem.now self.old }
        requires set { All (λ j. j < length problem.now.items) set.now }
        ensures room { IsRoomOf problem.now self.new }
        ensures stands { AreMarksOf (length problem.now.items) set.now self.new.marks }
    {
        for place in 0..problem.items() {
            self.leave(problem, place);
        }
        for chosen in set {
            self.choose(problem, *chosen);
        }
    }

    /// Whether a place is undecided.
    pub(crate) fn is_open(&self, place: u32) -> bool
        requires { place < length self.now.marks }
        ensures { IsTrue result ↔ (mark self.now.marks place ≡ Mark.Undecided) }
    {
        matches!(self.partial.mark(place), Mark::Undecided)
    }

    /// Whether a place is chosen.
    pub(crate) fn is_chosen(&self, place: u32) -> bool
        requires { place < length self.now.marks }
        ensures { IsTrue result ↔ (mark self.now.marks place ≡ Mark.Chosen) }
    {
        matches!(self.partial.mark(place), Mark::Chosen)
    }

    /// Whether a place is left.
    pub(crate) fn is_left(&self, place: u32) -> bool
        requires { place < length self.now.marks }
        ensures { IsTrue result ↔ (mark self.now.marks place ≡ Mark.Left) }
    {
        matches!(self.partial.mark(place), Mark::Left)
    }

    /// Whether no line that a place changes is short.
    pub(crate) fn covers(&self, problem: &Problem, place: u32) -> bool
        requires room { IsRoomOf problem.now self.now }
        requires place { place < length problem.now.items }
        ensures answer { IsTrue result
            ↔ All (λ e. is_short problem.now self.now.marks e.line ≡ false) (item_at problem.now place).effects }
        ensures bounds { IsProblem problem.now }
    {
        for effect in problem.effects(place) {
            if self.partial.is_short(effect.line) {
                return false;
            }
        }
        true
    }
}

/// All places of a problem.
fn all_places(alloc: Global, problem: &Problem) -> Result<Places, OutOfMemory>
    ensures places { IfOk result (λ places. ArePlaces problem.now places) }
    ensures all { IfOk result (λ places. (j : ℕ) → j < length problem.now.items → Contains places j) }
{
    let mut places = Places::new(alloc);
    for place in 0..problem.items() {
        places.push(place)?;
    }
    Ok(places)
}
