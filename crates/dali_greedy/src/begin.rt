ghost use Rattle.std.specs.Prelude.{◌≡◌, ◌<◌, ◌↔◌, length, slice_set, IsTrue, IsFalse, IfOk};
ghost use Rattle.std.specs.List.{All};
ghost use Rattle.dali_problem.specs.Feasible.{ArePlaces, IsFeasible};
ghost use Rattle.dali_problem.specs.Kept.{IsOf};
ghost use Rattle.dali_problem.specs.Partial.{mark, Agrees};
ghost use Rattle.dali_rest.specs.Room.{AreMarksOf};
ghost use Rattle.dali_greedy.specs.Grown.{IsOverdrawn};
ghost use Rattle.dali_greedy.specs.Standing.{IsStandOf, Holds, GoesWith, HasMarked, agrees_at};

use crate::stand::Stand;
use dali_base::{OutOfMemory, Places};
use dali_problem::{Mark, Partial, Problem};
use std::alloc::Global;

/// The places with this mark, rising, or want of memory.
pub(crate) fn marked(
    alloc: Global,
    problem: &Problem,
    partial: &Partial,
    wanted: Mark,
) -> Result<Places, OutOfMemory>
    requires { IsOf problem.now partial.now }
    ensures places { IfOk result (ArePlaces problem.now) }
    ensures marked { IfOk result (HasMarked problem.now partial.now.marks wanted) }
{
    let mut places = Places::new(alloc);
    for place in 0..problem.items() {
        if has_mark(partial, place, wanted) {
            places.push(place)?;
        }
    }
    Ok(places)
}

fn has_mark(partial: &Partial, place: u32, wanted: Mark) -> bool
    requires { place < length partial.now.marks }
    ensures { IsTrue result ↔ (mark partial.now.marks place ≡ wanted) }
{
    partial.mark(place) == wanted
}

/// Whether a place with this mark may be in the set, or not in it.
fn agrees(mark: Mark, taken: bool) -> bool
    ensures { result ≡ agrees_at mark taken }
{
    match mark {
        Mark::Chosen => taken,
        Mark::Undecided => true,
        Mark::Left | Mark::Stranger => !taken,
    }
}

impl Stand {
    /// Takes a place in, where it isn't in.
    pub(crate) fn put(&mut self, problem: &Problem, place: u32)
        requires of { IsStandOf problem.now self.old }
        requires place { place < length problem.now.items }
        ensures of { IsStandOf problem.now self.new }
        ensures marks { self.new.marks ≡ slice_set self.old.marks place Mark.Chosen }
    {
        if self.has_place(place) {
            return;
        }
        self.choose(problem, place);
    }

    /// Takes a place out, where it is in.
    fn remove(&mut self, problem: &Problem, place: u32)
        requires of { IsStandOf problem.now self.old }
        requires place { place < length problem.now.items }
        ensures of { IsStandOf problem.now self.new }
        ensures marks { self.new.marks ≡ slice_set self.old.marks place Mark.Left }
    {
        if !self.has_place(place) {
            return;
        }
        self.leave(problem, place);
    }

    /// Makes the set these places.
    fn become_set(&mut self, problem: &Problem, places: &[u32])
        requires of { IsStandOf problem.now self.old }
        requires places { All (λ j. j < length problem.now.items) places.now }
        ensures of { IsStandOf problem.now self.new }
        ensures stands { AreMarksOf (length problem.now.items) places.now self.new.marks }
    {
        for place in 0..problem.items() {
            self.remove(problem, place);
        }
        for chosen in places {
            self.put(problem, *chosen);
        }
    }

    /// Whether the set agrees with what a partial choice decides.
    fn agrees(&self, problem: &Problem, partial: &Partial) -> bool
        requires of { IsStandOf problem.now self.now }
        requires partial { IsOf problem.now partial.now }
        ensures { IsTrue result ↔ GoesWith partial.now.marks self.now.marks }
    {
        for place in 0..problem.items() {
            if !agrees(partial.mark(place), self.is_taken(place)) {
                return false;
            }
        }
        true
    }

    /// Whether the set agrees with what a partial choice decides, and no line is negative.
    fn is_good(&self, problem: &Problem, partial: &Partial) -> bool
        requires of { IsStandOf problem.now self.now }
        requires partial { IsOf problem.now partial.now }
        ensures holds { IsTrue result → Holds problem.now self.now.marks }
        ensures goes { IsTrue result → GoesWith partial.now.marks self.now.marks }
        ensures good { Holds problem.now self.now.marks → GoesWith partial.now.marks self.now.marks → IsTrue result }
    {
        if !self.agrees(problem, partial) {
            return false;
        }
        self.holds(problem)
    }

    /// Makes the set the start, where that is feasible and agrees, else the places that are chosen. Whether no line is
    /// negative then.
    pub(crate) fn begin(
        &mut self,
        problem: &Problem,
        partial: &Partial,
        start: &Places,
        chosen: &Places,
    ) -> bool
        requires of { IsStandOf problem.now self.old }
        requires partial { IsOf problem.now partial.now }
        requires start { ArePlaces problem.now start.now }
        requires places { ArePlaces problem.now chosen.now }
        requires chosen { HasMarked problem.now partial.now.marks Mark.Chosen chosen.now }

        // the stand
        ensures of { IsStandOf problem.now self.new }
        ensures holds { IsTrue result → Holds problem.now self.new.marks }
        ensures goes { IsTrue result → GoesWith partial.now.marks self.new.marks }

        // when there is none
        ensures overdrawn { IsFalse result → IsOverdrawn problem.now partial.now.marks }
        ensures begun { IsFeasible problem.now start.now → Agrees partial.now.marks start.now → IsTrue result }

        // what it is worth
        ensures start { IsFeasible problem.now start.now → Agrees partial.now.marks start.now → AreMarksOf (length problem.now.items) start.now self.new.marks }
    {
        self.become_set(problem, start.as_slice());
        if self.is_good(problem, partial) {
            return true;
        }
        self.become_set(problem, chosen.as_slice());
        self.holds(problem)
    }
}
