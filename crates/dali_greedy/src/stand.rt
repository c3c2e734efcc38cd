ghost use Rattle.std.specs.Prelude.{◌≡◌, ◌≢◌, ℕ, ◌<◌, pos, ◌+ℤ◌, ◌↔◌, true, false, length, not, IsTrue, IsFalse, IfOk, IfSome, IfNone, slice_index_or, slice_set};
ghost use Rattle.std.specs.List.{All, list_all};
ghost use Rattle.dali_problem.specs.Clearing.{item_at};
ghost use Rattle.dali_problem.specs.Feasible.{ArePlaces};
ghost use Rattle.dali_problem.specs.Partial.{mark, is_chosen};
ghost use Rattle.dali_problem.specs.Rules.{is_negative};
ghost use Rattle.dali_rest.specs.Room.{AreMarksOf};
ghost use Rattle.dali_greedy.specs.Grown.{IsOverdrawn};
ghost use Rattle.dali_greedy.specs.Standing.{IsStandOf, Holds, IsTight, gives_way};

use crate::lines::{bears, covers, first_tight, frees, is_negative};
use crate::turns::{begin, give_up, take_in};
use dali_base::{OutOfMemory, Places};
use dali_problem::{Effect, Mark, Partial, Problem, Touch};
use std::alloc::Global;
use std::marker::Model;

/// A set of places, with what each line has after it.
#[derive(Drop)]
pub(crate) struct Stand {
    marks: Vec<Mark>,
    has: Vec<i128>,
}

impl Model for Stand {
    ghost use Rattle.dali_greedy.specs.Standing.{Standing};

    ghost Value = { Standing };

    ghost view = { λ s. record { marks = s.marks.items; has = s.has.items } };
}

impl Stand {
    /// The empty set of this problem, or want of memory.
    pub(crate) fn new(alloc: Global, problem: &Problem) -> Result<Stand, OutOfMemory>
        ensures of { IfOk result (IsStandOf problem.now) }
        ensures empty { IfOk result (λ stand. (j : ℕ) → mark stand.marks j ≢ Mark.Chosen) }
    {
        let marks = vec![in alloc; Mark::Left; problem.items() as usize]?;
        let mut has = vec![in alloc; 0; problem.lines() as usize]?;
        begin(problem, marks.as_slice(), has.as_mut_slice());
        Ok(Stand { marks, has })
    }

    /// Takes a place in.
    pub(crate) fn choose(&mut self, problem: &Problem, place: u32)
        requires of { IsStandOf problem.now self.old }
        requires left { mark self.old.marks place ≡ Mark.Left }
        ensures of { IsStandOf problem.now self.new }
        ensures marks { self.new.marks ≡ slice_set self.old.marks place Mark.Chosen }
    {
        take_in(
            problem,
            self.marks.as_mut_slice(),
            self.has.as_mut_slice(),
            place,
        );
    }

    /// Takes a place out.
    pub(crate) fn leave(&mut self, problem: &Problem, place: u32)
        requires of { IsStandOf problem.now self.old }
        requires chosen { mark self.old.marks place ≡ Mark.Chosen }
        ensures of { IsStandOf problem.now self.new }
        ensures marks { self.new.marks ≡ slice_set self.old.marks place Mark.Left }
    {
        give_up(
            problem,
            self.marks.as_mut_slice(),
            self.has.as_mut_slice(),
            place,
        );
    }

    /// Whether a place is in the set.
    pub(crate) fn has_place(&self, place: u32) -> bool
        requires { place < length self.now.marks }
        ensures { IsTrue result ↔ (mark self.now.marks place ≡ Mark.Chosen) }
    {
        matches!(self.marks[place as usize], Mark::Chosen)
    }

    /// Whether no line is negative with this place's effect on it added.
    pub(crate) fn bears(&self, problem: &Problem, place: u32) -> bool
        requires of { IsStandOf problem.now self.now }
        requires place { place < length problem.now.items }
        ensures { result
            ≡ list_all (λ e. not (is_negative (slice_index_or self.now.has e.line (pos 0) +ℤ e.amount))) (item_at problem.now place).effects }
    {
        bears(self.has.as_slice(), problem.effects(place))
    }

    /// Whether no line that a place changes is negative.
    pub(crate) fn covers(&self, problem: &Problem, place: u32) -> bool
        requires of { IsStandOf problem.now self.now }
        requires place { place < length problem.now.items }
        ensures { result
            ≡ list_all (λ e. not (is_negative (slice_index_or self.now.has e.line (pos 0)))) (item_at problem.now place).effects }
    {
        covers(self.has.as_slice(), problem.effects(place))
    }

    /// The places of the set, rising.
    pub(crate) fn places(&self, alloc: Global, problem: &Problem) -> Result<Places, OutOfMemory>
        requires { IsStandOf problem.now self.now }
        ensures places { IfOk result (ArePlaces problem.now) }
        ensures stands { IfOk result (λ places. AreMarksOf (length problem.now.items) places self.now.marks) }
    {
        let mut places = Places::new(alloc);
        for place in 0..problem.items() {
            if self.has_place(place) {
                places.push(place)?;
            }
        }
        Ok(places)
    }

    /// Whether no line is negative.
    pub(crate) fn holds(&self, problem: &Problem) -> bool
        requires { IsStandOf problem.now self.now }
        ensures holds { IsTrue result → Holds problem.now self.now.marks }
        ensures overdrawn { IsFalse result → IsOverdrawn problem.now self.now.marks }
    {
        for line in 0..problem.lines() {
            if is_negative(&self.has[line as usize]) {
                return false;
            }
        }
        true
    }

    /// The first effect of a place outside of the set that its line can't bear.
    pub(crate) fn first_tight(&self, problem: &Problem, place: u32) -> Option<Effect>
        requires of { IsStandOf problem.now self.now }
        requires place { place < length problem.now.items }
        ensures none { IfNone result (All (λ e. is_negative (slice_index_or self.now.has e.line (pos 0) +ℤ e.amount) ≡ false) (item_at problem.now place).effects) }
        ensures some { IfSome result (IsTight problem.now self.now place) }
    {
        first_tight(self.has.as_slice(), problem.effects(place))
    }

    /// Whether the item of a touch may give way to a place that is worth more, so that the line of its effect bears it.
    pub(crate) fn gives_way(
        &self,
        problem: &Problem,
        partial: &Partial,
        place: u32,
        effect: &Effect,
        touch: &Touch,
    ) -> bool
        requires of { IsStandOf problem.now self.now }
        requires marks { length partial.now.marks ≡ length problem.now.items }
        requires place { place < length problem.now.items }
        requires line { effect.now.line < length problem.now.lines }
        requires touch { touch.now.place < length problem.now.items }
        ensures { result ≡ gives_way problem.now partial.now.marks self.now place effect.now touch.now }
    {
        let _items = problem.items();
        self.is_taken(touch.place)
            && partial.mark(touch.place).is_undecided()
            && problem.value(touch.place) < problem.value(place)
            && frees(self.has.as_slice(), effect, &touch.amount)
    }

    /// Whether a place is in the set, as a test.
    pub(crate) fn is_taken(&self, place: u32) -> bool
        requires { place < length self.now.marks }
        ensures { result ≡ is_chosen (mark self.now.marks place) }
    {
        matches!(self.marks[place as usize], Mark::Chosen)
    }
}
