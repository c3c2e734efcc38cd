ghost use Rattle.std.specs.Prelude.{◌≡◌, ℕ, ◌<◌, Bool, ◌&&◌, ◌||◌, not, length, IsTrue, IfOk, slice_set, if◌then◌else◌};
ghost use Rattle.std.specs.List.{All, list_all};
ghost use Rattle.dali_problem.specs.Clearing.{Clearing, item_at};
ghost use Rattle.dali_problem.specs.Partial.{mark, is_decided};
ghost use Rattle.dali_problem.specs.Rules.{is_negative, is_short, is_barred, is_needed, is_safe};
ghost use Rattle.dali_problem.specs.Kept.{IsOf, AllUndecided};

use crate::line_sum::{
    LineSum, all_quiet, amount_on, bears_all, is_short_if_chosen, is_short_if_left, is_short_now,
    pays_all,
};
use crate::mark::Mark;
use crate::problem::Problem;
use crate::turn::{open, turn};
use dali_base::{OutOfMemory, Places};
use std::alloc::Global;
use std::marker::Model;

/// A partial choice among the items of a problem, with what each line would have kept beside it, so that a test
/// costs no more than the effects of its place.
#[derive(Debug, Drop)]
pub struct Partial {
    marks: Vec<Mark>,
    sums: Vec<LineSum>,
}

impl Model for Partial {
    ghost use Rattle.dali_problem.specs.Kept.{Kept};

    ghost Value = { Kept };

    ghost use Rattle.dali_problem.specs.KeptLayout.{kept_of, IsBounded};

    ghost view = { kept_of };

    ghost invariant = { IsBounded };
}

impl Partial {
    /// The members of a problem, all undecided. They may stand in any order, and more than once. Answers only want of
    /// memory but Ok.
    pub fn new(alloc: Global, problem: &Problem, members: &Places) -> Result<Partial, OutOfMemory>
        requires { All (λ j. j < length problem.now.items) members.now }
        ensures of { IfOk result (λ partial. IsOf problem.now partial) }
        ensures undecided { IfOk result (λ partial. AllUndecided partial.marks members.now) }
    {
        let mut marks = vec![in alloc; Mark::Stranger; problem.items() as usize]?;
        let mut sums = vec![in alloc; LineSum::EMPTY; problem.lines() as usize]?;
        open(
            problem,
            members.as_slice(),
            marks.as_mut_slice(),
            sums.as_mut_slice(),
        );
        Ok(Partial { marks, sums })
    }

    /// Decides an undecided place. No other place changes.
    pub fn fix(&mut self, problem: &Problem, place: u32, chosen: bool)
        requires of { IsOf problem.now self.old }
        requires undecided { mark self.old.marks place ≡ Mark.Undecided }
        ensures marks { self.new.marks ≡ slice_set self.old.marks place (if chosen then Mark.Chosen else Mark.Left) }
        ensures of { IsOf problem.now self.new }
    {
        let to = if chosen { Mark::Chosen } else { Mark::Left };
        turn(
            problem,
            self.marks.as_mut_slice(),
            self.sums.as_mut_slice(),
            place,
            to,
        );
    }

    /// Makes a decided place undecided again. No other place changes.
    pub fn free(&mut self, problem: &Problem, place: u32)
        requires of { IsOf problem.now self.old }
        requires decided { IsTrue (is_decided (mark self.old.marks place)) }
        ensures marks { self.new.marks ≡ slice_set self.old.marks place Mark.Undecided }
        ensures of { IsOf problem.now self.new }
    {
        turn(
            problem,
            self.marks.as_mut_slice(),
            self.sums.as_mut_slice(),
            place,
            Mark::Undecided,
        );
    }

    /// What is said of a place, as `specs/Partial.antt` defines it.
    pub fn mark(&self, place: u32) -> Mark
        requires { place < length self.now.marks }
        ensures { result ≡ mark self.now.marks place }
    {
        self.marks[place as usize]
    }

    /// Whether the line is negative whatever is chosen among the undecided: `is_short` of `specs/Rules.antt`.
    pub fn is_short(&self, line: u32) -> bool
        requires { line < length self.now.sums }
        ensures { (p : Clearing) → IsOf p self.now → result ≡ is_short p self.now.marks line }
    {
        is_short_now(&self.sums[line as usize])
    }

    /// Whether an undecided place can't be chosen: the line would be short. False where it isn't undecided. This is
    /// `is_barred` of `specs/Rules.antt`.
    pub fn is_barred(&self, problem: &Problem, place: u32, line: u32) -> bool
        requires of { IsOf problem.now self.now }
        requires place { place < length problem.now.items }
        requires line { line < length problem.now.lines }
        ensures { result ≡ is_barred problem.now self.now.marks place line }
    {
        if !self.marks[place as usize].is_undecided() {
            return false;
        }
        let amount = amount_on(problem.effects(place), line);
        is_short_if_chosen(&self.sums[line as usize], &amount)
    }

    /// Whether an undecided place can't be left: the line would be short. False where it isn't undecided. This is
    /// `is_needed` of `specs/Rules.antt`.
    pub fn is_needed(&self, problem: &Problem, place: u32, line: u32) -> bool
        requires of { IsOf problem.now self.now }
        requires place { place < length problem.now.items }
        requires line { line < length problem.now.lines }
        ensures { result ≡ is_needed problem.now self.now.marks place line }
    {
        if !self.marks[place as usize].is_undecided() {
            return false;
        }
        let amount = amount_on(problem.effects(place), line);
        is_short_if_left(&self.sums[line as usize], &amount)
    }

    /// Whether each line that an undecided place debits pays all that undecided places may take from it. False where
    /// the place isn't undecided. This is `is_safe` of `specs/Rules.antt`.
    pub fn is_safe(&self, problem: &Problem, place: u32) -> bool
        requires of { IsOf problem.now self.now }
        requires place { place < length problem.now.items }
        ensures { result ≡ is_safe problem.now self.now.marks place }
    {
        if !self.marks[place as usize].is_undecided() {
            return false;
        }
        pays_all(self.sums.as_slice(), problem.effects(place))
    }

    /// Whether no line that a place debits bars it. True where the place isn't undecided. Looks at each effect once.
    pub fn bears(&self, problem: &Problem, place: u32) -> bool
        requires of { IsOf problem.now self.now }
        requires place { place < length problem.now.items }
        ensures { result
            ≡ list_all (λ e. not (is_negative e.amount) || not (is_barred problem.now self.now.marks place e.line)) (item_at problem.now place).effects }
    {
        if !self.marks[place as usize].is_undecided() {
            return true;
        }
        bears_all(self.sums.as_slice(), problem.effects(place))
    }

    /// Whether no line that a place changes bars it or needs it. True where the place isn't undecided. Looks at each
    /// effect once.
    pub fn is_quiet(&self, problem: &Problem, place: u32) -> bool
        requires of { IsOf problem.now self.now }
        requires place { place < length problem.now.items }
        ensures { result
            ≡ list_all (λ e. not (is_barred problem.now self.now.marks place e.line) && not (is_needed problem.now self.now.marks place e.line)) (item_at problem.now place).effects }
    {
        if !self.marks[place as usize].is_undecided() {
            return true;
        }
        all_quiet(self.sums.as_slice(), problem.effects(place))
    }
}
