ghost use Rattle.std.specs.Prelude.{◌≡◌, ℕ, ◌-◌, ◌^◌, ◌<◌, ◌≤◌, ◌-ℤ◌, length, replicate, slice_index, slice_set, IfOk, IsTrue, if◌then◌else◌};
ghost use Rattle.std.specs.List.{All};
ghost use Rattle.dali_base.specs.Limits.{most_multiplier};
ghost use Rattle.dali_problem.specs.Clearing.{Clearing};
ghost use Rattle.dali_problem.specs.Kept.{IsOf, AllUndecided};
ghost use Rattle.dali_problem.specs.Limits.{Within};
ghost use Rattle.dali_problem.specs.Partial.{mark, is_decided};
ghost use Rattle.dali_lagrange.specs.Best.{sum_with};
ghost use Rattle.dali_lagrange.specs.Bound.{reduced, sum_of};
ghost use Rattle.dali_lagrange.specs.KeptSum.{IsSumOf};
ghost use Rattle.dali_lagrange.specs.Multipliers.{AreMultipliers, multiplier};

use crate::listed::next_multiplier;
use crate::product::{add_balance, plus, recount};
use crate::start::{marks_of, members_of, values, zero_sum};
use crate::touched::{add_rises, offset, shift_touched};
use dali_base::{OutOfMemory, Places};
use dali_problem::{Columns, Mark, Partial, Problem};
use dali_tree::Lam;
use std::alloc::Global;
use std::marker::Model;

/// Marks and multipliers for a problem, with the reduced value of each place and the Sum kept beside them.
///
/// What is kept follows each change, so that it is told at once. A change costs what it touches.
#[derive(Debug, Drop)]
pub struct Kept {
    marks: Vec<Mark>,
    multipliers: Vec<u64>,
    reduced: Vec<i128>,
    total: i128,
    columns: Columns,
}

impl Model for Kept {
    ghost use Rattle.dali_lagrange.specs.KeptSum.{KeptSum};

    ghost Value = { KeptSum };

    ghost use Rattle.dali_lagrange.specs.KeptSumLayout.{view_of, IsBounded};

    ghost view = { view_of };

    ghost invariant = { IsBounded };
}

impl Kept {
    /// The members of a problem, all undecided, with all multipliers 0. Answers only want of memory but Ok.
    pub fn new(alloc: Global, problem: &Problem, members: &Places) -> Result<Kept, OutOfMemory>
        requires { All (λ j. j < length problem.now.items) members.now }
        ensures of { IfOk result (λ kept. IsSumOf problem.now kept) }
        ensures undecided { IfOk result (λ kept. AllUndecided kept.marks members.now) }
        ensures multipliers { IfOk result (λ kept. kept.multipliers ≡ replicate (length problem.now.lines) 0) }
    {
        let marks = members_of(alloc, problem, members.as_slice())?;
        Kept::at_zero(alloc, problem, marks)
    }

    /// The marks of a partial choice, with all multipliers 0.
    pub(crate) fn of(
        alloc: Global,
        problem: &Problem,
        partial: &Partial,
    ) -> Result<Kept, OutOfMemory>
        requires { IsOf problem.now partial.now }
        ensures of { IfOk result (λ kept. IsSumOf problem.now kept) }
        ensures marks { IfOk result (λ kept. kept.marks ≡ partial.now.marks) }
        ensures multipliers { IfOk result (λ kept. kept.multipliers ≡ replicate (length problem.now.lines) 0) }
    {
        let marks = marks_of(alloc, problem, partial)?;
        Kept::at_zero(alloc, problem, marks)
    }

    /// These marks, with all multipliers 0.
    fn at_zero(alloc: Global, problem: &Problem, marks: Vec<Mark>) -> Result<Kept, OutOfMemory>
        requires { length marks.items ≡ length problem.now.items }
        ensures of { IfOk result (λ kept. IsSumOf problem.now kept) }
        ensures marks { IfOk result (λ kept. kept.marks ≡ marks.items) }
        ensures multipliers { IfOk result (λ kept. kept.multipliers ≡ replicate (length problem.now.lines) 0) }
    {
        let columns = Columns::new(alloc, problem)?;
        let multipliers = vec![in alloc; 0; problem.lines() as usize]?;
        let reduced = values(alloc, problem)?;
        let total = zero_sum(problem, marks.as_slice());
        Ok(Kept {
            marks,
            multipliers,
            reduced,
            total,
            columns,
        })
    }

    /// Decides an undecided place. Nothing else changes.
    pub fn fix(&mut self, problem: &Problem, place: u32, chosen: bool)
        requires of { IsSumOf problem.now self.old }
        requires undecided { mark self.old.marks place ≡ Mark.Undecided }
        ensures marks { self.new.marks ≡ slice_set self.old.marks place (if chosen then Mark.Chosen else Mark.Left) }
        ensures multipliers { self.new.multipliers ≡ self.old.multipliers }
        ensures of { IsSumOf problem.now self.new }
    {
        let to = if chosen { Mark::Chosen } else { Mark::Left };
        self.turn(problem, place, to);
    }

    /// Makes a decided place undecided again. Nothing else changes.
    pub fn free(&mut self, problem: &Problem, place: u32)
        requires of { IsSumOf problem.now self.old }
        requires decided { IsTrue (is_decided (mark self.old.marks place)) }
        ensures marks { self.new.marks ≡ slice_set self.old.marks place Mark.Undecided }
        ensures multipliers { self.new.multipliers ≡ self.old.multipliers }
        ensures of { IsSumOf problem.now self.new }
    {
        self.turn(problem, place, Mark::Undecided);
    }

    /// Gives a place another mark.
    fn turn(&mut self, problem: &Problem, place: u32, to: Mark)
        requires of { IsSumOf problem.now self.old }
        requires place { place < length problem.now.items }
        ensures marks { self.new.marks ≡ slice_set self.old.marks place to }
        ensures multipliers { self.new.multipliers ≡ self.old.multipliers }
        ensures of { IsSumOf problem.now self.new }
    {
        let _items = problem.items();
        let at = place as usize;
        recount(&mut self.total, self.marks[at], to, &self.reduced[at]);
        self.marks[at] = to;
    }

    /// How much the Sum changes where the multiplier of a line goes from one number to another.
    pub(crate) fn rise(&self, problem: &Problem, line: u32, from: u64, to: u64) -> i128
        requires of { IsSumOf problem.now self.now }
        requires line { line < length problem.now.lines }
        requires from { from ≤ most_multiplier }
        requires to { to ≤ most_multiplier }
        ensures exact { result
            ≡ sum_with problem.now self.now.marks self.now.multipliers line to
            -ℤ sum_with problem.now self.now.marks self.now.multipliers line from }
        ensures bounded { Within (2 ^ 116) result }
    {
        let now = self.multipliers[line as usize];
        let mut total = 0;
        add_balance(&mut total, &offset(from, to), problem.line(line).balance);
        add_rises(
            &mut total,
            self.columns.touching(line),
            self.marks.as_slice(),
            self.reduced.as_slice(),
            &offset(now, from),
            &offset(now, to),
        );
        total
    }

    /// Gives a line this multiplier, at most 2^44. Nothing else changes. Costs what touches the line.
    pub fn set(&mut self, problem: &Problem, line: u32, to: u64)
        requires of { IsSumOf problem.now self.old }
        requires line { line < length problem.now.lines }
        requires bounded { to ≤ most_multiplier }
        ensures marks { self.new.marks ≡ self.old.marks }
        ensures multipliers { self.new.multipliers ≡ slice_set self.old.multipliers line to }
        ensures of { IsSumOf problem.now self.new }
    {
        let rise = self.rise(problem, line, self.multiplier(line), to);
        self.set_with_rise(problem, line, to, &rise);
    }

    /// The same, where it is known how much the Sum rises.
    pub(crate) fn set_with_rise(&mut self, problem: &Problem, line: u32, to: u64, rise: &i128)
        requires of { IsSumOf problem.now self.old }
        requires line { line < length problem.now.lines }
        requires bounded { to ≤ most_multiplier }
        requires rise { rise.now
            ≡ sum_with problem.now self.old.marks self.old.multipliers line to
            -ℤ sum_with problem.now self.old.marks self.old.multipliers line (slice_index self.old.multipliers line) }
        requires rise_bounded { Within (2 ^ 116) rise.now }

        // what it has become
        ensures marks { self.new.marks ≡ self.old.marks }
        ensures multipliers { self.new.multipliers ≡ slice_set self.old.multipliers line to }
        ensures of { IsSumOf problem.now self.new }
    {
        let _items = problem.items();
        let now = self.multipliers[line as usize];
        plus(&mut self.total, rise);
        shift_touched(
            self.reduced.as_mut_slice(),
            self.columns.touching(line),
            &offset(now, to),
        );
        self.multipliers[line as usize] = to;
    }

    /// Takes on these multipliers, each at most 2^44, on rising lines. A line that isn't listed gets 0. Costs what touches
    /// the lines that change.
    pub fn load(&mut self, problem: &Problem, lam: &Lam)
        requires of { IsSumOf problem.now self.old }
        requires lam { AreMultipliers (length problem.now.lines) lam.now }
        ensures marks { self.new.marks ≡ self.old.marks }
        ensures multipliers { (l : ℕ) → l < length problem.now.lines → slice_index self.new.multipliers l ≡ multiplier lam.now l }
        ensures of { IsSumOf problem.now self.new }
    {
        let listed = lam.as_slice();
        let mut next = 0;
        for line in 0..problem.lines() {
            let to = next_multiplier(listed, &mut next, line);
            self.move_to(problem, line, to);
        }
    }

    /// Gives a line this multiplier, where it has another.
    fn move_to(&mut self, problem: &Problem, line: u32, to: u64)
        requires of { IsSumOf problem.now self.old }
        requires line { line < length problem.now.lines }
        requires bounded { to ≤ most_multiplier }
        ensures marks { self.new.marks ≡ self.old.marks }
        ensures multipliers { self.new.multipliers ≡ slice_set self.old.multipliers line to }
        ensures of { IsSumOf problem.now self.new }
    {
        if self.multipliers[line as usize] != to {
            self.set(problem, line, to);
        }
    }

    /// What is said of a place.
    pub fn mark(&self, place: u32) -> Mark
        requires { place < length self.now.marks }
        ensures { result ≡ mark self.now.marks place }
    {
        self.marks[place as usize]
    }

    /// The multiplier of a line, at most 2^44.
    pub fn multiplier(&self, line: u32) -> u64
        requires { line < length self.now.multipliers }
        ensures value { result ≡ slice_index self.now.multipliers line }
        ensures bounded { result ≤ most_multiplier }
    {
        self.multipliers[line as usize]
    }

    /// The value of a place on the scale of 4,096, with what its effects are worth at the multipliers, as
    /// `specs/Bound.antt` defines it. It is at most 2^103 in size.
    pub fn reduced(&self, place: u32) -> i128
        requires { place < length self.now.reduced }
        ensures exact { (p : Clearing) → IsSumOf p self.now → result ≡ reduced p (slice_index self.now.multipliers) place }
        ensures bounded { Within (2 ^ 103) result }
    {
        self.reduced[place as usize]
    }

    /// The Sum of the marks at the multipliers, as `specs/Bound.antt` defines it. It is below 2^117 in size.
    pub fn sum(&self) -> i128
        ensures exact { (p : Clearing) → IsSumOf p self.now → result ≡ sum_of p self.now.marks (slice_index self.now.multipliers) }
        ensures bounded { Within (2 ^ 117 - 1) result }
        ensures kept { result ≡ self.now.total }
    {
        self.total
    }

    /// The Sum of the marks with all multipliers 0.
    pub(crate) fn zero_sum(&self, problem: &Problem) -> i128
        requires { IsSumOf problem.now self.now }
        ensures exact { result ≡ sum_of problem.now self.now.marks (λ _. 0) }
        ensures bounded { Within (2 ^ 117 - 1) result }
    {
        zero_sum(problem, self.marks.as_slice())
    }
}
