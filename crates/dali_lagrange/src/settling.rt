ghost use Rattle.std.specs.Prelude.{◌≡◌, ◌<◌, [], pos, ◌≤ℤ◌, ◌<ℤ◌, length, slice_index, IfOk, IsTrue, IsFalse};
ghost use Rattle.dali_problem.specs.Kept.{IsOf};
ghost use Rattle.dali_tree.specs.Fits.{lam_fits};
ghost use Rattle.dali_lagrange.specs.Bound.{sum_of};
ghost use Rattle.dali_lagrange.specs.KeptSum.{IsSumOf};
ghost use Rattle.dali_lagrange.specs.Limits.{scale};
ghost use Rattle.dali_lagrange.specs.Multipliers.{AreMultipliers, multiplier};
ghost use Rattle.dali_lagrange.specs.Settled.{IsSettled};
ghost use Rattle.dali_lagrange.specs.Still.{IsStill, IsStillAt};

use crate::kept::Kept;
use crate::listed::listed;
use crate::settled::SETTLED_BELOW;
use dali_base::{OutOfMemory, Seq};
use dali_problem::{Partial, Problem};
use dali_tree::Lam;
use std::alloc::Global;

/// Settled multipliers of a partial choice, each 1 to 2^44, whose Sum isn't above that of the multipliers given. Answers
/// only want of memory but Ok.
///
/// What is settled is defined in `specs/Settled.antt`. A pass over the lines looks at the effects on a line twice where the
/// line has its least best multiplier, and else up to 21 times where that is at most 2^16 away, up to 38 times where it is
/// at most 2^32 away, and up to 50 times where it is farther.
pub fn settle(
    alloc: Global,
    problem: &Problem,
    partial: &Partial,
    start: &Lam,
) -> Result<Lam, OutOfMemory>
    requires partial { IsOf problem.now partial.now }
    requires start { AreMultipliers (length problem.now.lines) start.now }
    ensures fits { IfOk result (λ lam. IsTrue (lam_fits (length problem.now.lines) lam)) }
    ensures settled { IfOk result (λ lam. IsSettled problem.now partial.now.marks (multiplier lam)) }
    ensures not_above { IfOk result (λ lam. sum_of problem.now partial.now.marks (multiplier lam) ≤ℤ sum_of problem.now partial.now.marks (multiplier start.now)) }
{
    let mut kept = Kept::of(alloc, problem, partial)?;
    kept.begin(problem, start, &Seq::new(alloc));
    kept.improve(problem);
    listed(alloc, problem, &kept)
}

impl Kept {
    /// Takes on the multipliers given, or none where the Sum is smaller with all 0.
    fn begin(&mut self, problem: &Problem, start: &Lam, empty: &Lam)
        requires of { IsSumOf problem.now self.old }
        requires start { AreMultipliers (length problem.now.lines) start.now }
        requires empty { empty.now ≡ [] }
        ensures marks { self.new.marks ≡ self.old.marks }
        ensures of { IsSumOf problem.now self.new }
        ensures not_above_zero { sum_of problem.now self.new.marks (slice_index self.new.multipliers) ≤ℤ sum_of problem.now self.new.marks (λ _. 0) }
        ensures not_above_start { sum_of problem.now self.new.marks (slice_index self.new.multipliers) ≤ℤ sum_of problem.now self.new.marks (multiplier start.now) }
    {
        self.load(problem, start);
        if self.sum() > self.zero_sum(problem) {
            self.load(problem, empty);
        }
    }

    /// Passes over the lines until the Sum is below 4,096 or nothing gives a gain.
    fn improve(&mut self, problem: &Problem)
        requires { IsSumOf problem.now self.old }
        ensures marks { self.new.marks ≡ self.old.marks }
        ensures of { IsSumOf problem.now self.new }
        ensures not_above { self.new.total ≤ℤ self.old.total }
        ensures still { pos scale ≤ℤ self.new.total → IsStill problem.now self.new.marks self.new.multipliers self.new.total }
    {
        while self.sum() >= SETTLED_BELOW {
            if !self.pass(problem) {
                return;
            }
        }
    }

    /// Goes over the lines once, and takes each gain. Whether there was one.
    fn pass(&mut self, problem: &Problem) -> bool
        requires { IsSumOf problem.now self.old }
        ensures marks { self.new.marks ≡ self.old.marks }
        ensures of { IsSumOf problem.now self.new }
        ensures gained { IsTrue result → self.new.total <ℤ self.old.total }
        ensures same { IsFalse result → self.new ≡ self.old }
        ensures still { IsFalse result → IsStill problem.now self.old.marks self.old.multipliers self.old.total }
    {
        let mut gained = false;
        for line in 0..problem.lines() {
            if self.take_gain(problem, line) {
                gained = true;
            }
        }
        gained
    }

    /// Takes a gain on a line. Whether there was one.
    fn take_gain(&mut self, problem: &Problem, line: u32) -> bool
        requires of { IsSumOf problem.now self.old }
        requires line { line < length problem.now.lines }
        ensures marks { self.new.marks ≡ self.old.marks }
        ensures of { IsSumOf problem.now self.new }
        ensures gained { IsTrue result → self.new.total <ℤ self.old.total }
        ensures same { IsFalse result → self.new ≡ self.old }
        ensures none { IsFalse result → IsStillAt problem.now self.old.marks self.old.multipliers self.old.total line }
    {
        match self.gain_at(problem, line) {
            Some(gain) => {
                self.set_with_rise(problem, line, gain.to, &gain.rise);
                true
            }
            None => false,
        }
    }
}
