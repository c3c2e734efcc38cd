ghost use Rattle.std.specs.Prelude.{◌≡◌, ℕ, ◌+◌, ◌-◌, ◌^◌, ◌<◌, ◌≤◌, ◌↔◌, ◌+ℤ◌, ◌-ℤ◌, ◌≤ℤ◌, length, slice_index, IsTrue, IsFalse, IfSome, IfNone};
ghost use Rattle.dali_base.specs.Limits.{most_multiplier};
ghost use Rattle.dali_problem.specs.Limits.{Within};
ghost use Rattle.dali_lagrange.specs.Best.{sum_with, IsBestAt, FallsTo, RisesFrom, IsBracket};
ghost use Rattle.dali_lagrange.specs.KeptSum.{IsSumOf};
ghost use Rattle.dali_lagrange.specs.Settled.{is_settled};
ghost use Rattle.dali_lagrange.specs.Still.{IsGain, IsStillAt, IsStill};

use crate::best::is_at_most;
use crate::kept::Kept;
use crate::limits::{GAIN_PARTS, SCALE};
use dali_base::limits::MOST_MULTIPLIER;
use dali_problem::Problem;

/// A Sum below this isn't settled further: it is less than a centavo.
pub(crate) const SETTLED_BELOW: i128 = SCALE as i128;

/// A change of a multiplier is a gain where it takes at least one of so many equal parts of the Sum.
const GAIN_PART: i128 = GAIN_PARTS as i128;

/// How far from a line's multiplier its best one is looked for first, and by what this range grows where it isn't there.
const NEAR_RANGE: u64 = 1 << 16;

/// A multiplier of a line that gives a gain.
#[derive(Clone, Copy)]
pub(crate) struct Gain {
    /// The multiplier.
    pub(crate) to: u64,
    /// How much the Sum rises where the line gets it: below 0.
    pub(crate) rise: i128,
}

/// A range of multipliers in which the best one of a line lies.
#[derive(Clone, Copy)]
struct Bracket {
    low: u64,
    high: u64,
}

impl Kept {
    /// The least of the multipliers from 0 to 2^44 that give the smallest Sum, with those of the other lines kept, as
    /// `specs/Best.antt` defines it. It halves these numbers, and looks at what touches the line at each halving.
    pub fn best_at(&self, problem: &Problem, line: u32) -> u64
        requires of { IsSumOf problem.now self.now }
        requires line { line < length problem.now.lines }
        ensures { IsBestAt problem.now self.now.marks self.now.multipliers line result }
    {
        let all = Bracket {
            low: 0,
            high: MOST_MULTIPLIER,
        };
        self.best_within(problem, line, all)
    }

    /// The same within a bracket.
    fn best_within(&self, problem: &Problem, line: u32, bracket: Bracket) -> u64
        requires of { IsSumOf problem.now self.now }
        requires line { line < length problem.now.lines }
        requires bracket { IsBracket problem.now self.now.marks self.now.multipliers line bracket.low bracket.high }
        ensures { IsBestAt problem.now self.now.marks self.now.multipliers line result }
    {
        let Bracket { mut low, mut high } = bracket;
        'search: while low < high {
            let middle = low + (high - low) / 2;
            if self.is_rising(problem, line, middle) {
                high = middle;
            } else {
                low = middle + 1;
            }
        }
        low
    }

    /// Where the least best multiplier of the line lies, or `None` where the line has it. Two looks at what touches the
    /// line tell whether it has.
    fn bracket(&self, problem: &Problem, line: u32) -> Option<Bracket>
        requires of { IsSumOf problem.now self.now }
        requires line { line < length problem.now.lines }
        ensures some { IfSome result (λ b. IsBracket problem.now self.now.marks self.now.multipliers line b.low b.high) }
        ensures none { IfNone result (IsStillAt problem.now self.now.marks self.now.multipliers self.now.total line) }
    {
        let at = self.multiplier(line);
        if self.falls_from(problem, line, at) {
            return Some(self.bracket_above(problem, line, at + 1));
        }
        if self.rises_to(problem, line, at) {
            return Some(self.bracket_below(problem, line, at - 1));
        }
        None
    }

    /// Whether one more than this on the line makes the Sum smaller.
    fn falls_from(&self, problem: &Problem, line: u32, at: u64) -> bool
        requires of { IsSumOf problem.now self.now }
        requires line { line < length problem.now.lines }
        requires at { at ≤ most_multiplier }
        ensures within { IsTrue result → at < most_multiplier }
        ensures falls { IsTrue result → FallsTo problem.now self.now.marks self.now.multipliers line (at + 1) }
        ensures rises { IsFalse result → RisesFrom problem.now self.now.marks self.now.multipliers line at }
    {
        if at >= MOST_MULTIPLIER {
            return false;
        }
        !self.is_rising(problem, line, at)
    }

    /// Whether one less than this on the line doesn't make the Sum greater.
    fn rises_to(&self, problem: &Problem, line: u32, at: u64) -> bool
        requires of { IsSumOf problem.now self.now }
        requires line { line < length problem.now.lines }
        requires at { at ≤ most_multiplier }
        ensures within { IsTrue result → 0 < at }
        ensures rises { IsTrue result → RisesFrom problem.now self.now.marks self.now.multipliers line (at - 1) }
        ensures falls { IsFalse result → FallsTo problem.now self.now.marks self.now.multipliers line at }
    {
        if at == 0 {
            return false;
        }
        self.is_rising(problem, line, at - 1)
    }

    /// Where the best multiplier lies, where the Sum falls up to `from`. It is looked for in ranges that widen.
    fn bracket_above(&self, problem: &Problem, line: u32, from: u64) -> Bracket
        requires of { IsSumOf problem.now self.now }
        requires line { line < length problem.now.lines }
        requires within { from ≤ most_multiplier }
        requires falls { FallsTo problem.now self.now.marks self.now.multipliers line from }
        ensures { IsBracket problem.now self.now.marks self.now.multipliers line result.low result.high }
    {
        let mut low = from;
        let mut reach = NEAR_RANGE;
        'widen: while reach < MOST_MULTIPLIER - low {
            let end = low + reach;
            if self.is_rising(problem, line, end) {
                return Bracket { low, high: end };
            }
            low = end + 1;
            reach *= NEAR_RANGE;
        }
        Bracket {
            low,
            high: MOST_MULTIPLIER,
        }
    }

    /// Where the best multiplier lies, where the Sum doesn't fall from `from` on. It is looked for in ranges that widen.
    fn bracket_below(&self, problem: &Problem, line: u32, from: u64) -> Bracket
        requires of { IsSumOf problem.now self.now }
        requires line { line < length problem.now.lines }
        requires within { from ≤ most_multiplier }
        requires rises { RisesFrom problem.now self.now.marks self.now.multipliers line from }
        ensures { IsBracket problem.now self.now.marks self.now.multipliers line result.low result.high }
    {
        let mut high = from;
        let mut reach = NEAR_RANGE;
        'widen: while reach < high {
            let end = high - reach;
            if !self.is_rising(problem, line, end) {
                return Bracket { low: end + 1, high };
            }
            high = end;
            reach *= NEAR_RANGE;
        }
        Bracket { low: 0, high }
    }

    /// Whether one more on this line doesn't make the Sum smaller.
    fn is_rising(&self, problem: &Problem, line: u32, at: u64) -> bool
        requires of { IsSumOf problem.now self.now }
        requires line { line < length problem.now.lines }
        requires at { at < most_multiplier }
        ensures { IsTrue result
            ↔ (sum_with problem.now self.now.marks self.now.multipliers line at
            ≤ℤ sum_with problem.now self.now.marks self.now.multipliers line (at + 1)) }
    {
        let rise = self.rise(problem, line, at, at + 1);
        is_at_most(&0, &rise)
    }

    /// A multiplier of the line that gives a gain, or `None` exactly where there is none.
    pub(crate) fn gain_at(&self, problem: &Problem, line: u32) -> Option<Gain>
        requires of { IsSumOf problem.now self.now }
        requires line { line < length problem.now.lines }
        ensures some { IfSome result (λ gain. gain.to ≤ most_multiplier) }
        ensures rise { IfSome result (λ gain. gain.rise
            ≡ sum_with problem.now self.now.marks self.now.multipliers line gain.to
            -ℤ sum_with problem.now self.now.marks self.now.multipliers line (slice_index self.now.multipliers line)) }
        ensures bounded { IfSome result (λ gain. Within (2 ^ 116) gain.rise) }
        ensures gain { IfSome result (λ gain. IsGain self.now.total (sum_with problem.now self.now.marks self.now.multipliers line gain.to)) }
        ensures none { IfNone result (IsStillAt problem.now self.now.marks self.now.multipliers self.now.total line) }
    {
        let bracket = self.bracket(problem, line)?;
        let best = self.best_within(problem, line, bracket);
        let rise = self.rise(problem, line, self.multiplier(line), best);
        if is_gain(&self.sum(), &rise) {
            Some(Gain { to: best, rise })
        } else {
            None
        }
    }

    /// Whether no multiplier of any line gives a gain.
    fn is_still(&self, problem: &Problem) -> bool
        requires { IsSumOf problem.now self.now }
        ensures { IsTrue result ↔ IsStill problem.now self.now.marks self.now.multipliers self.now.total }
    {
        for line in 0..problem.lines() {
            if let Some(_) = self.gain_at(problem, line) {
                return false;
            }
        }
        true
    }

    /// Whether the multipliers are settled for the marks, as `specs/Settled.antt` defines it.
    pub fn is_settled(&self, problem: &Problem) -> bool
        requires { IsSumOf problem.now self.now }
        ensures { result ≡ is_settled problem.now self.now.marks (slice_index self.now.multipliers) }
    {
        is_at_most(&self.sum(), &self.zero_sum(problem))
            && (self.sum() < SETTLED_BELOW || self.is_still(problem))
    }
}

/// Whether the Sum falls by a 1,024th part at least where it rises by so much.
#[tactic(auto, using(std::proofs::lemmas::Int::ints))]
fn is_gain(sum: &i128, rise: &i128) -> bool
    requires sum { Within (2 ^ 117 - 1) sum.now }
    requires rise { Within (2 ^ 116) rise.now }
    ensures { IsTrue result ↔ IsGain sum.now (sum.now +ℤ rise.now) }
{
    *rise < 0 && *sum <= -*rise * GAIN_PART
}
