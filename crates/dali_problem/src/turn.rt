ghost use Rattle.std.specs.Prelude.{◌≡◌, ℕ, ◌^◌, ◌<◌, pos, length, replicate, slice_set};
ghost use Rattle.std.specs.List.{All};
ghost use Rattle.dali_base.specs.Limits.{most_effect};
ghost use Rattle.dali_problem.specs.Sums.{sum_over};
ghost use Rattle.dali_problem.specs.Clearing.{balance, on_line};
ghost use Rattle.dali_problem.specs.Limits.{Within, AreEffects, IsProblem};
ghost use Rattle.dali_problem.specs.Kept.{IsOf, IsSmall, AllUndecided, sum_at, moved};

use crate::line_sum::{LineSum, put_in, take_out};
use crate::mark::Mark;
use crate::problem::Problem;
use crate::row::Effect;

/// A line's sums after the effect of a place goes from one mark to another.
fn move_one(sum: &mut LineSum, effect: &Effect, from: Mark, to: Mark)
    requires small { IsSmall (2 ^ 100) sum.old }
    requires amount { Within most_effect effect.now.amount }
    ensures { sum.new ≡ moved sum.old from to effect.now.amount }
{
    take_out(sum, effect, from);
    put_in(sum, effect, to);
}

/// Each line's sums after these effects go from one mark to another.
fn shift(sums: &mut [LineSum], effects: &[Effect], from: Mark, to: Mark)
    requires effects { AreEffects (length sums.old) effects.now }
    requires small { All (IsSmall (2 ^ 100)) sums.old }
    ensures { (l : ℕ) → l < length sums.new → sum_at sums.new l
        ≡ moved (sum_at sums.old l) from to (sum_over (on_line l) effects.now) }
{
    for effect in effects {
        move_one(&mut sums[effect.line as usize], effect, from, to);
    }
}

/// Gives a place another mark, and each line that it changes the sums for it.
pub(crate) fn turn(
    problem: &Problem,
    marks: &mut [Mark],
    sums: &mut [LineSum],
    place: u32,
    to: Mark,
)
    requires of { IsOf problem.now (record { marks = marks.old; sums = sums.old }) }
    requires place { place < length problem.now.items }
    ensures marks { marks.new ≡ slice_set marks.old place to }
    ensures of { IsOf problem.now (record { marks = marks.new; sums = sums.new }) }
    ensures small { All (IsSmall (2 ^ 100)) sums.new }
{
    let from = marks[place as usize];
    shift(sums, problem.effects(place), from, to);
    marks[place as usize] = to;
}

/// Each line with its balance, and nothing chosen or undecided.
fn balances(sums: &mut [LineSum], problem: &Problem)
    requires { length sums.old ≡ length problem.now.lines }
    ensures bounds { IsProblem problem.now }
    ensures sums { (l : ℕ) → l < length sums.new → sum_at sums.new l
        ≡ record { held = balance problem.now l; credits = pos 0; debits = pos 0 } }
{
    for line in 0..problem.lines() {
        sums[line as usize] = LineSum::of(problem.line(line));
    }
}

/// Makes these places undecided, where all are strangers.
pub(crate) fn open(problem: &Problem, members: &[u32], marks: &mut [Mark], sums: &mut [LineSum])
    requires members { All (λ j. j < length problem.now.items) members.now }
    requires strangers { marks.old ≡ replicate (length problem.now.items) Mark.Stranger }
    requires lines { length sums.old ≡ length problem.now.lines }
    ensures undecided { AllUndecided marks.new members.now }
    ensures of { IsOf problem.now (record { marks = marks.new; sums = sums.new }) }
    ensures small { All (IsSmall (2 ^ 100)) sums.new }
{
    balances(sums, problem);
    for place in members {
        turn(problem, marks, sums, *place, Mark::Undecided);
    }
}
