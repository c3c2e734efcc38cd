ghost use Rattle.std.specs.Prelude.{◌≡◌, ◌≢◌, ℕ, ◌<◌, length, replicate, slice_set};
ghost use Rattle.dali_problem.specs.Partial.{mark};
ghost use Rattle.dali_greedy.specs.Standing.{IsStandOf};

use crate::lines::{add, balances, take_out};
use dali_problem::{Mark, Problem};

/// Gives each line its balance, where each place is left.
pub(crate) fn begin(problem: &Problem, marks: &[Mark], has: &mut [i128])
    requires left { marks.now ≡ replicate (length problem.now.items) Mark.Left }
    requires lines { length has.old ≡ length problem.now.lines }
    ensures of { IsStandOf problem.now (record { marks = marks.now; has = has.new }) }
    ensures empty { (j : ℕ) → mark marks.now j ≢ Mark.Chosen }
{
    balances(has, problem);
}

/// Takes a left place in, and gives each line its effects.
pub(crate) fn take_in(problem: &Problem, marks: &mut [Mark], has: &mut [i128], place: u32)
    requires of { IsStandOf problem.now (record { marks = marks.old; has = has.old }) }
    requires left { mark marks.old place ≡ Mark.Left }
    ensures of { IsStandOf problem.now (record { marks = marks.new; has = has.new }) }
    ensures marks { marks.new ≡ slice_set marks.old place Mark.Chosen }
{
    add(has, problem.effects(place));
    marks[place as usize] = Mark::Chosen;
}

/// Takes a chosen place out, and its effects from each line.
pub(crate) fn give_up(problem: &Problem, marks: &mut [Mark], has: &mut [i128], place: u32)
    requires of { IsStandOf problem.now (record { marks = marks.old; has = has.old }) }
    requires chosen { mark marks.old place ≡ Mark.Chosen }
    ensures of { IsStandOf problem.now (record { marks = marks.new; has = has.new }) }
    ensures marks { marks.new ≡ slice_set marks.old place Mark.Left }
{
    take_out(has, problem.effects(place));
    marks[place as usize] = Mark::Left;
}
