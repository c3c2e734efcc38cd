ghost use Rattle.std.specs.Prelude.{◌≡◌, ℕ, ◌<◌, length, if◌then◌else◌};
ghost use Rattle.std.specs.List.{All};
ghost use Rattle.dali_problem.specs.declared.mark.Mark.TheVariants.{Undecided, Left};
ghost use Rattle.dali_problem.specs.Partial.{mark};
ghost use Rattle.dali_problem.specs.Kept.{IsOf};
ghost use Rattle.dali_problem.specs.Feasible.{has};
ghost use Rattle.dali_tree.specs.Fits.{AreRising};

use dali_problem::{Partial, Problem};

/// Makes these places undecided, where all places are left.
pub(crate) fn enter(problem: &Problem, members: &[u32], partial: &mut Partial)
    requires of { IsOf problem.now partial.old }
    requires members { AreRising (length problem.now.items) members.now }
    requires idle { All (λ m. m ≡ Left) partial.old.marks }
    ensures of { IsOf problem.now partial.new }
    ensures marks { (j : ℕ) → mark partial.new.marks j ≡ (if has members.now j then Undecided else mark partial.old.marks j) }
{
    for place in members {
        partial.free(problem, *place);
    }
}

/// Leaves these places, where all of them are undecided.
pub(crate) fn leave(problem: &Problem, members: &[u32], partial: &mut Partial)
    requires of { IsOf problem.now partial.old }
    requires members { AreRising (length problem.now.items) members.now }
    requires undecided { All (λ j. mark partial.old.marks j ≡ Undecided) members.now }
    ensures of { IsOf problem.now partial.new }
    ensures marks { (j : ℕ) → mark partial.new.marks j ≡ (if has members.now j then Left else mark partial.old.marks j) }
{
    for place in members {
        partial.fix(problem, *place, false);
    }
}
