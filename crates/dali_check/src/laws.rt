//! Laws of this crate's definitions, for the crates above. Each call does nothing and stands for its clauses.
ghost use Rattle.std.specs.Prelude.{◌≡◌, ◌↔◌, ◌≤◌, ℕ, pos, ◌≤ℤ◌, List, length, IsTrue};
ghost use Rattle.dali_problem.specs.declared.mark.Mark.{Mark};
ghost use Rattle.dali_problem.specs.Clearing.{Clearing};
ghost use Rattle.dali_problem.specs.Feasible.{ArePlaces, IsFeasible, value_of};
ghost use Rattle.dali_problem.specs.Partial.{Agrees};
ghost use Rattle.dali_tree.specs.Range.{IsInRange};
ghost use Rattle.dali_tree.specs.declared.choice.Choice.{Choice};
ghost use Rattle.dali_tree.specs.declared.tree.Tree.{Tree};
ghost use Rattle.dali_lagrange.specs.Bound.{sum_of, bound_of};
ghost use Rattle.dali_lagrange.specs.Multipliers.{multiplier};
ghost use Rattle.dali_check.specs.Allowed.{Allowed, IsCertified};
ghost use Rattle.dali_check.specs.Best.{Best, IsGrown};
ghost use Rattle.dali_check.specs.Lean.{reaches, is_tight};
ghost use Rattle.dali_check.specs.Parts.{bound_of as bound_of_parts};
ghost use Rattle.dali_check.specs.Proves.{closes, proves_tree};

use dali_problem::Problem;

/// Whatever tree proves a bound at whatever partial choice, no feasible set that agrees with the choice is worth more than
/// the bound, in centavos.
pub fn proved_bounds_hold(problem: &Problem)
    ensures { (bound : ℕ) (tree : Tree) (f : List Mark) → length f ≡ length problem.now.items → IsTrue (proves_tree problem.now bound tree f) →
        (t : List ℕ) → ArePlaces problem.now t → IsFeasible problem.now t → Agrees f t → value_of problem.now t ≤ bound }
{
    let _items = problem.items();
}

/// Whatever choice is allowed, each thing that `IsCertified` of `specs/Allowed.antt` says holds of it. Where it is in range,
/// no feasible set is worth more than the sum of its bounds, in centavos, so where its set is worth that sum it is best.
pub fn allowed_choices_hold(problem: &Problem)
    ensures certified { (budget : ℕ) (choice : Choice) → Allowed problem.now budget choice → IsCertified problem.now budget choice }
    ensures bound { (budget : ℕ) (choice : Choice) → IsInRange (length problem.now.items) (length problem.now.lines) choice →
        Allowed problem.now budget choice → (t : List ℕ) → ArePlaces problem.now t → IsFeasible problem.now t → value_of problem.now t ≤ bound_of_parts choice.parts }
    ensures best { (budget : ℕ) (choice : Choice) → IsInRange (length problem.now.items) (length problem.now.lines) choice →
        Allowed problem.now budget choice → value_of problem.now choice.places ≡ bound_of_parts choice.parts → Best problem.now choice.places }
{
    let _items = problem.items();
}

/// To a best set nothing can be added, alone or as the rest of whatever members, and no place of it can be exchanged for
/// one of greater value: it is neither Addable nor Swappable.
pub fn best_sets_are_grown(problem: &Problem)
    ensures { (s : List ℕ) → Best problem.now s → IsGrown problem.now s }
{
    let _items = problem.items();
}

/// The tests of the Sum on its scale are those of the bound of the multipliers in centavos, which is the floor of the Sum's
/// 4,096th part: that it is at least, at most, or just a number.
pub fn scale_tells_bounds()
    ensures reaches { (p : Clearing) (u : ℕ) (lam : List (ℕ × ℕ)) (f : List Mark) →
        IsTrue (reaches p u lam f) ↔ (pos u ≤ℤ bound_of (sum_of p f (multiplier lam))) }
    ensures closes { (p : Clearing) (u : ℕ) (lam : List (ℕ × ℕ)) (f : List Mark) →
        IsTrue (closes p u lam f) ↔ (bound_of (sum_of p f (multiplier lam)) ≤ℤ pos u) }
    ensures tight { (p : Clearing) (u : ℕ) (lam : List (ℕ × ℕ)) (f : List Mark) →
        IsTrue (is_tight p u lam f) ↔ (bound_of (sum_of p f (multiplier lam)) ≡ pos u) }
{}
