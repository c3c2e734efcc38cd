ghost use Rattle.std.specs.Prelude.{◌≡◌, ℕ, List, length, IsTrue};
ghost use Rattle.std.specs.List.{Contains};
ghost use Rattle.dali_problem.specs.declared.mark.Mark.{Mark};
ghost use Rattle.dali_problem.specs.Feasible.{ArePlaces, IsFeasible};
ghost use Rattle.dali_problem.specs.Partial.{Agrees};
ghost use Rattle.dali_problem.specs.Rules.{is_safe};
ghost use Rattle.dali_fixes.specs.Worth.{TakesMore};

use dali_problem::Problem;

/// Does nothing. It stands for its clause, the exchange of the rule Safe: a place that is safe at a partial choice can be
/// taken beside every feasible set that agrees and leaves it. The set with the place stays feasible, and is worth more.
pub fn safe_exchanges(problem: &Problem)
    ensures { (f : List Mark) (j : ℕ) → length f ≡ length problem.now.items → IsTrue (is_safe problem.now f j) → (t : List ℕ) →
        ArePlaces problem.now t → IsFeasible problem.now t → Agrees f t → ¬ (Contains t j) → TakesMore problem.now f j t }
{
    let _items = problem.items();
}
