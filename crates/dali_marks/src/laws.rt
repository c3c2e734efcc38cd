//! Laws of this crate's definitions, for the crates above.
ghost use Rattle.std.specs.Prelude.{◌≡◌, ◌+◌, ◌^◌, ◌≤◌, ℕ, List, length};
ghost use Rattle.dali_base.specs.Limits.{most_budget};
ghost use Rattle.dali_problem.specs.Clearing.{Clearing};
ghost use Rattle.dali_problem.specs.Feasible.{ArePlaces, IsFeasible, value_of};
ghost use Rattle.dali_tree.specs.declared.choice.Choice.{Choice};
ghost use Rattle.dali_check.specs.Parts.{bound_of};
ghost use Rattle.dali_entry.specs.EntryRecord.{EntryRecord};
ghost use Rattle.dali_machine.specs.Machine.{Machine, opening};
ghost use Rattle.dali_machine.specs.Cycles.{IsChoiceFor, IsTrueReport, problem_at, report_of};
ghost use Rattle.dali_machine.specs.declared.report.CycleMark.TheVariants.{Optimal};
ghost use Rattle.dali_machine.specs.History.{AreNext, IsLegal};
ghost use Rattle.dali_marks.specs.AreTrue.{AreTrue};
ghost use Rattle.dali_marks.specs.OwnLines.{ChangesOwnLines};

/// The call does nothing and stands for its clauses.
///
/// Of any problem that changes only its own lines, with numbers of any size, no feasible set is worth more than the
/// bounds of a choice that fits and is allowed. In any state the report of a cycle with such a choice is true, and with
/// a budget for every set of places its mark is OPTIMAL. So what is answered to entries that may come one after the
/// other behind any state is true, and so to each legal history.
pub fn marks_are_true()
    ensures bounds { (p : Clearing) (budget : ℕ) (choice : Choice) → ChangesOwnLines p → IsChoiceFor p budget choice →
        (t : List ℕ) → ArePlaces p t → IsFeasible p t → value_of p t ≤ bound_of choice.parts }
    ensures cycles { (m : Machine) (t budget : ℕ) (choice : Choice) → budget ≤ most_budget →
        IsChoiceFor (problem_at m t) budget choice → IsTrueReport (report_of m t budget choice) }
    ensures enough { (m : Machine) (t budget : ℕ) (choice : Choice) → IsChoiceFor (problem_at m t) budget choice →
        2 ^ length (problem_at m t).items ≤ budget + 1 → (report_of m t budget choice).mark ≡ Optimal }
    ensures entries { (m : Machine) (last : ℕ) (entries : List EntryRecord) → AreNext m last entries →
        AreTrue m entries }
    ensures histories { (history : List EntryRecord) → IsLegal history → AreTrue opening history }
{}
