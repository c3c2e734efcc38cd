ghost use Rattle.std.specs.Prelude.{◌↔◌, IsTrue, IfOk, IfSome, length};
ghost use Rattle.dali_machine.specs.Cycles.{IsChoiceFor};
ghost use Rattle.dali_machine.specs.History.{HasItsChoice};
ghost use Rattle.dali_machine.specs.Step.{judged};

use dali_base::OutOfMemory;
use dali_check::{Scratch, allowed};
use dali_fits::fits;
use dali_machine::State;
use dali_problem::Problem;
use dali_record::Entry;
use dali_tree::Choice;
use std::alloc::Global;

/// Whether the entry has a choice exactly where its line, read in its edition, is an accepted CYCLE, and then one that
/// fits and is allowed for the problem of its moment and its budget. Nothing is searched.
pub fn has_its_choice(alloc: Global, state: &State, entry: &Entry) -> Result<bool, OutOfMemory>
    ensures { IfOk result (λ has. IsTrue has ↔ HasItsChoice state.now.machine (judged entry.now.edition state.now.machine entry.now.line) entry.now.choice) }
{
    match (
        state.cycle_input(alloc, entry.edition, &entry.line)?,
        &entry.choice,
    ) {
        (None, None) => Ok(true),
        (Some(cycle), Some(choice)) => is_choice_for(alloc, &cycle.0.problem, cycle.1, choice),
        _ => Ok(false),
    }
}

/// Whether a choice fits the problem and is allowed for it and the budget.
fn is_choice_for(
    alloc: Global,
    problem: &Problem,
    budget: u64,
    choice: &Choice,
) -> Result<bool, OutOfMemory>
    ensures { IfOk result (λ is. IsTrue is ↔ IsChoiceFor problem.now budget choice.now) }
{
    if !fits(problem, choice) {
        return Ok(false);
    }
    let mut scratch = Scratch::new(alloc, problem)?;
    Ok(allowed(problem, budget, choice, &mut scratch).is_ok())
}
