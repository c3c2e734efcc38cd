ghost use Rattle.dali_check.specs.Room.{IsFor};

use dali_check::{NotAllowed, Scratch, allowed, fits, lean, proves};
use dali_problem::Problem;
use dali_tree::Choice;
use std::alloc::Global;
use std::process::Abort;

/// The reason against a choice, or `None` where it is allowed. Stops the test where it doesn't fit.
pub(crate) fn reason_against(
    rt: &impl Abort,
    alloc: Global,
    problem: &Problem,
    budget: u64,
    choice: &Choice,
) -> Option<NotAllowed> {
    let mut scratch = Scratch::new(alloc, problem).expect(rt, "memory");
    assert!(rt; fits(problem, choice));
    allowed(problem, budget, choice, &mut scratch).err()
}

/// Whether the choice fits and its first part's tree proves its bound.
pub(crate) fn is_proved(problem: &Problem, choice: &Choice, scratch: &mut Scratch) -> bool
    requires { IsFor problem.now scratch.old }
    ensures { IsFor problem.now scratch.new }
{
    if !fits(problem, choice) {
        return false;
    }
    let parts = choice.parts.as_slice();
    if parts.is_empty() {
        return false;
    }
    proves(problem, &parts[0], scratch)
}

/// Whether the choice fits and its first part is lean with this value.
pub(crate) fn is_lean(problem: &Problem, choice: &Choice, value: u64, scratch: &mut Scratch) -> bool
    requires { IsFor problem.now scratch.old }
    ensures { IsFor problem.now scratch.new }
{
    if !fits(problem, choice) {
        return false;
    }
    let parts = choice.parts.as_slice();
    if parts.is_empty() {
        return false;
    }
    lean(problem, &parts[0], value, scratch)
}
