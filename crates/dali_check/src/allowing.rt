ghost use Rattle.std.specs.Prelude.{◌≡◌, ℕ, ◌<◌, ◌≤◌, ◌^◌, ◌↔◌, ◌⊎◌, true, false, List, length, slice_index_or, sum_by, IsTrue, IfSome, IfNone, OnOk, IfErr};
ghost use Rattle.std.specs.List.{All, Any, filter};
ghost use Rattle.dali_base.specs.Limits.{most_items};
ghost use Rattle.dali_problem.specs.declared.mark.Mark.TheVariants.{Left};
ghost use Rattle.dali_problem.specs.Kept.{IsOf};
ghost use Rattle.dali_problem.specs.Feasible.{ArePlaces, IsFeasible, value_of, has};
ghost use Rattle.dali_tree.specs.Range.{IsPartInRange, IsInRange};
ghost use Rattle.dali_rest.specs.Addable.{CanAddOne, CanAddRest};
ghost use Rattle.dali_rest.specs.Swappable.{CanSwap};
ghost use Rattle.dali_rest.specs.Room.{IsRoomOf};
ghost use Rattle.dali_check.specs.Allowed.{FirstFails, IsIdle, Passed, IsReason, Allowed, IsWhole, IsCertified};
ghost use Rattle.dali_check.specs.Best.{Best};
ghost use Rattle.dali_check.specs.Lean.{lean_part};
ghost use Rattle.dali_check.specs.Parts.{bound_of, value_in_part};
ghost use Rattle.dali_check.specs.Proves.{proves_part};
ghost use Rattle.dali_check.specs.Room.{IsReady, IsFor};

use crate::apart::{are_partition, are_separate, mark_all};
use crate::leaning::lean_with;
use crate::proving::proves;
use crate::reason::NotAllowed;
use crate::scratch::Scratch;
use crate::totals::{bound_of, covers_all, left_of, marked_value};
use dali_base::Places;
use dali_lagrange::Kept;
use dali_problem::{Partial, Problem};
use dali_rest::Room;
use dali_tree::{Choice, Part};

/// Whether a choice is allowed for this budget of branchings, and else the first reason why not, by `Allowed` and
/// `IsReason` of `specs/Allowed.antt`. Takes no memory.
///
/// Where it is, `IsCertified` there says each thing of it. No feasible set is worth more than the sum of the bounds, in centavos, so a set that is worth that sum
/// is best. That sum is at most the values of all items, so it fits in a `u64`.
pub fn allowed(
    problem: &Problem,
    budget: u64,
    choice: &Choice,
    scratch: &mut Scratch,
) -> Result<(), NotAllowed>
    requires made { IsFor problem.now scratch.old }
    requires in_range { IsInRange (length problem.now.items) (length problem.now.lines) choice.now }
    ensures ok { OnOk result (Allowed problem.now budget choice.now) }
    ensures err { IfErr result (λ reason. IsReason problem.now budget choice.now reason) }
    ensures certified { OnOk result (IsCertified problem.now budget choice.now) }

    ensures bound { OnOk result ((t : List ℕ) → ArePlaces problem.now t → IsFeasible problem.now t → value_of problem.now t ≤ bound_of choice.now.parts) }
    ensures small { OnOk result (bound_of choice.now.parts ≤ sum_by (λ item. item.value) problem.now.items) }
    ensures best { OnOk result (value_of problem.now choice.now.places ≡ bound_of choice.now.parts → Best problem.now choice.now.places) }

    ensures made { IsFor problem.now scratch.new }
{
    let _items = problem.items();
    match check_set(problem, choice, scratch) {
        Ok(()) => {}
        Err(reason) => return Err(reason),
    }
    match check_parts(problem, choice, scratch) {
        Ok(()) => {}
        Err(reason) => return Err(reason),
    }
    match check_budget(problem, budget, choice) {
        Ok(()) => Ok(()),
        Err(reason) => Err(reason),
    }
}

/// The reasons of the parts' members and of the set.
fn check_set(problem: &Problem, choice: &Choice, scratch: &mut Scratch) -> Result<(), NotAllowed>
    requires made { IsFor problem.now scratch.old }
    requires in_range { IsInRange (length problem.now.items) (length problem.now.lines) choice.now }
    ensures ok { OnOk result ((budget : ℕ) → Passed problem.now budget choice.now 6) }
    ensures whole { OnOk result (IsWhole problem.now choice.now) }
    ensures err { IfErr result (λ reason. (budget : ℕ) → IsReason problem.now budget choice.now reason) }
    ensures made { IsFor problem.now scratch.new }
{
    let parts = choice.parts.as_slice();
    if !are_partition(problem, parts, scratch.places.as_mut_slice()) {
        return Err(NotAllowed::Members);
    }
    if !are_separate(problem, parts, scratch.lines.as_mut_slice()) {
        return Err(NotAllowed::Shared);
    }
    if !problem.is_feasible(&choice.places, &mut scratch.sums) {
        return Err(NotAllowed::Infeasible);
    }
    if is_addable(problem, &choice.places, parts, &mut scratch.tests) {
        return Err(NotAllowed::Addable);
    }
    if some_swap(problem, &choice.places, parts, &mut scratch.tests) {
        return Err(NotAllowed::Swappable);
    }
    Ok(())
}

/// Whether one place, or all of the rest of a part, can be added to the set.
fn is_addable(problem: &Problem, set: &Places, parts: &[Part], tests: &mut Room) -> bool
    requires room { IsRoomOf problem.now tests.old }
    requires places { ArePlaces problem.now set.now }
    requires feasible { IsFeasible problem.now set.now }
    requires in_range { All (IsPartInRange (length problem.now.items) (length problem.now.lines)) parts.now }
    ensures answer { IsTrue result ↔ (CanAddOne problem.now set.now ⊎ Any (λ part. CanAddRest problem.now set.now part.members) parts.now) }
    ensures room { IsRoomOf problem.now tests.new }
{
    tests.can_add_one(problem, set) || some_rest(problem, set, parts, tests)
}

/// Whether all of the rest of some part can be added to the set.
fn some_rest(problem: &Problem, set: &Places, parts: &[Part], tests: &mut Room) -> bool
    requires room { IsRoomOf problem.now tests.old }
    requires places { ArePlaces problem.now set.now }
    requires feasible { IsFeasible problem.now set.now }
    requires in_range { All (IsPartInRange (length problem.now.items) (length problem.now.lines)) parts.now }
    ensures answer { IsTrue result ↔ Any (λ part. CanAddRest problem.now set.now part.members) parts.now }
    ensures room { IsRoomOf problem.now tests.new }
{
    for part in parts {
        if tests.can_add_rest(problem, set, &part.members) {
            return true;
        }
    }
    false
}

/// Whether a member of some part can be exchanged for a better one.
fn some_swap(problem: &Problem, set: &Places, parts: &[Part], tests: &mut Room) -> bool
    requires room { IsRoomOf problem.now tests.old }
    requires places { ArePlaces problem.now set.now }
    requires feasible { IsFeasible problem.now set.now }
    requires in_range { All (IsPartInRange (length problem.now.items) (length problem.now.lines)) parts.now }
    ensures answer { IsTrue result ↔ Any (λ part. CanSwap problem.now set.now part.members) parts.now }
    ensures room { IsRoomOf problem.now tests.new }
{
    for part in parts {
        if tests.can_swap(problem, set, &part.members) {
            return true;
        }
    }
    false
}

/// The reasons of the parts' trees.
fn check_parts(problem: &Problem, choice: &Choice, scratch: &mut Scratch) -> Result<(), NotAllowed>
    requires made { IsFor problem.now scratch.old }
    requires in_range { IsInRange (length problem.now.items) (length problem.now.lines) choice.now }
    requires whole { IsWhole problem.now choice.now }
    requires passed { (budget : ℕ) → Passed problem.now budget choice.now 6 }

    // where all of them pass
    ensures ok { OnOk result ((budget : ℕ) → Passed problem.now budget choice.now 8) }
    ensures proved { OnOk result (All (λ part. proves_part problem.now part ≡ true) choice.now.parts) }
    ensures lean { OnOk result (All (λ part. lean_part problem.now part (value_in_part problem.now choice.now.places part) ≡ true) choice.now.parts) }

    // the reason, and the scratch behind it
    ensures err { IfErr result (λ reason. (budget : ℕ) → IsReason problem.now budget choice.now reason) }
    ensures made { IsFor problem.now scratch.new }
{
    let _items = problem.items();
    let parts = choice.parts.as_slice();
    match first_unproved(problem, parts, scratch) {
        Some(part) => return Err(NotAllowed::Unproved { part }),
        None => {}
    }
    match first_not_lean(problem, &choice.places, parts, scratch) {
        Some(part) => Err(NotAllowed::NotLean { part }),
        None => Ok(()),
    }
}

/// The first part whose tree doesn't prove its bound.
fn first_unproved(problem: &Problem, parts: &[Part], scratch: &mut Scratch) -> Option<u32>
    requires made { IsFor problem.now scratch.old }
    requires in_range { All (IsPartInRange (length problem.now.items) (length problem.now.lines)) parts.now }
    requires few { length parts.now ≤ most_items }
    ensures some { IfSome result (λ k. FirstFails (proves_part problem.now) parts.now k) }
    ensures none { IfNone result (All (λ part. proves_part problem.now part ≡ true) parts.now) }
    ensures made { IsFor problem.now scratch.new }
{
    for at in 0..parts.len() {
        if !proves(problem, &parts[at], scratch) {
            return Some(at as u32);
        }
    }
    None
}

/// The first part that isn't lean.
fn first_not_lean(
    problem: &Problem,
    set: &Places,
    parts: &[Part],
    scratch: &mut Scratch,
) -> Option<u32>
    requires made { IsFor problem.now scratch.old }
    requires set { ArePlaces problem.now set.now }
    requires in_range { All (IsPartInRange (length problem.now.items) (length problem.now.lines)) parts.now }
    requires few { length parts.now ≤ most_items }
    ensures some { IfSome result (λ k. FirstFails (λ part. lean_part problem.now part (value_in_part problem.now set.now part)) parts.now k) }
    ensures none { IfNone result (All (λ part. lean_part problem.now part (value_in_part problem.now set.now part) ≡ true) parts.now) }
    ensures made { IsFor problem.now scratch.new }
{
    let marks = scratch.places.as_mut_slice();
    mark_set(set, marks);
    first_not_lean_marked(
        problem,
        parts,
        marks,
        &mut scratch.partial,
        &mut scratch.kept,
    )
}

/// Marks the places of a set, and no others.
fn mark_set(set: &Places, marks: &mut [bool])
    requires { All (λ j. j < length marks.old) set.now }
    ensures marked { (j : ℕ) → slice_index_or marks.new j false ≡ has set.now j }
    ensures size { length marks.new ≡ length marks.old }
{
    clear(marks);
    mark_all(set.as_slice(), marks);
}

/// Takes all marks away.
fn clear(marks: &mut [bool])
    ensures none { (j : ℕ) → slice_index_or marks.new j false ≡ false }
    ensures size { length marks.new ≡ length marks.old }
{
    marks.fill(false);
}

/// The first part that isn't lean, where the marked places are chosen.
fn first_not_lean_marked(
    problem: &Problem,
    parts: &[Part],
    marks: &[bool],
    partial: &mut Partial,
    kept: &mut Kept,
) -> Option<u32>
    requires of { IsOf problem.now partial.old }
    requires idle { All (λ m. m ≡ Left) partial.old.marks }
    requires ready { IsReady problem.now kept.old }
    requires marks { length marks.now ≡ length problem.now.items }
    requires in_range { All (IsPartInRange (length problem.now.items) (length problem.now.lines)) parts.now }
    requires few { length parts.now ≤ most_items }

    // the first that fails, or none
    ensures some { IfSome result (λ k. FirstFails (λ part. lean_part problem.now part
        (value_of problem.now (filter (λ j. slice_index_or marks.now j false) part.members))) parts.now k) }
    ensures none { IfNone result (All (λ part. lean_part problem.now part
        (value_of problem.now (filter (λ j. slice_index_or marks.now j false) part.members)) ≡ true) parts.now) }

    // the scratch is as before
    ensures of { IsOf problem.now partial.new }
    ensures idle { All (λ m. m ≡ Left) partial.new.marks }
    ensures ready { IsReady problem.now kept.new }
{
    for at in 0..parts.len() {
        let value = marked_value(problem, parts[at].members.as_slice(), marks);
        if !lean_with(problem, &parts[at], value, partial, kept) {
            return Some(at as u32);
        }
    }
    None
}

/// The reasons of the budget.
fn check_budget(problem: &Problem, budget: u64, choice: &Choice) -> Result<(), NotAllowed>
    requires in_range { IsInRange (length problem.now.items) (length problem.now.lines) choice.now }
    requires passed { Passed problem.now budget choice.now 8 }
    ensures ok { OnOk result (Allowed problem.now budget choice.now) }
    ensures err { IfErr result (λ reason. IsReason problem.now budget choice.now reason) }
{
    let parts = choice.parts.as_slice();
    let Some(left) = left_of(parts, budget) else {
        return Err(NotAllowed::Overspent);
    };
    let value = problem.value_of(&choice.places);
    if bound_of(parts) > u128::from(value) && (left > 0 || covers_all(problem.items(), budget)) {
        return Err(NotAllowed::Idle);
    }
    Ok(())
}
