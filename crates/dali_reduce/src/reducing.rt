ghost use Rattle.std.specs.Prelude.{◌≡◌, ◌+◌, ◌≤◌, ℕ, ◌<◌, [], length, true, false, Bool, IfOk, OnOk, OnErr, MatchBool, Some, slice_set, IsTrue, nat_le, slice_index_or};
ghost use Rattle.std.specs.List.{list_all, list_any};
ghost use Rattle.dali_base.specs.Limits.{most_fixes};
ghost use Rattle.dali_problem.specs.declared.mark.Mark.TheVariants.{Undecided};
ghost use Rattle.dali_problem.specs.Partial.{mark, is_decided};
ghost use Rattle.dali_problem.specs.Rules.{is_safe};
ghost use Rattle.dali_problem.specs.Kept.{IsOf};
ghost use Rattle.dali_tree.specs.declared.fix.Fix.{Fix};
ghost use Rattle.dali_tree.specs.Fits.{fix_fits};
ghost use Rattle.dali_fixes.specs.Fixed.{place_of, after, undone};
ghost use Rattle.dali_fixes.specs.Worth.{KeepsWorth};
ghost use Rattle.dali_reduce.specs.Reduced.{AreColumns, IsReduced, HasShort, IsDone, DecidesMore, undecided_count};
ghost use Rattle.dali_reduce.specs.Run.{GoesOn, IsSettledBut};

use crate::line::{settle_line, settle_lines};
use crate::taking::take;
use dali_base::{OutOfMemory, Seq};
use dali_fixes::undo;
use dali_problem::{Columns, Partial, Problem};
use dali_tree::{Fix, Fixes};
use std::alloc::Global;

/// Takes fixes until no rule is left or a line is short, and answers them in the order in which they were taken: each
/// holds where those before it lead. Answers only want of memory but Ok, and leaves the partial choice as it was then.
///
/// For each feasible set that agreed before, some feasible set agrees afterwards that is worth as much or more.
pub fn reduce(alloc: Global, problem: &Problem, partial: &mut Partial) -> Result<Fixes, OutOfMemory>
    requires { IsOf problem.now partial.old }

    // what the places are then
    ensures of { IsOf problem.now partial.new }
    ensures done { OnOk result (IsDone problem.now partial.new.marks) }

    // the fixes that led there
    ensures taken { IfOk result (λ fixes. after problem.now fixes partial.old.marks ≡ Some partial.new.marks) }
    ensures back { IfOk result (λ fixes. undone fixes partial.new.marks ≡ partial.old.marks) }
    ensures fit { IfOk result (λ fixes. list_all (fix_fits (length problem.now.items) (length problem.now.lines)) fixes ≡ true) }
    ensures few { IfOk result (λ fixes. length fixes ≤ most_fixes) }
    ensures counted { IfOk result (λ fixes. undecided_count partial.new.marks + length fixes ≡ undecided_count partial.old.marks) }

    // what that means
    ensures more { OnOk result (DecidesMore partial.old.marks partial.new.marks) }
    ensures worth { OnOk result (KeepsWorth problem.now partial.old.marks partial.new.marks) }

    // at want of memory
    ensures err { OnErr result (partial.new ≡ partial.old) }
{
    let _items = problem.items();
    let columns = Columns::new(alloc, problem)?;
    let mut fixes = Seq::new(alloc);
    match settle_all(problem, &columns, partial, &mut fixes) {
        Ok(()) => Ok(fixes),
        Err(OutOfMemory) => {
            undo(problem, fixes.as_slice(), partial);
            Err(OutOfMemory)
        }
    }
}

/// The same after one place was decided where no rule was left before: it goes on from what that place changes. The
/// columns are the problem's.
pub fn reduce_after(
    alloc: Global,
    problem: &Problem,
    columns: &Columns,
    place: u32,
    partial: &mut Partial,
) -> Result<Fixes, OutOfMemory>
    requires of { IsOf problem.now partial.old }
    requires columns { AreColumns problem.now columns.now }
    requires decided { IsTrue (is_decided (mark partial.old.marks place)) }
    requires reduced { IsReduced problem.now (slice_set partial.old.marks place Undecided) }

    // what the places are then
    ensures of { IsOf problem.now partial.new }
    ensures done { OnOk result (IsDone problem.now partial.new.marks) }

    // the fixes that led there
    ensures taken { IfOk result (λ fixes. after problem.now fixes partial.old.marks ≡ Some partial.new.marks) }
    ensures back { IfOk result (λ fixes. undone fixes partial.new.marks ≡ partial.old.marks) }
    ensures fit { IfOk result (λ fixes. list_all (fix_fits (length problem.now.items) (length problem.now.lines)) fixes ≡ true) }
    ensures few { IfOk result (λ fixes. length fixes ≤ most_fixes) }
    ensures counted { IfOk result (λ fixes. undecided_count partial.new.marks + length fixes ≡ undecided_count partial.old.marks) }

    // what that means
    ensures more { OnOk result (DecidesMore partial.old.marks partial.new.marks) }
    ensures worth { OnOk result (KeepsWorth problem.now partial.old.marks partial.new.marks) }

    // at want of memory
    ensures err { OnErr result (partial.new ≡ partial.old) }
{
    let _items = problem.items();
    let mut fixes = Seq::new(alloc);
    match settle_after(problem, columns, place, partial, &mut fixes) {
        Ok(()) => Ok(fixes),
        Err(OutOfMemory) => {
            undo(problem, fixes.as_slice(), partial);
            Err(OutOfMemory)
        }
    }
}

/// Takes the fixes of all places and lines, and goes on from them.
fn settle_all(
    problem: &Problem,
    columns: &Columns,
    partial: &mut Partial,
    fixes: &mut Fixes,
) -> Result<(), OutOfMemory>
    requires of { IsOf problem.now partial.old }
    requires columns { AreColumns problem.now columns.now }
    requires none { fixes.old ≡ [] }
    ensures of { IsOf problem.now partial.new }
    ensures goes { GoesOn problem.now partial.old.marks partial.new.marks fixes.old fixes.new }
    ensures done { OnOk result (IsDone problem.now partial.new.marks) }
{
    take_safe(problem, partial, fixes)?;
    if settle_each(problem, columns, partial, fixes)? {
        return Ok(());
    }
    go_on(problem, columns, partial, fixes)
}

/// Takes the fixes of the lines that a place changes, and goes on from them.
fn settle_after(
    problem: &Problem,
    columns: &Columns,
    place: u32,
    partial: &mut Partial,
    fixes: &mut Fixes,
) -> Result<(), OutOfMemory>
    requires of { IsOf problem.now partial.old }
    requires columns { AreColumns problem.now columns.now }
    requires none { fixes.old ≡ [] }
    requires decided { IsTrue (is_decided (mark partial.old.marks place)) }
    requires reduced { IsReduced problem.now (slice_set partial.old.marks place Undecided) }

    // what the places are then
    ensures of { IsOf problem.now partial.new }
    ensures goes { GoesOn problem.now partial.old.marks partial.new.marks fixes.old fixes.new }
    ensures done { OnOk result (IsDone problem.now partial.new.marks) }
{
    if settle_lines(problem, columns, problem.effects(place), partial, fixes)? {
        return Ok(());
    }
    go_on(problem, columns, partial, fixes)
}

/// Chooses each safe place.
fn take_safe(problem: &Problem, partial: &mut Partial, fixes: &mut Fixes) -> Result<(), OutOfMemory>
    requires { IsOf problem.now partial.old }
    ensures of { IsOf problem.now partial.new }
    ensures goes { GoesOn problem.now partial.old.marks partial.new.marks fixes.old fixes.new }
    ensures settled { OnOk result (IsSettledBut problem.now partial.new.marks fixes.new 0 (λ _. true) (λ _. false)) }
{
    for place in 0..problem.items() {
        take_if_safe(problem, place, partial, fixes)?;
    }
    Ok(())
}

/// Chooses a place where it is safe.
#[tactic(auto, unfolding(dali_fixes::specs::Fixed::holds))]
fn take_if_safe(
    problem: &Problem,
    place: u32,
    partial: &mut Partial,
    fixes: &mut Fixes,
) -> Result<(), OutOfMemory>
    requires of { IsOf problem.now partial.old }
    requires place { place < length problem.now.items }
    ensures of { IsOf problem.now partial.new }
    ensures goes { GoesOn problem.now partial.old.marks partial.new.marks fixes.old fixes.new }
    ensures not_safe { OnOk result (is_safe problem.now partial.new.marks place ≡ false) }
{
    if !partial.is_safe(problem, place) {
        return Ok(());
    }
    take(problem, Fix::Safe { place }, partial, fixes)
}

/// Takes the fixes of each line, up to one that is short. Whether there is one.
fn settle_each(
    problem: &Problem,
    columns: &Columns,
    partial: &mut Partial,
    fixes: &mut Fixes,
) -> Result<bool, OutOfMemory>
    requires of { IsOf problem.now partial.old }
    requires columns { AreColumns problem.now columns.now }
    requires settled { IsSettledBut problem.now partial.old.marks fixes.old 0 (λ _. true) (λ _. false) }
    ensures of { IsOf problem.now partial.new }
    ensures goes { GoesOn problem.now partial.old.marks partial.new.marks fixes.old fixes.new }
    ensures settled { IfOk result (λ short. MatchBool short
        (HasShort problem.now partial.new.marks)
        (IsSettledBut problem.now partial.new.marks fixes.new 0 (λ _. false) (λ _. false))) }
{
    for line in 0..problem.lines() {
        if settle_line(problem, columns, line, partial, fixes)? {
            return Ok(true);
        }
    }
    Ok(false)
}

/// Goes on from each fix to the lines that its place changes, until none is left or a line is short.
fn go_on(
    problem: &Problem,
    columns: &Columns,
    partial: &mut Partial,
    fixes: &mut Fixes,
) -> Result<(), OutOfMemory>
    requires of { IsOf problem.now partial.old }
    requires columns { AreColumns problem.now columns.now }
    requires settled { IsSettledBut problem.now partial.old.marks fixes.old 0 (λ _. false) (λ _. false) }
    requires fit { list_all (fix_fits (length problem.now.items) (length problem.now.lines)) fixes.old ≡ true }
    ensures of { IsOf problem.now partial.new }
    ensures goes { GoesOn problem.now partial.old.marks partial.new.marks fixes.old fixes.new }
    ensures done { OnOk result (IsDone problem.now partial.new.marks) }
{
    let mut next = 0;
    while next < fixes.len() {
        let place = place_at(fixes, next);
        if settle_lines(problem, columns, problem.effects(place), partial, fixes)? {
            return Ok(());
        }
        next += 1;
    }
    Ok(())
}

/// The place that the fix of this number names.
fn place_at(fixes: &Fixes, number: usize) -> u32
    requires { number < length fixes.now }
    ensures { (d : Fix) → result ≡ place_of (slice_index_or fixes.now number d) }
{
    match fixes.as_slice()[number] {
        Fix::Barred { place, .. } | Fix::Needed { place, .. } | Fix::Safe { place } => place,
    }
}
