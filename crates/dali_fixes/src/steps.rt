ghost use Rattle.std.specs.Prelude.{◌≡◌, ◌≢◌, ◌<◌, ◌≤◌, length, take, IsTrue, Some, None, slice_set, slice_index_or, false, if◌then◌else◌};
ghost use Rattle.std.specs.List.{All, list_all};
ghost use Rattle.dali_problem.specs.declared.mark.Mark.TheVariants.{Stranger, Undecided, Chosen, Left};
ghost use Rattle.dali_problem.specs.Partial.{mark};
ghost use Rattle.dali_problem.specs.Kept.{IsOf};
ghost use Rattle.dali_tree.specs.declared.fix.Fix.{Fix};
ghost use Rattle.dali_tree.specs.Fits.{fix_fits};
ghost use Rattle.dali_fixes.specs.Fixed.{place_of, becomes, holds, after, undone};
ghost use Rattle.dali_fixes.specs.Worth.{KeepsWorth};

use dali_problem::{Partial, Problem};
use dali_tree::Fix;

/// Takes fixes in order, up to the first whose rule doesn't hold at its point, and answers how many were taken. They
/// stay taken.
///
/// For each feasible set that agreed before, some feasible set agrees afterwards that is worth as much or more. `undo`
/// with those that were taken makes the partial choice as it was.
pub fn apply(problem: &Problem, fixes: &[Fix], partial: &mut Partial) -> usize
    requires of { IsOf problem.now partial.old }
    requires fits { IsTrue (list_all (fix_fits (length problem.now.items) (length problem.now.lines)) fixes.now) }

    // how far the fixes hold
    ensures of { IsOf problem.now partial.new }
    ensures within { result ≤ length fixes.now }
    ensures taken { after problem.now (take result fixes.now) partial.old.marks ≡ Some partial.new.marks }
    ensures stopped { result < length fixes.now → (d : Fix) → holds problem.now partial.new.marks (slice_index_or fixes.now result d) ≡ false }
    ensures all { result ≡ length fixes.now → after problem.now fixes.now partial.old.marks ≡ Some partial.new.marks }
    ensures none { result < length fixes.now → after problem.now fixes.now partial.old.marks ≡ None }

    // what that means for the sets that agree
    ensures worth { KeepsWorth problem.now partial.old.marks partial.new.marks }

    // how they are taken back
    ensures back { undone (take result fixes.now) partial.new.marks ≡ partial.old.marks }
    ensures members { All (λ fix. mark partial.new.marks (place_of fix) ≢ Stranger) (take result fixes.now) }
{
    let _items = problem.items();
    for taken in 0..fixes.len() {
        if !take_one(problem, &fixes[taken], partial) {
            return taken;
        }
    }
    fixes.len()
}

/// Makes the places of these fixes undecided again.
pub fn undo(problem: &Problem, fixes: &[Fix], partial: &mut Partial)
    requires of { IsOf problem.now partial.old }
    requires members { All (λ fix. mark partial.old.marks (place_of fix) ≢ Stranger) fixes.now }
    ensures of { IsOf problem.now partial.new }
    ensures marks { partial.new.marks ≡ undone fixes.now partial.old.marks }
{
    for fix in fixes {
        let place = place_of(fix);
        release(problem, place, partial);
    }
}

/// Takes a fix where its rule holds, and answers whether it does.
fn take_one(problem: &Problem, fix: &Fix, partial: &mut Partial) -> bool
    requires of { IsOf problem.now partial.old }
    requires fits { IsTrue (fix_fits (length problem.now.items) (length problem.now.lines) fix.now) }
    ensures of { IsOf problem.now partial.new }
    ensures told { result ≡ holds problem.now partial.old.marks fix.now }
    ensures taken { IsTrue result → partial.new.marks ≡ slice_set partial.old.marks (place_of fix.now) (becomes fix.now) }
    ensures undecided { IsTrue result → mark partial.old.marks (place_of fix.now) ≡ Undecided }
    ensures refused { result ≡ false → partial.new.marks ≡ partial.old.marks }
{
    if !is_held(problem, fix, partial) {
        return false;
    }
    partial.fix(problem, place_of(fix), is_chosen(fix));
    true
}

/// Whether the rule of a fix holds.
#[tactic(auto, unfolding(crate::specs::Fixed::holds))]
fn is_held(problem: &Problem, fix: &Fix, partial: &Partial) -> bool
    requires of { IsOf problem.now partial.now }
    requires fits { IsTrue (fix_fits (length problem.now.items) (length problem.now.lines) fix.now) }
    ensures told { result ≡ holds problem.now partial.now.marks fix.now }
    ensures undecided { IsTrue result → mark partial.now.marks (place_of fix.now) ≡ Undecided }
{
    match *fix {
        Fix::Barred { place, line } => partial.is_barred(problem, place, line),
        Fix::Needed { place, line } => partial.is_needed(problem, place, line),
        Fix::Safe { place } => partial.is_safe(problem, place),
    }
}

/// Makes a member undecided, whatever it is.
fn release(problem: &Problem, place: u32, partial: &mut Partial)
    requires of { IsOf problem.now partial.old }
    requires member { mark partial.old.marks place ≢ Stranger }
    ensures of { IsOf problem.now partial.new }
    ensures marks { partial.new.marks ≡ slice_set partial.old.marks place Undecided }
{
    if !partial.mark(place).is_undecided() {
        partial.free(problem, place);
    }
}

/// The place that a fix names.
fn place_of(fix: &Fix) -> u32
    ensures { result ≡ place_of fix.now }
{
    match *fix {
        Fix::Barred { place, .. } | Fix::Needed { place, .. } | Fix::Safe { place } => place,
    }
}

/// Whether the place that a fix names is chosen, and not left.
fn is_chosen(fix: &Fix) -> bool
    ensures { becomes fix.now ≡ (if result then Chosen else Left) }
{
    !matches!(fix, Fix::Barred { .. })
}
