ghost use Rattle.std.specs.Prelude.{◌≡◌, ◌≢◌, ℕ, ◌<◌, pos, ◌⊎◌, true, false, [], ◌∷◌, ◌++◌, length, IfOk, OnOk, IfSome, OnErr, IfNone, MatchBool, slice_set};
ghost use Rattle.dali_problem.specs.declared.mark.Mark.TheVariants.{Undecided};
ghost use Rattle.dali_problem.specs.Partial.{mark};
ghost use Rattle.dali_problem.specs.Rules.{is_negative};
ghost use Rattle.dali_problem.specs.Kept.{IsOf};
ghost use Rattle.dali_tree.specs.Fits.{fix_fits};
ghost use Rattle.dali_fixes.specs.Fixed.{place_of, becomes, holds};
ghost use Rattle.dali_reduce.specs.Run.{GoesOn, Waits, IsTouch, IsStill, IsUnmoved};

use dali_base::OutOfMemory;
use dali_problem::{Partial, Problem, Touch};
use dali_tree::{Fix, Fixes};

/// Takes a fix whose rule holds. At want of memory nothing changes.
pub(crate) fn take(
    problem: &Problem,
    fix: Fix,
    partial: &mut Partial,
    fixes: &mut Fixes,
) -> Result<(), OutOfMemory>
    requires of { IsOf problem.now partial.old }
    requires undecided { mark partial.old.marks (place_of fix) ≡ Undecided }
    requires holds { holds problem.now partial.old.marks fix ≡ true }
    requires fits { fix_fits (length problem.now.items) (length problem.now.lines) fix ≡ true }

    // what the places are then
    ensures of { IsOf problem.now partial.new }
    ensures marks { OnOk result (partial.new.marks ≡ slice_set partial.old.marks (place_of fix) (becomes fix)) }
    ensures fixes { OnOk result (fixes.new ≡ fixes.old ++ fix ∷ []) }
    ensures goes { GoesOn problem.now partial.old.marks partial.new.marks fixes.old fixes.new }
{
    fixes.push(fix)?;
    match fix {
        Fix::Barred { place, .. } => partial.fix(problem, place, false),
        Fix::Needed { place, .. } | Fix::Safe { place } => partial.fix(problem, place, true),
    }
    Ok(())
}

/// The fix that a place of this line gives: by the line, or, where the place debits it, as safe.
#[tactic(auto, unfolding(dali_fixes::specs::Fixed::holds))]
fn rule_at(problem: &Problem, touch: &Touch, line: u32, partial: &Partial) -> Option<Fix>
    requires of { IsOf problem.now partial.now }
    requires line { line < length problem.now.lines }
    requires touch { IsTouch problem.now line touch.now }

    // the fix that is found
    ensures holds { IfSome result (λ fix. holds problem.now partial.now.marks fix ≡ true) }
    ensures place { IfSome result (λ fix. place_of fix ≡ touch.now.place) }
    ensures undecided { IfSome result (λ fix. mark partial.now.marks (place_of fix) ≡ Undecided) }
    ensures fits { IfSome result (λ fix. fix_fits (length problem.now.items) (length problem.now.lines) fix ≡ true) }

    // where there is none
    ensures none { IfNone result (IsStill problem.now partial.now.marks line touch.now) }
{
    let place = touch.place;
    if partial.is_barred(problem, place, line) {
        return Some(Fix::Barred { place, line });
    }
    if partial.is_needed(problem, place, line) {
        return Some(Fix::Needed { place, line });
    }
    if touch.amount < 0 && partial.is_safe(problem, place) {
        return Some(Fix::Safe { place });
    }
    None
}

/// Takes the fix that a place of this line gives, where there is one. Whether there was one.
pub(crate) fn take_at(
    problem: &Problem,
    touch: &Touch,
    line: u32,
    partial: &mut Partial,
    fixes: &mut Fixes,
) -> Result<bool, OutOfMemory>
    requires of { IsOf problem.now partial.old }
    requires line { line < length problem.now.lines }
    requires touch { IsTouch problem.now line touch.now }
    ensures of { IsOf problem.now partial.new }
    ensures goes { GoesOn problem.now partial.old.marks partial.new.marks fixes.old fixes.new }
    ensures taken { IfOk result (λ taken. MatchBool taken
        (Waits problem.now fixes.new (length fixes.old) line)
        (IsUnmoved problem.now partial.old.marks partial.new.marks fixes.old fixes.new line (touch.now ∷ []))) }
{
    match rule_at(problem, touch, line, partial) {
        Some(fix) => {
            take(problem, fix, partial, fixes)?;
            Ok(true)
        }
        None => Ok(false),
    }
}
