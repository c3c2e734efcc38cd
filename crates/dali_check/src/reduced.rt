ghost use Rattle.std.specs.Prelude.{◌≡◌, ℕ, ◌<◌, false, ◌&&◌, not, length};
ghost use Rattle.dali_problem.specs.Partial.{mark, is_undecided};
ghost use Rattle.dali_problem.specs.Rules.{is_short, is_barred, is_needed, is_safe, all_below};
ghost use Rattle.dali_problem.specs.Kept.{IsOf};
ghost use Rattle.dali_check.specs.Lean.{is_reduced, is_open};

use dali_problem::{Partial, Problem};

/// Whether no fix rule holds for any undecided member, with any line. Costs what the undecided members touch.
#[tactic(auto, unfolding(crate::specs::Lean::is_reduced))]
pub(crate) fn is_reduced(problem: &Problem, partial: &Partial) -> bool
    requires { IsOf problem.now partial.now }
    ensures { result ≡ is_reduced problem.now partial.now.marks }
{
    if some_short(problem, partial) {
        !is_open(problem, partial)
    } else {
        all_done(problem, partial)
    }
}

/// Whether some member is undecided.
#[tactic(auto, unfolding(crate::specs::Lean::is_open))]
pub(crate) fn is_open(problem: &Problem, partial: &Partial) -> bool
    requires { IsOf problem.now partial.now }
    ensures { result ≡ is_open problem.now partial.now.marks }
{
    for place in 0..problem.items() {
        if partial.mark(place).is_undecided() {
            return true;
        }
    }
    false
}

/// Whether some line is short.
fn some_short(problem: &Problem, partial: &Partial) -> bool
    requires { IsOf problem.now partial.now }
    ensures { result ≡ not (all_below (λ l. not (is_short problem.now partial.now.marks l)) (length problem.now.lines)) }
{
    for line in 0..problem.lines() {
        if partial.is_short(line) {
            return true;
        }
    }
    false
}

/// Whether no rule holds for any place, where no line is short.
fn all_done(problem: &Problem, partial: &Partial) -> bool
    requires of { IsOf problem.now partial.now }
    requires long { (l : ℕ) → l < length problem.now.lines → is_short problem.now partial.now.marks l ≡ false }
    ensures { result ≡ all_below (λ j. not (is_safe problem.now partial.now.marks j)
        && all_below (λ l. not (is_barred problem.now partial.now.marks j l) && not (is_needed problem.now partial.now.marks j l)) (length problem.now.lines))
        (length problem.now.items) }
{
    for place in 0..problem.items() {
        if !is_done(problem, partial, place) {
            return false;
        }
    }
    true
}

/// Whether no rule holds for this place, where no line is short.
fn is_done(problem: &Problem, partial: &Partial, place: u32) -> bool
    requires of { IsOf problem.now partial.now }
    requires place { place < length problem.now.items }
    requires long { (l : ℕ) → l < length problem.now.lines → is_short problem.now partial.now.marks l ≡ false }
    ensures { result ≡ (not (is_safe problem.now partial.now.marks place)
        && all_below (λ l. not (is_barred problem.now partial.now.marks place l) && not (is_needed problem.now partial.now.marks place l)) (length problem.now.lines)) }
{
    !partial.is_safe(problem, place) && leaves_lines(problem, partial, place)
}

/// Whether neither side of a place makes one of its lines short.
fn leaves_lines(problem: &Problem, partial: &Partial, place: u32) -> bool
    requires of { IsOf problem.now partial.now }
    requires place { place < length problem.now.items }
    requires long { (l : ℕ) → l < length problem.now.lines → is_short problem.now partial.now.marks l ≡ false }
    ensures { result ≡ all_below (λ l. not (is_barred problem.now partial.now.marks place l) && not (is_needed problem.now partial.now.marks place l)) (length problem.now.lines) }
{
    let _items = problem.items();
    partial.is_quiet(problem, place)
}
