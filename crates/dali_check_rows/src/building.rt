ghost use Rattle.std.specs.Prelude.{◌≡◌, ◌≢◌, ℕ, ◌+◌, ◌*◌, ◌^◌, ◌<◌, ◌≤◌, ◌↔◌, pos, length, IsTrue, sum_by};
ghost use Rattle.std.specs.List.{All, AllPairs};
ghost use Rattle.dali_problem.specs.Clearing.{line_at};
ghost use Rattle.dali_problem.specs.Limits.{Within, IsBefore, AreEffects};

use dali_base::Name;
use dali_problem::{Effect, LineRow, Problem};
use std::cmp::Ordering;
use std::process::Abort;

const MOST_BALANCE: u64 = 1_000_000_000_000_000_000;

const MOST_VALUE: u64 = 128_000_000_000_000_000;

const MOST_TOTAL: u64 = 16_384_000_000_000_000_000;

const MOST_AMOUNT: i64 = 8_000_000_000_000_000;

/// Adds a line behind the last one. Stops the test where that can't be.
pub(crate) fn put_line(rt: &impl Abort, problem: &mut Problem, row: LineRow) {
    assert!(rt; problem.items() == 0);
    assert!(rt; problem.lines() < 4096);
    assert!(rt; row.balance <= MOST_BALANCE);
    assert!(rt; is_behind(problem, &row));
    problem.add_line(row).expect(rt, "memory");
}

/// Adds an item behind the last one. Stops the test where that can't be.
pub(crate) fn put_item(
    rt: &impl Abort,
    problem: &mut Problem,
    id: Name,
    value: u64,
    effects: &[Effect],
) {
    assert!(rt; problem.items() < 1024);
    assert!(rt; is_new(problem, &id));
    assert!(rt; 1 <= value);
    assert!(rt; value <= MOST_VALUE);
    assert!(rt; total_of(problem) + value <= MOST_TOTAL);
    assert!(rt; are_effects(effects, problem.lines()));
    problem.add_item(id, value, effects).expect(rt, "memory");
}

/// Whether a line stands behind the last one of a problem.
fn is_behind(problem: &Problem, row: &LineRow) -> bool
    ensures { IsTrue result → (k : ℕ) → k + 1 ≡ length problem.now.lines → IsBefore (line_at problem.now k) row.now }
{
    let lines = problem.lines();
    lines == 0 || is_before(problem.line(lines - 1), row)
}

/// Whether a line stands before another, in byte order of account, then of asset.
fn is_before(first: &LineRow, second: &LineRow) -> bool
    ensures { IsTrue result → IsBefore first.now second.now }
{
    if first.account == second.account {
        matches!(first.asset.cmp(&second.asset), Ordering::Less)
    } else {
        matches!(first.account.cmp(&second.account), Ordering::Less)
    }
}

/// Whether no item has this id.
fn is_new(problem: &Problem, id: &Name) -> bool
    ensures { IsTrue result → All (λ item. item.id ≢ id.now) problem.now.items }
{
    for place in 0..problem.items() {
        if problem.id(place) == *id {
            return false;
        }
    }
    true
}

/// The sum of all values.
fn total_of(problem: &Problem) -> u64
    ensures { result ≡ sum_by (λ item. item.value) problem.now.items }
{
    let mut total = 0;
    for place in 0..problem.items() {
        total += problem.value(place);
    }
    total
}

/// Whether effects are within the limits of a problem with so many lines.
fn are_effects(effects: &[Effect], lines: u32) -> bool
    ensures { IsTrue result → AreEffects lines effects.now }
{
    effects.len() <= 32 && lines_rise(effects) && all_fit(effects, lines)
}

/// Whether each line is below the next.
fn lines_rise(effects: &[Effect]) -> bool
    ensures { IsTrue result → AllPairs (λ a b. a.line < b.line) effects.now }
{
    for at in 1..effects.len() {
        if effects[at - 1].line >= effects[at].line {
            return false;
        }
    }
    true
}

fn all_fit(effects: &[Effect], lines: u32) -> bool
    ensures in_range { IsTrue result → All (λ e. e.line < lines) effects.now }
    ensures not_zero { IsTrue result → All (λ e. e.amount ≢ pos 0) effects.now }
    ensures bounded { IsTrue result → All (λ e. Within (8 * 10 ^ 15) e.amount) effects.now }
{
    effects.iter().all(|effect| effect_fits(effect, lines))
}

#[tactic(auto, using(std::proofs::lemmas::Int::ints))]
fn effect_fits(effect: &Effect, lines: u32) -> bool
    ensures in_range { IsTrue result → effect.now.line < lines }
    ensures not_zero { IsTrue result → effect.now.amount ≢ pos 0 }
    ensures bounded { IsTrue result → Within (8 * 10 ^ 15) effect.now.amount }
{
    if effect.line >= lines || effect.amount == 0 {
        return false;
    }
    -MOST_AMOUNT <= effect.amount && effect.amount <= MOST_AMOUNT
}
