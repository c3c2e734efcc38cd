ghost use Rattle.std.specs.Prelude.{◌≡◌, ℕ, ◌^◌, ◌<◌, ℤ, pos, ◌+ℤ◌, ◌-ℤ◌, ◌&&◌, ◌||◌, not, length};
ghost use Rattle.std.specs.List.{All, AllPairs, list_all};
ghost use Rattle.std.specs.Int.{int_max, int_min};
ghost use Rattle.dali_base.specs.Limits.{most_effect};
ghost use Rattle.dali_problem.specs.Sums.{pick, sum_over};
ghost use Rattle.dali_problem.specs.Clearing.{on_line};
ghost use Rattle.dali_problem.specs.Limits.{Within};
ghost use Rattle.dali_problem.specs.Partial.{is_chosen, is_undecided};
ghost use Rattle.dali_problem.specs.Rules.{is_negative};
ghost use Rattle.dali_problem.specs.Kept.{IsSmall, pays, bears, is_quiet};

use crate::mark::Mark;
use crate::row::{Effect, LineRow};

/// What is kept of a line, in units of its asset: its balance with the effects of the chosen places, and the positive and
/// the negative effects of the undecided ones.
#[derive(Clone, Copy, Debug)]
pub struct LineSum {
    /// The balance with the effects of the chosen places.
    pub held: i128,
    /// The sum of the positive effects of the undecided places: 0 or more.
    pub credits: i128,
    /// The sum of the negative effects of the undecided places: 0 or less.
    pub debits: i128,
}

impl LineSum {
    /// Nothing held, chosen or undecided.
    pub(crate) const EMPTY: LineSum = LineSum {
        held: 0,
        credits: 0,
        debits: 0,
    };

    /// A line with its balance, and nothing chosen or undecided.
    pub(crate) fn of(row: &LineRow) -> LineSum
        ensures { result ≡ record { held = pos row.now.balance; credits = pos 0; debits = pos 0 } }
    {
        LineSum {
            held: i128::from(row.balance),
            credits: 0,
            debits: 0,
        }
    }
}

/// The sum with the effect's amount added.
pub(crate) fn change(sum: &mut i128, effect: &Effect)
    requires { Within (2 ^ 125) sum.old }
    ensures { sum.new ≡ sum.old +ℤ effect.now.amount }
{
    *sum += i128::from(effect.amount);
}

/// The sum with the effect's amount taken out.
fn change_back(sum: &mut i128, effect: &Effect)
    requires { Within (2 ^ 125) sum.old }
    ensures { sum.new ≡ sum.old -ℤ effect.now.amount }
{
    *sum -= i128::from(effect.amount);
}

/// The line with the effect of a place with this mark added.
#[tactic(auto, using(std::proofs::lemmas::Int::ints, std::proofs::lemmas::Int::clamps))]
pub(crate) fn put_in(sum: &mut LineSum, effect: &Effect, mark: Mark)
    requires held { Within (2 ^ 125) sum.old.held }
    requires credits { Within (2 ^ 125) sum.old.credits }
    requires debits { Within (2 ^ 125) sum.old.debits }
    ensures held { sum.new.held ≡ sum.old.held +ℤ pick (is_chosen mark) effect.now.amount }
    ensures credits { sum.new.credits ≡ sum.old.credits +ℤ pick (is_undecided mark) (int_max (pos 0) effect.now.amount) }
    ensures debits { sum.new.debits ≡ sum.old.debits +ℤ pick (is_undecided mark) (int_min (pos 0) effect.now.amount) }
{
    match mark {
        Mark::Chosen => change(&mut sum.held, effect),
        Mark::Undecided => {
            if effect.amount < 0 {
                change(&mut sum.debits, effect);
            } else {
                change(&mut sum.credits, effect);
            }
        }
        Mark::Stranger | Mark::Left => {}
    }
}

/// The line with the effect of a place with this mark taken out.
#[tactic(auto, using(std::proofs::lemmas::Int::ints, std::proofs::lemmas::Int::clamps))]
pub(crate) fn take_out(sum: &mut LineSum, effect: &Effect, mark: Mark)
    requires held { Within (2 ^ 125) sum.old.held }
    requires credits { Within (2 ^ 125) sum.old.credits }
    requires debits { Within (2 ^ 125) sum.old.debits }
    ensures held { sum.new.held ≡ sum.old.held -ℤ pick (is_chosen mark) effect.now.amount }
    ensures credits { sum.new.credits ≡ sum.old.credits -ℤ pick (is_undecided mark) (int_max (pos 0) effect.now.amount) }
    ensures debits { sum.new.debits ≡ sum.old.debits -ℤ pick (is_undecided mark) (int_min (pos 0) effect.now.amount) }
{
    match mark {
        Mark::Chosen => change_back(&mut sum.held, effect),
        Mark::Undecided => {
            if effect.amount < 0 {
                change_back(&mut sum.debits, effect);
            } else {
                change_back(&mut sum.credits, effect);
            }
        }
        Mark::Stranger | Mark::Left => {}
    }
}

/// Whether the line stays negative with all that undecided places may give it.
#[tactic(auto, using(std::proofs::lemmas::Int::ints))]
pub(crate) fn is_short_now(sum: &LineSum) -> bool
    requires { IsSmall (2 ^ 100) sum.now }
    ensures { result ≡ is_negative (sum.now.held +ℤ sum.now.credits) }
{
    sum.held + sum.credits < 0
}

/// The same with an undecided place chosen, which changes the line by this amount.
#[tactic(auto, using(std::proofs::lemmas::Int::ints, std::proofs::lemmas::Int::clamps))]
pub(crate) fn is_short_if_chosen(sum: &LineSum, amount: &i64) -> bool
    requires { IsSmall (2 ^ 100) sum.now }
    ensures { result ≡ is_negative (sum.now.held +ℤ sum.now.credits +ℤ int_min (pos 0) amount.now) }
{
    if *amount < 0 {
        sum.held + sum.credits + i128::from(*amount) < 0
    } else {
        sum.held + sum.credits < 0
    }
}

/// The same with an undecided place left, which changes the line by this amount.
#[tactic(auto, using(std::proofs::lemmas::Int::ints, std::proofs::lemmas::Int::clamps))]
pub(crate) fn is_short_if_left(sum: &LineSum, amount: &i64) -> bool
    requires { IsSmall (2 ^ 100) sum.now }
    ensures { result ≡ is_negative (sum.now.held +ℤ sum.now.credits -ℤ int_max (pos 0) amount.now) }
{
    if *amount < 0 {
        sum.held + sum.credits < 0
    } else {
        sum.held + sum.credits - i128::from(*amount) < 0
    }
}

/// Whether the line pays all that undecided places may take from it.
#[tactic(auto, using(std::proofs::lemmas::Int::ints))]
fn is_covered(sum: &LineSum) -> bool
    requires { IsSmall (2 ^ 100) sum.now }
    ensures { result ≡ not (is_negative (sum.now.held +ℤ sum.now.debits)) }
{
    sum.held + sum.debits >= 0
}

/// Whether the effect is no debit, or its line pays all that undecided places may take from it.
#[tactic(auto, using(std::proofs::lemmas::Int::ints))]
fn pays_effect(sums: &[LineSum], effect: &Effect) -> bool
    requires line { effect.now.line < length sums.now }
    requires small { All (IsSmall (2 ^ 100)) sums.now }
    ensures { result ≡ pays sums.now effect.now }
{
    effect.amount >= 0 || is_covered(&sums[effect.line as usize])
}

/// Whether each line that the effects debit pays all that undecided places may take from it.
pub(crate) fn pays_all(sums: &[LineSum], effects: &[Effect]) -> bool
    requires lines { All (λ e. e.line < length sums.now) effects.now }
    requires small { All (IsSmall (2 ^ 100)) sums.now }
    ensures { result ≡ list_all (pays sums.now) effects.now }
{
    effects.iter().all(|effect| pays_effect(sums, effect))
}

/// Whether the effect is no debit, or its line isn't short with the place of the effect chosen, which is undecided.
fn bears_effect(sums: &[LineSum], effect: &Effect) -> bool
    requires line { effect.now.line < length sums.now }
    requires small { All (IsSmall (2 ^ 100)) sums.now }
    ensures { result ≡ bears sums.now effect.now }
{
    effect.amount >= 0 || !is_short_if_chosen(&sums[effect.line as usize], &effect.amount)
}

/// Whether none of the lines that the effects debit is short with their place chosen, which is undecided.
pub(crate) fn bears_all(sums: &[LineSum], effects: &[Effect]) -> bool
    requires lines { All (λ e. e.line < length sums.now) effects.now }
    requires small { All (IsSmall (2 ^ 100)) sums.now }
    ensures { result ≡ list_all (bears sums.now) effects.now }
{
    effects.iter().all(|effect| bears_effect(sums, effect))
}

/// Whether the line of the effect is short neither with its place chosen nor with it left, which is undecided.
fn is_quiet_effect(sums: &[LineSum], effect: &Effect) -> bool
    requires line { effect.now.line < length sums.now }
    requires small { All (IsSmall (2 ^ 100)) sums.now }
    ensures { result ≡ is_quiet sums.now effect.now }
{
    let sum = &sums[effect.line as usize];
    !is_short_if_chosen(sum, &effect.amount) && !is_short_if_left(sum, &effect.amount)
}

/// Whether none of the lines of the effects is short with their place chosen or with it left, which is undecided.
pub(crate) fn all_quiet(sums: &[LineSum], effects: &[Effect]) -> bool
    requires lines { All (λ e. e.line < length sums.now) effects.now }
    requires small { All (IsSmall (2 ^ 100)) sums.now }
    ensures { result ≡ list_all (is_quiet sums.now) effects.now }
{
    effects.iter().all(|effect| is_quiet_effect(sums, effect))
}

/// What effects on rising lines change this line by.
pub(crate) fn amount_on(effects: &[Effect], line: u32) -> i64
    requires rising { AllPairs (λ a b. a.line < b.line) effects.now }
    requires bounded { All (λ e. Within most_effect e.amount) effects.now }
    ensures { result ≡ sum_over (on_line line) effects.now }
{
    for effect in effects {
        if effect.line == line {
            return effect.amount;
        }
    }
    0
}
