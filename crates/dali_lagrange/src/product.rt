ghost use Rattle.std.specs.Prelude.{◌≡◌, ◌*◌, ◌^◌, ◌≤◌, ℤ, pos, ◌+ℤ◌, ◌-ℤ◌, ◌*ℤ◌};
ghost use Rattle.dali_base.specs.Limits.{most_effect, most_multiplier};
ghost use Rattle.dali_problem.specs.Limits.{Within};
ghost use Rattle.dali_problem.specs.Sums.{pick};
ghost use Rattle.dali_lagrange.specs.Bound.{count_of};

use dali_problem::{Effect, Mark};

/// A multiplier times an effect's amount.
#[tactic(auto, using(std::proofs::lemmas::Int::ints))]
fn weighted(factor: u64, effect: &Effect) -> i128
    ensures { result ≡ pos factor *ℤ effect.now.amount }
{
    i128::from(factor) * i128::from(effect.amount)
}

/// A multiplier, or the scale, times a balance or a value.
#[tactic(auto, using(std::proofs::lemmas::Int::ints))]
pub(crate) fn scaled(factor: u64, amount: u64) -> i128
    requires factor { factor ≤ most_multiplier }
    requires amount { amount ≤ 2 ^ 60 }
    ensures { result ≡ pos factor *ℤ pos amount }
{
    i128::from(factor) * i128::from(amount)
}

/// The total with this number added.
#[tactic(auto, using(std::proofs::lemmas::Int::ints))]
pub(crate) fn plus(total: &mut i128, z: &i128)
    requires total { Within (2 ^ 125) total.old }
    requires more { Within (2 ^ 125) z.now }
    ensures { total.new ≡ total.old +ℤ z.now }
{
    *total += *z;
}

/// The total with this number taken out.
#[tactic(auto, using(std::proofs::lemmas::Int::ints))]
fn minus(total: &mut i128, z: &i128)
    requires total { Within (2 ^ 125) total.old }
    requires less { Within (2 ^ 125) z.now }
    ensures { total.new ≡ total.old -ℤ z.now }
{
    *total -= *z;
}

/// Adds a multiplier times a balance.
pub(crate) fn add_scaled(total: &mut i128, factor: u64, amount: u64)
    requires total { Within (2 ^ 125) total.old }
    requires factor { factor ≤ most_multiplier }
    requires amount { amount ≤ 2 ^ 60 }
    ensures { total.new ≡ total.old +ℤ pos factor *ℤ pos amount }
{
    let more = scaled(factor, amount);
    plus(total, &more);
}

/// Adds a multiplier times an effect's amount.
pub(crate) fn add_weighted(total: &mut i128, factor: u64, effect: &Effect)
    requires total { Within (2 ^ 125) total.old }
    requires factor { factor ≤ most_multiplier }
    requires amount { Within most_effect effect.now.amount }
    ensures { total.new ≡ total.old +ℤ pos factor *ℤ effect.now.amount }
{
    let more = weighted(factor, effect);
    plus(total, &more);
}

/// Whether a place with this mark and this reduced value counts.
#[tactic(auto, using(std::proofs::lemmas::Int::ints, std::proofs::lemmas::Int::clamps))]
fn counts(mark: Mark, worth: &i128) -> bool
    ensures { count_of mark worth.now ≡ pick result worth.now }
{
    match mark {
        Mark::Chosen => true,
        Mark::Undecided => *worth > 0,
        Mark::Stranger | Mark::Left => false,
    }
}

/// Adds what a place with this mark and this reduced value counts.
#[tactic(auto, using(std::proofs::lemmas::Int::ints))]
pub(crate) fn add_counted(total: &mut i128, mark: Mark, worth: &i128)
    requires total { Within (2 ^ 125) total.old }
    requires worth { Within (2 ^ 125) worth.now }
    ensures { total.new ≡ total.old +ℤ count_of mark worth.now }
{
    if counts(mark, worth) {
        plus(total, worth);
    }
}

/// Takes out what a place with this mark and this reduced value counts.
#[tactic(auto, using(std::proofs::lemmas::Int::ints))]
pub(crate) fn take_counted(total: &mut i128, mark: Mark, worth: &i128)
    requires total { Within (2 ^ 125) total.old }
    requires worth { Within (2 ^ 125) worth.now }
    ensures { total.new ≡ total.old -ℤ count_of mark worth.now }
{
    if counts(mark, worth) {
        minus(total, worth);
    }
}

/// Takes out what a place with this reduced value counts under one mark, and adds what it counts under another.
pub(crate) fn recount(total: &mut i128, from: Mark, to: Mark, worth: &i128)
    requires total { Within (2 ^ 124) total.old }
    requires worth { Within (2 ^ 124) worth.now }
    ensures { total.new ≡ total.old +ℤ (count_of to worth.now -ℤ count_of from worth.now) }
{
    add_counted(total, to, worth);
    take_counted(total, from, worth);
}

/// A multiplier's rise times a balance.
#[tactic(auto, using(std::proofs::lemmas::Int::ints))]
fn rise_of(by: &i64, amount: u64) -> i128
    ensures { result ≡ by.now *ℤ pos amount }
{
    i128::from(*by) * i128::from(amount)
}

/// Adds a multiplier's rise times a balance.
pub(crate) fn add_balance(total: &mut i128, by: &i64, amount: u64)
    requires total { Within (2 ^ 124) total.old }
    requires by { Within most_multiplier by.now }
    requires amount { amount ≤ 2 ^ 60 }
    ensures { total.new ≡ total.old +ℤ by.now *ℤ pos amount }
{
    let more = rise_of(by, amount);
    plus(total, &more);
}
