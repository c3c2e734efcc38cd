ghost use Rattle.std.specs.Prelude.{◌≡◌, ℕ, ◌*◌, ◌^◌, ◌<◌, ℤ, pos, ◌+ℤ◌, ◌-ℤ◌, true, false, not, length, slice_index_or, IfSome, IfNone};
ghost use Rattle.std.specs.List.{All, Contains, list_all};
ghost use Rattle.dali_problem.specs.Sums.{sum_over};
ghost use Rattle.dali_problem.specs.Clearing.{balance, on_line};
ghost use Rattle.dali_problem.specs.Limits.{Within, AreEffects};
ghost use Rattle.dali_problem.specs.Rules.{is_negative};

use dali_problem::{Effect, Problem};

/// What a line has with the effect's amount added.
fn raise(has: &mut i128, effect: &Effect)
    requires { Within (2 ^ 125) has.old }
    ensures { has.new ≡ has.old +ℤ effect.now.amount }
{
    *has += i128::from(effect.amount);
}

/// What a line has with the effect's amount taken out.
fn lower(has: &mut i128, effect: &Effect)
    requires { Within (2 ^ 125) has.old }
    ensures { has.new ≡ has.old -ℤ effect.now.amount }
{
    *has -= i128::from(effect.amount);
}

/// Each line's balance.
pub(crate) fn balances(has: &mut [i128], problem: &Problem)
    requires { length has.old ≡ length problem.now.lines }
    ensures { (l : ℕ) → l < length has.new → slice_index_or has.new l (pos 0) ≡ balance problem.now l }
{
    for line in 0..problem.lines() {
        has[line as usize] = i128::from(problem.line(line).balance);
    }
}

/// Each line with these effects added.
pub(crate) fn add(has: &mut [i128], effects: &[Effect])
    requires room { All (Within (2 ^ 124)) has.old }
    requires effects { AreEffects (length has.old) effects.now }
    ensures { (l : ℕ) → l < length has.new → slice_index_or has.new l (pos 0)
        ≡ slice_index_or has.old l (pos 0) +ℤ sum_over (on_line l) effects.now }
{
    for effect in effects {
        raise(&mut has[effect.line as usize], effect);
    }
}

/// Each line with these effects taken out.
pub(crate) fn take_out(has: &mut [i128], effects: &[Effect])
    requires room { All (Within (2 ^ 124)) has.old }
    requires effects { AreEffects (length has.old) effects.now }
    ensures { (l : ℕ) → l < length has.new → slice_index_or has.new l (pos 0)
        ≡ slice_index_or has.old l (pos 0) -ℤ sum_over (on_line l) effects.now }
{
    for effect in effects {
        lower(&mut has[effect.line as usize], effect);
    }
}

/// Whether the line is negative.
pub(crate) fn is_negative(has: &i128) -> bool
    ensures { result ≡ is_negative has.now }
{
    *has < 0
}

/// Whether the line is negative with the effect's amount added.
#[tactic(auto, using(std::proofs::lemmas::Int::ints))]
fn falls_short(has: &i128, effect: &Effect) -> bool
    requires { Within (2 ^ 124) has.now }
    ensures { result ≡ is_negative (has.now +ℤ effect.now.amount) }
{
    *has + i128::from(effect.amount) < 0
}

/// Whether the line of an effect is negative with its amount added.
pub(crate) fn is_tight(has: &[i128], effect: &Effect) -> bool
    requires line { effect.now.line < length has.now }
    requires room { All (Within (2 ^ 124)) has.now }
    ensures { result ≡ is_negative (slice_index_or has.now effect.now.line (pos 0) +ℤ effect.now.amount) }
{
    falls_short(&has[effect.line as usize], effect)
}

/// Whether no line is negative with its effect added.
pub(crate) fn bears(has: &[i128], effects: &[Effect]) -> bool
    requires lines { All (λ e. e.line < length has.now) effects.now }
    requires room { All (Within (2 ^ 124)) has.now }
    ensures { result
        ≡ list_all (λ e. not (is_negative (slice_index_or has.now e.line (pos 0) +ℤ e.amount))) effects.now }
{
    effects.iter().all(|effect| !is_tight(has, effect))
}

/// Whether the line of an effect is not negative.
fn is_paid(has: &[i128], effect: &Effect) -> bool
    requires { effect.now.line < length has.now }
    ensures { result ≡ not (is_negative (slice_index_or has.now effect.now.line (pos 0))) }
{
    !is_negative(&has[effect.line as usize])
}

/// Whether no line of these effects is negative.
pub(crate) fn covers(has: &[i128], effects: &[Effect]) -> bool
    requires { All (λ e. e.line < length has.now) effects.now }
    ensures { result ≡ list_all (λ e. not (is_negative (slice_index_or has.now e.line (pos 0)))) effects.now }
{
    effects.iter().all(|effect| is_paid(has, effect))
}

/// Whether a line is negative with the effect of one place added and another place taken out that changes it by `amount`.
#[tactic(auto, using(std::proofs::lemmas::Int::ints))]
fn misses(has: &i128, effect: &Effect, amount: &i64) -> bool
    requires { Within (2 ^ 124) has.now }
    ensures { result ≡ is_negative (has.now +ℤ effect.now.amount -ℤ amount.now) }
{
    *has + i128::from(effect.amount) - i128::from(*amount) < 0
}

/// Whether the line of an effect isn't negative with it added and another place taken out that changes the line by
/// `amount`.
pub(crate) fn frees(has: &[i128], effect: &Effect, amount: &i64) -> bool
    requires line { effect.now.line < length has.now }
    requires room { All (Within (2 ^ 124)) has.now }
    ensures { result ≡ not (is_negative (slice_index_or has.now effect.now.line (pos 0) +ℤ effect.now.amount -ℤ amount.now)) }
{
    !misses(&has[effect.line as usize], effect, amount)
}

/// The first of these effects with which its line is negative.
pub(crate) fn first_tight(has: &[i128], effects: &[Effect]) -> Option<Effect>
    requires lines { All (λ e. e.line < length has.now) effects.now }
    requires room { All (Within (2 ^ 124)) has.now }
    ensures none { IfNone result (All (λ e. is_negative (slice_index_or has.now e.line (pos 0) +ℤ e.amount) ≡ false) effects.now) }
    ensures some { IfSome result (λ e. Contains effects.now e × (is_negative (slice_index_or has.now e.line (pos 0) +ℤ e.amount) ≡ true)) }
{
    for effect in effects {
        if is_tight(has, effect) {
            return Some(*effect);
        }
    }
    None
}
