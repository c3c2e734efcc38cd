ghost use Rattle.std.specs.Prelude.{◌≡◌, ℕ, ◌^◌, ◌<◌, ◌≤◌, pos, ◌+ℤ◌, ◌-ℤ◌, ◌*ℤ◌, length};
ghost use Rattle.std.specs.List.{All};
ghost use Rattle.dali_base.specs.Limits.{most_multiplier};
ghost use Rattle.dali_problem.specs.Limits.{Within};
ghost use Rattle.dali_problem.specs.Sums.{sum_over};
ghost use Rattle.dali_lagrange.specs.Bound.{count_of};
ghost use Rattle.dali_lagrange.specs.Touched.{AreTouches, at_place, shifted, reduced_in, touch_rise};

use crate::product::{add_counted, plus, take_counted};
use dali_problem::{Mark, Touch};

/// How much a multiplier rises from one number to another.
#[tactic(auto, using(std::proofs::lemmas::Int::ints))]
pub(crate) fn offset(from: u64, to: u64) -> i64
    requires from { from ≤ most_multiplier }
    requires to { to ≤ most_multiplier }
    ensures exact { result ≡ pos to -ℤ pos from }
    ensures bounded { Within most_multiplier result }
{
    to as i64 - from as i64
}

/// A rise of a multiplier times an amount.
#[tactic(auto, using(std::proofs::lemmas::Int::ints))]
fn times(by: &i64, amount: &i64) -> i128
    ensures { result ≡ by.now *ℤ amount.now }
{
    i128::from(*by) * i128::from(*amount)
}

/// A reduced value after a multiplier rises by so much, on a line that its place changes by this amount.
fn shift_value(value: &i128, by: &i64, amount: &i64) -> i128
    requires value { Within (2 ^ 114) value.now }
    requires by { Within most_multiplier by.now }
    requires amount { Within (2 ^ 58) amount.now }
    ensures { result ≡ shifted value.now by.now amount.now }
{
    let mut shifted = *value;
    let more = times(by, amount);
    plus(&mut shifted, &more);
    shifted
}

/// Adds how much more a touched place counts where the multiplier has risen by `to` than where by `from`.
fn add_rise(total: &mut i128, mark: Mark, value: &i128, from: &i64, to: &i64, amount: &i64)
    requires total { Within (2 ^ 120) total.old }
    requires value { Within (2 ^ 103) value.now }
    requires from { Within most_multiplier from.now }
    requires to { Within most_multiplier to.now }
    requires amount { Within (2 ^ 58) amount.now }
    ensures { total.new
        ≡ total.old
        +ℤ (count_of mark (shifted value.now to.now amount.now) -ℤ count_of mark (shifted value.now from.now amount.now)) }
{
    match mark {
        Mark::Stranger | Mark::Left => {}
        Mark::Chosen | Mark::Undecided => {
            add_counted(total, mark, &shift_value(value, to, amount));
            take_counted(total, mark, &shift_value(value, from, amount));
        }
    }
}

/// Adds how much more the touched places count where the line's multiplier has risen by `to` than where by `from`.
pub(crate) fn add_rises(
    total: &mut i128,
    touches: &[Touch],
    marks: &[Mark],
    reduced: &[i128],
    from: &i64,
    to: &i64,
)
    requires total { Within (2 ^ 105) total.old }
    requires touches { AreTouches (length marks.now) touches.now }
    requires places { length reduced.now ≡ length marks.now }
    requires reduced { All (Within (2 ^ 103)) reduced.now }
    requires from { Within most_multiplier from.now }
    requires to { Within most_multiplier to.now }

    // the sum, and its bound
    ensures exact { total.new ≡ total.old +ℤ sum_over (touch_rise marks.now reduced.now from.now to.now) touches.now }
    ensures bounded { Within (2 ^ 116) total.new }
{
    for touch in touches {
        let at = touch.place as usize;
        add_rise(total, marks[at], &reduced[at], from, to, &touch.amount);
    }
}

/// The reduced values after the multiplier of the line with these touches rises by so much.
pub(crate) fn shift_touched(reduced: &mut [i128], touches: &[Touch], by: &i64)
    requires touches { AreTouches (length reduced.old) touches.now }
    requires reduced { All (Within (2 ^ 103)) reduced.old }
    requires by { Within most_multiplier by.now }
    ensures { (j : ℕ) → j < length reduced.new → reduced_in reduced.new j
        ≡ shifted (reduced_in reduced.old j) by.now (sum_over (at_place j) touches.now) }
{
    for touch in touches {
        let at = touch.place as usize;
        reduced[at] = shift_value(&reduced[at], by, &touch.amount);
    }
}
