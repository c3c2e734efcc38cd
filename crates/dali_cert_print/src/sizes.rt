ghost use Rattle.std.specs.Prelude.{◌≡◌, ◌<◌, length};
ghost use Rattle.std.specs.List.{list_all};
ghost use Rattle.dali_problem.specs.Clearing.{item_at};
ghost use Rattle.dali_cert_print.specs.Block.{is_small_effect, is_small as has_small_values, is_small_item, is_small_bound, is_wide as needs_edition_two};

use dali_base::limits::{MOST_ITEMS, MOST_QUANTITY};
use dali_problem::{Effect, Problem};
use dali_tree::{Choice, Part};

/// The greatest value of an item of a block of edition 1, in centavos times rank, and the greatest size of an amount.
const MOST_SMALL: u64 = MOST_QUANTITY;

/// The most effects of an item of a block of edition 1.
const MOST_SMALL_EFFECTS: usize = 4;

/// The greatest bound of a part of a block of edition 1, in centavos times rank.
pub const MOST_SMALL_BOUND: u64 = MOST_ITEMS as u64 * MOST_QUANTITY;

/// Whether the block needs edition 2.
pub fn is_wide(problem: &Problem, choice: &Choice) -> bool
    ensures { result ≡ needs_edition_two problem.now choice.now }
{
    !(has_small_items(problem) && has_small_bounds(choice.parts.as_slice()))
}

/// Whether each item is one that a block of edition 1 has.
fn has_small_items(problem: &Problem) -> bool
    ensures { result ≡ list_all is_small_item problem.now.items }
{
    for place in 0..problem.items() {
        if !is_small_at(problem, place) {
            return false;
        }
    }
    true
}

fn is_small_at(problem: &Problem, place: u32) -> bool
    requires { place < length problem.now.items }
    ensures { result ≡ is_small_item (item_at problem.now place) }
{
    is_small(problem.value(place), problem.effects(place))
}

/// Whether a block of edition 1 has an item of this value with these effects.
pub fn is_small(value: u64, effects: &[Effect]) -> bool
    ensures { result ≡ has_small_values value effects.now }
{
    value <= MOST_SMALL
        && 1 <= effects.len()
        && effects.len() <= MOST_SMALL_EFFECTS
        && has_small_effects(effects)
}

fn has_small_effects(effects: &[Effect]) -> bool
    ensures { result ≡ list_all is_small_effect effects.now }
{
    effects
        .iter()
        .all(|effect| effect.amount.unsigned_abs() <= MOST_SMALL)
}

/// Whether each part's bound is one that a block of edition 1 has.
fn has_small_bounds(parts: &[Part]) -> bool
    ensures { result ≡ list_all (λ part. is_small_bound part.bound) parts.now }
{
    parts.iter().all(|part| part.bound <= MOST_SMALL_BOUND)
}
