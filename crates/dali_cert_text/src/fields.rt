ghost use Rattle.std.specs.Prelude.{◌≡◌, ◌<◌, ◌≤◌, ◌∷◌, [], ◌^◌, IfSome, IfOk};
ghost use Rattle.std.specs.Option.{option_map};
ghost use Rattle.dali_cert_text.specs.Fields.{fields_in, alone, number_of, number_below as spelled_below, place_of, number_within as spelled_within, amount_of, effect_of, multiplier_of};

use crate::split::{cut_at_colon, first_field};
use dali_base::limits::{MOST_EFFECT, MOST_MULTIPLIER};
use dali_base::read_number;
use dali_problem::Effect;

/// The greatest size of an effect's amount.
const MOST_AMOUNT: u64 = MOST_EFFECT as u64;

/// The value, where nothing stands behind it.
pub(crate) fn alone<T: Drop>(rest: &[u8], value: T) -> Option<T>
    ensures { result ≡ alone (fields_in rest.now) value }
{
    if rest.is_empty() { Some(value) } else { None }
}

/// A field that is a number of at most `max`, and what stands behind it.
#[tactic(auto, unfolding(crate::specs::Fields::number_of))]
pub(crate) fn number_field(rest: &[u8], max: u64) -> Option<(u64, &[u8])>
    ensures number { option_map (λ x. (x.0, fields_in x.1.now)) result ≡ number_of max (fields_in rest.now) }
{
    let (field, behind) = first_field(rest)?;
    let number = read_number(field, max)?;
    Some((number, behind))
}

/// A field that is a number below `end`, and what stands behind it.
#[tactic(auto, unfolding(crate::specs::Fields::place_of))]
pub(crate) fn place_field(rest: &[u8], end: u32) -> Option<(u32, &[u8])>
    ensures { option_map (λ x. (x.0, fields_in x.1.now)) result ≡ place_of end (fields_in rest.now) }
{
    let (field, behind) = first_field(rest)?;
    let place = number_below(field, 0, end)?;
    Some((place, behind))
}

/// The number from `low` to below `end` that the bytes spell.
#[tactic(auto, unfolding(crate::specs::Fields::number_below))]
pub(crate) fn number_below(bytes: &[u8], low: u32, end: u32) -> Option<u32>
    ensures exact { result ≡ spelled_below end low bytes.now }
    ensures below { IfSome result (λ n. n < end) }
{
    let number = read_number(bytes, u64::from(u32::MAX))? as u32;
    if low <= number && number < end {
        Some(number)
    } else {
        None
    }
}

/// The number from `low` to `high` that the bytes spell.
#[tactic(auto, unfolding(crate::specs::Fields::number_within))]
fn number_within(bytes: &[u8], low: u64, high: u64) -> Option<u64>
    ensures exact { result ≡ spelled_within low high bytes.now }
    ensures within { IfSome result (λ n. n ≤ high) }
{
    let number = read_number(bytes, high)?;
    if low <= number { Some(number) } else { None }
}

/// The amount that the bytes spell, not 0 and of at most this size.
#[tactic(auto, unfolding(crate::specs::Fields::amount_of))]
fn read_amount(bytes: &[u8]) -> Option<i64>
    ensures { result ≡ amount_of bytes.now }
{
    match bytes {
        [] => None,
        [b'-', digits @ ..] => {
            let size = number_within(digits, 1, MOST_AMOUNT)?;
            Some(-(size as i64))
        }
        [_, ..] => {
            let size = number_within(bytes, 1, MOST_AMOUNT)?;
            Some(size as i64)
        }
    }
}

/// The effect that a field spells, on a line from `low` to below `end`.
#[tactic(auto, unfolding(crate::specs::Fields::effect_of))]
pub(crate) fn read_effect(field: &[u8], low: u32, end: u32) -> Option<Effect>
    ensures exact { result ≡ effect_of end low field.now }
    ensures below { IfSome result (λ e. e.line < end) }
{
    let (line, amount) = cut_at_colon(field)?;
    let line = number_below(line, low, end)?;
    let amount = read_amount(amount)?;
    Some(Effect { line, amount })
}

/// The multiplier that a field spells, on a line from `low` to below `end`.
#[tactic(auto, unfolding(crate::specs::Fields::multiplier_of))]
pub(crate) fn read_multiplier(field: &[u8], low: u32, end: u32) -> Option<(u32, u64)>
    ensures exact { result ≡ multiplier_of end low field.now }
    ensures below { IfSome result (λ m. m.0 < end) }
{
    let (line, multiplier) = cut_at_colon(field)?;
    let line = number_below(line, low, end)?;
    let multiplier = number_within(multiplier, 1, MOST_MULTIPLIER)?;
    Some((line, multiplier))
}
