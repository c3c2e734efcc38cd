ghost use Rattle.std.specs.Prelude.{◌≡◌, IfOk};
ghost use Rattle.dali_cert_text.specs.Fields.{fields_in, places_of, effects_of, multipliers_of};

use crate::fields::{number_below, read_effect, read_multiplier};
use crate::split::first_field;
use dali_base::{OutOfMemory, Places, Seq};
use dali_problem::Effect;
use dali_tree::Lam;
use std::alloc::Global;

/// The rising places below `end` that the fields spell.
#[tactic(auto, unfolding(crate::specs::Fields::places_of))]
pub(crate) fn read_places(
    alloc: Global,
    fields: &[u8],
    end: u32,
) -> Result<Option<Places>, OutOfMemory>
    ensures { IfOk result (λ o. o ≡ places_of end 0 (fields_in fields.now)) }
{
    let mut places = Places::new(alloc);
    let mut rest = fields;
    let mut low = 0;
    while let Some((field, behind)) = first_field(rest) {
        let Some(place) = number_below(field, low, end) else {
            return Ok(None);
        };
        places.push(place)?;
        low = place + 1;
        rest = behind;
    }
    Ok(Some(places))
}

/// The effects on rising lines below `end` that the fields spell.
#[tactic(auto, unfolding(crate::specs::Fields::effects_of))]
pub(crate) fn read_effects(
    alloc: Global,
    fields: &[u8],
    end: u32,
) -> Result<Option<Seq<Effect>>, OutOfMemory>
    ensures { IfOk result (λ o. o ≡ effects_of end 0 (fields_in fields.now)) }
{
    let mut effects = Seq::new(alloc);
    let mut rest = fields;
    let mut low = 0;
    while let Some((field, behind)) = first_field(rest) {
        let Some(effect) = read_effect(field, low, end) else {
            return Ok(None);
        };
        effects.push(effect)?;
        low = effect.line + 1;
        rest = behind;
    }
    Ok(Some(effects))
}

/// The multipliers on rising lines below `end` that the fields spell.
#[tactic(auto, unfolding(crate::specs::Fields::multipliers_of))]
pub(crate) fn read_multipliers(
    alloc: Global,
    fields: &[u8],
    end: u32,
) -> Result<Option<Lam>, OutOfMemory>
    ensures { IfOk result (λ o. o ≡ multipliers_of end 0 (fields_in fields.now)) }
{
    let mut lam = Lam::new(alloc);
    let mut rest = fields;
    let mut low = 0;
    while let Some((field, behind)) = first_field(rest) {
        let Some(multiplier) = read_multiplier(field, low, end) else {
            return Ok(None);
        };
        lam.push(multiplier)?;
        low = multiplier.0 + 1;
        rest = behind;
    }
    Ok(Some(lam))
}
