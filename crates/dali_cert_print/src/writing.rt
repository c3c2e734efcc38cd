ghost use Rattle.std.specs.Prelude.{◌≡◌, ◌++◌, ◌∷◌, [], map, OnOk, decimal};
ghost use Rattle.dali_cert_print.specs.Rows.{after_commas, effect_field, multiplier_field, row_text};
ghost use Rattle.dali_cert_print.specs.declared.row.Row.{Row};

use crate::fields::{add_field, add_number, end};
use dali_base::{OutOfMemory, Text};
use dali_problem::{Effect, LineRow};
use dali_tree::Fix;

/// The first line.
pub(crate) fn add_block(text: &mut Text, wide: bool) -> Result<(), OutOfMemory>
    ensures { OnOk result (text.new ≡ text.old ++ row_text (Row.Block wide)) }
{
    text.add(b"BLOCK")?;
    add_field(text, if wide { b"2" } else { b"1" })?;
    end(text)
}

/// The line of the budget.
pub(crate) fn add_budget(text: &mut Text, budget: u64) -> Result<(), OutOfMemory>
    ensures { OnOk result (text.new ≡ text.old ++ row_text (Row.Budget budget)) }
{
    text.add(b"BUDGET")?;
    add_number(text, budget)?;
    end(text)
}

/// The line of a line of the problem.
pub(crate) fn add_line(text: &mut Text, line: &LineRow) -> Result<(), OutOfMemory>
    ensures { OnOk result (text.new ≡ text.old ++ row_text (Row.Line line.now)) }
{
    text.add(b"LINE")?;
    add_field(text, line.account.bytes())?;
    add_field(text, line.asset.bytes())?;
    add_number(text, line.balance)?;
    end(text)
}

/// The line of an item of the problem.
pub(crate) fn add_item(
    text: &mut Text,
    id: &[u8],
    value: u64,
    effects: &[Effect],
) -> Result<(), OutOfMemory>
    ensures { OnOk result (text.new ≡ text.old ++ row_text (Row.Item id.now value effects.now)) }
{
    text.add(b"ITEM")?;
    add_field(text, id)?;
    add_number(text, value)?;
    add_effects(text, effects)?;
    end(text)
}

/// The line of the set.
pub(crate) fn add_set(text: &mut Text, places: &[u32]) -> Result<(), OutOfMemory>
    ensures { OnOk result (text.new ≡ text.old ++ row_text (Row.Set places.now)) }
{
    text.add(b"SET")?;
    add_places(text, places)?;
    end(text)
}

/// The line of a part.
pub(crate) fn add_part(text: &mut Text, bound: u64, members: &[u32]) -> Result<(), OutOfMemory>
    ensures { OnOk result (text.new ≡ text.old ++ row_text (Row.Part bound members.now)) }
{
    text.add(b"PART")?;
    add_number(text, bound)?;
    add_places(text, members)?;
    end(text)
}

/// The line of a fix.
pub(crate) fn add_fix(text: &mut Text, fix: &Fix) -> Result<(), OutOfMemory>
    ensures { OnOk result (text.new ≡ text.old ++ row_text (Row.Fix fix.now)) }
{
    match *fix {
        Fix::Barred { place, line } => add_two(text, b"BARRED", place, line)?,
        Fix::Needed { place, line } => add_two(text, b"NEEDED", place, line)?,
        Fix::Safe { place } => add_one(text, b"SAFE", place)?,
    }
    end(text)
}

/// The line of an end that is bounded by multipliers.
pub(crate) fn add_bound(text: &mut Text, lam: &[(u32, u64)]) -> Result<(), OutOfMemory>
    ensures { OnOk result (text.new ≡ text.old ++ row_text (Row.Bound lam.now)) }
{
    text.add(b"BOUND")?;
    add_multipliers(text, lam)?;
    end(text)
}

/// The line of an end with a short line.
pub(crate) fn add_short(text: &mut Text, line: u32) -> Result<(), OutOfMemory>
    ensures { OnOk result (text.new ≡ text.old ++ row_text (Row.Short line)) }
{
    add_one(text, b"SHORT", line)?;
    end(text)
}

/// The line of an end that has two sides.
pub(crate) fn add_branch(text: &mut Text, place: u32, lam: &[(u32, u64)]) -> Result<(), OutOfMemory>
    ensures { OnOk result (text.new ≡ text.old ++ row_text (Row.Branch place lam.now)) }
{
    add_one(text, b"BRANCH", place)?;
    add_multipliers(text, lam)?;
    end(text)
}

/// The last line.
pub(crate) fn add_last(text: &mut Text) -> Result<(), OutOfMemory>
    ensures { OnOk result (text.new ≡ text.old ++ row_text Row.Last) }
{
    text.add(b"LAST")?;
    end(text)
}

/// A word with one number.
fn add_one(text: &mut Text, word: &[u8], first: u32) -> Result<(), OutOfMemory>
    ensures { OnOk result (text.new ≡ text.old ++ (word.now ++ 44 ∷ decimal first)) }
{
    text.add(word)?;
    add_number(text, u64::from(first))
}

/// A word with two numbers.
fn add_two(text: &mut Text, word: &[u8], first: u32, second: u32) -> Result<(), OutOfMemory>
    ensures { OnOk result (text.new ≡ text.old ++ (word.now ++ 44 ∷ (decimal first ++ 44 ∷ decimal second))) }
{
    add_one(text, word, first)?;
    add_number(text, u64::from(second))
}

/// A comma and a place, for each place.
fn add_places(text: &mut Text, places: &[u32]) -> Result<(), OutOfMemory>
    ensures { OnOk result (text.new ≡ text.old ++ after_commas (map decimal places.now)) }
{
    for place in places {
        add_number(text, u64::from(*place))?;
    }
    Ok(())
}

/// A comma, a line, a colon and an amount, for each effect.
fn add_effects(text: &mut Text, effects: &[Effect]) -> Result<(), OutOfMemory>
    ensures { OnOk result (text.new ≡ text.old ++ after_commas (map effect_field effects.now)) }
{
    for effect in effects {
        add_effect(text, effect)?;
    }
    Ok(())
}

fn add_effect(text: &mut Text, effect: &Effect) -> Result<(), OutOfMemory>
    ensures { OnOk result (text.new ≡ text.old ++ 44 ∷ effect_field effect.now) }
{
    add_number(text, u64::from(effect.line))?;
    text.push(b':')?;
    text.add_signed(effect.amount)
}

/// A comma, a line, a colon and a multiplier, for each multiplier.
fn add_multipliers(text: &mut Text, lam: &[(u32, u64)]) -> Result<(), OutOfMemory>
    ensures { OnOk result (text.new ≡ text.old ++ after_commas (map multiplier_field lam.now)) }
{
    for multiplier in lam {
        add_multiplier(text, multiplier)?;
    }
    Ok(())
}

fn add_multiplier(text: &mut Text, multiplier: &(u32, u64)) -> Result<(), OutOfMemory>
    ensures { OnOk result (text.new ≡ text.old ++ 44 ∷ multiplier_field multiplier.now) }
{
    add_number(text, u64::from(multiplier.0))?;
    text.push(b':')?;
    text.add_number(multiplier.1)
}
