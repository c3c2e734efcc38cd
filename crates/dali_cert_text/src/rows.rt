ghost use Rattle.std.specs.Prelude.{◌≡◌, IfOk};
ghost use Rattle.dali_cert_text.specs.Fields.{fields_in};
ghost use Rattle.dali_cert_text.specs.Reading.{block_of, budget_of, line_of, item_of, set_of, part_of, barred_of, needed_of, safe_of, bound_of, short_of, branch_of, last_of, tree_row_of, other_row_of, is_tree_word as names_a_tree_row, row_of};

use crate::fields::{alone, number_field, place_field};
use crate::lists::{read_effects, read_multipliers, read_places};
use crate::split::{cut, first_field, is_word};
use dali_base::limits::{MOST_BALANCE, MOST_BOUND, MOST_BUDGET, MOST_EFFECTS, MOST_WORTH};
use dali_base::{OutOfMemory, read_name};
use dali_cert_print::Row;
use dali_problem::LineRow;
use dali_tree::Fix;
use std::alloc::Global;

/// The row that a line spells in a block of so many items and lines.
#[tactic(auto, unfolding(crate::specs::Reading::row_of))]
pub(crate) fn read_row(
    alloc: Global,
    line: &[u8],
    items: u32,
    lines: u32,
) -> Result<Option<Row>, OutOfMemory>
    ensures { IfOk result (λ o. o ≡ row_of items lines line.now) }
{
    let (word, fields) = cut(line);
    if is_tree_word(word) {
        read_tree_row(alloc, word, fields, items, lines)
    } else {
        read_other_row(alloc, word, fields, items, lines)
    }
}

/// Whether the word is one of a row of a tree.
#[tactic(auto, unfolding(crate::specs::Reading::is_tree_word))]
fn is_tree_word(word: &[u8]) -> bool
    ensures { result ≡ names_a_tree_row word.now }
{
    is_word(word, b"BOUND")
        || is_word(word, b"BRANCH")
        || is_word(word, b"BARRED")
        || is_word(word, b"NEEDED")
        || is_word(word, b"SAFE")
        || is_word(word, b"SHORT")
}

#[tactic(auto, unfolding(crate::specs::Reading::tree_row_of))]
fn read_tree_row(
    alloc: Global,
    word: &[u8],
    fields: &[u8],
    items: u32,
    lines: u32,
) -> Result<Option<Row>, OutOfMemory>
    ensures { IfOk result (λ o. o ≡ tree_row_of items lines word.now (fields_in fields.now)) }
{
    if is_word(word, b"BOUND") {
        read_bound(alloc, fields, lines)
    } else if is_word(word, b"BRANCH") {
        read_branch(alloc, fields, items, lines)
    } else if is_word(word, b"BARRED") {
        Ok(read_barred(fields, items, lines))
    } else if is_word(word, b"NEEDED") {
        Ok(read_needed(fields, items, lines))
    } else if is_word(word, b"SAFE") {
        Ok(read_safe(fields, items))
    } else if is_word(word, b"SHORT") {
        Ok(read_short(fields, lines))
    } else {
        Ok(None)
    }
}

#[tactic(auto, unfolding(crate::specs::Reading::other_row_of))]
fn read_other_row(
    alloc: Global,
    word: &[u8],
    fields: &[u8],
    items: u32,
    lines: u32,
) -> Result<Option<Row>, OutOfMemory>
    ensures { IfOk result (λ o. o ≡ other_row_of items lines word.now (fields_in fields.now)) }
{
    if is_word(word, b"PART") {
        read_part(alloc, fields, items)
    } else if is_word(word, b"ITEM") {
        read_item(alloc, fields, lines)
    } else if is_word(word, b"LINE") {
        Ok(read_line(fields))
    } else if is_word(word, b"SET") {
        read_set(alloc, fields, items)
    } else if is_word(word, b"LAST") {
        Ok(read_last(fields))
    } else if is_word(word, b"BLOCK") {
        Ok(read_block(fields))
    } else if is_word(word, b"BUDGET") {
        Ok(read_budget(fields))
    } else {
        Ok(None)
    }
}

#[tactic(auto, unfolding(crate::specs::Reading::block_of))]
fn read_block(fields: &[u8]) -> Option<Row>
    ensures { result ≡ block_of (fields_in fields.now) }
{
    let (edition, rest) = first_field(fields)?;
    if is_word(edition, b"1") {
        alone(rest, Row::Block { wide: false })
    } else if is_word(edition, b"2") {
        alone(rest, Row::Block { wide: true })
    } else {
        None
    }
}

#[tactic(auto, unfolding(crate::specs::Reading::budget_of))]
fn read_budget(fields: &[u8]) -> Option<Row>
    ensures { result ≡ budget_of (fields_in fields.now) }
{
    let (budget, rest) = number_field(fields, MOST_BUDGET)?;
    alone(rest, Row::Budget { budget })
}

#[tactic(auto, unfolding(crate::specs::Reading::line_of, crate::specs::Fields::name_of))]
fn read_line(fields: &[u8]) -> Option<Row>
    ensures { result ≡ line_of (fields_in fields.now) }
{
    let (account, rest) = first_field(fields)?;
    let account = read_name(account)?;
    let (asset, rest) = first_field(rest)?;
    let asset = read_name(asset)?;
    let (balance, rest) = number_field(rest, MOST_BALANCE)?;
    let line = LineRow {
        account,
        asset,
        balance,
    };
    alone(rest, Row::Line { line })
}

#[tactic(auto, unfolding(crate::specs::Reading::item_of, crate::specs::Fields::name_of))]
fn read_item(alloc: Global, fields: &[u8], lines: u32) -> Result<Option<Row>, OutOfMemory>
    ensures { IfOk result (λ o. o ≡ item_of lines (fields_in fields.now)) }
{
    let Some((id, rest)) = first_field(fields) else {
        return Ok(None);
    };
    let Some(id) = read_name(id) else {
        return Ok(None);
    };
    let Some((value, rest)) = number_field(rest, MOST_WORTH) else {
        return Ok(None);
    };
    if value < 1 {
        return Ok(None);
    }
    let Some(effects) = read_effects(alloc, rest, lines)? else {
        return Ok(None);
    };
    if effects.len() > MOST_EFFECTS {
        return Ok(None);
    }
    Ok(Some(Row::Item { id, value, effects }))
}

#[tactic(auto, unfolding(crate::specs::Reading::set_of))]
fn read_set(alloc: Global, fields: &[u8], items: u32) -> Result<Option<Row>, OutOfMemory>
    ensures { IfOk result (λ o. o ≡ set_of items (fields_in fields.now)) }
{
    let Some(places) = read_places(alloc, fields, items)? else {
        return Ok(None);
    };
    Ok(Some(Row::Set { places }))
}

#[tactic(auto, unfolding(crate::specs::Reading::part_of))]
fn read_part(alloc: Global, fields: &[u8], items: u32) -> Result<Option<Row>, OutOfMemory>
    ensures { IfOk result (λ o. o ≡ part_of items (fields_in fields.now)) }
{
    let Some((bound, rest)) = number_field(fields, MOST_BOUND) else {
        return Ok(None);
    };
    let Some(members) = read_places(alloc, rest, items)? else {
        return Ok(None);
    };
    if members.len() < 1 {
        return Ok(None);
    }
    Ok(Some(Row::Part { bound, members }))
}

#[tactic(auto, unfolding(crate::specs::Reading::barred_of))]
fn read_barred(fields: &[u8], items: u32, lines: u32) -> Option<Row>
    ensures { result ≡ barred_of items lines (fields_in fields.now) }
{
    let (place, rest) = place_field(fields, items)?;
    let (line, rest) = place_field(rest, lines)?;
    let fix = Fix::Barred { place, line };
    alone(rest, Row::Fix { fix })
}

#[tactic(auto, unfolding(crate::specs::Reading::needed_of))]
fn read_needed(fields: &[u8], items: u32, lines: u32) -> Option<Row>
    ensures { result ≡ needed_of items lines (fields_in fields.now) }
{
    let (place, rest) = place_field(fields, items)?;
    let (line, rest) = place_field(rest, lines)?;
    let fix = Fix::Needed { place, line };
    alone(rest, Row::Fix { fix })
}

#[tactic(auto, unfolding(crate::specs::Reading::safe_of))]
fn read_safe(fields: &[u8], items: u32) -> Option<Row>
    ensures { result ≡ safe_of items (fields_in fields.now) }
{
    let (place, rest) = place_field(fields, items)?;
    let fix = Fix::Safe { place };
    alone(rest, Row::Fix { fix })
}

#[tactic(auto, unfolding(crate::specs::Reading::bound_of))]
fn read_bound(alloc: Global, fields: &[u8], lines: u32) -> Result<Option<Row>, OutOfMemory>
    ensures { IfOk result (λ o. o ≡ bound_of lines (fields_in fields.now)) }
{
    let Some(lam) = read_multipliers(alloc, fields, lines)? else {
        return Ok(None);
    };
    Ok(Some(Row::Bound { lam }))
}

#[tactic(auto, unfolding(crate::specs::Reading::short_of))]
fn read_short(fields: &[u8], lines: u32) -> Option<Row>
    ensures { result ≡ short_of lines (fields_in fields.now) }
{
    let (line, rest) = place_field(fields, lines)?;
    alone(rest, Row::Short { line })
}

#[tactic(auto, unfolding(crate::specs::Reading::branch_of))]
fn read_branch(
    alloc: Global,
    fields: &[u8],
    items: u32,
    lines: u32,
) -> Result<Option<Row>, OutOfMemory>
    ensures { IfOk result (λ o. o ≡ branch_of items lines (fields_in fields.now)) }
{
    let Some((place, rest)) = place_field(fields, items) else {
        return Ok(None);
    };
    let Some(lam) = read_multipliers(alloc, rest, lines)? else {
        return Ok(None);
    };
    Ok(Some(Row::Branch { place, lam }))
}

#[tactic(auto, unfolding(crate::specs::Reading::last_of))]
fn read_last(fields: &[u8]) -> Option<Row>
    ensures { result ≡ last_of (fields_in fields.now) }
{
    alone(fields, Row::Last)
}
