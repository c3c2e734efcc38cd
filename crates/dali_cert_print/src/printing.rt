ghost use Rattle.std.specs.Prelude.{◌≡◌, ℕ, ◌<◌, ◌≤◌, ◌++◌, length, map, IfOk, OnOk};
ghost use Rattle.std.specs.List.{flat_map};
ghost use Rattle.dali_base.specs.Limits.{most_budget};
ghost use Rattle.dali_problem.specs.Clearing.{item_at};
ghost use Rattle.dali_tree.specs.Fits.{Fits};
ghost use Rattle.dali_cert_print.specs.Rows.{row_text, rows_text};
ghost use Rattle.dali_cert_print.specs.Block.{end_rows, tree_rows, part_rows, item_row, block_text};
ghost use Rattle.dali_cert_print.specs.declared.row.Row.TheVariants as rows;

use crate::sizes::is_wide;
use crate::writing::{
    add_block, add_bound, add_branch, add_budget, add_fix, add_item, add_last, add_line, add_part,
    add_set, add_short,
};
use dali_base::{OutOfMemory, Text};
use dali_problem::Problem;
use dali_tree::{Choice, End, Fix, Part, Tree};
use std::alloc::Global;

/// The block of a problem, a budget and a choice: its one spelling, which is defined in `specs/Block.antt`. The choice fits
/// the problem, and the budget is at most 4,096 branchings. The error is want of memory.
#[tactic(auto, using(crate::proofs::Printed::text_between))]
pub fn print_block(
    alloc: Global,
    problem: &Problem,
    budget: u64,
    choice: &Choice,
) -> Result<Text, OutOfMemory>
    requires budget { budget ≤ most_budget }
    requires fits { Fits (length problem.now.items) (length problem.now.lines) choice.now }
    ensures { IfOk result (λ text. text ≡ block_text problem.now budget choice.now) }
{
    let mut text = Text::new(alloc);
    add_block(&mut text, is_wide(problem, choice))?;
    add_budget(&mut text, budget)?;
    add_lines(&mut text, problem)?;
    add_items(&mut text, problem)?;
    add_set(&mut text, choice.places.as_slice())?;
    add_parts(&mut text, choice.parts.as_slice())?;
    add_last(&mut text)?;
    Ok(text)
}

/// The lines of the problem's lines.
#[tactic(auto, using(crate::proofs::Printed::flat_map_step))]
fn add_lines(text: &mut Text, problem: &Problem) -> Result<(), OutOfMemory>
    ensures { OnOk result (text.new ≡ text.old ++ rows_text (map rows.Line problem.now.lines)) }
{
    for at in 0..problem.lines() {
        add_line(text, problem.line(at))?;
    }
    Ok(())
}

/// The lines of the problem's items.
#[tactic(auto, using(crate::proofs::Printed::flat_map_step))]
fn add_items(text: &mut Text, problem: &Problem) -> Result<(), OutOfMemory>
    ensures { OnOk result (text.new ≡ text.old ++ rows_text (map item_row problem.now.items)) }
{
    for place in 0..problem.items() {
        add_item_at(text, problem, place)?;
    }
    Ok(())
}

fn add_item_at(text: &mut Text, problem: &Problem, place: u32) -> Result<(), OutOfMemory>
    requires { place < length problem.now.items }
    ensures { OnOk result (text.new ≡ text.old ++ row_text (item_row (item_at problem.now place))) }
{
    let id = problem.id(place);
    add_item(
        text,
        id.bytes(),
        problem.value(place),
        problem.effects(place),
    )
}

/// The lines of the parts, each with those of its tree behind it.
fn add_parts(text: &mut Text, parts: &[Part]) -> Result<(), OutOfMemory>
    ensures { OnOk result (text.new ≡ text.old ++ rows_text (flat_map part_rows parts.now)) }
{
    for part in parts {
        add_whole_part(text, part)?;
    }
    Ok(())
}

fn add_whole_part(text: &mut Text, part: &Part) -> Result<(), OutOfMemory>
    ensures { OnOk result (text.new ≡ text.old ++ rows_text (part_rows part.now)) }
{
    add_part(text, part.bound, part.members.as_slice())?;
    add_tree(text, &part.tree)
}

/// The lines of a tree.
#[cycle(printing)]
fn add_tree(text: &mut Text, tree: &Tree) -> Result<(), OutOfMemory>
    ensures { OnOk result (text.new ≡ text.old ++ rows_text (tree_rows tree.now)) }
{
    add_fixes(text, tree.fixes.as_slice())?;
    add_end(text, &tree.end)
}

/// The lines of an end, and of its sides.
#[cycle(printing)]
fn add_end(text: &mut Text, end: &End) -> Result<(), OutOfMemory>
    ensures { OnOk result (text.new ≡ text.old ++ rows_text (end_rows end.now)) }
{
    match end {
        End::Bound { lam } => add_bound(text, lam.as_slice()),
        End::Short { line } => add_short(text, *line),
        End::Branch {
            place,
            lam,
            inside,
            outside,
        } => {
            add_branch(text, *place, lam.as_slice())?;
            add_tree(text, inside.get())?;
            add_tree(text, outside.get())
        }
    }
}

/// The lines of fixes.
#[tactic(auto, using(crate::proofs::Printed::flat_map_step))]
fn add_fixes(text: &mut Text, fixes: &[Fix]) -> Result<(), OutOfMemory>
    ensures { OnOk result (text.new ≡ text.old ++ rows_text (map rows.Fix fixes.now)) }
{
    for fix in fixes {
        add_fix(text, fix)?;
    }
    Ok(())
}
