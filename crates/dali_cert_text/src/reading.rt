ghost use Rattle.std.specs.Prelude.{◌≡◌, ◌≢◌, ℕ, ◌+◌, ◌<◌, ◌++◌, ◌∷◌, [], length, not, ◌&&◌, Bool, List, slice_index, Ok, Err, IfOk, OnOk};
ghost use Rattle.dali_problem.specs.Limits.{IsProblem};
ghost use Rattle.dali_tree.specs.declared.choice.Part.{Part};
ghost use Rattle.dali_cert_text.specs.declared.block.Block.{Block};
ghost use Rattle.dali_cert_print.specs.Block.{is_wide as needs_edition_two};
ghost use Rattle.dali_cert_text.specs.Form.{Spells, IsFormLine};
ghost use Rattle.dali_cert_text.specs.Stating.{no_lines, edition_row, budget_row, part_row};
ghost use Rattle.dali_cert_text.specs.Stages.{Setting, Start, Opened, Stated, Parted, Growing, Whole, whole, Goes, Stops};
ghost use Rattle.dali_cert_text.specs.Refusal.{Gives};

use crate::block::{Block, BlockNo};
use crate::growth::{Growth, grow};
use crate::refused::Refused;
use crate::stack::Stack;
use crate::statement::Statement;
use crate::unread::{Unread, next_row};
use dali_base::Places;
use dali_cert_print::{MOST_SMALL_BOUND, Row, is_wide};
use dali_problem::Problem;
use dali_tree::{Choice, Fixes, Part, Parts, Tree};
use std::alloc::Global;

/// The problem, the budget and the choice of a block: the bytes are its one spelling. The error is want of memory, or Form
/// exactly where the bytes are no block; its line, counted from 1, is the first such that no block begins with the lines up
/// to it. A block and that line are defined in `specs/Form.antt`, and its text in `specs/Block.antt` of dali_cert_print.
pub fn read_block(alloc: Global, bytes: &[u8]) -> Result<Block, BlockNo>
    ensures found { IfOk result (λ block. Spells bytes.now block) }
    ensures only { (b : Block) → Spells bytes.now b → IfOk result (λ block. block ≡ b) × ((k : ℕ) → result ≢ Err (BlockNo.Form k)) }
    ensures one { (a b : Block) → Spells bytes.now a → Spells bytes.now b → a ≡ b }
    ensures form { (k : ℕ) → result ≡ Err (BlockNo.Form k) → IsFormLine bytes.now k }
{
    read_spelled(alloc, bytes)
}

/// The same, without saying that no other block is spelled so.
fn read_spelled(alloc: Global, bytes: &[u8]) -> Result<Block, BlockNo>
    ensures found { IfOk result (λ block. Spells bytes.now block) }
    ensures form { (k : ℕ) → result ≡ Err (BlockNo.Form k) → IsFormLine bytes.now k }
{
    let mut unread = Unread::of(bytes);
    let draft = read_draft(alloc, &mut unread)?;
    let (wide, block) = draft;
    if !unread.is_empty() {
        return Err(unread.form_next());
    }
    if is_needless(wide, &block) {
        return Err(unread.form());
    }
    Ok(block)
}

/// Whether a block of this edition has no need of it.
fn is_needless(wide: bool, block: &Block) -> bool
    ensures { result ≡ (wide && not (needs_edition_two block.now.problem block.now.choice)) }
{
    wide && !is_wide(&block.problem, &block.choice)
}

/// A block of either edition, with or without need of it, up to its last row.
fn read_draft(alloc: Global, unread: &mut Unread<'_>) -> Result<(bool, Block), BlockNo>
    ensures ok { IfOk result (λ x. Goes Start unread.old (whole x.0 x.1) unread.new × IsProblem x.1.problem) }
    ensures form { (k : ℕ) → result ≡ Err (BlockNo.Form k) → Stops Start unread.old k }
{
    let wide = read_edition(alloc, unread)?;
    let budget = read_budget(alloc, unread)?;
    let stated = read_statement(alloc, unread, wide)?;
    let (problem, places) = stated;
    let parts = read_parts(alloc, unread, wide, &problem)?;
    let choice = Choice { places, parts };
    let block = Block {
        problem,
        budget,
        choice,
    };
    Ok((wide, block))
}

/// The first row: whether the block is of edition 2.
fn read_edition(alloc: Global, unread: &mut Unread<'_>) -> Result<bool, BlockNo>
    ensures ok { IfOk result (λ wide. Goes Start unread.old (Opened wide) unread.new) }
    ensures form { (k : ℕ) → result ≡ Err (BlockNo.Form k) → Stops Start unread.old k }
{
    let row = next_row(alloc, unread, 0, 0)?;
    match edition(row) {
        Some(wide) => Ok(wide),
        None => Err(unread.form()),
    }
}

#[tactic(auto, unfolding(crate::specs::Stating::edition_row))]
fn edition(row: Row) -> Option<bool>
    ensures { result ≡ edition_row row }
{
    match row {
        Row::Block { wide } => Some(wide),
        _ => None,
    }
}

/// The second row: the budget, in branchings.
fn read_budget(alloc: Global, unread: &mut Unread<'_>) -> Result<u64, BlockNo>
    ensures ok { (wide : Bool) → IfOk result (λ budget. Goes (Opened wide) unread.old (Stated wide budget no_lines) unread.new) }
    ensures form { (wide : Bool) (k : ℕ) → result ≡ Err (BlockNo.Form k) → Stops (Opened wide) unread.old k }
{
    let row = next_row(alloc, unread, 0, 0)?;
    match budget(row) {
        Some(budget) => Ok(budget),
        None => Err(unread.form()),
    }
}

#[tactic(auto, unfolding(crate::specs::Stating::budget_row))]
fn budget(row: Row) -> Option<u64>
    ensures { result ≡ budget_row row }
{
    match row {
        Row::Budget { budget } => Some(budget),
        _ => None,
    }
}

/// The problem and the set.
fn read_statement(
    alloc: Global,
    unread: &mut Unread<'_>,
    wide: bool,
) -> Result<(Problem, Places), BlockNo>
    ensures ok { (budget : ℕ) → IfOk result (λ x. Goes (Stated wide budget no_lines) unread.old
        (Parted (record { wide = wide; budget = budget; problem = x.0; places = x.1 }) []) unread.new) }
    ensures form { (budget k : ℕ) → result ≡ Err (BlockNo.Form k) → Stops (Stated wide budget no_lines) unread.old k }
{
    let mut statement = Statement::new(alloc);
    'rows: loop {
        let items = statement.items();
        let lines = statement.lines();
        let row = next_row(alloc, unread, items, lines)?;
        match statement.take(wide, row) {
            Ok(None) => {}
            Ok(Some(places)) => return Ok((statement.into_problem(), places)),
            Err(Refused::Form) => return Err(unread.form()),
            Err(Refused::Memory) => return Err(BlockNo::OutOfMemory),
        }
    }
}

/// The parts, each with its tree, up to the last row.
fn read_parts(
    alloc: Global,
    unread: &mut Unread<'_>,
    wide: bool,
    problem: &Problem,
) -> Result<Parts, BlockNo>
    ensures ok { (s : Setting) → s.wide ≡ wide → s.problem ≡ problem.now →
        IfOk result (λ parts. Goes (Parted s []) unread.old (Whole s parts) unread.new) }
    ensures form { (s : Setting) (k : ℕ) → s.wide ≡ wide → s.problem ≡ problem.now → result ≡ Err (BlockNo.Form k) →
        Stops (Parted s []) unread.old k }
    ensures bounds { IsProblem problem.now }
{
    let items = problem.items();
    let lines = problem.lines();
    let mut parts = Parts::new(alloc);
    let mut least = 0;
    'rows: loop {
        let row = next_row(alloc, unread, items, lines)?;
        match next_part(wide, least, row) {
            Some(None) => return Ok(parts),
            Some(Some((bound, members))) => {
                least = first_member(&members) + 1;
                let tree = read_tree(alloc, unread, items, lines)?;
                parts.push(Part {
                    members,
                    bound,
                    tree,
                })?;
            }
            None => return Err(unread.form()),
        }
    }
}

/// The bound and the members of the next part, whose first member is at least `least`, or none at the last row.
#[tactic(auto, unfolding(crate::specs::Stating::part_row))]
fn next_part(wide: bool, least: u32, row: Row) -> Option<Option<(u64, Places)>>
    ensures { result ≡ part_row wide least row }
{
    match row {
        Row::Part { bound, members } => {
            if (wide || bound <= MOST_SMALL_BOUND) && least <= first_member(&members) {
                Some(Some((bound, members)))
            } else {
                None
            }
        }
        Row::Last => Some(None),
        _ => None,
    }
}

/// The first member, or 0.
fn first_member(members: &Places) -> u32
    ensures { result ≡ slice_index members.now 0 }
{
    match members.as_slice().first() {
        Some(place) => *place,
        None => 0,
    }
}

/// The tree of a part.
fn read_tree(
    alloc: Global,
    unread: &mut Unread<'_>,
    items: u32,
    lines: u32,
) -> Result<Tree, BlockNo>
    ensures ok { (s : Setting) (parts : List Part) (bound : ℕ) (members : List ℕ) →
        length s.problem.items ≡ items → length s.problem.lines ≡ lines →
        IfOk result (λ tree. Goes (Growing s parts bound members [] []) unread.old
        (Parted s (parts ++ record { members = members; bound = bound; tree = tree } ∷ [])) unread.new) }
    ensures form { (s : Setting) (parts : List Part) (bound : ℕ) (members : List ℕ) (k : ℕ) →
        length s.problem.items ≡ items → length s.problem.lines ≡ lines → IsProblem s.problem →
        result ≡ Err (BlockNo.Form k) → Stops (Growing s parts bound members [] []) unread.old k }
    ensures shorter { OnOk result (length unread.new.text < length unread.old.text) }
{
    let mut frames = Stack::new(alloc);
    let mut fixes = Fixes::new(alloc);
    'rows: loop {
        let row = next_row(alloc, unread, items, lines)?;
        match grow(alloc, frames, fixes, row) {
            Ok(
                Growth::Open {
                    frames: above,
                    fixes: taken,
                },
            ) => {
                frames = above;
                fixes = taken;
            }
            Ok(Growth::Grown { tree }) => return Ok(tree),
            Err(Refused::Form) => return Err(unread.form()),
            Err(Refused::Memory) => return Err(BlockNo::OutOfMemory),
        }
    }
}
