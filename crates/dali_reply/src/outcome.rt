ghost use Rattle.std.specs.Prelude.{◌≡◌, ◌++◌, IfOk, OnOk};
ghost use Rattle.std.specs.List.{flat_map};
ghost use Rattle.dali_reply.specs.Reply.{cycle_line, post_line, end_line, wait_line, balance_line, held_line, posting_line, reply_text, HasBlock, HasText};
ghost use Rattle.dali_cert_print.specs.Block.{block_text};

use crate::lines::{
    add_balance, add_cycle, add_end, add_held, add_no, add_ok, add_post, add_posting, add_wait,
};
use dali_account::Pair;
use dali_base::{Name, OutOfMemory, Text};
use dali_cert_print::print_block;
use dali_ledger::Posting;
use dali_machine::{CycleReport, Outcome};
use dali_waiting::WaitRow;
use std::alloc::Global;

/// The room of a reply at its start, in bytes: enough for one line of a number, two words and no names.
const ROOM: usize = 32;

/// The reply to the command of this number, counted from 1, that had this outcome: its lines, each ended by LF. They
/// are defined in `specs/Reply.antt`. In a cycle's report the choice fits the problem, and the budget is at most 4,096. The
/// error is want of memory.
pub fn reply(alloc: Global, number: u64, outcome: &Outcome) -> Result<Text, OutOfMemory>
    requires { HasText outcome.now }
    ensures { IfOk result (λ text. text ≡ reply_text number outcome.now) }
{
    let mut text = Text::from_vec(Vec::with_capacity(alloc, ROOM)?);
    add_outcome(alloc, &mut text, number, outcome)?;
    Ok(text)
}

fn add_outcome(
    alloc: Global,
    text: &mut Text,
    number: u64,
    outcome: &Outcome,
) -> Result<(), OutOfMemory>
    requires { HasText outcome.now }
    ensures { OnOk result (text.new ≡ text.old ++ reply_text number outcome.now) }
{
    match outcome {
        Outcome::Done => add_ok(text, number),
        Outcome::No { code } => add_no(text, number, *code),
        Outcome::Cycle { report } => add_report(alloc, text, number, report),
        Outcome::Queue { rows } => {
            add_waiting(text, number, rows.as_slice())?;
            add_end(text, number)
        }
        Outcome::Stat { pairs, ids } => {
            add_balances(text, number, pairs.as_slice())?;
            add_ids(text, number, ids.as_slice())?;
            add_end(text, number)
        }
        Outcome::Ledger { rows } => {
            add_postings(text, number, rows.as_slice())?;
            add_end(text, number)
        }
    }
}

/// The lines of a cycle: its figures, the settled instructions, the certificate block and the end.
fn add_report(
    alloc: Global,
    text: &mut Text,
    number: u64,
    report: &CycleReport,
) -> Result<(), OutOfMemory>
    requires { HasBlock report.now }
    ensures { OnOk result (text.new
        ≡ text.old ++ (cycle_line number report.now ++ flat_map (post_line number) report.now.ids ++ block_text report.now.problem report.now.budget report.now.choice ++ end_line number)) }
{
    add_cycle(text, number, report)?;
    add_posts(text, number, report.ids.as_slice())?;
    let block = print_block(alloc, &report.problem, report.budget, &report.choice)?;
    text.add(block.bytes())?;
    add_end(text, number)
}

/// A line for each settled instruction.
fn add_posts(text: &mut Text, number: u64, ids: &[Name]) -> Result<(), OutOfMemory>
    ensures { OnOk result (text.new ≡ text.old ++ flat_map (post_line number) ids.now) }
{
    for id in ids {
        add_post(text, number, id)?;
    }
    Ok(())
}

/// A line for each queued instruction, in queue order.
fn add_waiting(text: &mut Text, number: u64, rows: &[WaitRow]) -> Result<(), OutOfMemory>
    ensures { OnOk result (text.new ≡ text.old ++ flat_map (wait_line number) rows.now) }
{
    for row in rows {
        add_wait(text, number, row)?;
    }
    Ok(())
}

/// A line for each balance.
fn add_balances(text: &mut Text, number: u64, pairs: &[Pair]) -> Result<(), OutOfMemory>
    ensures { OnOk result (text.new ≡ text.old ++ flat_map (balance_line number) pairs.now) }
{
    for pair in pairs {
        add_balance(text, number, pair)?;
    }
    Ok(())
}

/// A line for each instruction of an account.
fn add_ids(text: &mut Text, number: u64, ids: &[Name]) -> Result<(), OutOfMemory>
    ensures { OnOk result (text.new ≡ text.old ++ flat_map (held_line number) ids.now) }
{
    for id in ids {
        add_held(text, number, id)?;
    }
    Ok(())
}

/// A line for each posting.
fn add_postings(text: &mut Text, number: u64, rows: &[Posting]) -> Result<(), OutOfMemory>
    ensures { OnOk result (text.new ≡ text.old ++ flat_map (posting_line number) rows.now) }
{
    for row in rows {
        add_posting(text, number, row)?;
    }
    Ok(())
}
