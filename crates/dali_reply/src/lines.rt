ghost use Rattle.std.specs.Prelude.{◌≡◌, ◌++◌, ◌∷◌, [], OnOk, decimal};
ghost use Rattle.std.specs.Fmt.{signed_decimal};
ghost use Rattle.dali_reply.specs.Reply.{ok_line, no_line, end_line, cycle_line, post_line, mark_text, wait_line, balance_line, held_line, posting_line};

use crate::words::{code_word, kind_bytes, mark_word};
use dali_account::Pair;
use dali_base::{Name, OutOfMemory, Text};
use dali_cert_print::{add_field, add_number, end};
use dali_ledger::Posting;
use dali_machine::{Code, CycleReport};
use dali_waiting::WaitRow;

/// The line of an accepted command that prints no rows.
pub(crate) fn add_ok(text: &mut Text, number: u64) -> Result<(), OutOfMemory>
    ensures { OnOk result (text.new ≡ text.old ++ ok_line number) }
{
    begin(text, number, b"OK")?;
    end(text)
}

/// The line of a refusal.
pub(crate) fn add_no(text: &mut Text, number: u64, code: Code) -> Result<(), OutOfMemory>
    ensures { OnOk result (text.new ≡ text.old ++ no_line number code) }
{
    begin(text, number, b"NO")?;
    add_field(text, code_word(code))?;
    end(text)
}

/// The first line of a cycle.
pub(crate) fn add_cycle(
    text: &mut Text,
    number: u64,
    report: &CycleReport,
) -> Result<(), OutOfMemory>
    ensures { OnOk result (text.new ≡ text.old ++ cycle_line number report.now) }
{
    begin(text, number, b"CYCLE")?;
    add_field(text, mark_word(report.mark))?;
    add_figures(text, report)?;
    end(text)
}

/// What a cycle's first line says behind its mark.
fn add_figures(text: &mut Text, report: &CycleReport) -> Result<(), OutOfMemory>
    ensures { OnOk result (text.new ≡ text.old ++ 44 ∷ (decimal report.now.value ++ 44 ∷ (decimal report.now.count ++ 44 ∷ (decimal report.now.bound ++ 44 ∷ decimal report.now.branchings)))) }
{
    add_number(text, report.value)?;
    add_number(text, report.count as u64)?;
    add_number(text, report.bound)?;
    add_number(text, report.branchings)
}

/// The line of a settled instruction.
pub(crate) fn add_post(text: &mut Text, number: u64, id: &Name) -> Result<(), OutOfMemory>
    ensures { OnOk result (text.new ≡ text.old ++ post_line number id.now) }
{
    begin(text, number, b"POST")?;
    add_field(text, id.bytes())?;
    end(text)
}

/// The line of a queued instruction.
pub(crate) fn add_wait(text: &mut Text, number: u64, row: &WaitRow) -> Result<(), OutOfMemory>
    ensures { OnOk result (text.new ≡ text.old ++ wait_line number row.now) }
{
    begin(text, number, b"WAIT")?;
    add_field(text, row.id.bytes())?;
    add_field(text, kind_bytes(row.kind))?;
    add_number(text, row.value)?;
    end(text)
}

/// The line of a balance.
pub(crate) fn add_balance(text: &mut Text, number: u64, pair: &Pair) -> Result<(), OutOfMemory>
    ensures { OnOk result (text.new ≡ text.old ++ balance_line number pair.now) }
{
    begin(text, number, b"BAL")?;
    add_field(text, pair.asset.bytes())?;
    add_number(text, pair.balance)?;
    end(text)
}

/// The line of an instruction of an account.
pub(crate) fn add_held(text: &mut Text, number: u64, id: &Name) -> Result<(), OutOfMemory>
    ensures { OnOk result (text.new ≡ text.old ++ held_line number id.now) }
{
    begin(text, number, b"HELD")?;
    add_field(text, id.bytes())?;
    end(text)
}

/// The line of a posting.
pub(crate) fn add_posting(
    text: &mut Text,
    number: u64,
    posting: &Posting,
) -> Result<(), OutOfMemory>
    ensures { OnOk result (text.new ≡ text.old ++ posting_line number posting.now) }
{
    begin(text, number, b"ROW")?;
    add_number(text, posting.number)?;
    add_number(text, posting.command)?;
    add_change(text, posting)?;
    end(text)
}

/// What a posting changed: its asset, its delta and the balance afterwards.
fn add_change(text: &mut Text, posting: &Posting) -> Result<(), OutOfMemory>
    ensures { OnOk result (text.new ≡ text.old ++ 44 ∷ (posting.now.asset ++ 44 ∷ (signed_decimal posting.now.delta ++ 44 ∷ decimal posting.now.after))) }
{
    add_field(text, posting.asset.bytes())?;
    add_signed(text, posting.delta)?;
    add_number(text, posting.after)
}

/// The line behind rows.
pub(crate) fn add_end(text: &mut Text, number: u64) -> Result<(), OutOfMemory>
    ensures { OnOk result (text.new ≡ text.old ++ end_line number) }
{
    begin(text, number, b"END")?;
    end(text)
}

/// A line's first two fields: the command's number and the line's word.
fn begin(text: &mut Text, number: u64, word: &[u8]) -> Result<(), OutOfMemory>
    ensures { OnOk result (text.new ≡ text.old ++ (decimal number ++ 44 ∷ word.now)) }
{
    text.add_number(number)?;
    add_field(text, word)
}

/// A comma and a number with its sign.
fn add_signed(text: &mut Text, n: i64) -> Result<(), OutOfMemory>
    ensures { OnOk result (text.new ≡ text.old ++ 44 ∷ signed_decimal n) }
{
    text.push(b',')?;
    text.add_signed(n)
}
