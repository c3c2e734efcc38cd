ghost use Rattle.std.specs.Prelude.{◌≡◌, ◌<◌, ◌++◌, List, ℕ, Some, false, length, map, decimal, slice_get, IfOk, OnOk};
ghost use Rattle.std.specs.Fmt.{signed_decimal};
ghost use Rattle.std.specs.List.{All};
ghost use Rattle.std.specs.Io.KnownBytes.{Appends};
ghost use Rattle.csv.specs.Writing.{default_writer, needs_quotes, text_written};
ghost use Rattle.dali_statement.specs.Export.{header, fields_of, table};
ghost use Rattle.dali_waiting.specs.RowText.{row_text};
ghost use Rattle.dali_statement.specs.Ready.{IsReady};

use csv::Writer;
use dali_base::{Name, OutOfMemory, Text};
use dali_ledger::{Ledger, Posting};
use std::alloc::Global;
use std::io::Write;

/// The table of all postings: a header row and one row for each posting in order of number, fields joined by commas,
/// each row ended by LF, as `specs/Export.antt` defines. Want of memory is the only error.
pub fn ledger_csv(alloc: Global, ledger: &Ledger) -> Result<Text, OutOfMemory>
    ensures { IfOk result (λ text. text ≡ table ledger.now.postings) }
{
    let mut writer = Writer::from_writer(Vec::new(alloc));
    put_header(&mut writer)?;
    for place in 0..ledger.len() {
        put_posting(&mut writer, posting_at(ledger, place))?;
    }
    let table = match writer.into_inner() {
        Ok(table) => table,
        Err(_) => return Err(OutOfMemory),
    };
    Ok(Text::from_vec(table))
}

fn posting_at(ledger: &Ledger, place: u64) -> &Posting
    requires { place < length ledger.now.postings }
    ensures { Some result.now ≡ slice_get ledger.now.postings place }
{
    ledger.at(place).unwrap()
}

fn put_header<W: Write + Drop>(writer: &mut Writer<W>) -> Result<(), OutOfMemory>
    requires ready { IsReady writer.old }
    ensures ready { OnOk result (IsReady writer.new) }
    ensures text { OnOk result (Appends (text_written W.contents writer.old) (text_written W.contents writer.new) (row_text header)) }
{
    let fields = [
        b"number".as_slice(),
        b"command".as_slice(),
        b"account".as_slice(),
        b"asset".as_slice(),
        b"delta".as_slice(),
        b"after".as_slice(),
    ];
    put_row(writer, &fields)
}

fn put_posting<W: Write + Drop>(
    writer: &mut Writer<W>,
    posting: &Posting,
) -> Result<(), OutOfMemory>
    requires ready { IsReady writer.old }
    ensures ready { OnOk result (IsReady writer.new) }
    ensures text { OnOk result (Appends (text_written W.contents writer.old) (text_written W.contents writer.new) (row_text (fields_of posting.now))) }
{
    let mut number = itoa::Buffer::new();
    let mut command = itoa::Buffer::new();
    let mut delta = itoa::Buffer::new();
    let mut after = itoa::Buffer::new();
    let fields = [
        number_field(number.format(posting.number), posting.number),
        number_field(command.format(posting.command), posting.command),
        name_field(&posting.account),
        name_field(&posting.asset),
        signed_field(delta.format(posting.delta), posting.delta),
        number_field(after.format(posting.after), posting.after),
    ];
    put_row(writer, &fields)
}

/// Writes a row of fields that need no quotes.
fn put_row<W: Write + Drop>(writer: &mut Writer<W>, fields: &[&[u8]]) -> Result<(), OutOfMemory>
    requires ready { IsReady writer.old }
    requires several { 1 < length fields.now }
    requires plain { All (λ field. needs_quotes default_writer field.now ≡ false) fields.now }
    ensures ready { OnOk result (IsReady writer.new) }
    ensures text { OnOk result (Appends (text_written W.contents writer.old) (text_written W.contents writer.new) (row_text (map (λ field. field.now) fields.now))) }
{
    match writer.write_fields(fields) {
        Ok(()) => {}
        Err(_) => return Err(OutOfMemory),
    }
    Ok(())
}

/// The digits of a number, which need no quotes.
fn number_field(digits: &str, n: u64) -> &[u8]
    requires { digits.now ≡ decimal n }
    ensures text { result.now ≡ decimal n }
    ensures plain { needs_quotes default_writer result.now ≡ false }
{
    digits.as_bytes()
}

/// The digits of a number with its sign, which need no quotes.
fn signed_field(digits: &str, z: i64) -> &[u8]
    requires { digits.now ≡ signed_decimal z }
    ensures text { result.now ≡ signed_decimal z }
    ensures plain { needs_quotes default_writer result.now ≡ false }
{
    digits.as_bytes()
}

/// The bytes of a name, which need no quotes.
fn name_field(name: &Name) -> &[u8]
    ensures text { result.now ≡ name.now }
    ensures plain { needs_quotes default_writer result.now ≡ false }
{
    name.bytes()
}
