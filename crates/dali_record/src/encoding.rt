ghost use Rattle.std.specs.Prelude.{◌≡◌, ℕ, ◌+◌, ◌≤◌, ◌++◌, None, length, OnOk, IfOk, IfSome};
ghost use Rattle.std.specs.List.{All};
ghost use Rattle.dali_base.specs.Limits.{most_items, most_lines};
ghost use Rattle.dali_tree.specs.Fits.{PartFits};
ghost use Rattle.dali_entry.specs.EntryRecord.{EntryRecord};
ghost use Rattle.dali_record.specs.TreeText.{list_text};
ghost use Rattle.dali_record.specs.RecordText.{part_text, choice_text, option_text, record_text};
ghost use Rattle.dali_record.specs.Longest.{longest, IsSized};
ghost use Rattle.dali_record.specs.IsRecord.{IsChoiceWithin, IsWithin};

use crate::numbers::{put_count, put_eight};
use crate::writing::{put_places, put_root};
use dali_base::{OutOfMemory, Seq, Text};
use dali_entry::Entry;
use dali_tree::{Choice, Part};
use std::alloc::Global;

/// The one record of an entry within the bounds of `specs/IsRecord.antt`. No other entry within them has it. It has at most
/// `greatest_length` bytes where its choice is that of a cycle with so many items, lines and branchings (`IsSized` of
/// `specs/Longest.antt`), and 4 more than the line where it has no choice.
pub fn encode(alloc: Global, entry: &Entry) -> Result<Text, OutOfMemory>
    requires { IsWithin entry.now }
    ensures text { IfOk result (λ text. text ≡ record_text entry.now) }
    ensures only { (other : EntryRecord) → IsWithin other → record_text other ≡ record_text entry.now → other ≡ entry.now }
    ensures short { (items lines budget : ℕ) → IfSome entry.now.choice (IsSized items lines budget) →
        IfOk result (λ text. length text ≤ longest (length entry.now.line) items lines budget) }
    ensures plain { entry.now.choice ≡ None → IfOk result (λ text. length text ≡ length entry.now.line + 4) }
{
    record_of(alloc, entry)
}

fn record_of(alloc: Global, entry: &Entry) -> Result<Text, OutOfMemory>
    requires { IsWithin entry.now }
    ensures { IfOk result (λ text. text ≡ record_text entry.now) }
{
    let line = entry.line.bytes();
    let mut out = Seq::new(alloc);
    out.push(entry.edition)?;
    put_count(&mut out, line.len())?;
    out.extend(line)?;
    put_option(alloc, &mut out, &entry.choice)?;
    Ok(out)
}

fn put_option(alloc: Global, out: &mut Text, choice: &Option<Choice>) -> Result<(), OutOfMemory>
    requires { IfSome choice.now IsChoiceWithin }
    ensures { OnOk result (out.new ≡ out.old ++ option_text choice.now) }
{
    match choice {
        None => out.push(0),
        Some(choice) => {
            out.push(1)?;
            put_choice(alloc, out, choice)
        }
    }
}

fn put_choice(alloc: Global, out: &mut Text, choice: &Choice) -> Result<(), OutOfMemory>
    requires { IsChoiceWithin choice.now }
    ensures { OnOk result (out.new ≡ out.old ++ choice_text choice.now) }
{
    put_places(out, choice.places.as_slice())?;
    put_parts(alloc, out, choice.parts.as_slice())
}

fn put_parts(alloc: Global, out: &mut Text, parts: &[Part]) -> Result<(), OutOfMemory>
    requires { All (PartFits most_items most_lines) parts.now }
    ensures { OnOk result (out.new ≡ out.old ++ list_text part_text parts.now) }
{
    put_count(out, parts.len())?;
    for part in parts {
        put_part(alloc, out, part)?;
    }
    Ok(())
}

fn put_part(alloc: Global, out: &mut Text, part: &Part) -> Result<(), OutOfMemory>
    requires { PartFits most_items most_lines part.now }
    ensures { OnOk result (out.new ≡ out.old ++ part_text part.now) }
{
    put_places(out, part.members.as_slice())?;
    put_eight(out, part.bound)?;
    put_root(alloc, out, &part.tree)
}
