ghost use Rattle.std.specs.Prelude.{◌≡◌, ◌==◌, not, ◌↔◌, IsTrue, IfOk, IfSome, IsErrOf, MatchResult};
ghost use Rattle.std.specs.List.{list_all};
ghost use Rattle.dali_base.specs.Limits.{most_items, most_lines};
ghost use Rattle.dali_line.specs.Commands.{is_command as is_command_text};
ghost use Rattle.dali_line.specs.Line.{is_line as is_line_text};
ghost use Rattle.dali_tree.specs.Fits.{Fits};
ghost use Rattle.dali_entry.specs.EntryRecord.{EntryRecord};
ghost use Rattle.dali_record.specs.declared.refusal.RecordNo.TheVariants as errors;
ghost use Rattle.dali_record.specs.IsRecord.{IsRecord};
ghost use Rattle.dali_record.specs.Reading.{Gives};
ghost use Rattle.dali_record.specs.EntryReading.{part_at, parts_at, choice_at, option_at, line_at, entry_at};
ghost use Rattle.dali_record.specs.Decodes.{Decodes, IsWhole};

use crate::numbers::{eight_of, two_of};
use crate::reading::places_of;
use crate::refusal::RecordNo;
use crate::trees::tree_of;
use dali_base::limits::{MOST_BUDGET, MOST_DEPTH, MOST_ITEMS, MOST_LINES};
use dali_base::{NEWEST, Seq};
use dali_entry::Entry;
use dali_fits::choice_fits;
use dali_line::Line;
use dali_line::limits::MOST_COMMAND;
use dali_tree::{Choice, Part, Parts};
use std::alloc::Global;

/// The entry whose record these bytes are. `Form` exactly where they are the record of none. No memory is taken for more
/// than what was read.
pub fn decode(alloc: Global, bytes: &[u8]) -> Result<Entry, RecordNo>
    ensures found { IfOk result (IsRecord bytes.now) }
    ensures form { IsErrOf result errors.Form → (e : EntryRecord) → IsRecord bytes.now e → ⊥ }
    ensures only { (e : EntryRecord) → IsRecord bytes.now e → MatchResult result (λ d. d ≡ e) (λ x. x ≡ errors.OutOfMemory) }
{
    whole_entry(alloc, bytes)
}

fn whole_entry(alloc: Global, bytes: &[u8]) -> Result<Entry, RecordNo>
    ensures { Decodes bytes.now result }
{
    let (entry, rest) = entry_of(alloc, bytes)?;
    if !is_whole(&entry, rest) {
        return Err(RecordNo::Form);
    }
    Ok(entry)
}

/// Whether an entry was read to the end of the bytes, in an edition that there is, and its choice fits.
fn is_whole(entry: &Entry, rest: &[u8]) -> bool
    ensures { IsTrue result ↔ IsWhole entry.now rest.now }
{
    rest.is_empty() && 1 <= entry.edition && entry.edition <= NEWEST && option_fits(&entry.choice)
}

fn option_fits(choice: &Option<Choice>) -> bool
    ensures { IsTrue result ↔ IfSome choice.now (Fits most_items most_lines) }
{
    match choice {
        None => true,
        Some(choice) => choice_fits(choice, MOST_ITEMS, MOST_LINES),
    }
}

/// The entry at the front, and the bytes behind it.
#[tactic(auto, unfolding(crate::specs::EntryReading::entry_at))]
fn entry_of(alloc: Global, bytes: &[u8]) -> Result<(Entry, &[u8]), RecordNo>
    ensures { Gives (λ x. (x.0, x.1.now)) result (entry_at bytes.now) }
{
    match bytes {
        [] => Err(RecordNo::Form),
        [edition, rest @ ..] => {
            let (line, rest) = line_of(alloc, rest)?;
            let (choice, rest) = option_of(alloc, rest)?;
            let entry = Entry {
                edition: *edition,
                line,
                choice,
            };
            Ok((entry, rest))
        }
    }
}

#[tactic(auto, unfolding(crate::specs::EntryReading::line_at))]
fn line_of(alloc: Global, bytes: &[u8]) -> Result<(Line, &[u8]), RecordNo>
    ensures { Gives (λ x. (x.0, x.1.now)) result (line_at bytes.now) }
{
    let (len, rest) = two_of(bytes)?;
    let len = len as usize;
    if rest.len() < len {
        return Err(RecordNo::Form);
    }
    let (line, rest) = rest.split_at(len);
    if !is_line(line) {
        return Err(RecordNo::Form);
    }
    Ok((Line::copy(alloc, line)?, rest))
}

fn is_line(bytes: &[u8]) -> bool
    ensures { result ≡ is_line_text bytes.now }
{
    is_command(bytes) && bytes.len() <= MOST_COMMAND && has_no_end(bytes)
}

/// Whether no byte ends a line.
fn has_no_end(bytes: &[u8]) -> bool
    ensures { result ≡ list_all (λ b. not (b == 10)) bytes.now }
{
    bytes.iter().all(|b| *b != b'\n')
}

fn is_command(bytes: &[u8]) -> bool
    ensures { result ≡ is_command_text bytes.now }
{
    match bytes {
        [] => false,
        [first, ..] => *first != b'#',
    }
}

#[tactic(auto, unfolding(crate::specs::EntryReading::option_at))]
fn option_of(alloc: Global, bytes: &[u8]) -> Result<(Option<Choice>, &[u8]), RecordNo>
    ensures { Gives (λ x. (x.0, x.1.now)) result (option_at bytes.now) }
{
    match bytes {
        [0, rest @ ..] => Ok((None, rest)),
        [1, rest @ ..] => {
            let (choice, rest) = choice_of(alloc, rest)?;
            Ok((Some(choice), rest))
        }
        _ => Err(RecordNo::Form),
    }
}

#[tactic(auto, unfolding(crate::specs::EntryReading::choice_at))]
fn choice_of(alloc: Global, bytes: &[u8]) -> Result<(Choice, &[u8]), RecordNo>
    ensures { Gives (λ x. (x.0, x.1.now)) result (choice_at bytes.now) }
{
    let (places, rest) = places_of(alloc, bytes)?;
    let (count, rest) = two_of(rest)?;
    let (parts, _, rest) = parts_of(alloc, count, MOST_BUDGET as u32, rest)?;
    Ok((Choice { places, parts }, rest))
}

/// So many parts, with at most `left` branches in all: also how many are left behind them.
fn parts_of(
    alloc: Global,
    count: u32,
    left: u32,
    bytes: &[u8],
) -> Result<(Parts, u32, &[u8]), RecordNo>
    ensures { Gives (λ x. (x.0, x.1, x.2.now)) result (parts_at count left bytes.now) }
{
    let mut parts = Seq::new(alloc);
    let mut spare = left;
    let mut rest = bytes;
    for _ in 0..count {
        let (part, behind, after) = part_of(alloc, spare, rest)?;
        parts.push(part)?;
        spare = behind;
        rest = after;
    }
    Ok((parts, spare, rest))
}

#[tactic(auto, unfolding(crate::specs::EntryReading::part_at))]
fn part_of(alloc: Global, left: u32, bytes: &[u8]) -> Result<(Part, u32, &[u8]), RecordNo>
    ensures { Gives (λ x. (x.0, x.1, x.2.now)) result (part_at left bytes.now) }
{
    let (members, rest) = places_of(alloc, bytes)?;
    let (bound, rest) = eight_of(rest)?;
    let (tree, left, rest) = tree_of(alloc, MOST_DEPTH, left, &[], rest)?;
    let part = Part {
        members,
        bound,
        tree,
    };
    Ok((part, left, rest))
}
