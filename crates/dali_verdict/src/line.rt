ghost use Rattle.std.specs.Prelude.{◌≡◌, ◌++◌, ◌∷◌, [], OnOk, IfOk, decimal};
ghost use Rattle.dali_cert_print.specs.Rows.{after_commas};
ghost use Rattle.dali_verdict.specs.VerdictLine.{mark_text, figures_fields, reason_fields, why_fields, verdict_line};

use crate::verdict::{Figures, Verdict, Why};
use dali_base::{OutOfMemory, Text};
use dali_cert_print::{add_field, add_number, end};
use dali_check::NotAllowed;
use std::alloc::Global;

/// The line that says a verdict, with its LF. It is defined in `specs/VerdictLine.antt`. The error is want of memory.
pub fn verdict_line(alloc: Global, verdict: &Verdict) -> Result<Text, OutOfMemory>
    ensures { IfOk result (λ text. text ≡ verdict_line verdict.now) }
{
    let mut text = Text::new(alloc);
    match verdict {
        Verdict::Valid(figures) => {
            text.add(b"VALID")?;
            add_figures(&mut text, figures)?;
        }
        Verdict::Invalid(why) => {
            text.add(b"INVALID")?;
            add_why(&mut text, *why)?;
        }
    }
    end(&mut text)?;
    Ok(text)
}

/// The mark, the value, the count, the bound and the branchings.
fn add_figures(text: &mut Text, figures: &Figures) -> Result<(), OutOfMemory>
    ensures { OnOk result (text.new ≡ text.old ++ after_commas (figures_fields figures.now)) }
{
    add_field(text, mark_word(figures))?;
    add_number(text, figures.value)?;
    add_number(text, figures.count)?;
    add_number(text, figures.bound)?;
    add_number(text, figures.branchings)
}

fn mark_word(figures: &Figures) -> &'static [u8]
    ensures { result.now ≡ mark_text figures.now }
{
    if figures.value == figures.bound {
        b"OPTIMAL"
    } else {
        b"UNFINISHED"
    }
}

fn add_why(text: &mut Text, why: Why) -> Result<(), OutOfMemory>
    ensures { OnOk result (text.new ≡ text.old ++ after_commas (why_fields why)) }
{
    match why {
        Why::Form { line } => {
            add_field(text, b"FORM")?;
            add_number(text, line)
        }
        Why::NotAllowed(reason) => add_reason(text, reason),
    }
}

/// The word of a reason, and its part where it has one.
fn add_reason(text: &mut Text, reason: NotAllowed) -> Result<(), OutOfMemory>
    ensures { OnOk result (text.new ≡ text.old ++ after_commas (reason_fields reason)) }
{
    match reason {
        NotAllowed::Members => add_field(text, b"MEMBERS"),
        NotAllowed::Shared => add_field(text, b"SHARED"),
        NotAllowed::Infeasible => add_field(text, b"INFEASIBLE"),
        NotAllowed::Addable => add_field(text, b"ADDABLE"),
        NotAllowed::Swappable => add_field(text, b"SWAPPABLE"),
        NotAllowed::Unproved { part } => add_of_part(text, b"UNPROVED", part),
        NotAllowed::NotLean { part } => add_of_part(text, b"NOTLEAN", part),
        NotAllowed::Overspent => add_field(text, b"OVERSPENT"),
        NotAllowed::Idle => add_field(text, b"IDLE"),
    }
}

/// A word and the number of a part.
fn add_of_part(text: &mut Text, word: &[u8], part: u32) -> Result<(), OutOfMemory>
    ensures { OnOk result (text.new ≡ text.old ++ after_commas (word.now ∷ decimal part ∷ [])) }
{
    add_field(text, word)?;
    add_number(text, u64::from(part))
}
