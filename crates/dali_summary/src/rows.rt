ghost use Rattle.std.specs.Prelude.{◌≡◌, ◌++◌, ◌∷◌, OnOk, decimal};
ghost use Rattle.dali_reply.specs.Reply.{mark_text};
ghost use Rattle.dali_summary.specs.Summary.{number_row};
ghost use Rattle.dali_summary.specs.Figures.{figures_row, figures_fields};

use crate::figures::CycleFigures;
use dali_base::{OutOfMemory, Text};
use dali_cert_print::{add_field, add_number, end};
use dali_machine::CycleMark;

/// A row of a word and a number.
pub(crate) fn add_count(text: &mut Text, word: &[u8], n: u64) -> Result<(), OutOfMemory>
    ensures { OnOk result (text.new ≡ text.old ++ number_row word.now n) }
{
    text.add(word)?;
    add_number(text, n)?;
    end(text)
}

/// The row of a cycle.
pub(crate) fn add_cycle(text: &mut Text, cycle: &CycleFigures) -> Result<(), OutOfMemory>
    ensures { OnOk result (text.new ≡ text.old ++ figures_row cycle.now) }
{
    text.add(b"CYCLE")?;
    add_number(text, cycle.command)?;
    add_field(text, mark_word(cycle.mark))?;
    add_figures(text, cycle)?;
    end(text)
}

/// What a cycle's row says behind its mark.
fn add_figures(text: &mut Text, cycle: &CycleFigures) -> Result<(), OutOfMemory>
    ensures { OnOk result (text.new ≡ text.old ++ figures_fields cycle.now) }
{
    add_number(text, cycle.value)?;
    add_number(text, cycle.count as u64)?;
    add_number(text, cycle.bound)?;
    add_number(text, cycle.branchings)
}

/// The word of a cycle's mark.
fn mark_word(mark: CycleMark) -> &'static [u8]
    ensures { result.now ≡ mark_text mark }
{
    match mark {
        CycleMark::Optimal => b"OPTIMAL",
        CycleMark::Unfinished => b"UNFINISHED",
    }
}
