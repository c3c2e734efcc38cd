ghost use Rattle.std.specs.Prelude.{◌≡◌, ◌==◌, ◌∷◌, [], List, ℕ, position, IfOk, IfSome, IfNone, OnErr};
ghost use Rattle.dali_line.specs.Commands.{commands};
ghost use Rattle.dali_gen.specs.Day.{IsDayNumber, day_lines, generated};

use dali_base::{OutOfMemory, Text};
use dali_gen::generate;
use dali_line::Line;
use std::alloc::Global;
use std::marker::Model;

/// The lines of a generated day that are still to come, which contracts see as the list of them.
#[derive(Drop)]
pub struct DayLines {
    day: Text,
    at: usize,
}

impl Model for DayLines {
    ghost use Rattle.std.specs.Prelude.{List, ℕ};
    ghost use Rattle.dali_gen_lines.specs.DayLines.{lines_left, IsAtLine};

    ghost Value = { List (List ℕ) };

    ghost view = { lines_left };

    ghost invariant = { IsAtLine };
}

impl DayLines {
    /// All lines of the day of a number from 1 to 64, which are the commands of its text. The error is want of memory.
    pub fn of(alloc: Global, n: u32) -> Result<DayLines, OutOfMemory>
        requires { IsDayNumber n }
        ensures lines { IfOk result (λ lines. lines ≡ day_lines n) }
        ensures commands { commands (generated n) ≡ day_lines n }
    {
        Ok(DayLines {
            day: generate(alloc, n)?,
            at: 0,
        })
    }

    /// The next line. `None` exactly where none is left. At want of memory the lines stay as they were.
    pub fn next(&mut self, alloc: Global) -> Result<Option<Line>, OutOfMemory>
        ensures some { IfOk result (λ o. IfSome o (λ line. self.old ≡ line ∷ self.new)) }
        ensures none { IfOk result (λ o. IfNone o (self.old ≡ [])) }
        ensures over { IfOk result (λ o. IfNone o (self.new ≡ [])) }
        ensures err { OnErr result (self.new ≡ self.old) }
    {
        let (_, rest) = self.day.bytes().split_at(self.at);
        match newline(rest) {
            Some(length) => {
                let line = Line::copy(alloc, &rest[..length])?;
                self.at += length + 1;
                Ok(Some(line))
            }
            None => Ok(None),
        }
    }
}

/// The place of the first LF.
fn newline(bytes: &[u8]) -> Option<usize>
    ensures { result ≡ position (λ b. b == 10) bytes.now }
{
    bytes.iter().position(|byte| *byte == b'\n')
}
