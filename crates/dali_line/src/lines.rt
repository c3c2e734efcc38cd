ghost use Rattle.std.specs.Prelude.{◌≡◌, ◌≢◌, ◌+◌, ◌≤◌, [], Ok, Err, Some, None, true, false, IfOk, IfErr, IfSome, IfNone, OnErr, IsTrue};
ghost use Rattle.dali_outside.specs.Outside.{Rose};
ghost use Rattle.dali_line.specs.Limits.{most_file};
ghost use Rattle.dali_line.specs.Lines.{Gives, Ends, Stops, reached};

use crate::block::Block;
use crate::line::Line;
use crate::line_end::LineEnd;
use crate::open_line::OpenLine;
use crate::scan::{Found, read_command};
use dali_base::OutOfMemory;
use dali_outside::Source;
use std::alloc::Global;
use std::marker::Model;

/// A reader of the commands of a day file, which are those of `specs/Commands.antt`. Contracts see it as a `Reader`
/// (`specs/Lines.antt`).
#[derive(Debug, Drop)]
pub struct Lines {
    block: Block,
    line: OpenLine,
    taken: u64,
    given: u64,
    over: bool,
    alloc: Global,
}

impl Model for Lines {
    ghost use Rattle.dali_line.specs.Lines.{Reader};
    ghost use Rattle.dali_line.specs.LinesLayout.{reader_of, IsCounted};

    ghost Value = { Reader };

    ghost view = { reader_of };

    ghost invariant = { IsCounted };
}

impl Lines {
    /// A reader that took nothing yet.
    pub fn new(alloc: Global) -> Result<Lines, OutOfMemory>
        ensures { IfOk result (λ lines. lines ≡ record { pending = []; taken = 0; given = 0; over = false }) }
    {
        Ok(Lines {
            block: Block::new(alloc)?,
            line: OpenLine::new(alloc)?,
            taken: 0,
            given: 0,
            over: false,
            alloc,
        })
    }

    /// The next command of the source, in a line of its own. `None` at the end of input where no command is left, and
    /// after an earlier error.
    ///
    /// At most 67,108,864 bytes of the source are taken, and one more that shows that there is one.
    /// `ReadFault` comes only where the source's count of faults rose, or stands at u64's last value, and at every other
    /// answer the count stays, so no failed take is passed over. `OutOfMemory` comes only where the next command was met,
    /// whole and not too long. `LongLine` comes
    /// exactly where the next command has a 201st byte, whatever follows the bytes taken, or by the end of input where
    /// that was met; it counts commands from 1. `LongFile` comes exactly where the next command doesn't end within
    /// 67,108,864 bytes and one byte more was taken, which doesn't show that the command is long.
    pub fn next<S: Source>(&mut self, source: &mut S) -> Result<Option<Line>, LineEnd>
        ensures over { self.old.over ≡ true → (result ≡ Ok None) × (self.new ≡ self.old) × (source.new ≡ source.old) }
        ensures some { self.old.over ≡ false → IfOk result (λ o. IfSome o (λ line. Gives S.tells line self.old self.new (S.feed source.old) (S.feed source.new))) }
        ensures none { self.old.over ≡ false → IfOk result (λ o. IfNone o (Ends S.tells self.old self.new (S.feed source.old) (S.feed source.new))) }
        ensures stops { IfErr result (Stops S.tells (self.old.given + 1) (reached self.old (S.feed source.old)) (reached self.new (S.feed source.new))) }

        // the count of the faults, and the end that they bring
        ensures quiet { result ≢ Err LineEnd.ReadFault → (S.feed source.new).faults ≡ (S.feed source.old).faults }
        ensures failed { result ≡ Err LineEnd.ReadFault → Rose (S.feed source.old).faults (S.feed source.new).faults }

        // what comes behind an end, and the limit
        ensures ended { OnErr result (self.new.over ≡ true) }
        ensures faults { (S.feed source.old).faults ≤ (S.feed source.new).faults }
        ensures bounded { self.new.given ≤ most_file }
    {
        if self.over {
            return Ok(None);
        }
        self.over = true;
        self.line.clear();
        let command = self.given + 1;
        match read_command(
            self.alloc,
            &mut self.block,
            &mut self.line,
            &mut self.taken,
            source,
            command,
        ) {
            Ok(Found::Ended(line)) => {
                self.over = false;
                self.given = command;
                Ok(Some(line))
            }
            Ok(Found::Last(line)) => {
                self.given = command;
                Ok(Some(line))
            }
            Ok(Found::Nothing) => Ok(None),
            Err(end) => Err(end),
        }
    }
}
