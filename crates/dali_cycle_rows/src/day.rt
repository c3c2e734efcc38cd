ghost use Rattle.std.specs.Prelude.{IfOk};
ghost use Rattle.dali_machine.specs.History.{HasItsChoice};
ghost use Rattle.dali_machine.specs.Step.{judged};

use dali_base::{OutOfMemory, Text};
use dali_line::{Line, Lines};
use dali_machine::State;
use dali_outside::{Faults, MemSource};
use dali_parts::solve_parts;
use dali_reply::reply;
use dali_tree::Choice;
use dali_verdict::{judge, verdict_line};
use std::alloc::Global;
use std::process::Abort;
use std::test::Fail;

/// A day and the replies so far, in which the certificate of each cycle and the end behind it are replaced by what is said of
/// the certificate.
#[derive(Drop)]
pub(crate) struct Day {
    pub(crate) state: State,
    pub(crate) replies: Text,
    /// The bytes of the longest reply.
    pub(crate) longest: usize,
    alloc: Global,
}

impl Day {
    pub(crate) fn new(alloc: Global) -> Day {
        Day {
            state: State::new(alloc),
            replies: Text::new(alloc),
            longest: 0,
            alloc,
        }
    }

    /// Takes the commands of a text in this edition.
    pub(crate) fn take(&mut self, rt: &impl Abort, edition: u8, text: Text) -> Result<(), Fail> {
        let mut source = MemSource::new(text, 4096, Faults::new(self.alloc));
        let mut lines = Lines::new(self.alloc)?;
        for _ in 0..u64::MAX {
            let Some(line) = lines.next(&mut source)? else {
                break;
            };
            self.answer(rt, edition, &line)?;
        }
        Ok(())
    }

    /// Takes a command, and adds its reply.
    fn answer(&mut self, rt: &impl Abort, edition: u8, line: &Line) -> Result<(), OutOfMemory> {
        let text = self.take_line(rt, edition, line)?;
        self.longest = self.longest.max(text.len());
        self.add_reply(rt, text.bytes())
    }

    /// Takes a command, and answers its reply.
    fn take_line(
        &mut self,
        rt: &impl Abort,
        edition: u8,
        line: &Line,
    ) -> Result<Text, OutOfMemory> {
        assert!(rt; self.state.commands() < 1_000_000);
        let choice = choose(self.alloc, &self.state, edition, line)?;
        let ready = self.state.prepare(edition, line, choice)?;
        let text = reply(self.alloc, ready.number(), ready.outcome())?;
        let _outcome = self.state.commit(ready);
        Ok(text)
    }

    /// Adds a reply; a certificate in it is judged, and an end stands behind it.
    fn add_reply(&mut self, rt: &impl Abort, text: &[u8]) -> Result<(), OutOfMemory> {
        let Some(at) = place_of(text, b"BLOCK,") else {
            return self.replies.add(text);
        };
        let (front, rest) = text.split_at(at.min(text.len()));
        let last = place_of(rest, b"\nLAST\n").expect(rt, "a whole block");
        let (block, end) = rest.split_at(last.saturating_add(6).min(rest.len()));
        assert!(rt; end.ends_with(b",END\n"));
        self.replies.add(front)?;
        self.replies.add(said(self.alloc, block)?.bytes())
    }
}

/// What is said of a certificate.
fn said(alloc: Global, block: &[u8]) -> Result<Text, OutOfMemory> {
    let verdict = judge(alloc, block)?;
    verdict_line(alloc, &verdict)
}

/// Where a piece stands first.
pub(crate) fn place_of(bytes: &[u8], piece: &[u8]) -> Option<usize> {
    for at in 0..bytes.len() {
        if bytes.get(at..)?.starts_with(piece) {
            return Some(at);
        }
    }
    None
}

/// The choice of an accepted CYCLE. `None` exactly where the line is none.
pub(crate) fn choose(
    alloc: Global,
    state: &State,
    edition: u8,
    line: &Line,
) -> Result<Option<Choice>, OutOfMemory>
    ensures { IfOk result (HasItsChoice state.now.machine (judged edition state.now.machine line.now)) }
{
    match state.cycle_input(alloc, edition, line)? {
        Some(cycle) => Ok(Some(solve_parts(alloc, &cycle.0.problem, cycle.1)?)),
        None => Ok(None),
    }
}
