use dali_base::{OutOfMemory, Text};
use dali_line::{Line, Lines};
use dali_machine::{Code, Outcome, State};
use dali_outside::{Faults, MemSource};
use std::alloc::Global;
use std::process::Abort;
use std::test::Fail;

mod days;

/// A day, and a word for what was answered to each of its commands so far, with spaces between them.
#[derive(Drop)]
struct Day {
    state: State,
    answers: Text,
    alloc: Global,
}

impl Day {
    fn new(alloc: Global) -> Day {
        Day {
            state: State::new(alloc),
            answers: Text::new(alloc),
            alloc,
        }
    }

    /// Takes the commands of a text in this edition.
    fn take(&mut self, rt: &impl Abort, edition: u8, text: &[u8]) -> Result<(), Fail> {
        let mut bytes = Text::new(self.alloc);
        bytes.add(text)?;
        self.take_text(rt, edition, bytes)
    }

    fn take_text(&mut self, rt: &impl Abort, edition: u8, text: Text) -> Result<(), Fail> {
        let mut source = MemSource::new(text, 4096, Faults::new(self.alloc));
        let mut lines = Lines::new(self.alloc)?;
        for _ in 0..u64::MAX {
            let Some(line) = lines.next(&mut source)? else {
                break;
            };
            self.take_line(rt, edition, &line)?;
        }
        Ok(())
    }

    fn take_line(&mut self, rt: &impl Abort, edition: u8, line: &Line) -> Result<(), Fail> {
        assert!(rt; self.state.commands() < 1_000_000);
        assert!(rt; self.state.cycle_input(self.alloc, edition, line)?.is_none());
        let ready = self.state.prepare(edition, line, None)?;
        let outcome = self.state.commit(ready);
        if !self.answers.is_empty() {
            self.answers.add(b" ")?;
        }
        add_answer(&mut self.answers, &outcome)?;
        Ok(())
    }
}

/// What is answered to the commands of a text, taken in this edition from the opening state.
fn answers(rt: &impl Abort, alloc: Global, edition: u8, text: &[u8]) -> Result<Text, Fail> {
    let mut day = Day::new(alloc);
    day.take(rt, edition, text)?;
    Ok(day.answers)
}

/// Adds `OK`, the code of a refusal, or the number of rows, where STAT has two kinds of them.
fn add_answer(answers: &mut Text, outcome: &Outcome) -> Result<(), OutOfMemory> {
    match outcome {
        Outcome::Done => answers.add(b"OK"),
        Outcome::No { code } => answers.add(word_of(*code)),
        Outcome::Queue { rows } => answers.add_number(rows.len() as u64),
        Outcome::Stat { pairs, ids } => {
            answers.add_number(pairs.len() as u64)?;
            answers.add(b"+")?;
            answers.add_number(ids.len() as u64)
        }
        Outcome::Ledger { rows } => answers.add_number(rows.len() as u64),
        Outcome::Cycle { .. } => answers.add(b"CYCLE"),
    }
}

fn word_of(code: Code) -> &'static [u8] {
    match code {
        Code::Form => b"FORM",
        Code::Back => b"BACK",
        Code::Closed => b"CLOSED",
        Code::There => b"THERE",
        Code::Full => b"FULL",
        Code::Name => b"NAME",
        Code::Total => b"TOTAL",
        Code::Short => b"SHORT",
        Code::Cash => b"CASH",
        Code::SelfDeal => b"SELF",
        Code::Late => b"LATE",
        Code::Value => b"VALUE",
        Code::Gone => b"GONE",
        Code::Linked => b"LINKED",
    }
}
