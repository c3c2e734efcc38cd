ghost use Rattle.std.specs.Prelude.{◌≡◌, ◌+◌, ◌<◌, ◌≤◌, ◌^◌, ◌++◌, ◌∷◌, [], List, IfOk, OnOk, OnErr};
ghost use Rattle.std.specs.List.{flat_map};
ghost use Rattle.dali_summary.specs.Figures.{figures_row};
ghost use Rattle.dali_summary.specs.Tally.{Answer, tally_of, figures_of};
ghost use Rattle.dali_summary.specs.Summary.{summary_text};

use crate::figures::CycleFigures;
use crate::rows::{add_count, add_cycle};
use dali_base::{OutOfMemory, Seq, Text};
use dali_machine::{CycleReport, Outcome};
use std::alloc::Global;
use std::marker::Model;

/// What is kept of the answers to the commands of a day: how many there are, how many of them refuse, and the cycles.
/// Contracts see it as a `Tally` (`specs/Tally.antt`).
#[derive(Drop)]
pub struct Summary {
    commands: u64,
    refused: u64,
    cycles: Seq<CycleFigures>,
}

impl Model for Summary {
    ghost use Rattle.std.specs.Prelude.{◌≤◌};
    ghost use Rattle.dali_summary.specs.Tally.{Tally};

    ghost Value = { Tally };

    ghost view = { λ s. record { commands = s.commands; refused = s.refused; cycles = s.cycles } };

    ghost invariant = { λ s. s.refused ≤ s.commands };
}

impl Summary {
    /// A summary of no answers. Takes no memory.
    pub fn new(alloc: Global) -> Summary
        ensures tally { result ≡ tally_of [] }
        ensures counted { result.commands ≡ 0 }
    {
        Summary {
            commands: 0,
            refused: 0,
            cycles: Seq::new(alloc),
        }
    }

    /// Adds what was answered to the command of this number, behind the answers that were added before. At want of
    /// memory the summary stays as it was.
    pub fn add(&mut self, number: u64, outcome: &Outcome) -> Result<(), OutOfMemory>
        requires { self.old.commands < 2 ^ 63 }
        ensures added { (answers : List Answer) → self.old ≡ tally_of answers →
            OnOk result (self.new ≡ tally_of (answers ++ record { number = number; outcome = outcome.now } ∷ [])) }
        ensures counted { OnOk result (self.new.commands ≡ self.old.commands + 1) }
        ensures err { OnErr result (self.new ≡ self.old) }
    {
        match outcome {
            Outcome::Cycle { report } => self.add_cycle(number, report),
            Outcome::No { .. } => {
                self.add_refusal();
                Ok(())
            }
            Outcome::Done => {
                self.add_other();
                Ok(())
            }
            Outcome::Queue { .. } => {
                self.add_other();
                Ok(())
            }
            Outcome::Stat { .. } => {
                self.add_other();
                Ok(())
            }
            Outcome::Ledger { .. } => {
                self.add_other();
                Ok(())
            }
        }
    }

    /// Adds what was answered to a cycle.
    fn add_cycle(&mut self, number: u64, report: &CycleReport) -> Result<(), OutOfMemory>
        requires { self.old.commands < 2 ^ 63 }
        ensures ok { OnOk result (self.new ≡ record { commands = self.old.commands + 1; refused = self.old.refused; cycles = self.old.cycles ++ figures_of number report.now ∷ [] }) }
        ensures err { OnErr result (self.new ≡ self.old) }
    {
        self.cycles.push(CycleFigures::of(number, report))?;
        self.commands += 1;
        Ok(())
    }

    /// Adds a refusal.
    fn add_refusal(&mut self)
        requires { self.old.commands < 2 ^ 63 }
        ensures { self.new ≡ record { commands = self.old.commands + 1; refused = self.old.refused + 1; cycles = self.old.cycles } }
    {
        self.commands += 1;
        self.refused += 1;
    }

    /// Adds what was answered to an accepted command that is no cycle.
    fn add_other(&mut self)
        requires { self.old.commands < 2 ^ 63 }
        ensures { self.new ≡ record { commands = self.old.commands + 1; refused = self.old.refused; cycles = self.old.cycles } }
    {
        self.commands += 1;
    }

    /// The summary of the trial of the number `n`, with how many instructions wait and how many postings there are at
    /// the end. Its rows are defined in `specs/Summary.antt`, each ended by LF.
    pub fn text(
        &self,
        alloc: Global,
        n: u64,
        waiting: u32,
        postings: u64,
    ) -> Result<Text, OutOfMemory>
        ensures { (answers : List Answer) → self.now ≡ tally_of answers → IfOk result (λ text. text ≡ summary_text n answers waiting postings) }
    {
        let mut text = Text::new(alloc);
        add_count(&mut text, b"TRIAL", n)?;
        add_count(&mut text, b"COMMANDS", self.commands)?;
        add_count(&mut text, b"REFUSED", self.refused)?;
        self.add_cycles(&mut text)?;
        add_count(&mut text, b"WAITING", u64::from(waiting))?;
        add_count(&mut text, b"POSTINGS", postings)?;
        Ok(text)
    }

    /// Adds a row for each cycle.
    fn add_cycles(&self, text: &mut Text) -> Result<(), OutOfMemory>
        ensures { OnOk result (text.new ≡ text.old ++ flat_map figures_row self.now.cycles) }
    {
        for cycle in self.cycles.as_slice() {
            add_cycle(text, cycle)?;
        }
        Ok(())
    }
}
