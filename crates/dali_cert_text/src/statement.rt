ghost use Rattle.std.specs.Prelude.{◌≡◌, ◌<◌, ◌≤◌, [], length, is_none, true, false, Ok, Err, Some, None, IfOk, OnOk, IsTrue};
ghost use Rattle.dali_base.specs.Limits.{most_balance, most_worth};
ghost use Rattle.dali_base.specs.Spelling.{is_name};
ghost use Rattle.dali_base.specs.NameList.{place_of};
ghost use Rattle.dali_problem.specs.Limits.{AreEffects, IsProblem};
ghost use Rattle.dali_problem.specs.Clearing.{Item};
ghost use Rattle.dali_cert_print.specs.Block.{is_small_item};
ghost use Rattle.dali_cert_text.specs.Stating.{is_before as stands_before, may_line, may_item, no_lines, with_line, with_item, state_row, ids_of};
ghost use Rattle.dali_cert_text.specs.Rowed.{IsRow};

use crate::refused::Refused;
use dali_base::limits::{MOST_ITEMS, MOST_LINES, MOST_WORTHS};
use dali_base::{Name, Names, OutOfMemory, Places, Seq};
use dali_cert_print::{Row, is_small};
use dali_problem::{Effect, LineRow, Problem};
use std::alloc::Global;
use std::cmp::Ordering;
use std::marker::Model;

/// The problem of a block so far. Contracts see the problem.
#[derive(Drop)]
pub(crate) struct Statement {
    problem: Problem,
    ids: Names,
    total: u64,
}

impl Model for Statement {
    ghost use Rattle.dali_problem.specs.Clearing.{Clearing};

    ghost Value = { Clearing };

    ghost use Rattle.dali_cert_text.specs.StatementLayout.{stated, IsCounted};

    ghost view = { stated };

    ghost invariant = { IsCounted };
}

impl Statement {
    pub(crate) fn new(alloc: Global) -> Statement
        ensures { result ≡ no_lines }
    {
        Statement {
            problem: Problem::new(alloc),
            ids: Names::new(alloc),
            total: 0,
        }
    }

    pub(crate) fn into_problem(self) -> Problem
        ensures { result ≡ self }
    {
        self.problem
    }

    pub(crate) fn items(&self) -> u32
        ensures count { result ≡ length self.now.items }
        ensures bounds { IsProblem self.now }
    {
        self.problem.items()
    }

    pub(crate) fn lines(&self) -> u32
        ensures count { result ≡ length self.now.lines }
        ensures bounds { IsProblem self.now }
    {
        self.problem.lines()
    }

    /// Takes a row of an edition of a block, and answers the set where the row is the set's.
    #[tactic(auto, unfolding(crate::specs::Stating::state_row))]
    pub(crate) fn take(&mut self, wide: bool, row: Row) -> Result<Option<Places>, Refused>
        requires { IsRow (length self.old.items) (length self.old.lines) row }
        ensures ok { IfOk result (λ set. state_row wide self.old row ≡ Some (self.new, set)) }
        ensures form { result ≡ Err Refused.Form → state_row wide self.old row ≡ None }
    {
        match row {
            Row::Line { line } => {
                self.add_line(line)?;
                Ok(None)
            }
            Row::Item { id, value, effects } => {
                self.add_item(wide, id, value, effects.as_slice())?;
                Ok(None)
            }
            Row::Set { places } => Ok(Some(places)),
            _ => Err(Refused::Form),
        }
    }

    fn add_line(&mut self, line: LineRow) -> Result<(), Refused>
        requires { line.balance ≤ most_balance }
        ensures ok { OnOk result ((may_line self.old line ≡ true) × (self.new ≡ with_line self.old line)) }
        ensures form { result ≡ Err Refused.Form → may_line self.old line ≡ false }
    {
        if !may_line(&self.problem, &line) {
            return Err(Refused::Form);
        }
        self.problem.add_line(line)?;
        Ok(())
    }

    fn add_item(
        &mut self,
        wide: bool,
        id: Name,
        value: u64,
        effects: &[Effect],
    ) -> Result<(), Refused>
        requires low { 1 ≤ value }
        requires high { value ≤ most_worth }
        requires effects { AreEffects (length self.old.lines) effects.now }
        ensures ok { OnOk result ((may_item wide self.old id value effects.now ≡ true) × (self.new ≡ with_item self.old id value effects.now)) }
        ensures form { result ≡ Err Refused.Form → may_item wide self.old id value effects.now ≡ false }
    {
        if !self.may_item(wide, id, value, effects) {
            return Err(Refused::Form);
        }
        self.ids.ready(id)?;
        self.problem.add_item(id, value, effects)?;
        let _ = self.ids.add(id);
        self.total += value;
        Ok(())
    }

    #[tactic(auto, unfolding(crate::specs::Stating::may_item))]
    fn may_item(&self, wide: bool, id: Name, value: u64, effects: &[Effect]) -> bool
        requires { value ≤ most_worth }
        ensures { result ≡ may_item wide self.now id value effects.now }
    {
        self.problem.items() < MOST_ITEMS
            && self.is_new(id)
            && self.total + value <= MOST_WORTHS
            && (wide || is_small(value, effects))
    }

    /// Whether no item has this id.
    fn is_new(&self, id: Name) -> bool
        ensures { result ≡ is_none (place_of (ids_of self.now) id) }
    {
        self.ids.place(id).is_none()
    }
}

/// Whether the line may come behind those of the problem.
#[tactic(auto, unfolding(crate::specs::Stating::may_line))]
fn may_line(problem: &Problem, line: &LineRow) -> bool
    ensures { result ≡ may_line problem.now line.now }
{
    let lines = problem.lines();
    problem.items() == 0
        && lines < MOST_LINES
        && (lines == 0 || is_before(problem.line(lines - 1), line))
}

/// Whether a line stands before another in byte order of account, then of asset.
#[tactic(auto, unfolding(crate::specs::Stating::is_before))]
fn is_before(a: &LineRow, b: &LineRow) -> bool
    ensures { result ≡ stands_before a.now b.now }
{
    match a.account.cmp(&b.account) {
        Ordering::Less => true,
        Ordering::Equal => a.asset.cmp(&b.asset).is_lt(),
        Ordering::Greater => false,
    }
}
