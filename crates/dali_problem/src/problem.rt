ghost use Rattle.std.specs.Prelude.{◌≡◌, ◌≢◌, ℕ, ◌+◌, ◌<◌, ◌≤◌, List, [], ◌∷◌, ◌++◌, length, IfOk, OnOk, OnErr, sum_by};
ghost use Rattle.std.specs.List.{All};
ghost use Rattle.dali_base.specs.Limits.{most_balance, most_lines, most_items, most_worth, most_worths};
ghost use Rattle.dali_problem.specs.Clearing.{line_at, item_at};
ghost use Rattle.dali_problem.specs.Limits.{IsBefore, AreEffects, IsProblem};

use crate::row::{Effect, LineRow};
use dali_base::{Name, OutOfMemory};
use std::alloc::Global;
use std::marker::Model;

/// An item, whose effects are a range of the column of all effects.
#[derive(Clone, Copy, Debug)]
struct ItemRow {
    id: Name,
    value: u64,
    start: usize,
    end: usize,
}

/// A clearing problem: up to 4,096 lines in rising byte order of account, then of asset, and up to 1,024 items.
///
/// What a problem is stands in `specs/Limits.antt`, and the limits in the page of that name of `dali_base`.
#[derive(Debug, Drop)]
pub struct Problem {
    lines: Vec<LineRow>,
    rows: Vec<ItemRow>,
    column: Vec<Effect>,
}

impl Model for Problem {
    ghost use Rattle.dali_problem.specs.Clearing.{Clearing};

    ghost Value = { Clearing };

    ghost use Rattle.dali_problem.specs.Layout.{view_of, IsLaidOut};

    ghost view = { view_of };

    ghost invariant = { IsLaidOut };
}

impl Problem {
    /// A problem without lines and items. Takes no memory.
    pub fn new(alloc: Global) -> Problem
        ensures { result ≡ record { lines = []; items = [] } }
    {
        Problem {
            lines: Vec::new(alloc),
            rows: Vec::new(alloc),
            column: Vec::new(alloc),
        }
    }

    /// Adds a line after the last one, and answers its number. The balance is at most 10^18. At want of memory the problem
    /// stays as it was.
    pub fn add_line(&mut self, row: LineRow) -> Result<u32, OutOfMemory>
        requires no_items { self.old.items ≡ [] }
        requires few { length self.old.lines < most_lines }
        requires after { (k : ℕ) → k + 1 ≡ length self.old.lines → IsBefore (line_at self.old k) row }
        requires balance { row.balance ≤ most_balance }
        ensures number { IfOk result (λ at. at ≡ length self.old.lines) }
        ensures added { OnOk result (self.new ≡ record self.old { lines = self.old.lines ++ row ∷ [] }) }
        ensures err { OnErr result (self.new ≡ self.old) }
    {
        let at = self.lines.len() as u32;
        self.lines.push(row)?;
        Ok(at)
    }

    /// Adds an item after the last one, and answers its place. The id is new, the value is 1 to 128 * 10^15, and all values
    /// together are at most 16,384 * 10^15. The effects stand on rising lines: 0 to 32, none of them 0, each at most
    /// 8 * 10^15 in size. At want of memory the problem stays as it was.
    pub fn add_item(&mut self, id: Name, value: u64, effects: &[Effect]) -> Result<u32, OutOfMemory>
        requires few { length self.old.items < most_items }
        requires new_id { All (λ item. item.id ≢ id) self.old.items }
        requires value_low { 1 ≤ value }
        requires value_high { value ≤ most_worth }
        requires total { sum_by (λ item. item.value) self.old.items + value ≤ most_worths }
        requires effects { AreEffects (length self.old.lines) effects.now }

        // what is answered, and the problem then
        ensures place { IfOk result (λ at. at ≡ length self.old.items) }
        ensures added { OnOk result (self.new
            ≡ record self.old {
              items = self.old.items ++ record { id = id; value = value; effects = effects.now } ∷ [];
            }) }
        ensures err { OnErr result (self.new ≡ self.old) }
    {
        let at = self.rows.len() as u32;
        self.rows.reserve(1)?;
        let start = self.column.len();
        self.column.extend_from_slice(effects)?;
        let end = self.column.len();
        self.rows.push_reserved(ItemRow {
            id,
            value,
            start,
            end,
        });
        Ok(at)
    }

    /// The number of lines.
    pub fn lines(&self) -> u32
        ensures count { result ≡ length self.now.lines }
        ensures bounds { IsProblem self.now }
    {
        self.lines.len() as u32
    }

    /// The number of items.
    pub fn items(&self) -> u32
        ensures count { result ≡ length self.now.items }
        ensures bounds { IsProblem self.now }
    {
        self.rows.len() as u32
    }

    /// The line at this number, counted from 0.
    pub fn line(&self, at: u32) -> &LineRow
        requires { at < length self.now.lines }
        ensures row { result.now ≡ line_at self.now at }
        ensures bounds { IsProblem self.now }
    {
        &self.lines[at as usize]
    }

    /// The id of the item at this place, counted from 0.
    pub fn id(&self, at: u32) -> Name
        requires { at < length self.now.items }
        ensures id { result ≡ (item_at self.now at).id }
        ensures bounds { IsProblem self.now }
    {
        self.rows[at as usize].id
    }

    /// The value of the item at this place, in centavos times rank: 1 to 128 * 10^15.
    pub fn value(&self, at: u32) -> u64
        requires { at < length self.now.items }
        ensures value { result ≡ (item_at self.now at).value }
        ensures bounds { IsProblem self.now }
    {
        self.rows[at as usize].value
    }

    /// The effects of the item at this place, on rising lines: 0 to 32, none of them 0, each at most 8 * 10^15 in size.
    pub fn effects(&self, at: u32) -> &[Effect]
        requires { at < length self.now.items }
        ensures effects { result.now ≡ (item_at self.now at).effects }
        ensures bounds { IsProblem self.now }
    {
        let row = &self.rows[at as usize];
        &self.column[row.start..row.end]
    }
}
