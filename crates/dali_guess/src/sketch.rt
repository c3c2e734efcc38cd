use crate::board::{Board, Row, Touch};
use crate::score::cost;
use dali_base::OutOfMemory;
use dali_base::limits::MOST_MULTIPLIER;
use dali_lagrange::limits;
use dali_problem::{Effect, Mark};
use dali_tree::Lam;
use std::alloc::Global;

/// The greatest multiplier.
pub(crate) const MOST: i64 = MOST_MULTIPLIER as i64;

/// What a centavo counts for in a Sum.
pub(crate) const SCALE: i64 = limits::SCALE as i64;

/// What a line has, and what undecided items may add to it and take from it.
#[derive(Clone, Copy)]
struct Stock {
    has: i64,
    credits: i64,
    debits: i64,
}

impl Stock {
    const EMPTY: Stock = Stock {
        has: 0,
        credits: 0,
        debits: 0,
    };

    /// What the line may have at most, and at least.
    fn most(&self) -> i64 {
        self.has.saturating_add(self.credits)
    }

    fn least(&self) -> i64 {
        self.has.saturating_add(self.debits)
    }

    /// An undecided item with this effect comes.
    fn open(&mut self, amount: i64) {
        if amount > 0 {
            self.credits = self.credits.saturating_add(amount);
        } else {
            self.debits = self.debits.saturating_add(amount);
        }
    }

    /// An undecided item with this effect is decided.
    fn close(&mut self, amount: i64, chosen: bool) {
        self.open(0i64.saturating_sub(amount));
        if chosen {
            self.has = self.has.saturating_add(amount);
        }
    }
}

/// Decisions on a board's items, and multipliers of its lines, with the reduced value of each item and the Sum kept beside
/// them.
#[derive(Drop)]
pub(crate) struct Sketch {
    marks: Vec<Mark>,
    stocks: Vec<Stock>,
    pub(crate) multipliers: Vec<i64>,
    pub(crate) reduced: Vec<i128>,
    pub(crate) total: i128,
    /// The items in the order in which they were decided.
    decided: Vec<usize>,
}

impl Sketch {
    /// All items undecided, with these multipliers. Answers only want of memory but Ok.
    pub(crate) fn new(alloc: Global, board: &Board, lam: &Lam) -> Result<Sketch, OutOfMemory> {
        let lines = board.rows.len();
        let items = board.items.len();
        let mut sketch = Sketch {
            marks: vec![in alloc; Mark::Undecided; items]?,
            stocks: vec![in alloc; Stock::EMPTY; lines]?,
            multipliers: vec![in alloc; 0; lines]?,
            reduced: vec![in alloc; 0; items]?,
            total: cost(&SCALE, &0i64.saturating_add_unsigned(board.chosen)),
            decided: Vec::with_capacity(alloc, items)?,
        };
        for (line, row) in board.rows.as_slice().iter().enumerate() {
            sketch.stock(line, row);
        }
        for (at, item) in board.items.as_slice().iter().enumerate() {
            sketch.value(at, cost(&SCALE, &0i64.saturating_add_unsigned(item.value)));
        }
        for (line, multiplier) in lam.as_slice() {
            let to = 0i64.saturating_add_unsigned(*multiplier);
            sketch.set(board, *line as usize, to);
        }
        Ok(sketch)
    }

    fn stock(&mut self, line: usize, row: &Row) {
        if let Some(stock) = self.stocks.get_mut(line) {
            stock.has = row.has;
            for touch in row.touches.as_slice() {
                stock.open(touch.amount);
            }
        }
    }

    fn value(&mut self, at: usize, value: i128) {
        self.total = self.total.saturating_add(value);
        if let Some(reduced) = self.reduced.get_mut(at) {
            *reduced = value;
        }
    }

    /// Becomes a copy of another sketch of the same board.
    pub(crate) fn copy_from(&mut self, other: &Sketch) {
        copy_over(self.marks.as_mut_slice(), other.marks.as_slice());
        copy_over(self.stocks.as_mut_slice(), other.stocks.as_slice());
        copy_over(
            self.multipliers.as_mut_slice(),
            other.multipliers.as_slice(),
        );
        copy_over(self.reduced.as_mut_slice(), other.reduced.as_slice());
        self.total = other.total;
        self.decided.clear();
    }

    pub(crate) fn multiplier(&self, line: usize) -> i64 {
        match self.multipliers.as_slice().get(line) {
            Some(multiplier) => *multiplier,
            None => 0,
        }
    }

    pub(crate) fn reduced(&self, item: usize) -> i128 {
        match self.reduced.as_slice().get(item) {
            Some(reduced) => *reduced,
            None => 0,
        }
    }

    /// What a line has after the chosen items.
    pub(crate) fn has(&self, line: usize) -> i64 {
        self.stock_at(line).has
    }

    fn stock_at(&self, line: usize) -> Stock {
        match self.stocks.as_slice().get(line) {
            Some(stock) => *stock,
            None => Stock::EMPTY,
        }
    }

    /// Whether an item is undecided.
    pub(crate) fn is_open(&self, item: usize) -> bool {
        matches!(self.marks.as_slice().get(item), Some(Mark::Undecided))
    }

    /// Gives a line this multiplier, or the nearest one that is in range.
    pub(crate) fn set(&mut self, board: &Board, line: usize, to: i64) {
        let Some(row) = board.rows.as_slice().get(line) else {
            return;
        };
        let to = to.clamp(0, MOST);
        let by = to.saturating_sub(self.multiplier(line));
        let more = cost(&by, &self.has(line));
        self.total = self.total.saturating_add(more);
        for touch in row.touches.as_slice() {
            self.shift(touch.item, cost(&by, &touch.amount));
        }
        if let Some(multiplier) = self.multipliers.get_mut(line) {
            *multiplier = to;
        }
    }

    /// Adds so much to the reduced value of an item.
    fn shift(&mut self, item: usize, by: i128) {
        let is_open = self.is_open(item);
        let Some(reduced) = self.reduced.get_mut(item) else {
            return;
        };
        let old = *reduced;
        let new = old.saturating_add(by);
        *reduced = new;
        if is_open {
            let more = new.max(0).saturating_sub(old.max(0));
            self.total = self.total.saturating_add(more);
        }
    }

    /// Decides an undecided item.
    fn decide(&mut self, board: &Board, item: usize, chosen: bool) -> Result<(), OutOfMemory> {
        let Some(row) = board.items.as_slice().get(item) else {
            return Ok(());
        };
        if let Some(mark) = self.marks.get_mut(item) {
            *mark = if chosen { Mark::Chosen } else { Mark::Left };
        }
        let reduced = self.reduced(item);
        let kept = if chosen { reduced } else { 0 };
        let more = kept.saturating_sub(reduced.max(0));
        self.total = self.total.saturating_add(more);
        for effect in row.effects.as_slice() {
            if let Some(stock) = self.stocks.get_mut(effect.line as usize) {
                stock.close(effect.amount, chosen);
            }
        }
        self.decided.push(item)?;
        Ok(())
    }

    /// Decides an undecided item, and each item that is then decided by a fix rule. Whether no line is short that was met.
    pub(crate) fn enter(
        &mut self,
        board: &Board,
        item: usize,
        chosen: bool,
    ) -> Result<bool, OutOfMemory> {
        self.decide(board, item, chosen)?;
        for next in 0..board.items.len() {
            let Some(item) = self.decided.as_slice().get(next) else {
                return Ok(true);
            };
            let Some(row) = board.items.as_slice().get(*item) else {
                return Ok(true);
            };
            if !self.settle_lines(board, row.effects.as_slice())? {
                return Ok(false);
            }
        }
        Ok(true)
    }

    /// Decides what these lines decide. Whether none of them is short.
    fn settle_lines(&mut self, board: &Board, effects: &[Effect]) -> Result<bool, OutOfMemory> {
        for effect in effects {
            let line = effect.line as usize;
            if self.stock_at(line).most() < 0 {
                return Ok(false);
            }
            if let Some(row) = board.rows.as_slice().get(line) {
                for touch in row.touches.as_slice() {
                    self.consider(board, line, touch)?;
                }
            }
        }
        Ok(true)
    }

    /// Decides an item where this line decides it.
    fn consider(&mut self, board: &Board, line: usize, touch: &Touch) -> Result<(), OutOfMemory> {
        if !self.is_open(touch.item) {
            return Ok(());
        }
        let most = self.stock_at(line).most();
        if touch.amount < 0 && most.saturating_add(touch.amount) < 0 {
            return self.decide(board, touch.item, false);
        }
        let is_needed = touch.amount > 0 && most.saturating_sub(touch.amount) < 0;
        if is_needed || self.is_safe(board, touch.item) {
            return self.decide(board, touch.item, true);
        }
        Ok(())
    }

    /// Whether each line that an item debits covers all that undecided items may take from it.
    fn is_safe(&self, board: &Board, item: usize) -> bool {
        let Some(row) = board.items.as_slice().get(item) else {
            return false;
        };
        for effect in row.effects.as_slice() {
            if effect.amount < 0 && self.stock_at(effect.line as usize).least() < 0 {
                return false;
            }
        }
        true
    }

    /// The first of the undecided items whose reduced value is least in size.
    pub(crate) fn nearest(&self) -> Option<usize> {
        let mut least = u128::MAX;
        let mut found = None;
        for (at, reduced) in self.reduced.as_slice().iter().enumerate() {
            let size = reduced.unsigned_abs();
            if size < least && self.is_open(at) {
                least = size;
                found = Some(at);
            }
        }
        found
    }
}

/// Copies items over, as far as both lists go.
pub(crate) fn copy_over<T: Copy>(to: &mut [T], from: &[T]) {
    for (at, item) in from.iter().enumerate() {
        if let Some(copied) = to.get_mut(at) {
            *copied = *item;
        }
    }
}
