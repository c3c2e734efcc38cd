ghost use Rattle.std.specs.Prelude.{◌<◌, length};
ghost use Rattle.dali_problem.specs.Kept.{IsOf};

use dali_base::{OutOfMemory, Places, Seq};
use dali_problem::{Effect, Mark, Partial, Problem};
use std::alloc::Global;

/// What a centavo of value counts for at first, beside the price of what lines lack.
pub(crate) const WORTH: i64 = 4096;

/// The greatest price of a line, which keeps scores within 128 bits.
pub(crate) const MOST_PRICE: i64 = 1 << 50;

/// That an item changes a line.
#[derive(Clone, Copy)]
pub(crate) struct Touch {
    /// The item's number on the board.
    pub(crate) item: usize,
    /// What it changes the line by.
    pub(crate) amount: i64,
}

/// An undecided place.
#[derive(Drop)]
pub(crate) struct Item {
    pub(crate) place: u32,
    pub(crate) value: u64,
    pub(crate) effects: Seq<Effect>,
}

impl Item {
    /// Whether the item changes a line.
    pub(crate) fn has_line(&self, line: u32) -> bool {
        for effect in self.effects.as_slice() {
            if effect.line == line {
                return true;
            }
        }
        false
    }
}

/// A line.
#[derive(Drop)]
pub(crate) struct Row {
    /// What it has after the chosen places.
    pub(crate) has: i64,
    /// The greatest size of a touch.
    pub(crate) most: i64,
    /// The values of the items that touch it, and the sizes of their effects on it.
    value: u64,
    size: u64,
    pub(crate) touches: Seq<Touch>,
}

impl Row {
    /// What a unit that the line lacks costs at first: the value that a unit of it moves.
    pub(crate) fn price(&self) -> i64 {
        let moved = u128::from(self.value) * WORTH as u128;
        let price = moved / u128::from(self.size.saturating_add(1));
        price.clamp(1, MOST_PRICE as u128) as i64
    }

    fn touch(&mut self, item: usize, value: u64, amount: i64) -> Result<(), OutOfMemory> {
        self.most = self.most.max(amount.saturating_abs());
        self.value = self.value.saturating_add(value);
        self.size = self.size.saturating_add(amount.unsigned_abs());
        self.touches.push(Touch { item, amount })
    }
}

/// The undecided places of a partial choice, numbered from 0, and the lines after its chosen places.
#[derive(Drop)]
pub(crate) struct Board {
    /// What the chosen places are worth, in centavos.
    pub(crate) chosen: u64,
    pub(crate) items: Vec<Item>,
    pub(crate) rows: Vec<Row>,
}

impl Board {
    /// The board of a partial choice. Answers only want of memory but Ok.
    pub(crate) fn new(
        alloc: Global,
        problem: &Problem,
        partial: &Partial,
    ) -> Result<Board, OutOfMemory>
        requires { IsOf problem.now partial.now }
    {
        let mut board = Board {
            chosen: 0,
            items: Vec::new(alloc),
            rows: rows_of(alloc, problem)?,
        };
        for place in 0..problem.items() {
            match partial.mark(place) {
                Mark::Undecided => board.add(alloc, problem, place)?,
                Mark::Chosen => board.book(problem.value(place), problem.effects(place)),
                Mark::Left | Mark::Stranger => {}
            }
        }
        Ok(board)
    }

    /// Adds a place as the last item.
    fn add(&mut self, alloc: Global, problem: &Problem, place: u32) -> Result<(), OutOfMemory>
        requires { place < length problem.now.items }
    {
        let item = self.items.len();
        let value = problem.value(place);
        let mut effects = Seq::new(alloc);
        for effect in problem.effects(place) {
            if let Some(row) = self.rows.get_mut(effect.line as usize) {
                row.touch(item, value, effect.amount)?;
            }
            effects.push(*effect)?;
        }
        self.items.push(Item {
            place,
            value,
            effects,
        })?;
        Ok(())
    }

    /// Books a chosen place of this value with these effects.
    fn book(&mut self, value: u64, effects: &[Effect]) {
        self.chosen = self.chosen.saturating_add(value);
        for effect in effects {
            if let Some(row) = self.rows.get_mut(effect.line as usize) {
                row.has = row.has.saturating_add(effect.amount);
            }
        }
    }

    /// Which of the items are among these places.
    pub(crate) fn flags(
        &self,
        alloc: Global,
        problem: &Problem,
        places: &Places,
    ) -> Result<Vec<bool>, OutOfMemory> {
        let mut listed = vec![in alloc; false; problem.items() as usize]?;
        for place in places.as_slice() {
            if let Some(flag) = listed.get_mut(*place as usize) {
                *flag = true;
            }
        }
        let mut flags = Vec::new(alloc);
        for item in self.items.as_slice() {
            let flag = listed.as_slice().get(item.place as usize);
            flags.push(matches!(flag, Some(true)))?;
        }
        Ok(flags)
    }

    /// The same for the places of the problem: which of them are chosen, or flagged items.
    pub(crate) fn spread(
        &self,
        alloc: Global,
        problem: &Problem,
        partial: &Partial,
        flags: &[bool],
    ) -> Result<Vec<bool>, OutOfMemory>
        requires { IsOf problem.now partial.now }
    {
        let mut spread = Vec::with_capacity(alloc, problem.items() as usize)?;
        for place in 0..problem.items() {
            spread.push(partial.mark(place) == Mark::Chosen)?;
        }
        for (at, item) in self.items.as_slice().iter().enumerate() {
            if let Some(flag) = spread.get_mut(item.place as usize) {
                *flag = matches!(flags.get(at), Some(true));
            }
        }
        Ok(spread)
    }
}

/// The lines of a problem, which nothing touches yet.
fn rows_of(alloc: Global, problem: &Problem) -> Result<Vec<Row>, OutOfMemory> {
    let mut rows = Vec::with_capacity(alloc, problem.lines() as usize)?;
    for line in 0..problem.lines() {
        rows.push(Row {
            has: 0i64.saturating_add_unsigned(problem.line(line).balance),
            most: 0,
            value: 0,
            size: 0,
            touches: Seq::new(alloc),
        })?;
    }
    Ok(rows)
}
