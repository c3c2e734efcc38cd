use crate::board::{Board, Item, MOST_PRICE, Row, Touch, WORTH};
use crate::score::{cost, gain, rise, turned};
use dali_base::OutOfMemory;
use std::alloc::Global;

/// The least and the most that a centavo of value may count for.
const LEAST_WORTH: i64 = 16;

const MOST_WORTH: i64 = 1 << 24;

/// A set of a board's items, with what each line has then and what each item's flip scores: the value that it gains, less
/// the price of what lines then lack more.
#[derive(Drop)]
pub(crate) struct State {
    /// Which items are in the set.
    pub(crate) inside: Vec<bool>,
    /// What each line has.
    has: Vec<i64>,
    /// What a unit costs that a line lacks.
    prices: Vec<i64>,
    /// What a centavo of value counts for.
    worth: i64,
    /// What each item's flip scores.
    scores: Vec<i128>,
    /// The step from which each item may be flipped again.
    free_from: Vec<u64>,
    /// What the set is worth, in centavos.
    pub(crate) value: u64,
    /// How many lines are negative.
    pub(crate) negative: u64,
    /// How often a touch was looked at.
    pub(crate) visits: u64,
}

impl State {
    /// The set of these items. Answers only want of memory but Ok.
    pub(crate) fn new(
        alloc: Global,
        board: &Board,
        inside: Vec<bool>,
    ) -> Result<State, OutOfMemory> {
        let items = board.items.len();
        let lines = board.rows.len();
        let mut state = State {
            inside,
            has: vec![in alloc; 0; lines]?,
            prices: vec![in alloc; 0; lines]?,
            worth: WORTH,
            scores: vec![in alloc; 0; items]?,
            free_from: vec![in alloc; 0; items]?,
            value: 0,
            negative: 0,
            visits: 0,
        };
        state.begin(board, 4);
        Ok(state)
    }

    /// Whether the item is in the set.
    fn is_inside(&self, item: usize) -> bool {
        matches!(self.inside.as_slice().get(item), Some(true))
    }

    /// Counts anew what the lines have and what the set is worth, with each line at so many fourths of its first price, and
    /// scores all flips.
    pub(crate) fn begin(&mut self, board: &Board, quarters: i64) {
        self.worth = WORTH;
        self.value = 0;
        for (line, row) in board.rows.as_slice().iter().enumerate() {
            self.open_line(line, row, quarters);
        }
        for (at, item) in board.items.as_slice().iter().enumerate() {
            if self.is_inside(at) {
                self.take(item);
            }
        }
        self.negative = count_negative(self.has.as_slice());
        self.score_all(board);
    }

    /// A line as the chosen places leave it.
    fn open_line(&mut self, line: usize, row: &Row, quarters: i64) {
        if let Some(has) = self.has.get_mut(line) {
            *has = row.has;
        }
        if let Some(price) = self.prices.get_mut(line) {
            *price = (row.price() / 4)
                .saturating_mul(quarters)
                .clamp(1, MOST_PRICE);
        }
    }

    /// Counts an item of the set.
    fn take(&mut self, item: &Item) {
        self.value = self.value.saturating_add(item.value);
        for effect in item.effects.as_slice() {
            if let Some(has) = self.has.get_mut(effect.line as usize) {
                *has = has.saturating_add(effect.amount);
            }
        }
    }

    /// What the flip of an item scores.
    fn score(&self, item: &Item, is_in: bool) -> i128 {
        let mut score = gain(&turned(is_in, self.worth), item.value);
        for effect in item.effects.as_slice() {
            let line = effect.line as usize;
            let price = self.prices.as_slice().get(line);
            let has = self.has.as_slice().get(line);
            if let (Some(price), Some(has)) = (price, has) {
                let more = rise(*has, turned(is_in, effect.amount));
                score = score.saturating_sub(cost(price, &more));
            }
        }
        score
    }

    fn score_all(&mut self, board: &Board) {
        for (at, item) in board.items.as_slice().iter().enumerate() {
            self.score_one(at, item);
        }
    }

    fn score_one(&mut self, at: usize, item: &Item) {
        let fresh = self.score(item, self.is_inside(at));
        if let Some(score) = self.scores.get_mut(at) {
            *score = fresh;
        }
    }

    /// The item of the greatest score among those that may be flipped at this step.
    pub(crate) fn choose(&self, step: u64) -> Option<usize> {
        let mut most = i128::MIN;
        let mut found = None;
        for (at, score) in self.scores.as_slice().iter().enumerate() {
            if *score > most && self.is_free(at, step) {
                most = *score;
                found = Some(at);
            }
        }
        found
    }

    fn is_free(&self, at: usize, step: u64) -> bool {
        match self.free_from.as_slice().get(at) {
            Some(from) => *from <= step,
            None => false,
        }
    }

    /// Keeps an item from being flipped before this step.
    pub(crate) fn hold(&mut self, at: usize, until: u64) {
        if let Some(from) = self.free_from.get_mut(at) {
            *from = until;
        }
    }

    /// Whether the flip of an item gains nothing.
    pub(crate) fn is_loss(&self, at: usize) -> bool {
        match self.scores.as_slice().get(at) {
            Some(score) => *score <= 0,
            None => true,
        }
    }

    /// Flips an item.
    pub(crate) fn flip(&mut self, board: &Board, at: usize) {
        let Some(item) = board.items.as_slice().get(at) else {
            return;
        };
        let was_in = self.is_inside(at);
        for effect in item.effects.as_slice() {
            self.add(board, effect.line as usize, turned(was_in, effect.amount));
        }
        if let Some(inside) = self.inside.get_mut(at) {
            *inside = !was_in;
        }
        self.value = if was_in {
            self.value.saturating_sub(item.value)
        } else {
            self.value.saturating_add(item.value)
        };
        self.score_one(at, item);
    }

    /// Adds so much to what a line has, and scores the flips anew that this touches.
    fn add(&mut self, board: &Board, line: usize, by: i64) {
        let Some(row) = board.rows.as_slice().get(line) else {
            return;
        };
        let Some(has) = self.has.get_mut(line) else {
            return;
        };
        let old = *has;
        let new = old.saturating_add(by);
        *has = new;
        if old < 0 {
            self.negative = self.negative.saturating_sub(1);
        }
        if new < 0 {
            self.negative = self.negative.saturating_add(1);
        }
        if old < row.most || new < row.most {
            self.rescore(line, row.touches.as_slice(), old, new);
        }
    }

    /// Scores the flips anew that touch a line, which had `old` and now has `new`.
    fn rescore(&mut self, line: usize, touches: &[Touch], old: i64, new: i64) {
        let price = match self.prices.as_slice().get(line) {
            Some(price) => *price,
            None => 0,
        };
        self.visits = self.visits.saturating_add(touches.len() as u64);
        for touch in touches {
            let by = turned(self.is_inside(touch.item), touch.amount);
            let more = rise(new, by).saturating_sub(rise(old, by));
            if more != 0 {
                self.lower(touch.item, cost(&price, &more));
            }
        }
    }

    /// Takes so much off a score.
    fn lower(&mut self, item: usize, by: i128) {
        if let Some(score) = self.scores.get_mut(item) {
            *score = score.saturating_sub(by);
        }
    }

    /// Raises the price of each line that is negative by a third.
    pub(crate) fn raise_prices(&mut self, board: &Board) {
        for (line, row) in board.rows.as_slice().iter().enumerate() {
            let has = match self.has.as_slice().get(line) {
                Some(has) => *has,
                None => 0,
            };
            if has < 0 {
                self.raise_price(line, row.touches.as_slice(), has);
            }
        }
    }

    fn raise_price(&mut self, line: usize, touches: &[Touch], has: i64) {
        let Some(price) = self.prices.get_mut(line) else {
            return;
        };
        let old = *price;
        let new = old
            .saturating_add(old / 3)
            .saturating_add(1)
            .min(MOST_PRICE);
        *price = new;
        let rise_of_price = new.saturating_sub(old);
        self.visits = self.visits.saturating_add(touches.len() as u64);
        for touch in touches {
            let more = rise(has, turned(self.is_inside(touch.item), touch.amount));
            self.lower(touch.item, cost(&rise_of_price, &more));
        }
    }

    /// Lets a centavo of value count for an eighth more.
    pub(crate) fn raise_worth(&mut self, board: &Board) {
        let by = self.worth / 8;
        self.change_worth(board, by);
    }

    /// Lets a centavo of value count for an eighth less.
    pub(crate) fn lower_worth(&mut self, board: &Board) {
        let by = self.worth / 8;
        self.change_worth(board, 0i64.saturating_sub(by));
    }

    fn change_worth(&mut self, board: &Board, by: i64) {
        let worth = self.worth.saturating_add(by).clamp(LEAST_WORTH, MOST_WORTH);
        let more = worth.saturating_sub(self.worth);
        self.worth = worth;
        for (at, item) in board.items.as_slice().iter().enumerate() {
            let change = gain(&turned(self.is_inside(at), more), item.value);
            self.lower(at, 0i128.saturating_sub(change));
        }
    }
}

/// How many of the lines are negative.
fn count_negative(has: &[i64]) -> u64 {
    let mut count: u64 = 0;
    for line in has {
        if *line < 0 {
            count = count.saturating_add(1);
        }
    }
    count
}
