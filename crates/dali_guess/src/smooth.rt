use crate::board::{Board, Row};
use crate::score::cost;
use crate::sketch::{MOST, SCALE, Sketch};
use dali_base::OutOfMemory;
use std::alloc::Global;

/// The share of an item that is all in.
pub(crate) const WHOLE: i64 = 1 << 16;

/// Half the width of the numbers on which shares are told, and its bits.
const WIDE: i64 = 1 << WIDE_BITS;

const WIDE_BITS: u32 = 20;

/// How many of these numbers have one share.
const STEP: i64 = 2 * WIDE / WHOLE;

/// How a reduced value is brought on to the scale of shares: shifted down, or multiplied.
#[derive(Clone, Copy)]
pub(crate) struct Width {
    shift: u32,
    factor: i64,
}

impl Width {
    /// The width of an item of this value at a level: what its value counts for in a Sum, halved as often as the level says.
    pub(crate) fn new(value: u64, level: u32) -> Width {
        let counted = u128::from(value) * SCALE as u128;
        let bits = 127u32.saturating_sub(counted.leading_zeros());
        let size = bits.saturating_sub(level);
        let mut factor: i64 = 1;
        for _ in size..WIDE_BITS {
            factor = factor.saturating_mul(2);
        }
        Width {
            shift: size.saturating_sub(WIDE_BITS),
            factor,
        }
    }

    /// How far an item of this reduced value is in, from 0 to `WHOLE`: all where it is above the width, nothing where it is
    /// as far below 0.
    pub(crate) fn share(&self, reduced: i128) -> i64 {
        let shifted = reduced >> self.shift.min(127);
        let near = shifted.clamp(-(WIDE as i128), WIDE as i128) as i64;
        let scaled = near.saturating_mul(self.factor).clamp(-WIDE, WIDE);
        (scaled + WIDE) / STEP
    }
}

/// The widths of a board's items at a level. Answers only want of memory but Ok.
pub(crate) fn widths(alloc: Global, board: &Board, level: u32) -> Result<Vec<Width>, OutOfMemory> {
    let mut widths = Vec::with_capacity(alloc, board.items.len())?;
    for item in board.items.as_slice() {
        widths.push(Width::new(item.value, level))?;
    }
    Ok(widths)
}

/// A line whose multiplier is looked for.
#[derive(Clone, Copy)]
struct Search<'a> {
    sketch: &'a Sketch,
    widths: &'a [Width],
    row: &'a Row,
    line: usize,
    /// The line's multiplier.
    at: i64,
}

impl Search<'_> {
    /// What the line would have, times `WHOLE`, with each undecided item as far in as its share says, where the line's
    /// multiplier is this.
    fn drift(&self, to: i64) -> i128 {
        let by = to.saturating_sub(self.at);
        let mut total = cost(&WHOLE, &self.sketch.has(self.line));
        for touch in self.row.touches.as_slice() {
            if self.sketch.is_open(touch.item) {
                let shift = cost(&by, &touch.amount);
                let reduced = self.sketch.reduced(touch.item).saturating_add(shift);
                let share = match self.widths.get(touch.item) {
                    Some(width) => width.share(reduced),
                    None => 0,
                };
                total = total.saturating_add(cost(&touch.amount, &share));
            }
        }
        total
    }

    /// About the least multiplier at which the line isn't negative.
    fn target(&self) -> i64 {
        let here = self.drift(self.at);
        if here == 0 || (here > 0 && self.at == 0) {
            return self.at;
        }
        if here < 0 { self.above() } else { self.below() }
    }

    fn above(&self) -> i64 {
        let mut step = (self.at / 256).max(1);
        let mut low = self.at;
        let mut high = low.saturating_add(step).min(MOST);
        for _ in 0..64 {
            if high >= MOST || self.drift(high) >= 0 {
                return self.halve(low, high);
            }
            low = high;
            step = step.saturating_mul(2);
            high = high.saturating_add(step).min(MOST);
        }
        high
    }

    fn below(&self) -> i64 {
        let mut step = (self.at / 256).max(1);
        let mut high = self.at;
        let mut low = high.saturating_sub(step).max(0);
        for _ in 0..64 {
            if self.drift(low) < 0 {
                return self.halve(low, high);
            }
            if low == 0 {
                return 0;
            }
            high = low;
            step = step.saturating_mul(2);
            low = low.saturating_sub(step).max(0);
        }
        low
    }

    /// The line is negative at the low end and isn't at the high one, as far as is known.
    fn halve(&self, low: i64, high: i64) -> i64 {
        let mut low = low;
        let mut high = high;
        for _ in 0..64 {
            if high.saturating_sub(low) <= (high / 4096).saturating_add(1) {
                return high;
            }
            let middle = low.saturating_add(high.saturating_sub(low) / 2);
            if self.drift(middle) >= 0 {
                high = middle;
            } else {
                low = middle;
            }
        }
        high
    }
}

impl Sketch {
    /// Moves each line's multiplier in turn to where the line is about balanced. Whether one moved.
    pub(crate) fn pass(&mut self, board: &Board, widths: &[Width]) -> bool {
        let mut moved = false;
        for (line, row) in board.rows.as_slice().iter().enumerate() {
            if row.touches.is_empty() {
                continue;
            }
            let at = self.multiplier(line);
            let search = Search {
                sketch: self,
                widths,
                row,
                line,
                at,
            };
            let target = search.target();
            if target != at {
                self.set(board, line, target);
                moved = true;
            }
        }
        moved
    }
}
