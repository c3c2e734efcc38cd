use crate::board::{Board, Item};
use crate::sketch::{SCALE, Sketch};
use crate::smooth::Width;
use dali_base::OutOfMemory;

/// The parts in which a gap is counted.
const PARTS: i128 = 4096;

/// How good a branch at an item seems: how much of the gap between the Sum and what the best set is worth is closed on one
/// side, times how much on the other. Answers only want of memory but Ok.
pub(crate) fn outlook(
    board: &Board,
    sketch: &Sketch,
    trial: &mut Sketch,
    widths: &[Width],
    item: usize,
    value: u64,
) -> Result<i128, OutOfMemory> {
    let gap = sketch.total.saturating_sub(most_closed(value)).max(1);
    let inside = drop_at(board, sketch, trial, widths, item, true)?;
    let outside = drop_at(board, sketch, trial, widths, item, false)?;
    Ok(share_of(inside, gap).saturating_mul(share_of(outside, gap)))
}

/// The greatest Sum whose bound isn't above what the best set is worth.
fn most_closed(value: u64) -> i128 {
    let scale = i128::from(SCALE);
    let next = i128::from(value).saturating_add(1).saturating_mul(scale);
    next.saturating_sub(1)
}

/// How many parts of the gap a drop closes, and a few more, so that one side alone counts too.
fn share_of(drop: i128, gap: i128) -> i128 {
    let drop = drop.clamp(0, gap.max(0)).unsigned_abs();
    let parts = drop.saturating_mul(PARTS.unsigned_abs()) / gap.unsigned_abs().max(1);
    0i128
        .saturating_add_unsigned(parts)
        .saturating_add(PARTS / 64)
}

/// How much the Sum falls on a side, after the fixes and a pass over the lines: by all where a line is short.
fn drop_at(
    board: &Board,
    sketch: &Sketch,
    trial: &mut Sketch,
    widths: &[Width],
    item: usize,
    chosen: bool,
) -> Result<i128, OutOfMemory> {
    trial.copy_from(sketch);
    if !trial.enter(board, item, chosen)? {
        return Ok(i128::MAX);
    }
    let mut least = trial.total;
    trial.pass(board, widths);
    least = least.min(trial.total);
    Ok(sketch.total.saturating_sub(least))
}

impl Sketch {
    /// Becomes the other sketch with multipliers moved slightly, so that an item is the first whose reduced value is least in
    /// size, and the Sum isn't smaller. Whether that was found.
    pub(crate) fn bring(&mut self, board: &Board, from: &Sketch, at: usize) -> bool {
        let Some(item) = board.items.as_slice().get(at) else {
            return false;
        };
        self.copy_from(from);
        if self.nearest() == Some(at) {
            return true;
        }
        for effect in item.effects.as_slice() {
            self.copy_from(from);
            let line = effect.line as usize;
            let by = toward(self.reduced(at), effect.amount);
            self.set(board, line, self.multiplier(line).saturating_add(by));
            if self.clear(board, item, at) && self.total >= from.total {
                return true;
            }
        }
        false
    }

    /// Moves items out of the way whose reduced values are as near to 0. Whether none is left.
    fn clear(&mut self, board: &Board, item: &Item, at: usize) -> bool {
        for _ in 0..16 {
            let Some(first) = self.nearest() else {
                return false;
            };
            if first == at {
                return true;
            }
            let Some(line) = self.lever(board, item, first) else {
                return false;
            };
            self.set(board, line, self.multiplier(line).saturating_add(1));
        }
        self.nearest() == Some(at)
    }

    /// The line of greatest multiplier among those of an item that aren't lines of the other.
    fn lever(&self, board: &Board, other: &Item, at: usize) -> Option<usize> {
        let item = board.items.as_slice().get(at)?;
        let mut most = -1;
        let mut found = None;
        for effect in item.effects.as_slice() {
            let line = effect.line as usize;
            let multiplier = self.multiplier(line);
            if multiplier > most && !other.has_line(effect.line) {
                most = multiplier;
                found = Some(line);
            }
        }
        found
    }
}

/// What to add to a multiplier so that a reduced value comes as near to 0 as this amount can bring it.
fn toward(reduced: i128, amount: i64) -> i64 {
    let unit = u128::from(amount.unsigned_abs().max(1));
    let size = reduced.unsigned_abs();
    let steps = (size.saturating_add(unit / 2) / unit).min(1 << 45) as i64;
    if (reduced < 0) == (amount < 0) {
        0i64.saturating_sub(steps)
    } else {
        steps
    }
}
