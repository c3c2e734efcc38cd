use crate::board::Board;
use crate::sketch::copy_over;
use crate::state::State;
use dali_base::OutOfMemory;
use std::alloc::Global;

/// For how many steps a flipped item is held, at least.
const TENURE: u64 = 7;

/// After how many feasible sets in a row, or infeasible ones, a centavo's worth changes.
const STREAK: u64 = 10;

/// After how many steps without gain for each item a run begins again.
const PATIENCE: u64 = 4;

/// A run of flips, with the best feasible set that it met.
#[derive(Drop)]
pub(crate) struct Run {
    state: State,
    pub(crate) best: Vec<bool>,
    value: u64,
    /// Steps since the last gain or the last beginning.
    idle: u64,
    /// How often the run began again.
    turn: u64,
    /// Feasible sets in a row, and infeasible ones.
    feasible: u64,
    infeasible: u64,
}

impl Run {
    /// A run that begins with these items. Answers only want of memory but Ok.
    pub(crate) fn new(alloc: Global, board: &Board, start: Vec<bool>) -> Result<Run, OutOfMemory> {
        let best = Vec::from_slice(alloc, start.as_slice())?;
        let state = State::new(alloc, board, start)?;
        let value = if state.negative == 0 { state.value } else { 0 };
        Ok(Run {
            state,
            best,
            value,
            idle: 0,
            turn: 0,
            feasible: 0,
            infeasible: 0,
        })
    }

    /// Flips so often, or less where lines with many items were looked at too often.
    pub(crate) fn go(&mut self, board: &Board, steps: u64) {
        let most_visits = steps.saturating_mul(400);
        for step in 0..steps {
            if self.state.visits > most_visits {
                return;
            }
            self.step(board, step);
        }
    }

    /// Flips the item of the greatest score that isn't held.
    fn step(&mut self, board: &Board, step: u64) {
        let Some(at) = self.state.choose(step) else {
            return;
        };
        if self.state.negative > 0 && self.state.is_loss(at) {
            self.state.raise_prices(board);
        }
        self.state.flip(board, at);
        let held = TENURE + step % 1_000_003 * 7919 % TENURE;
        self.state.hold(at, step.saturating_add(held));
        self.idle = self.idle.saturating_add(1);
        self.judge(board);
        let patience = PATIENCE.saturating_mul(board.items.len() as u64);
        if self.idle >= patience {
            self.begin_again(board, step);
        }
    }

    /// Keeps the set where it is the best feasible one, and lets value count for more after many feasible sets, for less
    /// after many others.
    fn judge(&mut self, board: &Board) {
        if self.state.negative > 0 {
            self.feasible = 0;
            self.infeasible = self.infeasible.saturating_add(1);
            if self.infeasible >= STREAK {
                self.infeasible = 0;
                self.state.lower_worth(board);
            }
            return;
        }
        self.infeasible = 0;
        self.feasible = self.feasible.saturating_add(1);
        if self.state.value > self.value {
            self.value = self.state.value;
            self.idle = 0;
            copy_over(self.best.as_mut_slice(), self.state.inside.as_slice());
        }
        if self.feasible >= STREAK {
            self.feasible = 0;
            self.state.raise_worth(board);
        }
    }

    /// Begins again from the best set, and at each eighth time from no item or all items by turns, with other prices. An
    /// eighth of the items is held for a while.
    fn begin_again(&mut self, board: &Board, step: u64) {
        self.turn = self.turn.saturating_add(1);
        self.idle = 0;
        self.feasible = 0;
        self.infeasible = 0;
        let quarters = (self.turn % 4 * 2 + 2) as i64;
        if self.turn % 8 == 0 {
            let all = self.turn % 16 == 0;
            for inside in self.state.inside.as_mut_slice() {
                *inside = all;
            }
        } else {
            copy_over(self.state.inside.as_mut_slice(), self.best.as_slice());
        }
        self.state.begin(board, quarters);
        let items = board.items.len();
        let until = step.saturating_add(items as u64);
        for at in 0..items {
            let is_held = scattered(at as u64) % 8 == self.turn % 8;
            self.state.hold(at, if is_held { until } else { 0 });
        }
    }
}

/// A number that looks like a random one.
fn scattered(n: u64) -> u64 {
    n.wrapping_mul(2654435761) % (1 << 32) / 128
}
