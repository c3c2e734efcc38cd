ghost use Rattle.std.specs.Prelude.{length, IfOk, IsTrue};
ghost use Rattle.dali_problem.specs.Kept.{IsOf};
ghost use Rattle.dali_tree.specs.Fits.{lam_fits};

use crate::board::Board;
use crate::listing::listed;
use crate::sketch::{Sketch, copy_over};
use crate::smooth::widths;
use dali_base::{OutOfMemory, Seq};
use dali_problem::{Partial, Problem};
use dali_tree::Lam;
use std::alloc::Global;

/// The levels of smoothing, from the widest to the narrowest.
const LEVELS: u32 = 11;

/// The most passes over the lines at a level.
const PASSES: u32 = 30;

/// The levels that smooth multipliers anew, and the most passes at each.
const FIRST_NEAR_LEVEL: u32 = 8;

const NEAR_LEVELS: u32 = 2;

const NEAR_PASSES: u32 = 3;

/// Multipliers of a partial choice, each 1 to 2^44, whose Sum may be small: the best that was met where each line in turn is
/// brought about into balance, with each undecided place as far in as its reduced value is above 0 by smoothed measures
/// that narrow. The work is at most 330 passes over the lines, each with at most 130 looks at an effect. Answers only want of
/// memory but Ok.
pub fn smoothed(alloc: Global, problem: &Problem, partial: &Partial) -> Result<Lam, OutOfMemory>
    requires { IsOf problem.now partial.now }
    ensures { IfOk result (λ lam. IsTrue (lam_fits (length problem.now.lines) lam)) }
{
    let board = Board::new(alloc, problem, partial)?;
    let sketch = Sketch::new(alloc, &board, &Seq::new(alloc))?;
    let best = best_met(alloc, &board, sketch, 0, LEVELS, PASSES)?;
    listed(alloc, problem, best.as_slice())
}

/// The same from multipliers that are near the best ones, in at most six passes of narrow measures.
pub fn smoothed_near(
    alloc: Global,
    problem: &Problem,
    partial: &Partial,
    lam: &Lam,
) -> Result<Lam, OutOfMemory>
    requires { IsOf problem.now partial.now }
    ensures { IfOk result (λ lam. IsTrue (lam_fits (length problem.now.lines) lam)) }
{
    let board = Board::new(alloc, problem, partial)?;
    let sketch = Sketch::new(alloc, &board, lam)?;
    let best = best_met(
        alloc,
        &board,
        sketch,
        FIRST_NEAR_LEVEL,
        NEAR_LEVELS,
        NEAR_PASSES,
    )?;
    listed(alloc, problem, best.as_slice())
}

/// The multipliers of least Sum that passes meet, so many levels from a first one, with so many passes at each.
fn best_met(
    alloc: Global,
    board: &Board,
    start: Sketch,
    first: u32,
    levels: u32,
    passes: u32,
) -> Result<Vec<i64>, OutOfMemory> {
    let mut sketch = start;
    let mut best = Vec::from_slice(alloc, sketch.multipliers.as_slice())?;
    let mut least = sketch.total;
    for level in 0..levels {
        let widths = widths(alloc, board, first.saturating_add(level))?;
        for _ in 0..passes {
            let moved = sketch.pass(board, widths.as_slice());
            if sketch.total < least {
                least = sketch.total;
                copy_over(best.as_mut_slice(), sketch.multipliers.as_slice());
            }
            if !moved {
                break;
            }
        }
    }
    Ok(best)
}
