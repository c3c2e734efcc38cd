ghost use Rattle.std.specs.Prelude.{length, IfOk, IsTrue};
ghost use Rattle.dali_problem.specs.Kept.{IsOf};
ghost use Rattle.dali_tree.specs.Fits.{lam_fits};

use crate::ahead::outlook;
use crate::board::Board;
use crate::listing::listed;
use crate::sketch::Sketch;
use crate::smooth::{WHOLE, Width, widths};
use dali_base::OutOfMemory;
use dali_problem::{Partial, Problem};
use dali_tree::Lam;
use std::alloc::Global;

/// The level at which shares tell how open a place is.
const LEVEL: u32 = 8;

/// A place that a branch may decide.
#[derive(Clone, Copy)]
struct Candidate {
    item: usize,
    /// How good a branch there seems.
    rank: i128,
}

/// Multipliers, each 1 to 2^44, near those given and of no smaller Sum, at which a place that is worth a branch may be the
/// first whose reduced value is least in size. So many places are looked at, each with both sides of its branch; `value` is
/// what the best set so far is worth, in centavos. Answers only want of memory but Ok.
pub fn aim(
    alloc: Global,
    problem: &Problem,
    partial: &Partial,
    lam: &Lam,
    looks: u32,
    value: u64,
) -> Result<Lam, OutOfMemory>
    requires { IsOf problem.now partial.now }
    ensures { IfOk result (λ lam. IsTrue (lam_fits (length problem.now.lines) lam)) }
{
    let board = Board::new(alloc, problem, partial)?;
    let sketch = Sketch::new(alloc, &board, lam)?;
    let mut trial = Sketch::new(alloc, &board, lam)?;
    let widths = widths(alloc, &board, LEVEL)?;
    let mut ranks = ranked(alloc, &board, &sketch, widths.as_slice())?;
    let mut looked = Vec::new(alloc);
    for _ in 0..looks {
        let Some(item) = take_first(ranks.as_mut_slice()) else {
            break;
        };
        let rank = outlook(&board, &sketch, &mut trial, widths.as_slice(), item, value)?;
        looked.push(Candidate { item, rank })?;
    }
    for _ in 0..looks {
        let Some(item) = take_first(looked.as_mut_slice()) else {
            break;
        };
        if trial.bring(&board, &sketch, item) {
            return listed(alloc, problem, trial.multipliers.as_slice());
        }
    }
    listed(alloc, problem, sketch.multipliers.as_slice())
}

/// The items near 0, each with how much is at stake there: its value, and how open it is.
fn ranked(
    alloc: Global,
    board: &Board,
    sketch: &Sketch,
    widths: &[Width],
) -> Result<Vec<Candidate>, OutOfMemory> {
    let near = sketch.total.unsigned_abs() / 64;
    let mut ranks = Vec::new(alloc);
    for (at, item) in board.items.as_slice().iter().enumerate() {
        let reduced = sketch.reduced(at);
        if reduced.unsigned_abs() <= near {
            ranks.push(Candidate {
                item: at,
                rank: stake(item.value, widths.get(at), reduced),
            })?;
        }
    }
    Ok(ranks)
}

/// A value times how open its item is.
fn stake(value: u64, width: Option<&Width>, reduced: i128) -> i128 {
    let share = match width {
        Some(width) => width.share(reduced),
        None => 0,
    };
    let open = share.min(WHOLE.saturating_sub(share)).saturating_add(1024);
    i128::from(value).saturating_mul(i128::from(open))
}

/// Takes the first one of the greatest rank.
fn take_first(candidates: &mut [Candidate]) -> Option<usize> {
    let mut most = -1;
    let mut found = None;
    for (at, candidate) in candidates.iter().enumerate() {
        if candidate.rank > most {
            most = candidate.rank;
            found = Some(at);
        }
    }
    let candidate = candidates.get_mut(found?)?;
    candidate.rank = -1;
    Some(candidate.item)
}
