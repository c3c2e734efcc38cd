ghost use Rattle.std.specs.Prelude.{IfOk};
ghost use Rattle.dali_problem.specs.Feasible.{ArePlaces};
ghost use Rattle.dali_problem.specs.Kept.{IsOf};

use crate::board::Board;
use crate::listing::places_of;
use crate::run::Run;
use dali_base::{OutOfMemory, Places};
use dali_problem::{Partial, Problem};
use std::alloc::Global;

/// A set of places that agrees with a partial choice and may be feasible and worth much: the best that was met in so many
/// flips of single undecided places for each of them, from a start. Each flip is the one that gains most, where what lines
/// lack is priced against it.
///
/// The work is at most 400 looks at an effect for each flip, and a look at each undecided place. Answers only want of memory
/// but Ok.
pub fn flips(
    alloc: Global,
    problem: &Problem,
    partial: &Partial,
    start: &Places,
    flips_each: u64,
) -> Result<Places, OutOfMemory>
    requires { IsOf problem.now partial.now }
    ensures { IfOk result (ArePlaces problem.now) }
{
    let board = Board::new(alloc, problem, partial)?;
    let inside = board.flags(alloc, problem, start)?;
    let mut run = Run::new(alloc, &board, inside)?;
    let items = board.items.len() as u64;
    run.go(&board, flips_each.saturating_mul(items));
    let taken = board.spread(alloc, problem, partial, run.best.as_slice())?;
    places_of(alloc, problem, taken.as_slice())
}
