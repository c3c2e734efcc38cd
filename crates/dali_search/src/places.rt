ghost use Rattle.std.specs.Prelude.{◌≡◌, ◌≢◌, ℕ, ◌<◌, length, IfOk, slice_set};
ghost use Rattle.dali_problem.specs.declared.mark.Mark.TheVariants.{Stranger, Undecided};
ghost use Rattle.dali_problem.specs.Partial.{mark};
ghost use Rattle.dali_problem.specs.Kept.{IsOf};
ghost use Rattle.dali_lagrange.specs.KeptSum.{IsSumOf};
ghost use Rattle.dali_search.specs.Start.{all_places, start_of};
ghost use Rattle.dali_search.specs.Sides.{IsDesk};

use crate::desk::Desk;
use crate::guess::FLIPS_AT_ROOT;
use dali_base::{OutOfMemory, Places};
use dali_lagrange::{Kept, Point};
use dali_problem::{Partial, Problem};
use std::alloc::Global;

/// All places of a problem.
pub(crate) fn all_places(alloc: Global, problem: &Problem) -> Result<Places, OutOfMemory>
    ensures { IfOk result (λ places. places ≡ all_places (length problem.now.items)) }
{
    let mut places = Places::new(alloc);
    for place in 0..problem.items() {
        places.push(place)?;
    }
    Ok(places)
}

/// A desk on which all places are undecided.
pub(crate) fn new_desk(
    alloc: Global,
    problem: &Problem,
    places: &Places,
) -> Result<Desk, OutOfMemory>
    requires places { places.now ≡ all_places (length problem.now.items) }
    ensures made { IfOk result (λ desk. IsDesk problem.now desk) }
    ensures start { IfOk result (λ desk. desk.partial.marks ≡ start_of problem.now) }
{
    Ok(Desk {
        partial: new_start(alloc, problem, places)?,
        whole: new_start(alloc, problem, places)?,
        point: Point::new(alloc, problem)?,
        kept: new_kept(alloc, problem, places)?,
        flips_each: FLIPS_AT_ROOT,
        is_root: true,
    })
}

/// The partial choice in which all places are undecided.
fn new_start(alloc: Global, problem: &Problem, places: &Places) -> Result<Partial, OutOfMemory>
    requires places { places.now ≡ all_places (length problem.now.items) }
    ensures of { IfOk result (λ partial. IsOf problem.now partial) }
    ensures start { IfOk result (λ partial. partial.marks ≡ start_of problem.now) }
{
    let partial = Partial::new(alloc, problem, places)?;
    Ok(partial)
}

/// Kept sums for all places.
fn new_kept(alloc: Global, problem: &Problem, places: &Places) -> Result<Kept, OutOfMemory>
    requires places { places.now ≡ all_places (length problem.now.items) }
    ensures { IfOk result (λ kept. IsSumOf problem.now kept) }
{
    let kept = Kept::new(alloc, problem, places)?;
    Ok(kept)
}

/// Makes every place undecided.
pub(crate) fn reset(problem: &Problem, partial: &mut Partial)
    requires of { IsOf problem.now partial.old }
    requires members { (j : ℕ) → j < length problem.now.items → mark partial.old.marks j ≢ Stranger }
    ensures of { IsOf problem.now partial.new }
    ensures start { partial.new.marks ≡ start_of problem.now }
{
    for place in 0..problem.items() {
        release(problem, place, partial);
    }
}

/// Makes a member undecided, whatever it is.
fn release(problem: &Problem, place: u32, partial: &mut Partial)
    requires of { IsOf problem.now partial.old }
    requires member { mark partial.old.marks place ≢ Stranger }
    ensures of { IsOf problem.now partial.new }
    ensures marks { partial.new.marks ≡ slice_set partial.old.marks place Undecided }
{
    if !partial.mark(place).is_undecided() {
        partial.free(problem, place);
    }
}
