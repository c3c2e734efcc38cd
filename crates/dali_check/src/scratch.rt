ghost use Rattle.std.specs.Prelude.{◌≡◌, ℕ, ◌<◌, IfOk};
ghost use Rattle.std.specs.List.{All};
ghost use Rattle.dali_problem.specs.Kept.{IsOf};
ghost use Rattle.dali_problem.specs.declared.mark.Mark.TheVariants.{Undecided, Left};
ghost use Rattle.dali_check.specs.Room.{IsFor};

use dali_base::{OutOfMemory, Places};
use dali_lagrange::Kept;
use dali_problem::{Partial, Problem, Sums};
use dali_rest::Room;
use std::alloc::Global;
use std::marker::Model;

/// What the calls of this crate work with, made once for a problem: a partial choice, kept sums, room for tests on sets,
/// and marks of places and lines.
///
/// Every call leaves it ready for the next one.
#[derive(Drop)]
pub struct Scratch {
    pub(crate) partial: Partial,
    pub(crate) kept: Kept,
    pub(crate) sums: Sums,
    pub(crate) tests: Room,
    pub(crate) places: Vec<bool>,
    pub(crate) lines: Vec<bool>,
}

impl Model for Scratch {
    ghost use Rattle.std.specs.Prelude.{length};
    ghost use Rattle.dali_check.specs.Room.{ScratchState};

    ghost Value = { ScratchState };

    ghost view = { λ s. record {
      partial = s.partial;
      kept = s.kept;
      sums = s.sums;
      tests = s.tests;
      places = length s.places.items;
      lines = length s.lines.items;
    } };
}

impl Scratch {
    /// A scratch for this problem, or want of memory.
    pub fn new(alloc: Global, problem: &Problem) -> Result<Scratch, OutOfMemory>
        ensures { IfOk result (λ scratch. IsFor problem.now scratch) }
    {
        let mut places = Places::new(alloc);
        for place in 0..problem.items() {
            places.push(place)?;
        }
        let mut partial = Partial::new(alloc, problem, &places)?;
        leave_all(problem, &mut partial);
        Ok(Scratch {
            partial,
            kept: Kept::new(alloc, problem, &places)?,
            sums: Sums::new(alloc, problem)?,
            tests: Room::new(alloc, problem)?,
            places: vec![in alloc; false; problem.items() as usize]?,
            lines: vec![in alloc; false; problem.lines() as usize]?,
        })
    }
}

/// Leaves every place.
fn leave_all(problem: &Problem, partial: &mut Partial)
    requires of { IsOf problem.now partial.old }
    requires undecided { All (λ m. m ≡ Undecided) partial.old.marks }
    ensures of { IsOf problem.now partial.new }
    ensures left { All (λ m. m ≡ Left) partial.new.marks }
{
    for place in 0..problem.items() {
        partial.fix(problem, place, false);
    }
}
