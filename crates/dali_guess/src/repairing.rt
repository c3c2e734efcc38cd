ghost use Rattle.std.specs.Prelude.{IfOk};
ghost use Rattle.dali_problem.specs.Feasible.{ArePlaces};
ghost use Rattle.dali_problem.specs.Kept.{IsOf};

use crate::board::Board;
use crate::listing::{is_flagged, places_of};
use crate::score::{rise, turned};
use crate::sketch::Sketch;
use dali_base::{OutOfMemory, Places};
use dali_problem::{Effect, Partial, Problem};
use dali_tree::Lam;
use std::alloc::Global;

/// A set of places that may be feasible and worth much: the chosen ones and the undecided ones of reduced value above 0 at
/// these multipliers, less those that are taken out while a line is negative. Each time it is the one that loses least for
/// each unit that lines then lack less; chosen ones go only where no other one helps.
///
/// The work is at most two looks at each place's effects for each place that is taken out. Answers only want of memory but Ok.
pub fn repaired(
    alloc: Global,
    problem: &Problem,
    partial: &Partial,
    lam: &Lam,
) -> Result<Places, OutOfMemory>
    requires { IsOf problem.now partial.now }
    ensures { IfOk result (ArePlaces problem.now) }
{
    let board = Board::new(alloc, problem, partial)?;
    let sketch = Sketch::new(alloc, &board, lam)?;
    let nothing = vec![in alloc; false; board.items.len()]?;
    let chosen = board.spread(alloc, problem, partial, nothing.as_slice())?;
    let gainful = gainful(alloc, &board, &sketch)?;
    let inside = board.spread(alloc, problem, partial, gainful.as_slice())?;
    let mut repair = Repair::new(alloc, problem, inside)?;
    repair.mend(problem, chosen.as_slice());
    repair.mend(problem, &[]);
    places_of(alloc, problem, repair.inside.as_slice())
}

/// Which items have a reduced value above 0.
fn gainful(alloc: Global, board: &Board, sketch: &Sketch) -> Result<Vec<bool>, OutOfMemory> {
    let mut gainful = Vec::with_capacity(alloc, board.items.len())?;
    for at in 0..board.items.len() {
        gainful.push(sketch.reduced(at) > 0)?;
    }
    Ok(gainful)
}

/// A set of a problem's places, and what each line has then.
#[derive(Drop)]
struct Repair {
    inside: Vec<bool>,
    has: Vec<i64>,
}

/// A member that may be taken out.
#[derive(Clone, Copy)]
struct Removal {
    place: u32,
    value: u64,
    /// Its value, and what the lines that it credits lack more without it.
    loss: u64,
    /// What the lines that it debits lack less without it.
    mended: u64,
}

impl Removal {
    /// Whether it loses less than the other for each unit mended, or as much and is worth less.
    fn is_cheaper(&self, other: &Removal) -> bool {
        let ours = u128::from(self.loss).saturating_mul(u128::from(other.mended));
        let theirs = u128::from(other.loss).saturating_mul(u128::from(self.mended));
        ours < theirs || (ours == theirs && self.value < other.value)
    }
}

impl Repair {
    /// The set of these places. Answers only want of memory but Ok.
    fn new(alloc: Global, problem: &Problem, inside: Vec<bool>) -> Result<Repair, OutOfMemory> {
        let mut has = Vec::with_capacity(alloc, problem.lines() as usize)?;
        for line in 0..problem.lines() {
            has.push(0i64.saturating_add_unsigned(problem.line(line).balance))?;
        }
        let mut repair = Repair { inside, has };
        for place in 0..problem.items() {
            if is_flagged(repair.inside.as_slice(), place) {
                repair.book(problem.effects(place), false);
            }
        }
        Ok(repair)
    }

    /// Adds these effects to what the lines have, or takes them off.
    fn book(&mut self, effects: &[Effect], is_off: bool) {
        for effect in effects {
            if let Some(has) = self.has.get_mut(effect.line as usize) {
                *has = has.saturating_add(turned(is_off, effect.amount));
            }
        }
    }

    /// Takes places out, but none that stays, until no line lacks anything or no place is left that helps.
    fn mend(&mut self, problem: &Problem, stays: &[bool]) {
        for _ in 0..problem.items() {
            let Some(removal) = self.cheapest(problem, stays) else {
                return;
            };
            self.take_out(problem, removal.place);
        }
    }

    fn take_out(&mut self, problem: &Problem, place: u32) {
        if let Some(inside) = self.inside.get_mut(place as usize) {
            *inside = false;
        }
        if place < problem.items() {
            self.book(problem.effects(place), true);
        }
    }

    /// The first of the cheapest members that may be taken out.
    fn cheapest(&self, problem: &Problem, stays: &[bool]) -> Option<Removal> {
        let mut found = None;
        for place in 0..problem.items() {
            if is_flagged(self.inside.as_slice(), place) && !is_flagged(stays, place) {
                let value = problem.value(place);
                found = cheaper(found, self.removal(place, value, problem.effects(place)));
            }
        }
        found
    }

    /// A member's removal, where it mends something.
    fn removal(&self, place: u32, value: u64, effects: &[Effect]) -> Option<Removal> {
        let mut loss = value;
        let mut mended: u64 = 0;
        for effect in effects {
            if let Some(has) = self.has.as_slice().get(effect.line as usize) {
                let more = rise(*has, turned(true, effect.amount));
                if more > 0 {
                    loss = loss.saturating_add(more.unsigned_abs());
                } else {
                    mended = mended.saturating_add(more.unsigned_abs());
                }
            }
        }
        if mended == 0 {
            return None;
        }
        Some(Removal {
            place,
            value,
            loss,
            mended,
        })
    }
}

/// The cheaper one of what was found and what comes behind it.
fn cheaper(found: Option<Removal>, next: Option<Removal>) -> Option<Removal> {
    match (found, next) {
        (Some(first), Some(second)) => Some(if second.is_cheaper(&first) {
            second
        } else {
            first
        }),
        (Some(first), None) => Some(first),
        (None, second) => second,
    }
}
