ghost use Rattle.std.specs.Prelude.{◌≡◌, ℕ, ◌+◌, ◌<◌, ◌≤◌, [], ◌∷◌, ◌++◌, Some, length, replicate, IfOk, OnOk, if◌then◌else◌};
ghost use Rattle.dali_reduce.specs.Reduced.{AreColumns};
ghost use Rattle.dali_parts.specs.Finest.{AreFinest};
ghost use Rattle.dali_parts.specs.Flood.{class_at, AreNumbered, is_of, members_below, part_at};

use crate::flood::Flood;
use dali_base::{OutOfMemory, Places, Seq};
use dali_problem::{Columns, Problem};
use std::alloc::Global;

/// A list of lists of places.
pub type PartLists = Seq<Places>;

/// The finest parts of a problem: the classes of linked places, each rising, in order of first members, as
/// `specs/Finest.antt` defines them. A place without effects is a class by itself. Costs what the items have of effects.
/// Answers only want of memory but Ok.
pub fn finest(alloc: Global, problem: &Problem) -> Result<PartLists, OutOfMemory>
    ensures { IfOk result (AreFinest problem.now) }
{
    let columns = Columns::new(alloc, problem)?;
    let mut flood = Flood::new(alloc, problem)?;
    let count = number_all(problem, &columns, &mut flood)?;
    gather(alloc, problem, flood.classes.as_slice(), count)
}

/// Gives each place the number of its class, and answers how many classes there are.
fn number_all(problem: &Problem, columns: &Columns, flood: &mut Flood) -> Result<u32, OutOfMemory>
    requires columns { AreColumns problem.now columns.now }
    requires start { AreNumbered problem.now flood.old.classes.items flood.old.seen.items 0 0 }
    requires idle { flood.old.pending.items ≡ [] }
    ensures numbered { IfOk result (λ count. AreNumbered problem.now flood.new.classes.items flood.new.seen.items (length problem.now.items) count) }
{
    let mut count = 0;
    for place in 0..problem.items() {
        count = number(problem, columns, place, count, flood)?;
    }
    Ok(count)
}

/// Gives a place, and all that are linked to it, the next number where it has none. Answers the number after it.
fn number(
    problem: &Problem,
    columns: &Columns,
    place: u32,
    count: u32,
    flood: &mut Flood,
) -> Result<u32, OutOfMemory>
    requires columns { AreColumns problem.now columns.now }
    requires place { place < length problem.now.items }
    requires numbered { AreNumbered problem.now flood.old.classes.items flood.old.seen.items place count }
    requires idle { flood.old.pending.items ≡ [] }
    requires few { count ≤ place }

    // what is numbered then
    ensures numbered { IfOk result (λ next. AreNumbered problem.now flood.new.classes.items flood.new.seen.items (place + 1) next) }
    ensures idle { OnOk result (flood.new.pending.items ≡ []) }
    ensures few { IfOk result (λ next. next ≤ place + 1) }
{
    let _items = problem.items();
    if flood.classes[place as usize].is_some() {
        return Ok(count);
    }
    flood.run(problem, columns, place, count)?;
    Ok(count + 1)
}

/// The places of each class.
fn gather(
    alloc: Global,
    problem: &Problem,
    classes: &[Option<u32>],
    count: u32,
) -> Result<PartLists, OutOfMemory>
    requires size { length classes.now ≡ length problem.now.items }
    requires below { (j c : ℕ) → class_at classes.now j ≡ Some c → c < count }
    ensures size { IfOk result (λ parts. length parts ≡ count) }
    ensures parts { IfOk result (λ parts. (c : ℕ) → c < count → part_at parts c ≡ members_below classes.now c (length problem.now.items)) }
{
    let mut parts = empty_parts(alloc, count)?;
    for place in 0..problem.items() {
        put(parts.as_mut_slice(), classes[place as usize], place)?;
    }
    Ok(Seq::from_vec(parts))
}

/// Adds a place at the end of the part of its class.
fn put(parts: &mut [Places], class: Option<u32>, place: u32) -> Result<(), OutOfMemory>
    requires { (c : ℕ) → class ≡ Some c → c < length parts.old }
    ensures { OnOk result ((c : ℕ) → c < length parts.new → part_at parts.new c
        ≡ part_at parts.old c ++ (if is_of c class then place ∷ [] else [])) }
{
    match class {
        Some(number) => add(&mut parts[number as usize], place),
        None => Ok(()),
    }
}

/// Adds a place at the end of a part.
fn add(part: &mut Places, place: u32) -> Result<(), OutOfMemory>
    ensures { OnOk result (part.new ≡ part.old ++ place ∷ []) }
{
    part.push(place)
}

fn empty_parts(alloc: Global, count: u32) -> Result<Vec<Places>, OutOfMemory>
    ensures { IfOk result (λ parts. parts.items ≡ replicate count []) }
{
    let mut parts = Vec::with_capacity(alloc, count as usize)?;
    for part in 0..count {
        let _ = part;
        parts.push(Seq::new(alloc))?;
    }
    Ok(parts)
}
