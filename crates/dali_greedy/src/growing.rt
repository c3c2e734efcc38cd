ghost use Rattle.std.specs.Prelude.{◌≤◌, ℕ, List, length, IfOk, IfSome, IfNone, IsSomeAnd};
ghost use Rattle.dali_problem.specs.Feasible.{ArePlaces, IsFeasible, value_of};
ghost use Rattle.dali_problem.specs.Kept.{IsOf};
ghost use Rattle.dali_problem.specs.Partial.{Agrees};
ghost use Rattle.dali_rest.specs.Room.{IsRoomOf, AreMarksOf};
ghost use Rattle.dali_greedy.specs.Grown.{IsGrown, IsOverdrawn};
ghost use Rattle.dali_greedy.specs.Ground.{IsGroundOf};
ghost use Rattle.dali_greedy.specs.Standing.{IsStandOf, Holds, GoesWith};

use crate::begin::marked;
use crate::order::{Ranked, by_value};
use crate::stand::Stand;
use dali_base::{OutOfMemory, Places};
use dali_problem::{Columns, Mark, Partial, Problem};
use dali_rest::Room;
use std::alloc::Global;

/// What a set is grown on: the items of each line, the order in which places are tried, and the undecided places.
#[derive(Drop)]
struct Ground {
    columns: Columns,
    order: Vec<Ranked>,
    members: Places,
}

/// A feasible set that agrees with a partial choice, and that neither an addition nor an exchange of undecided places
/// betters, as `specs/Grown.antt` says. It is worth at least as much as the start, where that is feasible and agrees.
/// `None` comes only where the chosen places alone leave a line negative. Answers only want of memory but Ok.
pub fn grow(
    alloc: Global,
    problem: &Problem,
    partial: &Partial,
    start: &Places,
) -> Result<Option<Places>, OutOfMemory>
    requires of { IsOf problem.now partial.now }
    requires start { ArePlaces problem.now start.now }
    ensures grown { IfOk result (λ found. IfSome found (IsGrown problem.now partial.now.marks)) }
    ensures not_worse { IsFeasible problem.now start.now → Agrees partial.now.marks start.now → IfOk result (λ found. IsSomeAnd found (λ set. value_of problem.now start.now ≤ value_of problem.now set)) }
    ensures none { IfOk result (λ found. IfNone found (IsOverdrawn problem.now partial.now.marks)) }
{
    let chosen = marked(alloc, problem, partial, Mark::Chosen)?;
    let mut stand = Stand::new(alloc, problem)?;
    if !stand.begin(problem, partial, start, &chosen) {
        return Ok(None);
    }
    let ground = prepared(alloc, problem, partial)?;
    let mut room = Room::new(alloc, problem)?;
    let set = grow_on(alloc, problem, partial, &ground, &mut room, &mut stand)?;
    Ok(Some(set))
}

/// What sets are grown on for this partial choice, or want of memory.
fn prepared(alloc: Global, problem: &Problem, partial: &Partial) -> Result<Ground, OutOfMemory>
    requires { IsOf problem.now partial.now }
    ensures { IfOk result (IsGroundOf problem.now partial.now.marks) }
{
    Ok(Ground {
        columns: Columns::new(alloc, problem)?,
        order: by_value(alloc, problem)?,
        members: marked(alloc, problem, partial, Mark::Undecided)?,
    })
}

/// Betters a set until nothing does.
fn grow_on(
    alloc: Global,
    problem: &Problem,
    partial: &Partial,
    ground: &Ground,
    room: &mut Room,
    stand: &mut Stand,
) -> Result<Places, OutOfMemory>
    requires partial { IsOf problem.now partial.now }
    requires ground { IsGroundOf problem.now partial.now.marks ground.now }
    requires room { IsRoomOf problem.now room.old }
    requires of { IsStandOf problem.now stand.old }
    requires holds { Holds problem.now stand.old.marks }
    requires goes { GoesWith partial.now.marks stand.old.marks }

    // the set
    ensures grown { IfOk result (IsGrown problem.now partial.now.marks) }
    ensures no_less { IfOk result (λ set. (s : List ℕ) → ArePlaces problem.now s → AreMarksOf (length problem.now.items) s stand.old.marks → value_of problem.now s ≤ value_of problem.now set) }
{
    loop {
        stand.better(problem, &ground.columns, partial, ground.order.as_slice());
        if let Some(set) = stand.finish(alloc, problem, room, &ground.members)? {
            return Ok(set);
        }
    }
}
