ghost use Rattle.std.specs.Prelude.{◌≡◌, ◌<◌, ◌≤◌, [], length, map, IfOk, OnOk};
ghost use Rattle.std.specs.List.{All, AllPairs, Contains};
ghost use Rattle.dali_base.specs.Limits.{most_lines};
ghost use Rattle.dali_problem.specs.Clearing.{line_at};
ghost use Rattle.dali_problem.specs.declared.row.Effect.{Effect};
ghost use Rattle.dali_problem.specs.Feasible.{ArePlaces};
ghost use Rattle.dali_problem.specs.Limits.{IsProblem};
ghost use Rattle.dali_restrict.specs.Restriction.{old_of, wide_effect, AreChanged, IsRestriction, CoverEffects, IsAdding};

use crate::lines::changed_lines;
use dali_base::{OutOfMemory, Places};
use dali_problem::{Effect, Problem};
use std::alloc::Global;

/// Places of a problem and the lines that they change as a problem of their own, and the old numbers of both.
#[derive(Drop)]
pub struct Restricted {
    /// The places and the lines, renumbered in order.
    pub problem: Problem,
    /// The old number of each place, rising.
    pub places: Places,
    /// The old number of each line, rising.
    pub lines: Places,
}

/// The members of a part and the lines that they change, renumbered in order, with the old numbers, as
/// `specs/Restriction.antt` defines. The members are rising places of the problem. Costs what the members have of effects.
/// Answers only want of memory but Ok.
pub fn restrict(
    alloc: Global,
    problem: &Problem,
    members: &Places,
) -> Result<Restricted, OutOfMemory>
    requires { ArePlaces problem.now members.now }
    ensures restriction { IfOk result (λ inner. IsRestriction problem.now members.now inner.problem inner.lines) }
    ensures members { IfOk result (λ inner. inner.places ≡ members.now) }
    ensures bounds { IfOk result (λ inner. IsProblem inner.problem) }
{
    let _old = problem.items();
    let lines = changed_lines(alloc, problem, members.as_slice())?;
    let mut inner = Problem::new(alloc);
    add_lines(&mut inner, problem, lines.as_slice())?;
    add_items(
        alloc,
        &mut inner,
        problem,
        members.as_slice(),
        lines.as_slice(),
    )?;
    let places = members.copy(alloc)?;
    let _items = inner.items();
    Ok(Restricted {
        problem: inner,
        places,
        lines,
    })
}

/// Adds these lines of a problem to an empty one.
fn add_lines(inner: &mut Problem, problem: &Problem, lines: &[u32]) -> Result<(), OutOfMemory>
    requires empty { inner.old ≡ record { lines = []; items = [] } }
    requires rising { AllPairs (λ k l. k < l) lines.now }
    requires in_range { All (λ l. l < length problem.now.lines) lines.now }
    ensures { OnOk result (inner.new ≡ record { lines = map (line_at problem.now) lines.now; items = [] }) }
{
    let _lines = problem.lines();
    for line in lines {
        inner.add_line(*problem.line(*line))?;
    }
    Ok(())
}

/// Adds an item for each of these members, on these lines.
fn add_items(
    alloc: Global,
    inner: &mut Problem,
    problem: &Problem,
    members: &[u32],
    lines: &[u32],
) -> Result<(), OutOfMemory>
    requires empty { inner.old.items ≡ [] }
    requires same { length inner.old.lines ≡ length lines.now }
    requires places { ArePlaces problem.now members.now }
    requires changed { AreChanged problem.now members.now lines.now }
    requires few { length lines.now ≤ most_lines }
    ensures { OnOk result (IsAdding problem.now inner.old.lines lines.now members.now inner.new) }
{
    let _items = problem.items();
    for place in members {
        let effects = effects_on(alloc, problem.effects(*place), lines)?;
        inner.add_item(
            problem.id(*place),
            problem.value(*place),
            effects.as_slice(),
        )?;
    }
    Ok(())
}

/// These effects with the new numbers of their lines.
fn effects_on(alloc: Global, effects: &[Effect], lines: &[u32]) -> Result<Vec<Effect>, OutOfMemory>
    requires { CoverEffects lines.now effects.now }
    ensures same { IfOk result (λ found. map (wide_effect lines.now) found.items ≡ effects.now) }
    ensures within { IfOk result (λ found. All (λ (e : Effect). e.line < length lines.now) found.items) }
{
    let mut found = Vec::with_capacity(alloc, effects.len())?;
    for effect in effects {
        found.push(Effect {
            line: number_of(lines, effect.line),
            amount: effect.amount,
        })?;
    }
    Ok(found)
}

/// The new number of a line.
fn number_of(lines: &[u32], line: u32) -> u32
    requires rising { AllPairs (λ k l. k < l) lines.now }
    requires there { Contains lines.now line }
    requires few { length lines.now ≤ most_lines }
    ensures within { result < length lines.now }
    ensures same { old_of lines.now result ≡ line }
{
    match lines.binary_search(&line) {
        Ok(at) => at as u32,
        Err(_) => 0,
    }
}
