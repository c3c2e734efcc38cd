ghost use Rattle.std.specs.Prelude.{◌≡◌, ◌<◌, ◌++◌, length, map, IfOk, OnOk};
ghost use Rattle.std.specs.List.{All};
ghost use Rattle.dali_problem.specs.declared.row.Effect.{Effect};
ghost use Rattle.dali_restrict.specs.Restriction.{AreChanged};

use dali_base::{OutOfMemory, Places, Seq};
use dali_problem::{Effect, Problem};
use std::alloc::Global;

/// The lines that some of these places changes, rising.
pub(crate) fn changed_lines(
    alloc: Global,
    problem: &Problem,
    members: &[u32],
) -> Result<Places, OutOfMemory>
    requires { All (λ j. j < length problem.now.items) members.now }
    ensures { IfOk result (λ lines. AreChanged problem.now members.now lines) }
{
    let mut lines = Vec::new(alloc);
    let _items = problem.items();
    for place in members {
        add_changed(&mut lines, problem.effects(*place))?;
    }
    lines.sort_unstable();
    lines.dedup();
    Ok(Seq::from_vec(lines))
}

/// Adds the lines of these effects at the end.
fn add_changed(lines: &mut Vec<u32>, effects: &[Effect]) -> Result<(), OutOfMemory>
    ensures { OnOk result (lines.new.items ≡ lines.old.items ++ map (λ (e : Effect). e.line) effects.now) }
{
    for effect in effects {
        lines.push(effect.line)?;
    }
    Ok(())
}
