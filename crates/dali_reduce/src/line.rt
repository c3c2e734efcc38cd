ghost use Rattle.std.specs.Prelude.{◌≡◌, ℕ, ◌<◌, ◌==◌, ◌⊎◌, length, IfOk, OnOk, MatchBool};
ghost use Rattle.std.specs.List.{All, list_any};
ghost use Rattle.dali_problem.specs.Limits.{IsProblem, AreEffects};
ghost use Rattle.dali_problem.specs.Rules.{is_short};
ghost use Rattle.dali_problem.specs.Kept.{IsOf};
ghost use Rattle.dali_problem.specs.Touches.{touches};
ghost use Rattle.dali_reduce.specs.Reduced.{HasShort, AreColumns};
ghost use Rattle.dali_reduce.specs.Run.{GoesOn, Waits, Clears, IsTouch, IsUnmoved};

use crate::taking::take_at;
use dali_base::OutOfMemory;
use dali_problem::{Columns, Effect, Partial, Problem, Touch};
use dali_tree::Fixes;

/// Takes the fixes that the places of this line give, where it isn't short. Whether it is short.
pub(crate) fn settle_line(
    problem: &Problem,
    columns: &Columns,
    line: u32,
    partial: &mut Partial,
    fixes: &mut Fixes,
) -> Result<bool, OutOfMemory>
    requires of { IsOf problem.now partial.old }
    requires columns { AreColumns problem.now columns.now }
    requires line { line < length problem.now.lines }
    ensures of { IsOf problem.now partial.new }
    ensures goes { GoesOn problem.now partial.old.marks partial.new.marks fixes.old fixes.new }
    ensures settled { IfOk result (λ short. MatchBool short
        (HasShort problem.now partial.new.marks)
        (Clears problem.now partial.old.marks partial.new.marks fixes.old fixes.new (λ l. line == l))) }
{
    let _items = problem.items();
    if partial.is_short(line) {
        return Ok(true);
    }
    walk(problem, columns.touching(line), line, partial, fixes)?;
    Ok(false)
}

/// The same of each line that effects stand on, up to one that is short.
pub(crate) fn settle_lines(
    problem: &Problem,
    columns: &Columns,
    effects: &[Effect],
    partial: &mut Partial,
    fixes: &mut Fixes,
) -> Result<bool, OutOfMemory>
    requires of { IsOf problem.now partial.old }
    requires columns { AreColumns problem.now columns.now }
    requires lines { All (λ e. e.line < length problem.now.lines) effects.now }
    ensures of { IsOf problem.now partial.new }
    ensures goes { GoesOn problem.now partial.old.marks partial.new.marks fixes.old fixes.new }
    ensures settled { IfOk result (λ short. MatchBool short
        (HasShort problem.now partial.new.marks)
        (Clears problem.now partial.old.marks partial.new.marks fixes.old fixes.new (λ l. list_any (λ e. e.line == l) effects.now))) }
{
    for effect in effects {
        if settle_line(problem, columns, effect.line, partial, fixes)? {
            return Ok(true);
        }
    }
    Ok(false)
}

/// Takes the fixes that these places of a line give.
fn walk(
    problem: &Problem,
    touches: &[Touch],
    line: u32,
    partial: &mut Partial,
    fixes: &mut Fixes,
) -> Result<(), OutOfMemory>
    requires of { IsOf problem.now partial.old }
    requires line { line < length problem.now.lines }
    requires touches { All (IsTouch problem.now line) touches.now }
    ensures of { IsOf problem.now partial.new }
    ensures goes { GoesOn problem.now partial.old.marks partial.new.marks fixes.old fixes.new }
    ensures stands { OnOk result (Waits problem.now fixes.new (length fixes.old) line
        ⊎ IsUnmoved problem.now partial.old.marks partial.new.marks fixes.old fixes.new line touches.now) }
{
    for touch in touches {
        take_at(problem, touch, line, partial, fixes)?;
    }
    Ok(())
}
