ghost use Rattle.std.specs.Prelude.{◌≡◌, ℕ, ◌<◌, [], ◌∷◌, ◌++◌, length, replicate, OnOk};
ghost use Rattle.dali_problem.specs.Limits.{AreEffects};
ghost use Rattle.dali_problem.specs.Touches.{touches, entries, column_at};

use crate::columns::Touch;
use crate::problem::Problem;
use crate::row::Effect;
use dali_base::{OutOfMemory, Seq};

/// Adds a place's effect at the end of the column of its line.
fn push_touch(column: &mut Seq<Touch>, place: u32, effect: &Effect) -> Result<(), OutOfMemory>
    ensures { OnOk result (column.new ≡ column.old ++ record { place = place; amount = effect.now.amount } ∷ []) }
{
    column.push(Touch {
        place,
        amount: effect.amount,
    })
}

/// Adds a place's effects to the columns of their lines.
fn enter_effects(
    columns: &mut [Seq<Touch>],
    place: u32,
    effects: &[Effect],
) -> Result<(), OutOfMemory>
    requires { AreEffects (length columns.old) effects.now }
    ensures { OnOk result ((l : ℕ) → l < length columns.new → column_at columns.new l
        ≡ column_at columns.old l ++ entries place l effects.now) }
{
    for effect in effects {
        push_touch(&mut columns[effect.line as usize], place, effect)?;
    }
    Ok(())
}

/// Adds each item's effects to the empty columns of their lines.
pub(crate) fn enter_items(columns: &mut [Seq<Touch>], problem: &Problem) -> Result<(), OutOfMemory>
    requires { columns.old ≡ replicate (length problem.now.lines) [] }
    ensures { OnOk result ((l : ℕ) → l < length columns.new → column_at columns.new l ≡ touches problem.now l) }
{
    for place in 0..problem.items() {
        enter_effects(columns, place, problem.effects(place))?;
    }
    Ok(())
}
