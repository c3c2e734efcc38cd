ghost use Rattle.std.specs.Prelude.{◌≡◌, ◌+◌, ◌*◌, IfOk, length};
ghost use Rattle.dali_gen.specs.Day.{IsDayNumber, day_lines, generated};

use crate::draws::Draws;
use crate::group::add_groups;
use crate::opening::{add_opening, draw_prices};
use dali_base::{OutOfMemory, Text};
use std::alloc::Global;

/// The day file of a number from 1 to 64: 12 accounts, 30 codes, `16 * n` instructions and four cycles, in `89 + 16 * n`
/// lines. It is defined in `specs/Day.antt`. The error is want of memory.
pub fn generate(alloc: Global, n: u32) -> Result<Text, OutOfMemory>
    requires { IsDayNumber n }
    ensures exact { IfOk result (λ text. text ≡ generated n) }
    ensures lines { length (day_lines n) ≡ 89 + 16 * n }
{
    let mut text = Text::new(alloc);
    let mut draws = Draws::from(n);
    let prices = draw_prices(alloc, &mut draws)?;
    add_opening(&mut text, n, &prices)?;
    add_groups(&mut text, &mut draws, &prices, n)?;
    text.add(b"140000,CLOSE\n")?;
    Ok(text)
}
