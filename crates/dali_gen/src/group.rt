ghost use Rattle.std.specs.Prelude.{◌≡◌, ◌+◌, ◌*◌, ◌<◌, ◌++◌, ◌∷◌, [], OnOk, codes};
ghost use Rattle.dali_base.specs.Spelling.{two_digits};
ghost use Rattle.dali_gen.specs.Limits.{code_count, group_count};
ghost use Rattle.dali_gen.specs.Draws.{state_after};
ghost use Rattle.dali_gen.specs.Instructions.{fields_of, after_commas, IsListed};
ghost use Rattle.dali_gen.specs.Day.{IsDayNumber, text_of, prices as prices_of, instruction_line, cycle_line, group_size, hour_of, group_lines, all_group_lines};

use crate::draws::Draws;
use crate::fields::add_two_digits;
use crate::instruction::Instruction;
use crate::limits::{GROUP_COUNT, GROUP_SHARE};
use dali_base::{OutOfMemory, Text};

/// The hour of the first group.
const FIRST_HOUR: u32 = 9;

/// Adds the lines of all groups. The next draw is the first one behind those of the prices.
pub(crate) fn add_groups(
    text: &mut Text,
    draws: &mut Draws,
    prices: &[u32],
    n: u32,
) -> Result<(), OutOfMemory>
    requires number { IsDayNumber n }
    requires prices { prices.now ≡ prices_of n }
    requires state { draws.old ≡ state_after code_count n }
    ensures { OnOk result (text.new ≡ text.old ++ text_of (all_group_lines n)) }
{
    for group in 0..GROUP_COUNT {
        add_group(text, draws, prices, n, group)?;
    }
    Ok(())
}

/// Adds the lines of a group, counted from 0: its instructions and its cycle.
fn add_group(
    text: &mut Text,
    draws: &mut Draws,
    prices: &[u32],
    n: u32,
    group: u32,
) -> Result<(), OutOfMemory>
    requires number { IsDayNumber n }
    requires group { group < group_count }
    requires prices { prices.now ≡ prices_of n }
    requires state { draws.old ≡ state_after (code_count + 5 * (group_size n * group)) n }
    ensures text { OnOk result (text.new ≡ text.old ++ text_of (group_lines n group)) }
    ensures state { OnOk result (draws.new ≡ state_after (code_count + 5 * (group_size n * (group + 1))) n) }
{
    let size = GROUP_SHARE * n;
    for place in 0..size {
        let instruction = Instruction::draw(draws, prices, size * group + place + 1);
        add_instruction(text, FIRST_HOUR + group, &instruction)?;
    }
    add_cycle(text, FIRST_HOUR + group)
}

/// Adds an instruction's line, at the moment of an hour.
fn add_instruction(text: &mut Text, hour: u32, instruction: &Instruction) -> Result<(), OutOfMemory>
    requires hour { hour < 100 }
    requires listed { IsListed instruction.now }
    ensures { OnOk result (text.new ≡ text.old ++ ((two_digits hour ++ codes "0000" ++ after_commas (fields_of instruction.now)) ++ 10 ∷ [])) }
{
    add_two_digits(text, hour)?;
    text.add(b"0000")?;
    instruction.add_to(text)?;
    text.push(b'\n')
}

/// Adds the line of the cycle at half past an hour.
fn add_cycle(text: &mut Text, hour: u32) -> Result<(), OutOfMemory>
    requires { hour < 100 }
    ensures { OnOk result (text.new ≡ text.old ++ (cycle_line hour ++ 10 ∷ [])) }
{
    add_two_digits(text, hour)?;
    text.add(b"3000,CYCLE,40\n")
}
