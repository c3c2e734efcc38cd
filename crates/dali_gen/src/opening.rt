ghost use Rattle.std.specs.Prelude.{◌≡◌, ◌<◌, ◌++◌, ◌∷◌, [], OnOk, IfOk, slice_index, length};
ghost use Rattle.dali_gen.specs.Limits.{code_count};
ghost use Rattle.dali_gen.specs.Draws.{state_after, given};
ghost use Rattle.dali_gen.specs.Day.{text_of, prices as prices_of, price as price_of, part_line, inst_line, cash_line, holding_line, part_lines, inst_lines, cash_lines, holding_lines};

use crate::draws::Draws;
use crate::fields::{add_account, add_code, add_code_field, add_number};
use crate::limits::{ACCOUNT_COUNT, CODE_COUNT};
use dali_base::{OutOfMemory, Text};
use std::alloc::Global;

/// How many prices there are.
const PRICES: u32 = 100;

/// The prices of all codes, in centavos, by the draws from here on.
pub(crate) fn draw_prices(alloc: Global, draws: &mut Draws) -> Result<Vec<u32>, OutOfMemory>
    ensures prices { IfOk result (λ prices. prices.items ≡ prices_of draws.old) }
    ensures state { OnOk result (draws.new ≡ state_after code_count draws.old) }
{
    let mut prices = Vec::with_capacity(alloc, CODE_COUNT as usize)?;
    for _ in 0..CODE_COUNT {
        prices.push(100 * (1 + draws.draw(PRICES)))?;
    }
    Ok(prices)
}

/// Adds the lines of the accounts and the codes, and those of what each account has at the start.
pub(crate) fn add_opening(text: &mut Text, n: u32, prices: &[u32]) -> Result<(), OutOfMemory>
    requires { prices.now ≡ prices_of n }
    ensures { OnOk result (text.new ≡ text.old ++ (text_of part_lines ++ (text_of (inst_lines n) ++ (text_of cash_lines ++ text_of holding_lines)))) }
{
    add_parts(text)?;
    add_insts(text, n, prices)?;
    add_cash(text)?;
    add_holdings(text)
}

/// Adds a line for each account.
fn add_parts(text: &mut Text) -> Result<(), OutOfMemory>
    ensures { OnOk result (text.new ≡ text.old ++ text_of part_lines) }
{
    for account in 0..ACCOUNT_COUNT {
        add_part(text, account)?;
    }
    Ok(())
}

fn add_part(text: &mut Text, account: u32) -> Result<(), OutOfMemory>
    requires { account < 99 }
    ensures { OnOk result (text.new ≡ text.old ++ (part_line account ++ 10 ∷ [])) }
{
    text.add(b"080000,PART,")?;
    add_account(text, account)?;
    text.push(b'\n')
}

/// Adds a line for each code with its price.
fn add_insts(text: &mut Text, n: u32, prices: &[u32]) -> Result<(), OutOfMemory>
    requires { prices.now ≡ prices_of n }
    ensures { OnOk result (text.new ≡ text.old ++ text_of (inst_lines n)) }
{
    for (code, price) in prices.iter().enumerate() {
        add_inst(text, n, code as u32, *price)?;
    }
    Ok(())
}

fn add_inst(text: &mut Text, n: u32, code: u32, price: u32) -> Result<(), OutOfMemory>
    requires code { code < 99 }
    requires price { price ≡ price_of n code }
    ensures { OnOk result (text.new ≡ text.old ++ (inst_line n code ++ 10 ∷ [])) }
{
    text.add(b"080000,INST,")?;
    add_code(text, code)?;
    add_number(text, u64::from(price))?;
    text.push(b'\n')
}

/// Adds a line of cash for each account.
fn add_cash(text: &mut Text) -> Result<(), OutOfMemory>
    ensures { OnOk result (text.new ≡ text.old ++ text_of cash_lines) }
{
    for account in 0..ACCOUNT_COUNT {
        add_cash_of(text, account)?;
    }
    Ok(())
}

fn add_cash_of(text: &mut Text, account: u32) -> Result<(), OutOfMemory>
    requires { account < 99 }
    ensures { OnOk result (text.new ≡ text.old ++ (cash_line account ++ 10 ∷ [])) }
{
    text.add(b"080000,ISSUE,")?;
    add_account(text, account)?;
    text.add(b",MXN,1000000\n")
}

/// Adds a line for each code with who has it.
fn add_holdings(text: &mut Text) -> Result<(), OutOfMemory>
    ensures { OnOk result (text.new ≡ text.old ++ text_of holding_lines) }
{
    for code in 0..CODE_COUNT {
        add_holding(text, code)?;
    }
    Ok(())
}

fn add_holding(text: &mut Text, code: u32) -> Result<(), OutOfMemory>
    requires { code < 99 }
    ensures { OnOk result (text.new ≡ text.old ++ (holding_line code ++ 10 ∷ [])) }
{
    text.add(b"080000,ISSUE,")?;
    add_account(text, code % ACCOUNT_COUNT)?;
    add_code_field(text, code)?;
    text.add(b",1000\n")
}
