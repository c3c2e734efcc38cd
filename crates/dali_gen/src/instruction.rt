ghost use Rattle.std.specs.Prelude.{◌≡◌, ◌+◌, ◌<◌, ◌^◌, ◌++◌, ◌∷◌, OnOk, length, decimal, codes};
ghost use Rattle.dali_gen.specs.Draws.{state_after};
ghost use Rattle.dali_gen.specs.Instructions.{kind_of, taker_of, drawn_from, id_of, word_of, code_name, terms_of, fields_of, after_commas, IsListed};
ghost use Rattle.dali_gen.specs.Limits.{code_count};

use crate::draws::Draws;
use crate::fields::{add_account_field, add_code_field, add_field, add_number};
use crate::limits::{ACCOUNT_COUNT, CODE_COUNT};
use dali_base::{Kind, OutOfMemory, Text};

/// The kinds of an instruction.
const KINDS: u32 = 3;

/// The greatest quantity of an instruction.
const MOST_UNITS: u32 = 500;

/// An instruction of a generated day, of which `specs/Instructions.antt` speaks.
#[derive(Clone, Copy)]
pub struct Instruction {
    /// Its number, counted from 1 over the whole day.
    pub number: u32,
    /// Its kind.
    pub kind: Kind,
    /// The number of its giver, from 0.
    pub giver: u32,
    /// The number of its taker, from 0.
    pub taker: u32,
    /// The number of its code, from 0.
    pub code: u32,
    /// How much of the code is delivered.
    pub quantity: u64,
    /// The quantity times the price of the code, in centavos.
    pub amount: u64,
}

impl Instruction {
    /// The instruction of this number that is drawn next, as `specs/Instructions.antt` defines, at these prices of the
    /// codes.
    pub(crate) fn draw(draws: &mut Draws, prices: &[u32], number: u32) -> Instruction
        requires { length prices.now ≡ code_count }
        ensures state { draws.new ≡ state_after 5 draws.old }
        ensures drawn { result ≡ drawn_from prices.now draws.old number }
        ensures listed { IsListed result }
    {
        let kind = kind(draws.draw(KINDS));
        let giver = draws.draw(ACCOUNT_COUNT);
        let taker = taker(giver, draws.draw(ACCOUNT_COUNT - 1));
        let code = draws.draw(CODE_COUNT);
        let quantity = u64::from(1 + draws.draw(MOST_UNITS));
        let amount = quantity * u64::from(prices[code as usize]);
        Instruction {
            number,
            kind,
            giver,
            taker,
            code,
            quantity,
            amount,
        }
    }

    /// Adds what stands on the instruction's line behind its moment: each field behind a comma.
    pub(crate) fn add_to(&self, text: &mut Text) -> Result<(), OutOfMemory>
        requires { IsListed self.now }
        ensures { OnOk result (text.new ≡ text.old ++ after_commas (fields_of self.now)) }
    {
        add_field(text, word(self.kind))?;
        self.add_id(text)?;
        add_account_field(text, self.giver)?;
        add_account_field(text, self.taker)?;
        self.add_terms(text)
    }

    fn add_id(&self, text: &mut Text) -> Result<(), OutOfMemory>
        ensures { OnOk result (text.new ≡ text.old ++ 44 ∷ id_of self.now.number) }
    {
        text.add(b",T")?;
        text.add_number(u64::from(self.number))
    }

    /// Adds what an instruction of this kind says behind its accounts.
    fn add_terms(&self, text: &mut Text) -> Result<(), OutOfMemory>
        requires { IsListed self.now }
        ensures { OnOk result (text.new ≡ text.old ++ after_commas (terms_of self.now.kind self.now)) }
    {
        match self.kind {
            Kind::Dvp => {
                self.add_holding(text)?;
                add_number(text, self.amount)
            }
            Kind::Fop => self.add_holding(text),
            Kind::Pay => add_number(text, self.amount),
        }
    }

    /// Adds the code and how much of it is delivered.
    fn add_holding(&self, text: &mut Text) -> Result<(), OutOfMemory>
        requires { IsListed self.now }
        ensures { OnOk result (text.new ≡ text.old ++ 44 ∷ (code_name self.now.code ++ 44 ∷ decimal self.now.quantity)) }
    {
        add_code_field(text, self.code)?;
        add_number(text, self.quantity)
    }
}

/// The kind of a draw of 3.
fn kind(draw: u32) -> Kind
    ensures { result ≡ kind_of draw }
{
    match draw {
        0 => Kind::Dvp,
        1 => Kind::Fop,
        _ => Kind::Pay,
    }
}

/// The account that is so many steps behind the one after the giver, where the accounts go round.
fn taker(giver: u32, step: u32) -> u32
    requires { giver + 1 + step < 2 ^ 32 }
    ensures { result ≡ taker_of giver step }
{
    (giver + 1 + step) % ACCOUNT_COUNT
}

/// The word of a kind.
fn word(kind: Kind) -> &'static [u8]
    ensures { result.now ≡ word_of kind }
{
    match kind {
        Kind::Dvp => b"DVP",
        Kind::Fop => b"FOP",
        Kind::Pay => b"PAY",
    }
}
