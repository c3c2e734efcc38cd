ghost use Rattle.std.specs.Prelude.{◌≡◌, ◌<◌, ◌++◌, ◌∷◌, [], IsTrue, OnOk, IfOk, decimal, length};
ghost use Rattle.dali_base.specs.Spelling.{DAY, moment_digits};
ghost use Rattle.dali_line.specs.Line.{is_line};
ghost use Rattle.dali_line.specs.Grammar.{IsName, HasFields, kind_text, word_of, fields_of, pieces_of, spelling};
ghost use Rattle.dali_line.specs.Writing.{after_commas, HasNumbers};

use crate::command::{Command, Verb};
use crate::line::Line;
use dali_base::{Kind, Moment, Name, OutOfMemory, Text};
use std::alloc::Global;

/// The one spelling of the command. Each number of the command lies in the range of its field.
pub fn write_line(alloc: Global, command: &Command) -> Result<Line, OutOfMemory>
    requires { HasNumbers command.now.verb }
    ensures { IfOk result (λ line. line ≡ spelling command.now) }
{
    let mut text = Text::new(alloc);
    text.add(&command.moment.digits())?;
    add_verb(&mut text, &command.verb)?;
    Ok(Line::of(text))
}

/// Adds the verb's word and its fields, each behind a comma.
fn add_verb(text: &mut Text, verb: &Verb) -> Result<(), OutOfMemory>
    requires { HasNumbers verb.now }
    ensures added { OnOk result (text.new ≡ text.old ++ after_commas (pieces_of verb.now)) }
    ensures fields { OnOk result (HasFields verb.now) }
{
    add_piece(text, word(verb))?;
    add_fields(text, verb)
}

/// The verb's word.
fn word(verb: &Verb) -> &'static [u8]
    ensures { result.now ≡ word_of verb.now }
{
    match verb {
        Verb::Part { .. } => b"PART",
        Verb::Inst { .. } => b"INST",
        Verb::Issue { .. } => b"ISSUE",
        Verb::Draw { .. } => b"DRAW",
        Verb::Dvp { .. } => b"DVP",
        Verb::Fop { .. } => b"FOP",
        Verb::Pay { .. } => b"PAY",
        Verb::Cancel { .. } => b"CANCEL",
        Verb::Settle { .. } => b"SETTLE",
        Verb::Cutoff { .. } => b"CUTOFF",
        Verb::Cycle { .. } => b"CYCLE",
        Verb::Queue => b"QUEUE",
        Verb::Close => b"CLOSE",
        Verb::Stat { .. } => b"STAT",
        Verb::Ledger { .. } => b"LEDGER",
        Verb::Earmark { .. } => b"EARMARK",
        Verb::Release { .. } => b"RELEASE",
        Verb::Link { .. } => b"LINK",
        Verb::Rank { .. } => b"RANK",
    }
}

/// Adds the verb's fields.
fn add_fields(text: &mut Text, verb: &Verb) -> Result<(), OutOfMemory>
    requires { HasNumbers verb.now }
    ensures added { OnOk result (text.new ≡ text.old ++ after_commas (fields_of verb.now)) }
    ensures fields { OnOk result (HasFields verb.now) }
{
    match verb {
        Verb::Queue | Verb::Close => Ok(()),
        Verb::Part { account: name }
        | Verb::Stat { account: name }
        | Verb::Ledger { account: name }
        | Verb::Cancel { id: name }
        | Verb::Settle { id: name } => add_name(text, name),
        Verb::Cycle { budget } => add_number(text, *budget),
        Verb::Inst { code, price } => add_numbered(text, code, *price),
        Verb::Rank { id, rank } => add_numbered(text, id, u64::from(*rank)),
        Verb::Link { first, second } => add_names(text, first, second),
        Verb::Cutoff { kind, moment } => add_cutoff(text, *kind, moment),
        Verb::Issue { .. } | Verb::Draw { .. } | Verb::Earmark { .. } | Verb::Release { .. } => {
            add_three(text, verb)
        }
        Verb::Dvp { .. } | Verb::Fop { .. } | Verb::Pay { .. } => add_more(text, verb),
    }
}

/// Adds the fields of a verb that has three: an account, an asset and a quantity.
fn add_three(text: &mut Text, verb: &Verb) -> Result<(), OutOfMemory>
    requires numbers { HasNumbers verb.now }
    requires three { length (fields_of verb.now) ≡ 3 }
    ensures added { OnOk result (text.new ≡ text.old ++ after_commas (fields_of verb.now)) }
    ensures fields { OnOk result (HasFields verb.now) }
{
    match verb {
        Verb::Issue {
            account,
            asset,
            quantity,
        }
        | Verb::Draw {
            account,
            asset,
            quantity,
        }
        | Verb::Earmark {
            account,
            asset,
            quantity,
        }
        | Verb::Release {
            account,
            asset,
            quantity,
        } => add_holding(text, account, asset, *quantity),
        _ => unreachable!(),
    }
}

/// Adds the fields of a verb that has more than three: it enters an instruction.
fn add_more(text: &mut Text, verb: &Verb) -> Result<(), OutOfMemory>
    requires numbers { HasNumbers verb.now }
    requires more { 3 < length (fields_of verb.now) }
    ensures added { OnOk result (text.new ≡ text.old ++ after_commas (fields_of verb.now)) }
    ensures fields { OnOk result (HasFields verb.now) }
{
    match verb {
        Verb::Dvp {
            id,
            seller,
            buyer,
            code,
            quantity,
            cash,
        } => {
            add_parties(text, id, seller, buyer)?;
            add_numbered(text, code, *quantity)?;
            add_number(text, *cash)
        }
        Verb::Fop {
            id,
            from,
            to,
            code,
            quantity,
        } => {
            add_parties(text, id, from, to)?;
            add_numbered(text, code, *quantity)
        }
        Verb::Pay { id, from, to, cash } => {
            add_parties(text, id, from, to)?;
            add_number(text, *cash)
        }
        _ => unreachable!(),
    }
}

fn add_piece(text: &mut Text, piece: &[u8]) -> Result<(), OutOfMemory>
    ensures { OnOk result (text.new ≡ text.old ++ after_commas (piece.now ∷ [])) }
{
    text.push(b',')?;
    text.add(piece)
}

fn add_number(text: &mut Text, number: u64) -> Result<(), OutOfMemory>
    ensures { OnOk result (text.new ≡ text.old ++ after_commas (decimal number ∷ [])) }
{
    text.push(b',')?;
    text.add_number(number)
}

fn add_name(text: &mut Text, name: &Name) -> Result<(), OutOfMemory>
    ensures added { OnOk result (text.new ≡ text.old ++ after_commas (name.now ∷ [])) }
    ensures name { OnOk result (IsName name.now) }
{
    add_piece(text, name.bytes())
}

/// Two names.
fn add_names(text: &mut Text, first: &Name, second: &Name) -> Result<(), OutOfMemory>
    ensures added { OnOk result (text.new ≡ text.old ++ after_commas (first.now ∷ second.now ∷ [])) }
    ensures first { OnOk result (IsName first.now) }
    ensures second { OnOk result (IsName second.now) }
{
    add_name(text, first)?;
    add_name(text, second)
}

/// A name and a number.
fn add_numbered(text: &mut Text, name: &Name, number: u64) -> Result<(), OutOfMemory>
    ensures added { OnOk result (text.new ≡ text.old ++ after_commas (name.now ∷ decimal number ∷ [])) }
    ensures name { OnOk result (IsName name.now) }
{
    add_name(text, name)?;
    add_number(text, number)
}

/// An account, an asset and a quantity.
fn add_holding(
    text: &mut Text,
    account: &Name,
    asset: &Name,
    quantity: u64,
) -> Result<(), OutOfMemory>
    ensures added { OnOk result (text.new ≡ text.old ++ after_commas (account.now ∷ asset.now ∷ decimal quantity ∷ [])) }
    ensures account { OnOk result (IsName account.now) }
    ensures asset { OnOk result (IsName asset.now) }
{
    add_names(text, account, asset)?;
    add_number(text, quantity)
}

/// An instruction's id and its two accounts.
fn add_parties(text: &mut Text, id: &Name, giver: &Name, taker: &Name) -> Result<(), OutOfMemory>
    ensures added { OnOk result (text.new ≡ text.old ++ after_commas (id.now ∷ giver.now ∷ taker.now ∷ [])) }
    ensures id { OnOk result (IsName id.now) }
    ensures giver { OnOk result (IsName giver.now) }
    ensures taker { OnOk result (IsName taker.now) }
{
    add_name(text, id)?;
    add_names(text, giver, taker)
}

/// The cut-off of a kind.
fn add_cutoff(text: &mut Text, kind: Kind, moment: &Moment) -> Result<(), OutOfMemory>
    ensures added { OnOk result (text.new ≡ text.old ++ after_commas (kind_text kind ∷ moment_digits moment.now ∷ [])) }
    ensures moment { OnOk result (moment.now < DAY) }
{
    add_piece(text, kind_bytes(kind))?;
    add_piece(text, &moment.digits())
}

fn kind_bytes(kind: Kind) -> &'static [u8]
    ensures { result.now ≡ kind_text kind }
{
    match kind {
        Kind::Dvp => b"DVP",
        Kind::Fop => b"FOP",
        Kind::Pay => b"PAY",
    }
}
