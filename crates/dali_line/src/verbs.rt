ghost use Rattle.std.specs.Prelude.{◌≡◌};
ghost use Rattle.dali_line.specs.Reading.{spelled_alone, named_verb as verb_with_name, spelled_cycle, spelled_with_one, spelled_inst, spelled_cutoff, spelled_link, spelled_rank, spelled_with_two, holding_verb as verb_of_holding, spelled_with_three, spelled_with_four, spelled_with_five, spelled_with_six};

use crate::command::Verb;
use crate::fields::{is_word, read_kind, read_within};
use crate::{MOST_BUDGET, MOST_PRICE, MOST_QUANTITY, MOST_RANK};
use dali_base::{Name, read_moment, read_name};

/// The verb of a word alone.
#[tactic(auto, unfolding(crate::specs::Reading::spelled_alone))]
pub(crate) fn read_alone(word: &[u8]) -> Option<Verb>
    ensures { result ≡ spelled_alone word.now }
{
    if is_word(word, b"QUEUE") {
        Some(Verb::Queue)
    } else if is_word(word, b"CLOSE") {
        Some(Verb::Close)
    } else {
        None
    }
}

/// The verb of a word with one field.
#[tactic(auto, unfolding(crate::specs::Reading::spelled_with_one))]
pub(crate) fn read_one(word: &[u8], field: &[u8]) -> Option<Verb>
    ensures { result ≡ spelled_with_one word.now field.now }
{
    if is_word(word, b"CYCLE") {
        return read_cycle(field);
    }
    let name = read_name(field)?;
    named_verb(word, name)
}

fn read_cycle(budget: &[u8]) -> Option<Verb>
    ensures { result ≡ spelled_cycle budget.now }
{
    let budget = read_within(budget, 0, MOST_BUDGET)?;
    Some(Verb::Cycle { budget })
}

/// The verb of a word with a name.
#[tactic(auto, unfolding(crate::specs::Reading::named_verb))]
fn named_verb(word: &[u8], name: Name) -> Option<Verb>
    ensures { result ≡ verb_with_name word.now name }
{
    if is_word(word, b"PART") {
        Some(Verb::Part { account: name })
    } else if is_word(word, b"CANCEL") {
        Some(Verb::Cancel { id: name })
    } else if is_word(word, b"SETTLE") {
        Some(Verb::Settle { id: name })
    } else if is_word(word, b"STAT") {
        Some(Verb::Stat { account: name })
    } else if is_word(word, b"LEDGER") {
        Some(Verb::Ledger { account: name })
    } else {
        None
    }
}

/// The verb of a word with two fields.
#[tactic(auto, unfolding(crate::specs::Reading::spelled_with_two))]
pub(crate) fn read_two(word: &[u8], first: &[u8], second: &[u8]) -> Option<Verb>
    ensures { result ≡ spelled_with_two word.now first.now second.now }
{
    if is_word(word, b"INST") {
        read_inst(first, second)
    } else if is_word(word, b"CUTOFF") {
        read_cutoff(first, second)
    } else if is_word(word, b"LINK") {
        read_link(first, second)
    } else if is_word(word, b"RANK") {
        read_rank(first, second)
    } else {
        None
    }
}

fn read_inst(code: &[u8], price: &[u8]) -> Option<Verb>
    ensures { result ≡ spelled_inst code.now price.now }
{
    let code = read_name(code)?;
    let price = read_within(price, 1, MOST_PRICE)?;
    Some(Verb::Inst { code, price })
}

fn read_cutoff(kind: &[u8], moment: &[u8]) -> Option<Verb>
    ensures { result ≡ spelled_cutoff kind.now moment.now }
{
    let kind = read_kind(kind)?;
    let moment = read_moment(moment)?;
    Some(Verb::Cutoff { kind, moment })
}

fn read_link(first: &[u8], second: &[u8]) -> Option<Verb>
    ensures { result ≡ spelled_link first.now second.now }
{
    let first = read_name(first)?;
    let second = read_name(second)?;
    Some(Verb::Link { first, second })
}

fn read_rank(id: &[u8], rank: &[u8]) -> Option<Verb>
    ensures { result ≡ spelled_rank id.now rank.now }
{
    let id = read_name(id)?;
    let rank = read_within(rank, 1, MOST_RANK)?;
    Some(Verb::Rank {
        id,
        rank: rank as u8,
    })
}

/// The verb of a word with an account, an asset and a quantity.
#[tactic(auto, unfolding(crate::specs::Reading::spelled_with_three))]
pub(crate) fn read_three(word: &[u8], account: &[u8], asset: &[u8], quantity: &[u8]) -> Option<Verb>
    ensures { result ≡ spelled_with_three word.now account.now asset.now quantity.now }
{
    let account = read_name(account)?;
    let asset = read_name(asset)?;
    let quantity = read_within(quantity, 1, MOST_QUANTITY)?;
    holding_verb(word, account, asset, quantity)
}

#[tactic(auto, unfolding(crate::specs::Reading::holding_verb))]
fn holding_verb(word: &[u8], account: Name, asset: Name, quantity: u64) -> Option<Verb>
    ensures { result ≡ verb_of_holding word.now account asset quantity }
{
    if is_word(word, b"ISSUE") {
        Some(Verb::Issue {
            account,
            asset,
            quantity,
        })
    } else if is_word(word, b"DRAW") {
        Some(Verb::Draw {
            account,
            asset,
            quantity,
        })
    } else if is_word(word, b"EARMARK") {
        Some(Verb::Earmark {
            account,
            asset,
            quantity,
        })
    } else if is_word(word, b"RELEASE") {
        Some(Verb::Release {
            account,
            asset,
            quantity,
        })
    } else {
        None
    }
}

/// The verb of a word with four fields: a payment.
#[tactic(auto, unfolding(crate::specs::Reading::spelled_with_four))]
pub(crate) fn read_four(word: &[u8], id: &[u8], from: &[u8], to: &[u8], cash: &[u8]) -> Option<Verb>
    ensures { result ≡ spelled_with_four word.now id.now from.now to.now cash.now }
{
    if !is_word(word, b"PAY") {
        return None;
    }
    let id = read_name(id)?;
    let from = read_name(from)?;
    let to = read_name(to)?;
    let cash = read_within(cash, 1, MOST_QUANTITY)?;
    Some(Verb::Pay { id, from, to, cash })
}

/// The verb of a word with five fields: a delivery free of payment.
#[tactic(auto, unfolding(crate::specs::Reading::spelled_with_five))]
pub(crate) fn read_five(
    word: &[u8],
    id: &[u8],
    from: &[u8],
    to: &[u8],
    code: &[u8],
    quantity: &[u8],
) -> Option<Verb>
    ensures { result ≡ spelled_with_five word.now id.now from.now to.now code.now quantity.now }
{
    if !is_word(word, b"FOP") {
        return None;
    }
    let id = read_name(id)?;
    let from = read_name(from)?;
    let to = read_name(to)?;
    let code = read_name(code)?;
    let quantity = read_within(quantity, 1, MOST_QUANTITY)?;
    Some(Verb::Fop {
        id,
        from,
        to,
        code,
        quantity,
    })
}

/// The verb of a word with six fields: a delivery against payment.
#[tactic(auto, unfolding(crate::specs::Reading::spelled_with_six))]
pub(crate) fn read_six(
    word: &[u8],
    id: &[u8],
    seller: &[u8],
    buyer: &[u8],
    code: &[u8],
    quantity: &[u8],
    cash: &[u8],
) -> Option<Verb>
    ensures { result ≡ spelled_with_six word.now id.now seller.now buyer.now code.now quantity.now cash.now }
{
    if !is_word(word, b"DVP") {
        return None;
    }
    let id = read_name(id)?;
    let seller = read_name(seller)?;
    let buyer = read_name(buyer)?;
    let code = read_name(code)?;
    let quantity = read_within(quantity, 1, MOST_QUANTITY)?;
    let cash = read_within(cash, 1, MOST_QUANTITY)?;
    Some(Verb::Dvp {
        id,
        seller,
        buyer,
        code,
        quantity,
        cash,
    })
}
