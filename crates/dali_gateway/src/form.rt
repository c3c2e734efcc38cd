ghost use Rattle.std.specs.Prelude.{◌≡◌, ℕ, zero, suc, ◌≤◌, ◌<◌, ◌∷◌, ◌++◌, length, map, All, IfOk, IfErr, IfSome, IfNone};
ghost use Rattle.std.specs.List.{flat_map};
ghost use Rattle.dali_gateway.specs.Limits.{most_turns};
ghost use Rattle.dali_gateway.specs.Form.{IsInbox, inbox_text, turns_text, letter};
ghost use Rattle.dali_gateway.specs.Gateway.{whole_of, unopened};
ghost use Rattle.dali_gateway.specs.Language.{Ended, Lettered, Sized, Tail, AtEnd};
ghost use Rattle.dali_gateway.specs.Refusal.{Refuses, LacksLetter};

use crate::inbox::Inbox;
use crate::limits::{MOST_INBOX, MOST_TURNS};
use crate::pieces::{number_line, word};
use crate::refusal::Refused;
use dali_base::Text;
use std::alloc::Global;

/// The letter of a turn of the first inbox.
const FIRST_LETTER: u8 = b'A';

/// So many inboxes, of which nothing was taken, and what stands behind them.
pub(crate) fn read_inboxes(
    alloc: Global,
    bytes: &[u8],
    count: u64,
) -> Result<(Vec<Inbox>, &[u8]), Refused>
    ensures count { IfOk result (λ x. length x.0.items ≡ count) }
    ensures fresh { IfOk result (λ x. x.0.items ≡ map unopened (map whole_of x.0.items)) }
    ensures each { IfOk result (λ x. All IsInbox (map whole_of x.0.items)) }
    ensures text { IfOk result (λ x. bytes.now ≡ flat_map inbox_text (map whole_of x.0.items) ++ x.1.now) }
    ensures form { (inboxes : ℕ) → 1 ≤ inboxes → IfErr result (Refuses (Tail inboxes count) bytes.now) }
{
    let mut inboxes = Vec::new(alloc);
    let mut rest = bytes;
    'inboxes: for _ in 0..count {
        // Memory is taken for bytes that are there, and never by a size that is named alone.
        let (inbox, behind) = read_inbox(rest)?;
        let mut text = Text::new(alloc);
        text.add(inbox)?;
        inboxes.push(Inbox::new(text))?;
        rest = behind;
    }
    Ok((inboxes, rest))
}

/// The bytes of an inbox, and what stands behind it.
fn read_inbox(bytes: &[u8]) -> Result<(&[u8], &[u8]), Refused>
    ensures inbox { IfOk result (λ x. IsInbox x.0.now) }
    ensures text { IfOk result (λ x. bytes.now ≡ inbox_text x.0.now ++ x.1.now) }
    ensures form { (inboxes further : ℕ) → 1 ≤ inboxes → IfErr result (Refuses (Tail inboxes (suc further)) bytes.now) }
{
    let rest = word(bytes, b"INBOX,")?;
    let (size, rest) = number_line(rest, 0, MOST_INBOX)?;
    let (inbox, rest) = sized(rest, size as usize)?;
    let rest = word(rest, b"\n")?;
    Ok((inbox, rest))
}

/// The first bytes, so many, and the others.
fn sized(bytes: &[u8], size: usize) -> Result<(&[u8], &[u8]), Refused>
    ensures small { IfOk result (λ x. All (λ b. b < 256) x.0.now) }
    ensures size { IfOk result (λ x. length x.0.now ≡ size) }
    ensures text { IfOk result (λ x. bytes.now ≡ x.0.now ++ x.1.now) }
    ensures form { (inboxes further : ℕ) → 1 ≤ inboxes → IfErr result (Refuses (Sized size (Ended (Tail inboxes further))) bytes.now) }
{
    if bytes.len() < size {
        return Err(Refused::Form { left: 0 });
    }
    Ok(bytes.split_at(size))
}

/// The turns of so many inboxes, each as the number of its inbox, up to the end of the bytes.
pub(crate) fn read_turns(alloc: Global, bytes: &[u8], inboxes: u64) -> Result<Text, Refused>
    requires { 1 ≤ inboxes }
    ensures known { IfOk result (λ turns. All (λ turn. turn < inboxes) turns) }
    ensures count { IfOk result (λ turns. length turns ≤ most_turns) }
    ensures text { IfOk result (λ turns. bytes.now ≡ turns_text turns) }
    ensures form { IfErr result (Refuses (Tail inboxes zero) bytes.now) }
{
    let rest = word(bytes, b"TURNS,")?;
    let (count, rest) = number_line(rest, 0, MOST_TURNS)?;
    let (turns, rest) = read_letters(alloc, rest, inboxes, count)?;
    let rest = word(rest, b"\n")?;
    if !rest.is_empty() {
        return Err(Refused::Form { left: rest.len() });
    }
    Ok(turns)
}

/// The turns of so many letters, and what stands behind them.
fn read_letters(
    alloc: Global,
    bytes: &[u8],
    inboxes: u64,
    count: u64,
) -> Result<(Text, &[u8]), Refused>
    requires { 1 ≤ inboxes }
    ensures known { IfOk result (λ x. All (λ turn. turn < inboxes) x.0) }
    ensures count { IfOk result (λ x. length x.0 ≡ count) }
    ensures text { IfOk result (λ x. bytes.now ≡ map letter x.0 ++ x.1.now) }
    ensures form { IfErr result (Refuses (Lettered inboxes count (Ended AtEnd)) bytes.now) }
{
    let mut turns = Text::new(alloc);
    let mut rest = bytes;
    'letters: for _ in 0..count {
        match first_turn(rest, inboxes) {
            Some((turn, behind)) => {
                turns.push(turn)?;
                rest = behind;
            }
            None => return Err(Refused::Form { left: rest.len() }),
        }
    }
    Ok((turns, rest))
}

/// The turn of the first letter, and what stands behind it. `None` exactly where there is none of one of so many inboxes.
fn first_turn(bytes: &[u8], inboxes: u64) -> Option<(u8, &[u8])>
    ensures some { IfSome result (λ x. (x.0 < inboxes) × (bytes.now ≡ letter x.0 ∷ x.1.now)) }
    ensures none { IfNone result (LacksLetter inboxes bytes.now) }
{
    let (first, behind) = bytes.split_first()?;
    let turn = first.checked_sub(FIRST_LETTER)?;
    if u64::from(turn) < inboxes {
        Some((turn, behind))
    } else {
        None
    }
}
