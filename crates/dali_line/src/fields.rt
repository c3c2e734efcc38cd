ghost use Rattle.std.specs.Prelude.{◌≡◌, ◌≤◌, IfSome};
ghost use Rattle.dali_base.specs.Readers.{same_bytes};
ghost use Rattle.dali_line.specs.Reading.{spelled_within, spelled_kind};

use dali_base::{Kind, read_number};

/// The number from `low` to `high` that the bytes spell.
#[tactic(auto, unfolding(crate::specs::Reading::spelled_within))]
pub(crate) fn read_within(bytes: &[u8], low: u64, high: u64) -> Option<u64>
    ensures exact { result ≡ spelled_within low high bytes.now }
    ensures within { IfSome result (λ n. n ≤ high) }
{
    let number = read_number(bytes, high)?;
    if number >= low { Some(number) } else { None }
}

/// The kind that the bytes spell.
#[tactic(auto, unfolding(crate::specs::Reading::spelled_kind))]
pub(crate) fn read_kind(bytes: &[u8]) -> Option<Kind>
    ensures { result ≡ spelled_kind bytes.now }
{
    if is_word(bytes, b"DVP") {
        Some(Kind::Dvp)
    } else if is_word(bytes, b"FOP") {
        Some(Kind::Fop)
    } else if is_word(bytes, b"PAY") {
        Some(Kind::Pay)
    } else {
        None
    }
}

pub(crate) fn is_word(piece: &[u8], word: &[u8]) -> bool
    ensures { result ≡ same_bytes piece.now word.now }
{
    piece == word
}
