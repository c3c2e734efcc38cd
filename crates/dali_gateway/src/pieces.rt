ghost use Rattle.std.specs.Prelude.{◌≡◌, ◌≢◌, ◌≤◌, ◌<◌, ◌∷◌, ◌++◌, length, take, decimal, slice_index, IfOk, IfErr, IfSome, IfNone};
ghost use Rattle.dali_gateway.specs.Refusal.{SpellsWithin, RefusesWord, RefusesNumber};

use crate::refusal::Refused;
use dali_base::read_number;

/// What stands behind this word.
pub(crate) fn word<'a>(bytes: &'a [u8], word: &[u8]) -> Result<&'a [u8], Refused>
    ensures ok { IfOk result (λ rest. bytes.now ≡ word.now ++ rest.now) }
    ensures form { IfErr result (RefusesWord word.now bytes.now) }
{
    let same = agreeing(bytes, word);
    if same < word.len() {
        return Err(Refused::Form {
            left: bytes.len() - same,
        });
    }
    Ok(&bytes[same..])
}

/// How many first bytes of both are the same.
fn agreeing(bytes: &[u8], word: &[u8]) -> usize
    ensures front { take result bytes.now ≡ take result word.now }
    ensures bytes { result ≤ length bytes.now }
    ensures word { result ≤ length word.now }
    ensures stops { result < length bytes.now → result < length word.now → slice_index bytes.now result ≢ slice_index word.now result }
{
    let least = bytes.len().min(word.len());
    for at in 0..least {
        if bytes[at] != word[at] {
            return at;
        }
    }
    least
}

/// A number from `low` to `high` with an LF behind it, and what stands behind that.
pub(crate) fn number_line(bytes: &[u8], low: u64, high: u64) -> Result<(u64, &[u8]), Refused>
    ensures least { IfOk result (λ x. low ≤ x.0) }
    ensures most { IfOk result (λ x. x.0 ≤ high) }
    ensures line { IfOk result (λ x. bytes.now ≡ decimal x.0 ++ 10 ∷ x.1.now) }
    ensures form { IfErr result (RefusesNumber low high bytes.now) }
{
    let mut digits = 0;
    let mut number = 0;
    'digits: while digits < bytes.len() {
        if bytes[digits] == b'\n' && digits > 0 {
            return Ok((number, &bytes[digits + 1..]));
        }
        match number_within(&bytes[..digits + 1], low, high) {
            Some(longer) => {
                number = longer;
                digits += 1;
            }
            None => {
                return Err(Refused::Form {
                    left: bytes.len() - digits,
                });
            }
        }
    }
    Err(Refused::Form { left: 0 })
}

/// The number from `low` to `high` that the bytes spell.
fn number_within(bytes: &[u8], low: u64, high: u64) -> Option<u64>
    ensures some { IfSome result (λ n. (low ≤ n) × (n ≤ high) × (bytes.now ≡ decimal n)) }
    ensures none { IfNone result (SpellsWithin low high bytes.now → ⊥) }
{
    let number = read_number(bytes, high)?;
    if low <= number { Some(number) } else { None }
}
