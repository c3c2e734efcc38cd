ghost use Rattle.std.specs.Prelude.{◌≡◌, ◌<◌, ◌≤◌, ◌==◌, ◌∷◌, [], length, position, IfSome};
ghost use Rattle.std.specs.Option.{option_map};
ghost use Rattle.dali_base.specs.Readers.{same_bytes};
ghost use Rattle.dali_cert_text.specs.Fields.{pieces, fields_in, first_of, cut_at_colon as cut_at};

/// The place of the first `byte`.
pub(crate) fn find(bytes: &[u8], byte: u8) -> Option<usize>
    ensures { result ≡ position (λ b. b == byte) bytes.now }
{
    bytes.iter().position(|b| *b == byte)
}

/// The bytes before the first comma, and the others from that comma on.
pub(crate) fn cut(bytes: &[u8]) -> (&[u8], &[u8])
    ensures pieces { pieces bytes.now ≡ result.0.now ∷ fields_in result.1.now }
    ensures shorter { length result.1.now ≤ length bytes.now }
{
    match find(bytes, b',') {
        Some(at) => bytes.split_at(at),
        None => (bytes, &[]),
    }
}

/// The first field behind a word or a field, and what stands behind it. `None` exactly where there is none.
pub(crate) fn first_field(rest: &[u8]) -> Option<(&[u8], &[u8])>
    ensures first { option_map (λ x. (x.0.now, fields_in x.1.now)) result ≡ first_of (fields_in rest.now) }
    ensures shorter { IfSome result (λ x. length x.1.now < length rest.now) }
{
    match rest {
        [] => None,
        [_, bytes @ ..] => Some(cut(bytes)),
    }
}

/// The bytes before the first colon, and those behind it.
#[tactic(auto, unfolding(crate::specs::Fields::cut_at_colon))]
pub(crate) fn cut_at_colon(bytes: &[u8]) -> Option<(&[u8], &[u8])>
    ensures { option_map (λ x. (x.0.now, x.1.now)) result ≡ cut_at bytes.now }
{
    let at = find(bytes, b':')?;
    Some((&bytes[..at], &bytes[at + 1..]))
}

/// Whether the bytes are this word.
pub(crate) fn is_word(bytes: &[u8], word: &[u8]) -> bool
    ensures { result ≡ same_bytes bytes.now word.now }
{
    bytes == word
}
