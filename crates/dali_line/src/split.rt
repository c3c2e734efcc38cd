ghost use Rattle.std.specs.Prelude.{◌≡◌, ◌<◌, ◌==◌, ◌∷◌, [], length, position, IfSome, IfNone};
ghost use Rattle.std.specs.List.{slice_split};

/// The bytes before the first `byte`, and those behind it. `None` exactly where there is none.
pub(crate) fn split_once(bytes: &[u8], byte: u8) -> Option<(&[u8], &[u8])>
    ensures some { IfSome result (λ r. slice_split (λ b. b == byte) bytes.now ≡ r.0.now ∷ slice_split (λ b. b == byte) r.1.now) }
    ensures none { IfNone result (slice_split (λ b. b == byte) bytes.now ≡ bytes.now ∷ []) }
    ensures shorter { IfSome result (λ r. length r.1.now < length bytes.now) }
{
    match find(bytes, byte) {
        Some(at) => Some((&bytes[..at], &bytes[at + 1..])),
        None => None,
    }
}

/// The place of the first `byte`.
pub(crate) fn find(bytes: &[u8], byte: u8) -> Option<usize>
    ensures { result ≡ position (λ b. b == byte) bytes.now }
{
    bytes.iter().position(|b| *b == byte)
}
