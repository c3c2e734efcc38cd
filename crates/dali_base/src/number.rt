ghost use Rattle.std.specs.Prelude.{◌≡◌, ℕ, ◌≤◌, ◌<◌, ◌^◌, IfSome, IfNone, IsTrue, ◌↔◌, decimal};
ghost use Rattle.dali_base.specs.Spelling.{IsNumber};
ghost use Rattle.dali_base.specs.Readers.{spelled_number};

/// The number from 0 to `max` that these bytes spell in decimal, without a sign or a leading zero. `None` exactly
/// where they spell none. The spelling is defined in `specs/Spelling.antt`.
pub fn read_number(bytes: &[u8], max: u64) -> Option<u64>
    ensures exact { result ≡ spelled_number max bytes.now }
    ensures some { IfSome result (λ n. IsNumber max bytes.now n) }
    ensures none { IfNone result ((n : ℕ) → IsNumber max bytes.now n → ⊥) }
    ensures only { (n : ℕ) → IsNumber max bytes.now n → result ≡ Some n }
{
    number_within(bytes, max)
}

fn number_within(bytes: &[u8], max: u64) -> Option<u64>
    ensures some { IfSome result (λ n. IsNumber max bytes.now n) }
    ensures none { IfNone result ((n : ℕ) → IsNumber max bytes.now n → ⊥) }
{
    match parse(bytes) {
        Some(number) if number <= max && is_spelled(number, bytes) => Some(number),
        _ => None,
    }
}

/// The number that std's `parse` reads, which accepts more than the one spelling.
fn parse(bytes: &[u8]) -> Option<u64>
    ensures some { IfSome result (λ m. (n : ℕ) → n < 2 ^ 64 → bytes.now ≡ decimal n → m ≡ n) }
    ensures none { IfNone result ((n : ℕ) → n < 2 ^ 64 → bytes.now ≡ decimal n → ⊥) }
{
    match std::str::from_utf8(bytes) {
        Ok(text) => match text.parse::<u64>() {
            Ok(number) => Some(number),
            Err(_) => None,
        },
        Err(_) => None,
    }
}

fn is_spelled(number: u64, bytes: &[u8]) -> bool
    ensures { IsTrue result ↔ (bytes.now ≡ decimal number) }
{
    let mut buffer = itoa::Buffer::new();
    buffer.format(number).as_bytes() == bytes
}
