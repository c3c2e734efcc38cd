ghost use Rattle.std.specs.Prelude.{◌≡◌, ℕ, ◌<◌, ◌≤◌, [], ◌∷◌, IfSome, IfNone};
ghost use Rattle.dali_base.specs.Spelling.{DAY, moment_digits, two_digits as two_digits_of};
ghost use Rattle.dali_base.specs.Readers.{spelled_moment};

use std::marker::Model;

/// A moment of the day, which contracts see as the seconds since midnight, 0 to 86,399.
#[derive(Clone, Copy, Debug, PartialEq, Eq, Hash, PartialOrd, Ord)]
pub struct Moment {
    seconds: u32,
}

impl Model for Moment {
    ghost use Rattle.std.specs.Prelude.{ℕ, ◌<◌};
    ghost use Rattle.dali_base.specs.Spelling.{DAY};

    ghost Value = { ℕ };

    ghost view = { λ m. m.seconds };

    ghost invariant = { λ m. m.seconds < DAY };

    ghost inverse = { λ n. record { seconds = n } };
}

impl Moment {
    /// The six digits of the moment: hour, minute and second, two each.
    pub fn digits(&self) -> [u8; 6]
        ensures digits { result ≡ moment_digits self.now }
        ensures within { self.now < DAY }
    {
        let [hour_ten, hour_one] = two_digits(self.seconds / 3600);
        let [minute_ten, minute_one] = two_digits(self.seconds / 60 % 60);
        let [second_ten, second_one] = two_digits(self.seconds % 60);
        [
            hour_ten, hour_one, minute_ten, minute_one, second_ten, second_one,
        ]
    }
}

fn two_digits(n: u32) -> [u8; 2]
    requires { n < 100 }
    ensures { result ≡ two_digits_of n }
{
    [b'0' + (n / 10) as u8, b'0' + (n % 10) as u8]
}

/// The moment that these bytes spell in six digits, from 000000 to 235959 with minutes and seconds up to 59. `None`
/// exactly where they spell none.
pub fn read_moment(bytes: &[u8]) -> Option<Moment>
    ensures exact { result ≡ spelled_moment bytes.now }
    ensures some { IfSome result (λ m. (m < DAY) × (bytes.now ≡ moment_digits m)) }
    ensures none { IfNone result ((m : ℕ) → m < DAY → bytes.now ≡ moment_digits m → ⊥) }
    ensures only { (s : ℕ) → s < DAY → bytes.now ≡ moment_digits s → result ≡ Some s }
{
    match read_seconds(bytes) {
        Some(seconds) => Some(Moment { seconds }),
        None => None,
    }
}

/// The seconds since midnight that six digits spell.
fn read_seconds(bytes: &[u8]) -> Option<u32>
    ensures some { IfSome result (λ s. (s < DAY) × (bytes.now ≡ moment_digits s)) }
    ensures none { IfNone result ((s : ℕ) → s < DAY → bytes.now ≡ moment_digits s → ⊥) }
{
    let [
        hour_ten,
        hour_one,
        minute_ten,
        minute_one,
        second_ten,
        second_one,
    ] = bytes
    else {
        return None;
    };
    let hour = read_two_digits(*hour_ten, *hour_one, 24)?;
    let minute = read_two_digits(*minute_ten, *minute_one, 60)?;
    let second = read_two_digits(*second_ten, *second_one, 60)?;
    Some(3600 * hour + 60 * minute + second)
}

/// The number below `limit` that these two digits spell.
fn read_two_digits(ten: u8, one: u8, limit: u32) -> Option<u32>
    requires { limit ≤ 100 }
    ensures some { IfSome result (λ n. (n < limit) × (ten ∷ one ∷ [] ≡ two_digits_of n)) }
    ensures none { IfNone result ((n : ℕ) → n < limit → ten ∷ one ∷ [] ≡ two_digits_of n → ⊥) }
{
    if !ten.is_ascii_digit() || !one.is_ascii_digit() {
        return None;
    }
    let n = 10 * u32::from(ten - b'0') + u32::from(one - b'0');
    if n < limit { Some(n) } else { None }
}
