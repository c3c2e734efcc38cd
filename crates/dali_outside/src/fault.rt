ghost use Rattle.std.specs.Prelude.{◌≡◌, ◌+◌, ◌-◌, ◌^◌, ◌==◌};
ghost use Rattle.std.specs.List.{find};

use dali_base::Seq;

/// A call to the outside failed. Its count of faults rose, or stands at u64's last value.
#[derive(Clone, Copy, Debug, PartialEq, Eq)]
pub struct Failed;

/// A call that is to fail: its number, counted from 1, and how many bytes of its piece go through all the same. Of a
/// write these bytes stand afterwards, and EE in each other byte of its range; of a put they are printed. A `went`
/// greater than the piece counts as the piece's length; no other call has a piece.
#[derive(Clone, Copy, Debug, PartialEq, Eq)]
pub struct Fault {
    pub call: u64,
    pub went: u32,
}

/// A list of calls that are to fail. Of several entries for one call the first counts.
pub type Faults = Seq<Fault>;

/// The first entry for this call, if it is to fail.
pub(crate) fn fault_at(fails: &Faults, call: u64) -> Option<Fault>
    ensures { result ≡ find (λ fault. fault.call == call) fails.now }
{
    fails
        .as_slice()
        .iter()
        .copied()
        .find(|fault| fault.call == call)
}
