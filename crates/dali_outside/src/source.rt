ghost use Rattle.std.specs.Prelude.{◌≡◌, ◌≤◌, Bool, length, IfOk, OnOk, OnErr, IsTrue};
ghost use Rattle.dali_outside.specs.Outside.{Feed, Rose, Takes};

use crate::fault::Failed;

/// Where input bytes come from.
pub trait Source {
    /// Whether it tells what its bytes are.
    ghost tells: { Bool };

    /// What it is: the bytes left, where it tells them, and its count of read faults.
    ghost feed: { Self → Feed };

    /// Moves some first bytes of those left into the front of `into`, and answers how many. For a piece that isn't
    /// empty, 0 is the end of input.
    ///
    /// `Failed` comes only where the count of faults rose, or stands at u64's last value. The bytes left are then as
    /// before. Where it doesn't come, the count stays, so a call that failed shows in it.
    fn take(&mut self, into: &mut [u8]) -> Result<usize, Failed>
        ensures within { IfOk result (λ n. n ≤ length into.old) }
        ensures taken { IsTrue tells → IfOk result (λ n. Takes into.new n (feed self.old) (feed self.new)) }
        ensures kept { IsTrue tells → OnErr result ((feed self.new).left ≡ (feed self.old).left) }
        ensures faults { (feed self.old).faults ≤ (feed self.new).faults }
        ensures quiet { OnOk result ((feed self.new).faults ≡ (feed self.old).faults) }
        ensures failed { OnErr result (Rose (feed self.old).faults (feed self.new).faults) };
}
