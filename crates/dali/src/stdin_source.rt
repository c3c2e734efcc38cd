ghost use Rattle.std.specs.Prelude.{◌≡◌, ◌≤◌, false, [], length, is_ok, IfOk, OnErr};
ghost use Rattle.dali_outside.specs.Outside.{Rose};
ghost use Rattle.dali.specs.Calls.{Makes, read_call, count_after};

use crate::ports::Input;
use dali_outside::{Failed, Source};

/// Standard input as a source. It tells nothing of its content, and counts its failures.
#[derive(Drop)]
pub struct StdinSource<I> {
    input: I,
    faults: u64,
}

impl<I> StdinSource<I> {
    /// Over this input, with no failure counted.
    pub fn new(input: I) -> StdinSource<I>
        ensures input { result.input ≡ input }
        ensures none { result.faults ≡ 0 }
    {
        StdinSource { input, faults: 0 }
    }
}

impl<I: Input + Drop> Source for StdinSource<I> {
    ghost tells = { false };

    ghost feed = { λ s. record { left = []; faults = s.faults } };

    /// Gives exactly what one read of the input gives, and fails exactly where it fails.
    fn take(&mut self, into: &mut [u8]) -> Result<usize, Failed>
        ensures within { IfOk result (λ n. n ≤ length into.old) }
        ensures faults { self.old.faults ≤ self.new.faults }
        ensures failed { OnErr result (Rose self.old.faults self.new.faults) }
        ensures call { Makes (I.calls self.old.input) (I.calls self.new.input) (read_call result into.new) }
        ensures counted { self.new.faults ≡ count_after (is_ok result) self.old.faults }
    {
        let given = self.input.read(into);
        if given.is_err() {
            self.faults = self.faults.saturating_add(1);
        }
        given
    }
}
