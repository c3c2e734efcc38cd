//! What the program asks of the machine: three traits over which the source and the site are written, so that what they
//! ask can be told. The machine's own streams and file, in `machine.rt`, tell nothing.

use dali_outside::Failed;

/// Where bytes come from.
pub trait Input {
    ghost use Rattle.std.specs.Prelude.{◌≤◌, length, IfOk, List, Option};
    ghost use Rattle.dali.specs.Calls.{Call, Makes, read_call};

    /// The calls so far, oldest first, where it tells them.
    ghost calls: { Self → Option (List Call) };

    /// Reads once into the front of `into`, and answers how many bytes came. For a piece with room, 0 is the end of
    /// input.
    fn read(&mut self, into: &mut [u8]) -> Result<usize, Failed>
        ensures within { IfOk result (λ n. n ≤ length into.old) }
        ensures call { Makes (calls self.old) (calls self.new) (read_call result into.new) };
}

/// A file, whose places are counted from 0.
pub trait Device {
    ghost use Rattle.std.specs.Prelude.{List, Option, is_ok};
    ghost use Rattle.dali.specs.Calls.{Call, Makes, read_at, write_at, sync as sync_call};

    /// The calls so far, oldest first, where it tells them.
    ghost calls: { Self → Option (List Call) };

    /// Fills `into` with the bytes from place `at` on. `Failed` where it isn't full afterwards.
    fn read(&mut self, at: u64, into: &mut [u8]) -> Result<(), Failed>
        ensures call { Makes (calls self.old) (calls self.new) (read_at at into.new (is_ok result)) };

    /// Writes the whole piece from place `at` on.
    fn write(&mut self, at: u64, piece: &[u8]) -> Result<(), Failed>
        ensures call { Makes (calls self.old) (calls self.new) (write_at at piece.now (is_ok result)) };

    /// Makes what was written outlast a stop.
    fn sync(&mut self) -> Result<(), Failed>
        ensures call { Makes (calls self.old) (calls self.new) (sync_call (is_ok result)) };
}

/// Where bytes are printed.
pub trait Output {
    ghost use Rattle.std.specs.Prelude.{List, Option, is_ok};
    ghost use Rattle.dali.specs.Calls.{Call, Makes, print};

    /// The calls so far, oldest first, where it tells them.
    ghost calls: { Self → Option (List Call) };

    /// Prints the whole piece.
    fn print(&mut self, piece: &[u8]) -> Result<(), Failed>
        ensures call { Makes (calls self.old) (calls self.new) (print piece.now (is_ok result)) };
}
