ghost use Rattle.std.specs.Prelude.{◌≡◌, ◌≤◌, ◌-◌, ℕ, length, take, drop, is_ok, IfOk, OnOk, OnErr};
ghost use Rattle.std.specs.Io.KnownBytes.{Appends, Keeps, ReadConsumes};

use dali_outside::Failed;
use std::io::{ErrorKind, Read, Write};

/// Reads once into the front of `into`, again where a signal cut the read off, and answers how many bytes came: 0 for a
/// piece with room only at the end. Nothing is lost where the read failed.
pub fn read_some<R: Read>(reader: &mut R, into: &mut [u8]) -> Result<usize, Failed>
    ensures within { IfOk result (λ n. n ≤ length into.old) }
    ensures bytes { ReadConsumes (R.remaining reader.old) (R.remaining reader.new) result into.new }
{
    for _ in 0..u64::MAX {
        match reader.read(into) {
            Ok(n) => return Ok(n),
            Err(error) if error.kind() == ErrorKind::Interrupted => {}
            Err(_) => return Err(Failed),
        }
    }
    Err(Failed)
}

/// Prints the whole piece. Where that fails a front of it may be printed.
pub fn print_all<W: Write>(writer: &mut W, piece: &[u8]) -> Result<(), Failed>
    ensures whole { OnOk result (Appends (W.contents writer.old) (W.contents writer.new) piece.now) }
    ensures front { OnErr result ((n : ℕ) × Appends (W.contents writer.old) (W.contents writer.new) (take n piece.now)) }
{
    let mut done = 0;
    for _ in 0..u64::MAX {
        if done >= piece.len() {
            return Ok(());
        }
        match writer.write(&piece[done..]) {
            Ok(0) => return Err(Failed),
            Ok(n) => done += n,
            Err(error) if error.kind() == ErrorKind::Interrupted => {}
            Err(_) => return Err(Failed),
        }
    }
    Err(Failed)
}
