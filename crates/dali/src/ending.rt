ghost use Rattle.std.specs.Prelude.{◌≡◌, ◌+◌, ◌<◌, ◌≤◌, ◌++◌, [], ◌∷◌, Bool, length, take};
ghost use Rattle.std.specs.Process.{exit_status};
ghost use Rattle.dali_desk.specs.StatusLine.{line_of, number_of};
ghost use Rattle.dali.specs.Calls.{Makes, print};

use crate::ports::Output;
use dali_desk::{Status, exit_number, status_line};
use std::process::ExitCode;

/// Prints the status's line with an LF behind it, by one call, where it has a line, and answers the status's number.
pub fn end<O: Output>(status: &Status, output: &mut O) -> ExitCode
    ensures number { exit_status result ≡ number_of status.now }
    ensures line { 0 < length (line_of status.now) → (worked : Bool) × Makes (O.calls output.old) (O.calls output.new) (print (line_of status.now ++ 10 ∷ []) worked) }
    ensures silent { length (line_of status.now) ≡ 0 → output.new ≡ output.old }
{
    let mut line = [0; 160];
    let len = status_line(status, &mut line);
    if len > 0 {
        say(&line[..len], output);
    }
    ExitCode::from(exit_number(status))
}

/// Prints a line with an LF behind it, by one call.
fn say<O: Output>(line: &[u8], output: &mut O)
    requires { length line.now ≤ 160 }
    ensures { (worked : Bool) × Makes (O.calls output.old) (O.calls output.new) (print (line.now ++ 10 ∷ []) worked) }
{
    let mut whole = [0; 161];
    let len = put_behind(&mut whole, 0, line);
    let len = put_behind(&mut whole, len, b"\n");
    let _ = output.print(&whole[..len]);
}

/// Puts the bytes behind the first `len` ones, and answers how many these are then.
fn put_behind(into: &mut [u8; 161], len: usize, bytes: &[u8]) -> usize
    requires { len + length bytes.now ≤ 161 }
    ensures put { take result into.new ≡ take len into.old ++ bytes.now }
    ensures len { result ≡ len + length bytes.now }
{
    into[len..len + bytes.len()].copy_from_slice(bytes);
    len + bytes.len()
}
