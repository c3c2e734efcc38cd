ghost use Rattle.std.specs.Prelude.{◌≡◌, ◌+◌, ◌<◌, ◌≤◌, ◌^◌, [], true, false, length, Err, IfOk, IfErr, OnOk, IsTrue};
ghost use Rattle.dali_outside.specs.Outside.{Feed};
ghost use Rattle.dali_desk.specs.Input.{Gathers, EndsInput, status_of_unread};

use crate::status::Status;
use dali_base::Text;
use dali_outside::Source;
use std::alloc::Global;

/// The bytes that are taken from a source at once.
const PIECE: usize = 65_536;

/// Why an input wasn't read whole.
#[derive(Clone, Copy, Debug, PartialEq, Eq)]
pub(crate) enum InputNo {
    /// The source failed.
    ReadFault,
    /// It has more bytes than it may have, and one past these was taken.
    LongFile,
    /// Memory was wanted and wasn't there.
    OutOfMemory,
}

/// The whole input, which has at most `most` bytes. How much of it was taken at each answer is defined in
/// `specs/Input.antt`.
pub(crate) fn read_input<S: Source>(
    alloc: Global,
    source: &mut S,
    most: usize,
) -> Result<Text, InputNo>
    requires { most + 1 < 2 ^ 64 }
    ensures { EndsInput S.tells most (S.feed source.old) (S.feed source.new) result }
{
    let Ok(mut piece) = vec![in alloc; 0; PIECE] else {
        return Err(InputNo::OutOfMemory);
    };
    let mut bytes = Text::new(alloc);
    'pieces: loop {
        match take_piece(source, &mut piece[..], &mut bytes, most) {
            Ok(true) => {}
            Ok(false) => return Ok(bytes),
            Err(no) => return Err(no),
        }
    }
}

/// Takes the next bytes of the source behind these. `false` exactly at the end of input.
fn take_piece<S: Source>(
    source: &mut S,
    piece: &mut [u8],
    bytes: &mut Text,
    most: usize,
) -> Result<bool, InputNo>
    requires room { 0 < length piece.old }
    requires most { most + 1 < 2 ^ 64 }
    requires within { length bytes.old ≤ most }

    // what is there
    ensures room { length piece.new ≡ length piece.old }
    ensures within { OnOk result (length bytes.new ≤ most) }
    ensures longer { IfOk result (λ more. more ≡ true → length bytes.old < length bytes.new) }

    // what that is of the input
    ensures gathers { (old : Feed) → Gathers S.tells most old bytes.old (S.feed source.old) → OnOk result (Gathers S.tells most old bytes.new (S.feed source.new)) }
    ensures end { IsTrue S.tells → IfOk result (λ more. more ≡ false → (S.feed source.new).left ≡ []) }

    // why it stops
    ensures stops { (old : Feed) → Gathers S.tells most old bytes.old (S.feed source.old) → IfErr result (λ e. EndsInput S.tells most old (S.feed source.new) (Err e)) }
{
    let size = piece.len().min(most - bytes.len() + 1);
    let Ok(n) = source.take(&mut piece[..size]) else {
        return Err(InputNo::ReadFault);
    };
    if n == 0 {
        return Ok(false);
    }
    if bytes.len() + n > most {
        return Err(InputNo::LongFile);
    }
    match bytes.add(&piece[..n]) {
        Ok(()) => Ok(true),
        Err(_) => Err(InputNo::OutOfMemory),
    }
}

/// The status of a run whose input wasn't read whole.
pub(crate) fn status_of_unread(refusal: InputNo) -> Status
    ensures { result ≡ status_of_unread refusal }
{
    match refusal {
        InputNo::ReadFault => Status::ReadFault,
        InputNo::LongFile => Status::LongFile,
        InputNo::OutOfMemory => Status::OutOfMemory,
    }
}
