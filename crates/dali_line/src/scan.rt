ghost use Rattle.std.specs.Prelude.{◌≡◌, ◌≢◌, ◌==◌, ◌+◌, ◌*◌, ◌-◌, ◌≤◌, ◌<◌, List, ℕ, [], ◌∷◌, ◌++◌, Err, true, false, length, take, drop, position, IfOk, OnOk, IfErr, IfSome, IfNone, OnErr, IsTrue};
ghost use Rattle.dali_outside.specs.Outside.{Rose};
ghost use Rattle.dali_line.specs.Limits.{most_file};
ghost use Rattle.dali_line.specs.Lines.{Reach, reach, Stops, IsLong};
ghost use Rattle.dali_line.specs.Open.{InOneLine, StandsFor, IsTooLong, Midway, nothing_open};
ghost use Rattle.dali_line.specs.Line.{is_line};
ghost use Rattle.dali_line.specs.Scan.{Finds, Steps, NotAtEnd, IsEnded, EndsWith, CutsOff};

use crate::block::Block;
use crate::limits::{MOST_COMMAND, MOST_FILE};
use crate::line::Line;
use crate::line_end::LineEnd;
use crate::open_line::{OpenLine, TooLong};
use crate::split::find;
use dali_base::OutOfMemory;
use dali_outside::{Failed, Source};
use std::alloc::Global;

/// What the bytes up to the end of a line gave.
pub(crate) enum Found {
    /// A command that an LF ended.
    Ended(Line),
    /// A command that the end of input ended.
    Last(Line),
    /// The end of input, and no command.
    Nothing,
}

/// Reads on to the end of the next command, whose number is given.
pub(crate) fn read_command<S: Source>(
    alloc: Global,
    block: &mut Block,
    line: &mut OpenLine,
    taken: &mut u64,
    source: &mut S,
    number: u64,
) -> Result<Found, LineEnd>
    requires line { line.old ≡ nothing_open }
    requires taken { taken.old ≤ most_file }

    // what is answered
    ensures found { IfOk result (Finds S.tells (reach block.old taken.old (S.feed source.old)) (reach block.new taken.new (S.feed source.new))) }
    ensures stops { IfErr result (Stops S.tells number (reach block.old taken.old (S.feed source.old)) (reach block.new taken.new (S.feed source.new))) }

    // the count of the faults
    ensures faults { (S.feed source.old).faults ≤ (S.feed source.new).faults }
    ensures quiet { result ≢ Err LineEnd.ReadFault → (S.feed source.new).faults ≡ (S.feed source.old).faults }
    ensures failed { result ≡ Err LineEnd.ReadFault → Rose (S.feed source.old).faults (S.feed source.new).faults }

    // how much is taken
    ensures within { taken.new ≤ most_file }
    ensures counted { taken.old + length block.new ≤ taken.new + length block.old }
{
    'turns: loop {
        match step(block, line, taken, source, number) {
            Ok(Turn::Part) => {}
            Ok(Turn::Newline) => {
                if let Some(bytes) = line.ended() {
                    return ended(alloc, bytes);
                }
                line.clear();
            }
            Ok(Turn::End) => return last(alloc, line, number),
            Err(end) => return Err(end),
        }
    }
}

/// What a step came to.
#[derive(Clone, Copy)]
pub(crate) enum Turn {
    /// More bytes of the line.
    Part,
    /// The LF of the line.
    Newline,
    /// The end of input.
    End,
}

/// Takes bytes into the block where it is empty, else moves those up to an LF behind the open line.
fn step<S: Source>(
    block: &mut Block,
    line: &mut OpenLine,
    taken: &mut u64,
    source: &mut S,
    number: u64,
) -> Result<Turn, LineEnd>
    requires taken { taken.old ≤ most_file }

    // what is answered
    ensures steps { (old : Reach) → Midway S.tells old line.old (reach block.old taken.old (S.feed source.old)) → IfOk result (Steps S.tells old line.new (reach block.new taken.new (S.feed source.new))) }
    ensures stops { (old : Reach) → Midway S.tells old line.old (reach block.old taken.old (S.feed source.old)) → IfErr result (Stops S.tells number old (reach block.new taken.new (S.feed source.new))) }

    // the count of the faults
    ensures faults { (S.feed source.old).faults ≤ (S.feed source.new).faults }
    ensures quiet { result ≢ Err LineEnd.ReadFault → (S.feed source.new).faults ≡ (S.feed source.old).faults }
    ensures failed { result ≡ Err LineEnd.ReadFault → Rose (S.feed source.old).faults (S.feed source.new).faults }

    // how much is taken, and what becomes less
    ensures within { taken.new ≤ most_file }
    ensures counted { taken.old + length block.new ≤ taken.new + length block.old }
    ensures shorter { IfOk result (λ turn. NotAtEnd turn → 2 * (most_file - taken.new) + length block.new < 2 * (most_file - taken.old) + length block.old) }
{
    if block.is_empty() {
        return match refill(block, line, taken, source, number) {
            Ok(true) => Ok(Turn::Part),
            Ok(false) => Ok(Turn::End),
            Err(end) => Err(end),
        };
    }
    match move_line(block, line) {
        Ok(true) => Ok(Turn::Newline),
        Ok(false) => Ok(Turn::Part),
        Err(TooLong) => Err(LineEnd::LongLine { command: number }),
    }
}

/// Takes bytes into the empty block. False at the end of input.
fn refill<S: Source>(
    block: &mut Block,
    line: &mut OpenLine,
    taken: &mut u64,
    source: &mut S,
    number: u64,
) -> Result<bool, LineEnd>
    requires block { block.old ≡ [] }
    requires taken { taken.old ≤ most_file }

    // what is answered
    ensures more { (old : Reach) → Midway S.tells old line.old (reach block.old taken.old (S.feed source.old)) → OnOk result (Midway S.tells old line.new (reach block.new taken.new (S.feed source.new))) }
    ensures some { IfOk result (λ more. more ≡ true → 0 < length block.new) }
    ensures counted { taken.new ≡ taken.old + length block.new }
    ensures within { taken.new ≤ most_file }
    ensures end { IfOk result (λ more. more ≡ false → (block.new ≡ []) × (IsTrue S.tells → (S.feed source.new).left ≡ [])) }
    ensures stops { (old : Reach) → Midway S.tells old line.old (reach block.old taken.old (S.feed source.old)) → IfErr result (Stops S.tells number old (reach block.new taken.new (S.feed source.new))) }

    // the count of the faults
    ensures faults { (S.feed source.old).faults ≤ (S.feed source.new).faults }
    ensures quiet { result ≢ Err LineEnd.ReadFault → (S.feed source.new).faults ≡ (S.feed source.old).faults }
    ensures failed { result ≡ Err LineEnd.ReadFault → Rose (S.feed source.old).faults (S.feed source.new).faults }
{
    if *taken == MOST_FILE {
        return past_limit(line, source, number);
    }
    match block.fill(source, (MOST_FILE - *taken) as usize) {
        Ok(n) => {
            *taken += n as u64;
            Ok(n > 0)
        }
        Err(Failed) => Err(LineEnd::ReadFault),
    }
}

/// Takes one byte past the limit, which may show that the line is long. `Ok` is false: there was none.
fn past_limit<S: Source>(line: &mut OpenLine, source: &mut S, number: u64) -> Result<bool, LineEnd>
    ensures more { (old : Reach) → Midway S.tells old line.old (reach [] most_file (S.feed source.old)) → OnOk result (Midway S.tells old line.new (reach [] most_file (S.feed source.new))) }
    ensures end { IfOk result (λ more. (more ≡ false) × (IsTrue S.tells → (S.feed source.new).left ≡ [])) }
    ensures stops { (old : Reach) → Midway S.tells old line.old (reach [] most_file (S.feed source.old)) → IfErr result (Stops S.tells number old (reach [] most_file (S.feed source.new))) }
    ensures faults { (S.feed source.old).faults ≤ (S.feed source.new).faults }
    ensures quiet { result ≢ Err LineEnd.ReadFault → (S.feed source.new).faults ≡ (S.feed source.old).faults }
    ensures failed { result ≡ Err LineEnd.ReadFault → Rose (S.feed source.old).faults (S.feed source.new).faults }
{
    let mut past = [0];
    match source.take(&mut past) {
        Ok(0) => Ok(false),
        Ok(_) => {
            if is_long_with(line, past[0]) {
                return Err(LineEnd::LongLine { command: number });
            }
            Err(LineEnd::LongFile)
        }
        Err(Failed) => Err(LineEnd::ReadFault),
    }
}

/// Whether the open line is longer than a command may be with this byte behind it.
fn is_long_with(line: &mut OpenLine, byte: u8) -> bool
    ensures long { (raw : List ℕ) → StandsFor raw line.old → IsTrue result → IsTooLong (raw ++ byte ∷ []) }
    ensures short { (raw : List ℕ) → StandsFor raw line.old → result ≡ false → ¬ (IsLong (raw ++ byte ∷ [])) }
{
    if byte == b'\n' {
        return false;
    }
    match line.add(&[byte]) {
        Ok(()) => false,
        Err(TooLong) => true,
    }
}

/// Moves the bytes of the block up to its first LF behind the open line. Whether it has an LF.
fn move_line(block: &mut Block, line: &mut OpenLine) -> Result<bool, TooLong>
    requires { 0 < length block.old }
    ensures shorter { OnOk result (length block.new < length block.old) }
    ensures met { IfOk result (λ met. met ≡ true → (part : List ℕ) × (block.old ≡ part ++ 10 ∷ block.new) × ((raw : List ℕ) → StandsFor raw line.old → StandsFor (raw ++ part) line.new)) }
    ensures open { IfOk result (λ met. met ≡ false → (block.new ≡ []) × ((raw : List ℕ) → StandsFor raw line.old → StandsFor (raw ++ block.old) line.new)) }
    ensures long { OnErr result ((raw : List ℕ) → StandsFor raw line.old → (part : List ℕ) × (rest : List ℕ) × (block.old ≡ part ++ rest) × IsTooLong (raw ++ part)) }
    ensures kept { OnErr result (block.new ≡ block.old) }
{
    match find(block.bytes(), b'\n') {
        Some(at) => match line.add(&block.bytes()[..at]) {
            Ok(()) => {
                block.consume(at + 1);
                Ok(true)
            }
            Err(TooLong) => Err(TooLong),
        },
        None => match line.add(block.bytes()) {
            Ok(()) => {
                block.clear();
                Ok(false)
            }
            Err(TooLong) => Err(TooLong),
        },
    }
}

/// The command that an LF ended, in a line of its own.
fn ended(alloc: Global, bytes: &[u8]) -> Result<Found, LineEnd>
    requires { IsTrue (is_line bytes.now) }
    ensures ok { IfOk result (IsEnded bytes.now) }
    ensures err { IfErr result (λ end. end ≡ LineEnd.OutOfMemory) }
{
    match Line::copy(alloc, bytes) {
        Ok(line) => Ok(Found::Ended(line)),
        Err(OutOfMemory) => Err(LineEnd::OutOfMemory),
    }
}

/// The command that the end of input ended, if there is one.
fn last(alloc: Global, line: &OpenLine, number: u64) -> Result<Found, LineEnd>
    ensures ok { (raw : List ℕ) → StandsFor raw line.now → IfOk result (EndsWith raw) }
    ensures err { (raw : List ℕ) → StandsFor raw line.now → IfErr result (CutsOff number raw) }
{
    let Some(bytes) = line.last() else {
        return Ok(Found::Nothing);
    };
    if bytes.len() > MOST_COMMAND {
        return Err(LineEnd::LongLine { command: number });
    }
    match Line::copy(alloc, bytes) {
        Ok(line) => Ok(Found::Last(line)),
        Err(OutOfMemory) => Err(LineEnd::OutOfMemory),
    }
}
