ghost use Rattle.std.specs.Prelude.{◌≡◌, ◌↔◌, ◌+◌, ◌≤◌, ◌<◌, ◌==◌, ◌&&◌, List, ℕ, [], ◌++◌, true, false, length, IfOk, OnOk, OnErr, IfSome, IfNone, IsTrue, vec_capacity};
ghost use Rattle.std.specs.Str.Lines.{strip_carriage_return};
ghost use Rattle.dali_line.specs.Commands.{is_command};
ghost use Rattle.dali_line.specs.Limits.{most_command};
ghost use Rattle.dali_line.specs.Line.{is_line};
ghost use Rattle.dali_line.specs.Open.{InOneLine, StandsFor, IsTooLong, nothing_open, is_comment as begins_comment};

use crate::limits::MOST_COMMAND;
use dali_base::OutOfMemory;
use std::alloc::Global;
use std::marker::Model;

/// The bytes of the line that is being read, up to its LF. Of a comment nothing is kept.
#[derive(Debug, Drop)]
pub(crate) struct OpenLine {
    // With room for a command and the CR behind it.
    kept: Vec<u8>,
    skips: bool,
}

/// The line is longer than a command may be.
#[derive(Clone, Copy)]
pub(crate) struct TooLong;

impl Model for OpenLine {
    ghost use Rattle.dali_line.specs.Open.{Open, open_of, IsOpen};

    ghost Value = { Open };

    ghost view = { open_of };

    ghost invariant = { IsOpen };
}

impl OpenLine {
    pub(crate) fn new(alloc: Global) -> Result<OpenLine, OutOfMemory>
        ensures { IfOk result (λ line. line ≡ nothing_open) }
    {
        Ok(OpenLine {
            kept: Vec::with_capacity(alloc, MOST_COMMAND + 1)?,
            skips: false,
        })
    }

    pub(crate) fn clear(&mut self)
        ensures { self.new ≡ nothing_open }
    {
        self.kept.clear();
        self.skips = false;
    }

    /// Adds bytes of the line.
    pub(crate) fn add(&mut self, part: &[u8]) -> Result<(), TooLong>
        requires { InOneLine part.now }
        ensures ok { (raw : List ℕ) → StandsFor raw self.old → OnOk result (StandsFor (raw ++ part.now) self.new) }
        ensures long { (raw : List ℕ) → StandsFor raw self.old → OnErr result (IsTooLong (raw ++ part.now)) }
    {
        if self.skips {
            return Ok(());
        }
        if part.is_empty() {
            return Ok(());
        }
        if starts_comment(self.kept.as_slice(), part) {
            self.skips = true;
            return Ok(());
        }
        if !is_short(self.kept.as_slice(), part) {
            return Err(TooLong);
        }
        append(&mut self.kept, part);
        Ok(())
    }

    /// The command that an LF ended here. `None` where the line is none.
    pub(crate) fn ended(&self) -> Option<&[u8]>
        ensures some { (raw : List ℕ) → StandsFor raw self.now → IfSome result (λ r. r.now ≡ strip_carriage_return raw) }
        ensures command { IfSome result (λ r. IsTrue (is_line r.now)) }
        ensures none { (raw : List ℕ) → StandsFor raw self.now → IfNone result (is_command (strip_carriage_return raw) ≡ false) }
    {
        let line = without_return(self.kept.as_slice());
        if self.skips || line.is_empty() {
            return None;
        }
        Some(line)
    }

    /// The bytes that the end of input ended here, which may be one too many for a command. `None` where there are none.
    pub(crate) fn last(&self) -> Option<&[u8]>
        ensures some { (raw : List ℕ) → StandsFor raw self.now → IfSome result (λ r. r.now ≡ raw) }
        ensures command { IfSome result (λ r. length r.now ≤ most_command → IsTrue (is_line r.now)) }
        ensures begins { IfSome result (λ r. is_command r.now ≡ true) }
        ensures none { (raw : List ℕ) → StandsFor raw self.now → IfNone result (is_command raw ≡ false) }
    {
        if self.skips || self.kept.is_empty() {
            return None;
        }
        Some(self.kept.as_slice())
    }
}

/// Whether these bytes begin a comment, where nothing is kept before them.
fn starts_comment(kept: &[u8], part: &[u8]) -> bool
    ensures { result ≡ ((length kept.now == 0) && begins_comment part.now) }
{
    kept.is_empty() && is_comment(part)
}

/// The bytes of a line that an LF ended, less one CR before it.
fn without_return(line: &[u8]) -> &[u8]
    ensures { result.now ≡ strip_carriage_return line.now }
{
    match line {
        [rest @ .., b'\r'] => rest,
        _ => line,
    }
}

fn is_comment(part: &[u8]) -> bool
    ensures { result ≡ begins_comment part.now }
{
    match part {
        [] => false,
        [first, ..] => *first == b'#',
    }
}

/// Whether the line of what is kept and these bytes may be a command, where an LF may follow.
fn is_short(kept: &[u8], part: &[u8]) -> bool
    requires some { 0 < length part.now }
    requires kept { length kept.now ≤ most_command + 1 }
    ensures { IsTrue result ↔ (length (strip_carriage_return (kept.now ++ part.now)) ≤ most_command) }
{
    let len = kept.len() + part.len();
    len <= MOST_COMMAND || (len == MOST_COMMAND + 1 && part.last() == Some(&b'\r'))
}

/// Adds these bytes at the end, for which there is room.
fn append(kept: &mut Vec<u8>, part: &[u8])
    requires { length kept.old.items + length part.now ≤ vec_capacity kept.old }
    ensures items { kept.new.items ≡ kept.old.items ++ part.now }
    ensures room { vec_capacity kept.old ≤ vec_capacity kept.new }
{
    kept.extend_from_slice(part).unwrap();
}
