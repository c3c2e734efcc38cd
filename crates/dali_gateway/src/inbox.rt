ghost use Rattle.std.specs.Prelude.{◌≡◌, ◌-◌, ◌≤◌, ◌<◌, ◌==◌, ◌∷◌, ◌++◌, [], false, length, take, drop, min, position, IsTrue, IfSome, IfNone};
ghost use Rattle.std.specs.Str.Lines.{strip_carriage_return};
ghost use Rattle.dali_line.specs.Commands.{is_command as begins_command, commands};
ghost use Rattle.dali_gateway.specs.Gateway.{unopened};
ghost use Rattle.dali_gateway.specs.Inboxes.{IsFirstLine};

use dali_base::Text;
use std::marker::Model;

/// The bytes of an inbox, from which one command after the other is opened and given. Contracts see it as a `Box`.
#[derive(Debug, Drop)]
pub(crate) struct Inbox {
    bytes: Text,
    // The bytes of the open command that weren't given yet.
    start: usize,
    end: usize,
    // Where the bytes behind the opened commands begin.
    next: usize,
}

impl Model for Inbox {
    ghost use Rattle.dali_gateway.specs.Gateway.{Box};
    ghost use Rattle.dali_gateway.specs.InboxLayout.{box_of, IsOrdered};

    ghost Value = { Box };

    ghost view = { box_of };

    ghost invariant = { IsOrdered };
}

impl Inbox {
    /// An inbox of which nothing was given.
    pub(crate) fn new(bytes: Text) -> Inbox
        ensures { result ≡ unopened bytes }
    {
        Inbox {
            bytes,
            start: 0,
            end: 0,
            next: 0,
        }
    }

    /// Opens the next command. False exactly where none is left.
    pub(crate) fn open(&mut self) -> bool
        ensures whole { self.new.whole ≡ self.old.whole }
        ensures some { IsTrue result → commands self.old.left ≡ self.new.open_ ∷ commands self.new.left }
        ensures none { result ≡ false → (commands self.old.left ≡ []) × (self.new ≡ self.old) }
    {
        let next = self.next;
        match next_command(&self.bytes.as_slice()[next..]) {
            Some(found) => {
                self.start = next + found.start;
                self.end = next + found.end;
                self.next = next + found.next;
                true
            }
            None => false,
        }
    }

    /// Moves first bytes of the open command into the front of `into`, as many as there are or have room, and answers how
    /// many.
    pub(crate) fn give(&mut self, into: &mut [u8]) -> usize
        ensures whole { self.new.whole ≡ self.old.whole }
        ensures left { self.new.left ≡ self.old.left }
        ensures amount { result ≡ min (length self.old.open_) (length into.old) }
        ensures moved { self.old.open_ ≡ take result into.new ++ self.new.open_ }
        ensures room { length into.new ≡ length into.old }
    {
        let n = copy_front(&self.bytes.as_slice()[self.start..self.end], into);
        self.start += n;
        n
    }
}

/// Copies first bytes into the front of `into`, as many as there are or have room, and answers how many.
pub(crate) fn copy_front(bytes: &[u8], into: &mut [u8]) -> usize
    ensures amount { result ≡ min (length bytes.now) (length into.old) }
    ensures front { take result into.new ≡ take result bytes.now }
    ensures room { length into.new ≡ length into.old }
{
    let n = bytes.len().min(into.len());
    into[..n].copy_from_slice(&bytes[..n]);
    n
}

/// Where a command stands among some bytes, and where those behind its line begin.
#[derive(Clone, Copy)]
struct Found {
    start: usize,
    end: usize,
    next: usize,
}

/// The first command of these bytes, if there is one.
fn next_command(bytes: &[u8]) -> Option<Found>
    ensures some { IfSome result (λ f. commands bytes.now ≡ take (f.end - f.start) (drop f.start bytes.now) ∷ commands (drop f.next bytes.now)) }
    ensures order { IfSome result (λ f. f.start ≤ f.end) }
    ensures within { IfSome result (λ f. f.end ≤ length bytes.now) }
    ensures next { IfSome result (λ f. f.next ≤ length bytes.now) }
    ensures none { IfNone result (commands bytes.now ≡ []) }
{
    let mut start = 0;
    'lines: while start < bytes.len() {
        let (len, taken) = first_line(&bytes[start..]);
        if is_command(&bytes[start..start + len]) {
            return Some(Found {
                start,
                end: start + len,
                next: start + taken,
            });
        }
        start += taken;
    }
    None
}

/// The length of the first line, without the LF that ended it and one CR before that, and where the bytes behind it begin.
fn first_line(bytes: &[u8]) -> (usize, usize)
    requires { 0 < length bytes.now }
    ensures { IsFirstLine bytes.now result.0 result.1 }
{
    match find_newline(bytes) {
        Some(at) => (without_return(&bytes[..at]), at + 1),
        None => (bytes.len(), bytes.len()),
    }
}

/// The place of the first LF.
fn find_newline(bytes: &[u8]) -> Option<usize>
    ensures { result ≡ position (λ b. b == 10) bytes.now }
{
    bytes.iter().position(|b| *b == b'\n')
}

/// The length of a line that an LF ended, less one CR before it.
fn without_return(line: &[u8]) -> usize
    ensures within { result ≤ length line.now }
    ensures front { take result line.now ≡ strip_carriage_return line.now }
{
    match line {
        [rest @ .., b'\r'] => rest.len(),
        _ => line.len(),
    }
}

/// Whether a line is a command: it isn't empty and doesn't begin with '#'.
fn is_command(line: &[u8]) -> bool
    ensures { result ≡ begins_command line.now }
{
    match line {
        [] => false,
        [first, ..] => *first != b'#',
    }
}
