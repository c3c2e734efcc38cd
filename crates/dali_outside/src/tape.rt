ghost use Rattle.std.specs.Prelude.{◌≡◌, ◌+◌, ◌-◌, ◌≤◌, ◌<◌, ◌++◌, [], ◌∷◌, true, false, nat_lt, All, length, take, drop, replicate, IfOk};
ghost use Rattle.std.specs.Prelude.{vec_len, vec_capacity};
ghost use Rattle.dali_outside.specs.Outside.{overlay};
ghost use Rattle.dali_outside.specs.Memory.{torn};

use crate::step::Step;
use dali_base::OutOfMemory;
use std::alloc::Global;
use std::marker::Model;

/// A disk and a console in memory, with a record of what they were at each earlier moment: the steps that changed
/// them, and the bytes that writes replaced. All memory is taken when it is made.
#[derive(Debug, Drop)]
pub(crate) struct Tape {
    bytes: Vec<u8>,
    loose: Vec<bool>,
    text: Vec<u8>,
    steps: Vec<Step>,
    replaced: Vec<u8>,
    text_room: u32,
    step_room: u32,
    replaced_room: u32,
    // Whether each range that was made loose stands in the steps, so that the marks can be told from them.
    noted: bool,
}

impl Model for Tape {
    ghost use Rattle.std.specs.Prelude.{◌≡◌, ◌≤◌, true, length, reverse, vec_len, vec_capacity};
    ghost use Rattle.dali_outside.specs.Tape.{Reel, past_of, marks};

    ghost Value = { Reel };

    ghost view = { λ s. record {
      bytes = s.bytes.items;
      loose = s.loose.items;
      text = s.text.items;
      past = past_of (length s.bytes.items) (reverse s.steps.items) s.bytes.items s.replaced.items s.text.items;
      steps = length s.steps.items;
      replaced = length s.replaced.items;
      text_room = s.text_room;
      step_room = s.step_room;
      replaced_room = s.replaced_room;
      noted = s.noted;
    } };

    ghost invariant = { λ s.
        (length s.loose.items ≡ length s.bytes.items)
        × (vec_len s.text ≤ s.text_room) × (s.text_room ≤ vec_capacity s.text)
        × (vec_len s.steps ≤ s.step_room) × (s.step_room ≤ vec_capacity s.steps)
        × (vec_len s.replaced ≤ s.replaced_room) × (s.replaced_room ≤ vec_capacity s.replaced)
        × (s.noted ≡ true → s.loose.items ≡ marks (length s.bytes.items) (reverse s.steps.items)) };
}

impl Tape {
    /// A disk of these bytes, nothing of it loose, and a console on which nothing is printed, with these rooms.
    pub(crate) fn new(
        alloc: Global,
        bytes: Vec<u8>,
        text: u32,
        steps: u32,
        replaced: u32,
    ) -> Result<Tape, OutOfMemory>
        ensures { IfOk result (λ tape. tape ≡ record {
          bytes = bytes.items;
          loose = replicate (length bytes.items) false;
          text = [];
          past = [];
          steps = 0;
          replaced = 0;
          text_room = text;
          step_room = steps;
          replaced_room = replaced;
          noted = true;
        }) }
    {
        let loose = vec![in alloc; false; bytes.len()]?;
        Ok(Tape {
            bytes,
            loose,
            text: Vec::with_capacity(alloc, text as usize)?,
            steps: Vec::with_capacity(alloc, steps as usize)?,
            replaced: Vec::with_capacity(alloc, replaced as usize)?,
            text_room: text,
            step_room: steps,
            replaced_room: replaced,
            noted: true,
        })
    }

    /// What a read gives.
    pub(crate) fn bytes(&self) -> &[u8]
        ensures value { result.now ≡ self.now.bytes }
        ensures as_long { length self.now.loose ≡ length self.now.bytes }
        ensures small { All (λ b. b < 256) self.now.bytes }
    {
        // Only of a slice that has a name the check knows that its items are bytes, which `small` says.
        let bytes = self.bytes.as_slice();
        bytes
    }

    /// A mark per byte: whether it is loose.
    pub(crate) fn loose(&self) -> &[bool]
        ensures value { result.now ≡ self.now.loose }
        ensures as_long { length self.now.loose ≡ length self.now.bytes }
    {
        self.loose.as_slice()
    }

    /// The text printed so far.
    pub(crate) fn text(&self) -> &[u8]
        ensures { result.now ≡ self.now.text }
    {
        self.text.as_slice()
    }

    /// Whether there is no room for so many more printed bytes.
    pub(crate) fn lacks_text_room(&self, len: usize) -> bool
        ensures { result ≡ nat_lt self.now.text_room (length self.now.text + len) }
    {
        (self.text_room as usize) - self.text.len() < len
    }

    /// Whether there is no room for so many more replaced bytes.
    pub(crate) fn lacks_replaced_room(&self, len: usize) -> bool
        ensures { result ≡ nat_lt self.now.replaced_room (self.now.replaced + len) }
    {
        (self.replaced_room as usize) - self.replaced.len() < len
    }

    /// Writes the first `went` bytes of the piece and EE in place of the others, keeps what stood there, and makes the
    /// range loose.
    pub(crate) fn write(&mut self, at: usize, piece: &[u8], went: usize)
        requires within { at + length piece.now ≤ length self.old.bytes }
        requires went { went ≤ length piece.now }
        requires steps { self.old.steps < self.old.step_room }
        requires room { self.old.replaced + length piece.now ≤ self.old.replaced_room }
        ensures { self.new ≡ record self.old {
          bytes = overlay self.old.bytes at (torn piece.now went);
          loose = overlay self.old.loose at (replicate (length piece.now) true);
          steps = self.old.steps + 1;
          replaced = self.old.replaced + length piece.now;
        } }
    {
        let len = piece.len();
        self.replaced
            .extend_from_slice(&self.bytes[at..at + len])
            .unwrap();
        lay(&mut self.bytes, at, piece, went);
        mark(&mut self.loose, at, len);
        self.steps.push(Step::Wrote { at, len }).unwrap();
    }

    /// Makes a range loose.
    pub(crate) fn loosen(&mut self, at: usize, len: usize)
        requires within { at + len ≤ length self.old.bytes }
        requires steps { self.old.steps < self.old.step_room }
        ensures { self.new ≡ record self.old {
          loose = overlay self.old.loose at (replicate len true);
          steps = self.old.steps + 1;
        } }
    {
        mark(&mut self.loose, at, len);
        self.steps.push(Step::Loosened { at, len }).unwrap();
    }

    /// Makes a range loose where there is no room to note it.
    pub(crate) fn loosen_unnoted(&mut self, at: usize, len: usize)
        requires within { at + len ≤ length self.old.bytes }
        ensures { self.new ≡ record self.old {
          loose = overlay self.old.loose at (replicate len true);
          noted = false;
        } }
    {
        mark(&mut self.loose, at, len);
        self.noted = false;
    }

    /// Makes all of it firm.
    pub(crate) fn sync(&mut self)
        requires noted { self.old.noted ≡ true }
        requires steps { self.old.steps < self.old.step_room }
        ensures { self.new ≡ record self.old {
          loose = replicate (length self.old.loose) false;
          past = self.old.past ++ record { bytes = self.old.bytes; loose = self.old.loose; text = self.old.text; piece = [] } ∷ [];
          steps = self.old.steps + 1;
        } }
    {
        unmark(&mut self.loose);
        self.steps.push(Step::Synced).unwrap();
    }

    /// Prints a piece that isn't empty.
    pub(crate) fn print(&mut self, piece: &[u8])
        requires noted { self.old.noted ≡ true }
        requires steps { self.old.steps < self.old.step_room }
        requires room { length self.old.text + length piece.now ≤ self.old.text_room }
        ensures { self.new ≡ record self.old {
          text = self.old.text ++ piece.now;
          past = self.old.past ++ record { bytes = self.old.bytes; loose = self.old.loose; text = self.old.text; piece = piece.now } ∷ [];
          steps = self.old.steps + 1;
        } }
    {
        self.text.extend_from_slice(piece).unwrap();
        self.steps.push(Step::Printed { len: piece.len() }).unwrap();
    }
}

/// Puts the first `went` bytes of the piece, and EE in place of the others, over what stands from `at` on.
fn lay(bytes: &mut Vec<u8>, at: usize, piece: &[u8], went: usize)
    requires within { at + length piece.now ≤ length bytes.old.items }
    requires went { went ≤ length piece.now }
    ensures after { bytes.new.items ≡ overlay bytes.old.items at (torn piece.now went) }
    ensures len { length bytes.new.items ≡ length bytes.old.items }
{
    tear(&mut bytes.as_mut_slice()[at..at + piece.len()], piece, went);
}

/// Makes a range the first `went` bytes of the piece, and EE behind them.
fn tear(range: &mut [u8], piece: &[u8], went: usize)
    requires went { went ≤ length piece.now }
    requires as_long { length range.old ≡ length piece.now }
    ensures after { range.new ≡ torn piece.now went }
    ensures len { length range.new ≡ length range.old }
{
    let (front, behind) = range.split_at_mut(went);
    front.copy_from_slice(&piece[..went]);
    behind.fill(0xEE);
}

/// Marks `len` places from `at` on.
fn mark(marks: &mut Vec<bool>, at: usize, len: usize)
    requires { at + len ≤ length marks.old.items }
    ensures after { marks.new.items ≡ overlay marks.old.items at (replicate len true) }
    ensures len { length marks.new.items ≡ length marks.old.items }
{
    marks.as_mut_slice()[at..at + len].fill(true);
}

/// Takes every mark away.
fn unmark(marks: &mut Vec<bool>)
    ensures { marks.new.items ≡ replicate (length marks.old.items) false }
{
    marks.as_mut_slice().fill(false);
}
