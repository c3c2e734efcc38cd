ghost use Rattle.std.specs.Prelude.{◌≡◌, ◌+◌, ◌-◌, ◌≤◌, ◌<◌, ◌^◌, ◌||◌, if◌then◌else◌, Bool, true, false, not, min, nat_lt, [], length, take, replicate, slice_range, is_ok, IfOk, OnOk, OnErr, IsTrue, IfSome, IfNone};
ghost use Rattle.std.specs.Option.{is_some};
ghost use Rattle.dali_outside.specs.Outside.{Rose, Writes, Syncs, Prints, SameDisk, SameText, Goes, TellsAll, now};
ghost use Rattle.dali_outside.specs.Stops.{IsImage, MayLeave};
ghost use Rattle.dali_outside.specs.Tape.{reel_printed, reel_loosened, reel_written, Says, Lays};
ghost use Rattle.dali_outside.specs.Memory.{fault_of, beyond_calls, beyond_text, beyond_written, board_at, new_board, torn, filled, sight_read, sight_loosened, sight_written, sight_synced, sight_unsynced, sight_printed};

use crate::fault::{Failed, Faults, fault_at};
use crate::site::Site;
use crate::tape::Tape;
use dali_base::{OutOfMemory, Text};
use std::alloc::{AllocError, Global};
use std::marker::Model;

/// A site in memory, whose memory is taken when it is made and none later. It fails at the calls that it was told to
/// fail at, beyond its rooms, and after its fuse, and nowhere else.
///
/// A call that is beyond a room, judged by its whole piece, fails as such, also where it is listed or comes after the
/// fuse: it writes and prints nothing, and a write's range is loose afterwards. Any other call after the fuse fails with
/// nothing of its piece gone through, also where it is listed. Of several entries for one call the first counts.
#[derive(Debug, Drop)]
pub struct MemSite {
    tape: Tape,
    disk_faults: u64,
    print_faults: u64,
    syncs: u64,
    call_room: u32,
    fails: Faults,
    made: u64,
    // The number of the last call before the fuse blows; u64's last value without a fuse.
    last: u64,
}

impl Model for MemSite {
    ghost use Rattle.std.specs.Prelude.{◌≡◌, ◌≤◌, true, length};
    ghost use Rattle.dali_outside.specs.Memory.{Board};

    ghost Value = { Board };

    ghost view = { λ s. record {
      sight = record {
        size = length s.tape.bytes;
        bytes = s.tape.bytes;
        loose = s.tape.loose;
        printed = s.tape.text;
        past = s.tape.past;
        disk_faults = s.disk_faults;
        print_faults = s.print_faults;
        syncs = s.syncs;
      };
      text_room = s.tape.text_room;
      call_room = s.call_room;
      written_room = s.tape.replaced_room;
      written = s.tape.replaced;
      fails = s.fails;
      made = s.made;
      last = s.last;
    } };

    ghost invariant = { λ s.
        (s.tape.step_room ≡ s.call_room) × (s.tape.steps ≤ s.made) × (s.made ≤ s.call_room → s.tape.noted ≡ true) };
}

impl MemSite {
    /// A site of `size` bytes, all of them 0, on which nothing is loose and nothing is printed. It has room for `text`
    /// printed bytes, for `calls` calls, and for `written` bytes that writes replace. The listed calls, counted from 1,
    /// fail.
    pub fn new(
        alloc: Global,
        size: u64,
        text: u32,
        calls: u32,
        written: u32,
        fails: Faults,
    ) -> Result<MemSite, OutOfMemory>
        ensures { IfOk result (λ site. site ≡ new_board (replicate size 0) text calls written fails) }
    {
        let image = Text::from_vec(vec![in alloc; 0; size as usize]?);
        MemSite::from_image(alloc, image, text, calls, written, fails)
    }

    /// A site whose bytes are those of the image, on which nothing is loose and nothing is printed, with these rooms.
    /// The listed calls fail.
    pub fn from_image(
        alloc: Global,
        image: Text,
        text: u32,
        calls: u32,
        written: u32,
        fails: Faults,
    ) -> Result<MemSite, OutOfMemory>
        ensures { IfOk result (λ site. site ≡ new_board image text calls written fails) }
    {
        Ok(MemSite {
            tape: Tape::new(alloc, image.into_vec(), text, calls, written)?,
            disk_faults: 0,
            print_faults: 0,
            syncs: 0,
            call_room: calls,
            fails,
            made: 0,
            last: u64::MAX,
        })
    }

    /// Lets every call fail, with nothing of its piece gone through, after this many further calls. A later fuse
    /// replaces an earlier one.
    pub fn fuse(&mut self, calls: u64)
        ensures { self.new ≡ record self.old { last = min (self.old.made + calls) (2 ^ 64 - 1) } }
    {
        self.last = self.made.saturating_add(calls);
    }

    /// The text printed so far.
    pub fn printed(&self) -> &[u8]
        ensures { result.now ≡ self.now.sight.printed }
    {
        self.tape.text()
    }

    /// The bytes that reads give.
    pub fn bytes(&self) -> &[u8]
        ensures { result.now ≡ self.now.sight.bytes }
    {
        self.tape.bytes()
    }

    /// What a stop now may leave: the bytes that reads give, with each loose byte made `fill`. The only error is want of
    /// memory for them.
    pub fn stop_image(&self, alloc: Global, fill: u8) -> Result<Text, OutOfMemory>
        ensures image { IfOk result (λ image. image ≡ filled fill self.now.sight.bytes self.now.sight.loose) }
        ensures left { IfOk result (λ image. MayLeave (now self.now.sight) image self.now.sight.printed) }
    {
        fill_loose(alloc, self.tape.bytes(), self.tape.loose(), fill)
    }

    /// The number of calls so far.
    pub fn made(&self) -> u64
        ensures { result ≡ self.now.made }
    {
        self.made
    }

    /// Whether the next call is beyond the room for calls.
    fn is_beyond_calls(&self) -> bool
        ensures { result ≡ beyond_calls self.now }
    {
        u64::from(self.call_room) < self.made.saturating_add(1)
    }

    /// How many bytes of a piece of this length the next call lets through though it fails. `None` where it works, if
    /// it isn't beyond a room.
    fn fault_of(&self, len: usize) -> Option<usize>
        ensures value { result ≡ fault_of self.now len }
        ensures bound { IfSome result (λ n. n ≤ len) }
    {
        let call = self.made.saturating_add(1);
        if self.last < call {
            return Some(0);
        }
        fault_at(&self.fails, call).map(|fault| len.min(fault.went as usize))
    }
}

impl Site for MemSite {
    ghost tells = { true };

    ghost sight = { λ board. board.sight };

    fn size(&self) -> u64
        ensures size { result ≡ self.now.sight.size }
        ensures told { TellsAll self.now.sight }
    {
        self.tape.bytes().len() as u64
    }

    fn read(&mut self, at: u64, into: &mut [u8]) -> Result<(), Failed>
        requires { at + length into.old ≤ self.old.sight.size }

        // what is promised of every site
        ensures given { OnOk result (into.new ≡ slice_range self.old.sight.bytes at (at + length into.old)) }
        ensures disk { SameDisk self.old.sight self.new.sight }
        ensures text { SameText self.old.sight self.new.sight }
        ensures goes { Goes self.old.sight self.new.sight }
        ensures syncs { self.new.sight.syncs ≤ self.old.sight.syncs }
        ensures failed { OnErr result (Rose self.old.sight.disk_faults self.new.sight.disk_faults) }

        // what this one does, and when
        ensures listed { is_ok result ≡ not (beyond_calls self.old || is_some (fault_of self.old 0)) }
        ensures after { self.new ≡ board_at self.old (sight_read self.old.sight (not (is_ok result))) self.old.written }
        ensures untouched { OnErr result (into.new ≡ into.old) }
    {
        let fails = self.is_beyond_calls() || self.fault_of(0).is_some();
        self.made = self.made.saturating_add(1);
        if fails {
            self.disk_faults = self.disk_faults.saturating_add(1);
            return Err(Failed);
        }
        let place = at as usize;
        into.copy_from_slice(&self.tape.bytes()[place..place + into.len()]);
        Ok(())
    }

    fn write(&mut self, at: u64, piece: &[u8]) -> Result<(), Failed>
        requires { at + length piece.now ≤ self.old.sight.size }

        // what is promised of every site
        ensures disk { Writes (is_ok result) at piece.now self.old.sight self.new.sight }
        ensures text { SameText self.old.sight self.new.sight }
        ensures goes { Goes self.old.sight self.new.sight }
        ensures syncs { self.new.sight.syncs ≤ self.old.sight.syncs }
        ensures failed { OnErr result (Rose self.old.sight.disk_faults self.new.sight.disk_faults) }

        // what this one does, and when
        ensures listed { is_ok result ≡ not (beyond_written self.old (length piece.now) || is_some (fault_of self.old (length piece.now))) }
        ensures beyond { beyond_written self.old (length piece.now) ≡ true → self.new ≡ board_at self.old (sight_loosened self.old.sight at (length piece.now)) self.old.written }
        ensures whole { OnOk result (self.new ≡ board_at self.old (sight_written self.old.sight false at piece.now) (self.old.written + length piece.now)) }
        ensures begun { beyond_written self.old (length piece.now) ≡ false → IfSome (fault_of self.old (length piece.now)) (λ n. self.new ≡ board_at self.old (sight_written self.old.sight true at (torn piece.now n)) (self.old.written + length piece.now)) }
    {
        let (beyond_calls, fault) = (self.is_beyond_calls(), self.fault_of(piece.len()));
        self.made = self.made.saturating_add(1);
        if lay(&mut self.tape, beyond_calls, fault, at as usize, piece) {
            return Ok(());
        }
        self.disk_faults = self.disk_faults.saturating_add(1);
        Err(Failed)
    }

    fn sync(&mut self) -> Result<(), Failed>

        // what is promised of every site
        ensures firm { OnOk result (Syncs self.old.sight self.new.sight) }
        ensures disk { OnErr result (SameDisk self.old.sight self.new.sight) }
        ensures text { OnErr result (SameText self.old.sight self.new.sight) }
        ensures goes { Goes self.old.sight self.new.sight }
        ensures syncs { self.new.sight.syncs ≤ self.old.sight.syncs + 1 }
        ensures failed { OnErr result (Rose self.old.sight.disk_faults self.new.sight.disk_faults) }

        // what this one does, and when
        ensures listed { is_ok result ≡ not (beyond_calls self.old || is_some (fault_of self.old 0)) }
        ensures whole { OnOk result (self.new ≡ board_at self.old (sight_synced self.old.sight) self.old.written) }
        ensures unsynced { OnErr result (self.new ≡ board_at self.old (sight_unsynced self.old.sight) self.old.written) }
    {
        let fails = self.is_beyond_calls() || self.fault_of(0).is_some();
        self.made = self.made.saturating_add(1);
        self.syncs = self.syncs.saturating_add(1);
        if fails {
            self.disk_faults = self.disk_faults.saturating_add(1);
            return Err(Failed);
        }
        self.tape.sync();
        Ok(())
    }

    fn put(&mut self, piece: &[u8]) -> Result<(), Failed>

        // what is promised of every site
        ensures text { Prints (is_ok result) piece.now self.old.sight self.new.sight }
        ensures disk { SameDisk self.old.sight self.new.sight }
        ensures goes { Goes self.old.sight self.new.sight }
        ensures syncs { self.new.sight.syncs ≤ self.old.sight.syncs }
        ensures failed { OnErr result (Rose self.old.sight.print_faults self.new.sight.print_faults) }

        // what this one does, and when
        ensures listed { is_ok result ≡ not (beyond_text self.old (length piece.now) || is_some (fault_of self.old (length piece.now))) }
        ensures beyond { beyond_text self.old (length piece.now) ≡ true → self.new ≡ board_at self.old (sight_printed self.old.sight true []) self.old.written }
        ensures whole { OnOk result (self.new ≡ board_at self.old (sight_printed self.old.sight false piece.now) self.old.written) }
        ensures begun { beyond_text self.old (length piece.now) ≡ false → IfSome (fault_of self.old (length piece.now)) (λ n. self.new ≡ board_at self.old (sight_printed self.old.sight true (take n piece.now)) self.old.written) }
    {
        let (beyond_calls, fault) = (self.is_beyond_calls(), self.fault_of(piece.len()));
        self.made = self.made.saturating_add(1);
        if say(&mut self.tape, beyond_calls, fault, piece) {
            return Ok(());
        }
        self.print_faults = self.print_faults.saturating_add(1);
        Err(Failed)
    }
}

/// Writes a piece on the tape, and answers whether that works: it does where no room is passed and no fault is told.
fn lay(tape: &mut Tape, beyond_calls: bool, fault: Option<usize>, at: usize, piece: &[u8]) -> bool
    requires within { at + length piece.now ≤ length tape.old.bytes }
    requires fault { IfSome fault (λ n. n ≤ length piece.now) }
    requires steps { beyond_calls ≡ false → tape.old.steps < tape.old.step_room }

    // what is done, and when
    ensures works { result ≡ not (beyond_calls || nat_lt tape.old.replaced_room (tape.old.replaced + length piece.now) || is_some fault) }
    ensures beyond { (beyond_calls || nat_lt tape.old.replaced_room (tape.old.replaced + length piece.now)) ≡ true → tape.new ≡ reel_loosened tape.old beyond_calls at (length piece.now) }
    ensures whole { IsTrue result → tape.new ≡ reel_written tape.old at piece.now }
    ensures begun { (beyond_calls || nat_lt tape.old.replaced_room (tape.old.replaced + length piece.now)) ≡ false → IfSome fault (λ n. tape.new ≡ reel_written tape.old at (torn piece.now n)) }

    // what every site promises of it
    ensures laid { Lays result at piece.now tape.old tape.new }
{
    let len = piece.len();
    if beyond_calls {
        tape.loosen_unnoted(at, len);
        return false;
    }
    if tape.lacks_replaced_room(len) {
        tape.loosen(at, len);
        return false;
    }
    match fault {
        Some(went) => {
            tape.write(at, piece, went);
            false
        }
        None => {
            tape.write(at, piece, len);
            true
        }
    }
}

/// Prints a piece on the tape, and answers whether that works: it does where no room is passed and no fault is told.
fn say(tape: &mut Tape, beyond_calls: bool, fault: Option<usize>, piece: &[u8]) -> bool
    requires fault { IfSome fault (λ n. n ≤ length piece.now) }
    requires noted { beyond_calls ≡ false → tape.old.noted ≡ true }
    requires steps { beyond_calls ≡ false → tape.old.steps < tape.old.step_room }

    // what is done, and when
    ensures works { result ≡ not (beyond_calls || nat_lt tape.old.text_room (length tape.old.text + length piece.now) || is_some fault) }
    ensures beyond { (beyond_calls || nat_lt tape.old.text_room (length tape.old.text + length piece.now)) ≡ true → tape.new ≡ tape.old }
    ensures whole { IsTrue result → tape.new ≡ reel_printed tape.old piece.now }
    ensures begun { (beyond_calls || nat_lt tape.old.text_room (length tape.old.text + length piece.now)) ≡ false → IfSome fault (λ n. tape.new ≡ reel_printed tape.old (take n piece.now)) }

    // what every site promises of it
    ensures said { Says result piece.now tape.old tape.new }
{
    if beyond_calls || tape.lacks_text_room(piece.len()) {
        return false;
    }
    match fault {
        Some(went) => {
            print(tape, &piece[..went]);
            false
        }
        None => {
            print(tape, piece);
            true
        }
    }
}

/// Prints a piece on the tape; one that is empty leaves no trace.
fn print(tape: &mut Tape, piece: &[u8])
    requires noted { tape.old.noted ≡ true }
    requires steps { tape.old.steps < tape.old.step_room }
    requires room { length tape.old.text + length piece.now ≤ tape.old.text_room }
    ensures { tape.new ≡ reel_printed tape.old piece.now }
{
    if !piece.is_empty() {
        tape.print(piece);
    }
}

/// The bytes with each loose one made `fill`.
#[tactic(auto, using(crate::proofs::Images::filled_image))]
fn fill_loose(alloc: Global, bytes: &[u8], loose: &[bool], fill: u8) -> Result<Text, OutOfMemory>
    requires { length loose.now ≡ length bytes.now }
    ensures image { IfOk result (λ image. image ≡ filled fill bytes.now loose.now) }
    ensures left { IfOk result (λ image. IsImage bytes.now loose.now image) }
{
    Ok(Text::from_vec(filled_bytes(alloc, bytes, loose, fill)?))
}

fn filled_bytes(
    alloc: Global,
    bytes: &[u8],
    loose: &[bool],
    fill: u8,
) -> Result<Vec<u8>, AllocError>
    ensures { IfOk result (λ image. image.items ≡ filled fill bytes.now loose.now) }
{
    bytes
        .iter()
        .zip(loose.iter())
        .map(|(byte, is_loose)| fill_byte(fill, *byte, *is_loose))
        .collect(alloc)
}

fn fill_byte(fill: u8, byte: u8, is_loose: bool) -> u8
    ensures { result ≡ (if is_loose then fill else byte) }
{
    if is_loose { fill } else { byte }
}
