ghost use Rattle.std.specs.Prelude.{◌≡◌, ◌≢◌, ◌==◌, ◌+◌, ◌-◌, ◌<◌, ◌≤◌, min, Ok, Err, Some, None, true, false, List, ℕ, [], ◌∷◌, ◌++◌, length, take, drop, IfOk, OnOk, IfErr, OnErr, IfSome, IfNone, IsTrue};
ghost use Rattle.dali_line.specs.Lines.{Reach};
ghost use Rattle.dali_outside.specs.Outside.{Rose};
ghost use Rattle.dali_replica.specs.Limits.{most_stream};
ghost use Rattle.dali_replica.specs.Intake.{Midway, AtEnd, Breaks, reach_of};

use crate::limits::MOST_STREAM;
use crate::refusal::FrameNo;
use dali_base::{OutOfMemory, Text};
use dali_outside::{Failed, Source};
use std::marker::Model;

/// The bytes that are taken from a source at once.
const ROOM: usize = 4096;

/// Bytes that were taken from a source and not used yet, and how many were taken in all. Contracts see it as a `Taken`
/// (`specs/Intake.antt`). It takes no memory.
#[derive(Drop)]
pub(crate) struct Intake {
    bytes: [u8; ROOM],
    start: usize,
    end: usize,
    taken: u64,
}

impl Model for Intake {
    ghost use Rattle.dali_replica.specs.Intake.{Taken, taken_of, IsTaken};

    ghost Value = { Taken };

    ghost view = { taken_of };

    ghost invariant = { IsTaken };
}

impl Intake {
    /// Nothing was taken yet.
    pub(crate) fn new() -> Intake
        ensures { result ≡ record { pending = []; taken = 0 } }
    {
        Intake {
            bytes: [0; ROOM],
            start: 0,
            end: 0,
            taken: 0,
        }
    }

    /// The bytes that aren't used yet.
    pub(crate) fn bytes(&self) -> &[u8]
        ensures { result.now ≡ self.now.pending }
    {
        &self.bytes[self.start..self.end]
    }

    /// How many bytes were taken, which are within the limit of a stream.
    pub(crate) fn taken(&self) -> u64
        ensures taken { result ≡ self.now.taken }
        ensures limit { self.now.taken ≤ most_stream }
        ensures counted { length self.now.pending ≤ self.now.taken }
    {
        self.taken
    }

    /// The first `n` bytes are used.
    pub(crate) fn consume(&mut self, n: usize)
        requires { n ≤ length self.old.pending }
        ensures pending { self.new.pending ≡ drop n self.old.pending }
        ensures taken { self.new.taken ≡ self.old.taken }
    {
        self.start += n;
    }

    /// Whether there are bytes that aren't used yet. Takes some where there were none; `false` is the end of input.
    pub(crate) fn wait<S: Source>(&mut self, source: &mut S) -> Result<bool, FrameNo>
        ensures more { (old : Reach) (used : List ℕ) → Midway S.tells old used (reach_of self.old (S.feed source.old)) → IfOk result (λ more. more ≡ true → Midway S.tells old used (reach_of self.new (S.feed source.new))) }
        ensures some { IfOk result (λ more. more ≡ true → 0 < length self.new.pending) }
        ensures end { (old : Reach) (used : List ℕ) → Midway S.tells old used (reach_of self.old (S.feed source.old)) → IfOk result (λ more. more ≡ false → AtEnd S.tells old used (reach_of self.new (S.feed source.new))) }
        ensures breaks { (old : Reach) (used : List ℕ) → Midway S.tells old used (reach_of self.old (S.feed source.old)) → IfErr result (Breaks S.tells old used (reach_of self.new (S.feed source.new))) }
        ensures faults { (S.feed source.old).faults ≤ (S.feed source.new).faults }
        ensures quiet { result ≢ Err FrameNo.ReadFault → (S.feed source.new).faults ≡ (S.feed source.old).faults }
        ensures failed { result ≡ Err FrameNo.ReadFault → Rose (S.feed source.old).faults (S.feed source.new).faults }
    {
        if !self.bytes().is_empty() {
            return Ok(true);
        }
        self.refill(source)
    }

    /// Takes bytes where all are used. `false` is the end of input.
    fn refill<S: Source>(&mut self, source: &mut S) -> Result<bool, FrameNo>
        requires { self.old.pending ≡ [] }

        // what is answered
        ensures more { (old : Reach) (used : List ℕ) → Midway S.tells old used (reach_of self.old (S.feed source.old)) → IfOk result (λ more. more ≡ true → Midway S.tells old used (reach_of self.new (S.feed source.new))) }
        ensures some { IfOk result (λ more. more ≡ true → 0 < length self.new.pending) }
        ensures end { (old : Reach) (used : List ℕ) → Midway S.tells old used (reach_of self.old (S.feed source.old)) → IfOk result (λ more. more ≡ false → AtEnd S.tells old used (reach_of self.new (S.feed source.new))) }
        ensures breaks { (old : Reach) (used : List ℕ) → Midway S.tells old used (reach_of self.old (S.feed source.old)) → IfErr result (Breaks S.tells old used (reach_of self.new (S.feed source.new))) }

        // the count of the faults
        ensures faults { (S.feed source.old).faults ≤ (S.feed source.new).faults }
        ensures quiet { result ≢ Err FrameNo.ReadFault → (S.feed source.new).faults ≡ (S.feed source.old).faults }
        ensures failed { result ≡ Err FrameNo.ReadFault → Rose (S.feed source.old).faults (S.feed source.new).faults }
    {
        if self.taken == MOST_STREAM {
            return self.past_limit(source);
        }
        let most = ROOM.min((MOST_STREAM - self.taken) as usize);
        self.start = 0;
        self.end = 0;
        match pull(source, &mut self.bytes, most) {
            Ok(n) => {
                self.end = n;
                self.taken += n as u64;
                Ok(n > 0)
            }
            Err(Failed) => Err(FrameNo::ReadFault),
        }
    }

    /// Takes one byte past the limit. `false`: there was none.
    fn past_limit<S: Source>(&self, source: &mut S) -> Result<bool, FrameNo>
        requires empty { self.now.pending ≡ [] }
        requires full { self.now.taken ≡ most_stream }

        // what is answered
        ensures more { IfOk result (λ more. more ≡ false) }
        ensures end { (old : Reach) (used : List ℕ) → Midway S.tells old used (reach_of self.now (S.feed source.old)) → OnOk result (AtEnd S.tells old used (reach_of self.now (S.feed source.new))) }
        ensures breaks { (old : Reach) (used : List ℕ) → Midway S.tells old used (reach_of self.now (S.feed source.old)) → IfErr result (Breaks S.tells old used (reach_of self.now (S.feed source.new))) }

        // the count of the faults
        ensures faults { (S.feed source.old).faults ≤ (S.feed source.new).faults }
        ensures quiet { result ≢ Err FrameNo.ReadFault → (S.feed source.new).faults ≡ (S.feed source.old).faults }
        ensures failed { result ≡ Err FrameNo.ReadFault → Rose (S.feed source.old).faults (S.feed source.new).faults }
    {
        let mut past = [0];
        match source.take(&mut past) {
            Ok(0) => Ok(false),
            Ok(_) => Err(FrameNo::LongFile),
            Err(Failed) => Err(FrameNo::ReadFault),
        }
    }

    /// The next byte. `None` at the end of input.
    pub(crate) fn next_byte<S: Source>(&mut self, source: &mut S) -> Result<Option<u8>, FrameNo>
        ensures some { (old : Reach) (used : List ℕ) → Midway S.tells old used (reach_of self.old (S.feed source.old)) → IfOk result (λ o. IfSome o (λ b. Midway S.tells old (used ++ b ∷ []) (reach_of self.new (S.feed source.new)))) }
        ensures none { (old : Reach) (used : List ℕ) → Midway S.tells old used (reach_of self.old (S.feed source.old)) → IfOk result (λ o. IfNone o (AtEnd S.tells old used (reach_of self.new (S.feed source.new)))) }
        ensures breaks { (old : Reach) (used : List ℕ) → Midway S.tells old used (reach_of self.old (S.feed source.old)) → IfErr result (Breaks S.tells old used (reach_of self.new (S.feed source.new))) }
        ensures faults { (S.feed source.old).faults ≤ (S.feed source.new).faults }
        ensures quiet { result ≢ Err FrameNo.ReadFault → (S.feed source.new).faults ≡ (S.feed source.old).faults }
        ensures failed { result ≡ Err FrameNo.ReadFault → Rose (S.feed source.old).faults (S.feed source.new).faults }
    {
        if !self.wait(source)? {
            return Ok(None);
        }
        let first = self.bytes()[0];
        self.consume(1);
        Ok(Some(first))
    }

    /// Moves at most `most` of the bytes that aren't used yet behind a text. At want of memory nothing is moved.
    pub(crate) fn move_to(&mut self, text: &mut Text, most: usize) -> Result<(), OutOfMemory>
        ensures text { OnOk result (text.new ≡ text.old ++ take (min (length self.old.pending) most) self.old.pending) }
        ensures rest { OnOk result (self.new.pending ≡ drop (min (length self.old.pending) most) self.old.pending) }
        ensures taken { self.new.taken ≡ self.old.taken }
        ensures kept { OnErr result (self.new ≡ self.old) }
    {
        let bytes = self.bytes();
        let n = bytes.len().min(most);
        text.add(&bytes[..n])?;
        self.consume(n);
        Ok(())
    }
}

/// Takes at most `most` bytes from the source into the front of these, and answers how many.
fn pull<S: Source>(source: &mut S, bytes: &mut [u8], most: usize) -> Result<usize, Failed>
    requires most { 0 < most }
    requires room { most ≤ length bytes.old }

    // what is given
    ensures bounded { IfOk result (λ n. n ≤ most) }
    ensures moved { IsTrue S.tells → IfOk result (λ n. (S.feed source.old).left ≡ take n bytes.new ++ (S.feed source.new).left) }
    ensures ends { IsTrue S.tells → IfOk result (λ n. n ≡ 0 → (S.feed source.old).left ≡ []) }

    // where it fails
    ensures kept { IsTrue S.tells → OnErr result ((S.feed source.new).left ≡ (S.feed source.old).left) }

    // the count of the faults
    ensures faults { (S.feed source.old).faults ≤ (S.feed source.new).faults }
    ensures quiet { OnOk result ((S.feed source.new).faults ≡ (S.feed source.old).faults) }
    ensures failed { OnErr result (Rose (S.feed source.old).faults (S.feed source.new).faults) }
{
    source.take(&mut bytes[..most])
}
