ghost use Rattle.std.specs.Prelude.{◌≡◌, ◌≢◌, ◌+◌, ◌≤◌, ℕ, List, [], Ok, Err, None, true, false, length, IfOk, IfErr, IfSome, IfNone, OnErr};
ghost use Rattle.dali_outside.specs.Outside.{Rose};
ghost use Rattle.dali_replica.specs.Intake.{reach_of};
ghost use Rattle.dali_replica.specs.Reading.{Gives, Ends, Stops, MeetsFrame, MeetsEnd, reached};
ghost use Rattle.dali_replica.specs.Stream.{HasFrames, ShippedRecord};

use crate::head::{HEAD, read_head};
use crate::intake::Intake;
use crate::limits::MOST_RECORD;
use crate::record::read_record;
use crate::refusal::FrameNo;
use crate::shipped::Shipped;
use dali_outside::Source;
use std::alloc::Global;
use std::marker::Model;

/// A reader of the frames of a stream, which are those of `specs/Stream.antt`. Contracts see it as a `Reader`
/// (`specs/Reading.antt`).
#[derive(Drop)]
pub struct Frames {
    intake: Intake,
    place: u64,
    over: bool,
    alloc: Global,
}

impl Model for Frames {
    ghost use Rattle.dali_replica.specs.Reading.{Reader};
    ghost use Rattle.dali_replica.specs.FramesLayout.{reader_of, IsCounted};

    ghost Value = { Reader };

    ghost view = { reader_of };

    ghost invariant = { IsCounted };
}

impl Frames {
    /// A reader that took nothing yet. Takes no memory.
    pub fn new(alloc: Global) -> Frames
        ensures { result ≡ record { place = 0; pending = []; taken = 0; over = false } }
    {
        Frames {
            intake: Intake::new(),
            place: 0,
            over: false,
            alloc,
        }
    }

    /// The next whole frame of the stream, with its place, counted in bytes from 0. `None` at the end of input, within a frame
    /// too, and after an earlier error.
    ///
    /// At most 1,099,511,627,776 bytes of the source are taken, and one more that shows that there is one. `ReadFault` comes
    /// only where the source's count of faults rose, or stands at u64's last value, and at every other answer the count stays.
    /// `BadLength` comes exactly where the length of the next frame is more than 536,870,912, before memory is taken for it.
    /// `LongFile` comes exactly where no frame ends within the limit of bytes and one byte more was taken. `OutOfMemory` comes
    /// only where room was wanted for bytes that were taken, of a record whose length is within the limit.
    pub fn next<S: Source>(&mut self, source: &mut S) -> Result<Option<Shipped>, FrameNo>

        // the four answers, and nothing more behind the last
        ensures over { self.old.over ≡ true → (result ≡ Ok None) × (self.new ≡ self.old) × (source.new ≡ source.old) }
        ensures some { self.old.over ≡ false → IfOk result (λ o. IfSome o (λ f. Gives S.tells f self.old self.new (S.feed source.old) (S.feed source.new))) }
        ensures none { self.old.over ≡ false → IfOk result (λ o. IfNone o (Ends S.tells self.old self.new (S.feed source.old) (S.feed source.new))) }
        ensures stops { IfErr result (Stops S.tells self.old.place (reached self.old (S.feed source.old)) (reached self.new (S.feed source.new))) }

        // a fault comes only where its count rose
        ensures quiet { result ≢ Err FrameNo.ReadFault → (S.feed source.new).faults ≡ (S.feed source.old).faults }
        ensures failed { result ≡ Err FrameNo.ReadFault → Rose (S.feed source.old).faults (S.feed source.new).faults }
        ensures ended { OnErr result (self.new.over ≡ true) }
        ensures faults { (S.feed source.old).faults ≤ (S.feed source.new).faults }

        // where it stands, and that a stream has one list of frames
        ensures counted { self.new.over ≡ false → self.new.place + length self.new.pending ≡ self.new.taken }
        ensures one_stream { (stream : List ℕ) (frames others : List ShippedRecord) → HasFrames stream frames → HasFrames stream others → frames ≡ others }
    {
        if self.over {
            return Ok(None);
        }
        self.over = true;
        match read_frame(self.alloc, self.place, &mut self.intake, source) {
            Ok(Some(frame)) => {
                self.over = false;
                self.place += HEAD as u64 + frame.bytes.len() as u64;
                Ok(Some(frame))
            }
            Ok(None) => Ok(None),
            Err(end) => Err(end),
        }
    }
}

/// Reads the next frame, which begins at this place of the stream. `None` where the end of input stands before its last byte.
fn read_frame<S: Source>(
    alloc: Global,
    place: u64,
    intake: &mut Intake,
    source: &mut S,
) -> Result<Option<Shipped>, FrameNo>
    ensures some { IfOk result (λ o. IfSome o (λ f. MeetsFrame S.tells f (reach_of intake.old (S.feed source.old)) (reach_of intake.new (S.feed source.new)))) }
    ensures place { IfOk result (λ o. IfSome o (λ f. f.place ≡ place)) }
    ensures none { IfOk result (λ o. IfNone o (MeetsEnd S.tells (reach_of intake.old (S.feed source.old)) (reach_of intake.new (S.feed source.new)))) }
    ensures stops { IfErr result (Stops S.tells place (reach_of intake.old (S.feed source.old)) (reach_of intake.new (S.feed source.new))) }
    ensures faults { (S.feed source.old).faults ≤ (S.feed source.new).faults }
    ensures quiet { result ≢ Err FrameNo.ReadFault → (S.feed source.new).faults ≡ (S.feed source.old).faults }
    ensures failed { result ≡ Err FrameNo.ReadFault → Rose (S.feed source.old).faults (S.feed source.new).faults }
{
    let Some(head) = read_head(intake, source)? else {
        return Ok(None);
    };
    if head.size > MOST_RECORD {
        return Err(FrameNo::BadLength { place });
    }
    match read_record(alloc, head.size as usize, intake, source)? {
        Some(bytes) => Ok(Some(Shipped {
            place,
            number: head.number,
            bytes,
        })),
        None => Ok(None),
    }
}
