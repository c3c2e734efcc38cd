ghost use Rattle.std.specs.Prelude.{◌≡◌, ◌↔◌, IfOk};
ghost use Rattle.dali_entry.specs.EntryRecord.{EntryRecord};
ghost use Rattle.dali_machine.specs.History.{IsLegal, state_of};
ghost use Rattle.dali_replica.specs.Judging.{IsNextBy, IsKept, IsAhead, IsOther, IsBad, JudgedSo, JudgedNext};

use crate::judged::Judged;
use crate::kept::is_record_of;
use crate::shipped::Shipped;
use dali_base::OutOfMemory;
use dali_machine::State;
use dali_record::{Entries, RecordNo, decode};
use dali_recover::{has_its_choice, last_edition};
use std::alloc::Global;

/// What a frame is to a legal history, whose state is the one given, in a journal of this edition: exactly one of the five
/// answers of `specs/Judging.antt`. The only error is want of memory.
pub fn judge(
    alloc: Global,
    found: &Entries,
    state: &State,
    edition: u8,
    frame: &Shipped,
) -> Result<Judged, OutOfMemory>
    requires legal { IsLegal found.now }
    requires state { state.now.machine ≡ state_of found.now }
    ensures next { (e : EntryRecord) → IfOk result (λ answer. (answer ≡ Judged.Next e) ↔ IsNextBy edition found.now frame.now e) }
    ensures kept { IfOk result (λ answer. (answer ≡ Judged.Kept) ↔ IsKept found.now frame.now) }
    ensures ahead { IfOk result (λ answer. (answer ≡ Judged.Ahead) ↔ IsAhead found.now frame.now) }
    ensures other { IfOk result (λ answer. (answer ≡ Judged.Other) ↔ IsOther found.now frame.now) }
    ensures bad { IfOk result (λ answer. (answer ≡ Judged.Bad) ↔ IsBad edition found.now frame.now) }
{
    judge_number(alloc, found, state, edition, frame)
}

/// Judges a frame by its number first.
fn judge_number(
    alloc: Global,
    found: &Entries,
    state: &State,
    edition: u8,
    frame: &Shipped,
) -> Result<Judged, OutOfMemory>
    requires legal { IsLegal found.now }
    requires state { state.now.machine ≡ state_of found.now }
    ensures { IfOk result (JudgedSo edition found.now frame.now) }
{
    if frame.number == 0 {
        return Ok(Judged::Bad);
    }
    let place = frame.number - 1;
    let bytes = frame.bytes.bytes();
    match found.get(place as usize) {
        Some(entry) => {
            if is_record_of(alloc, bytes, entry)? {
                Ok(Judged::Kept)
            } else {
                Ok(Judged::Other)
            }
        }
        None => {
            if place == found.len() as u64 {
                judge_next(alloc, found, state, edition, bytes)
            } else {
                Ok(Judged::Ahead)
            }
        }
    }
}

/// Whether a history goes on with the entry whose record these bytes are, in a journal of this edition.
fn judge_next(
    alloc: Global,
    found: &Entries,
    state: &State,
    edition: u8,
    bytes: &[u8],
) -> Result<Judged, OutOfMemory>
    requires legal { IsLegal found.now }
    requires state { state.now.machine ≡ state_of found.now }
    ensures { IfOk result (JudgedNext edition found.now bytes.now) }
{
    match decode(alloc, bytes) {
        Ok(entry) => {
            if edition < entry.edition {
                return Ok(Judged::Bad);
            }
            if entry.edition < last_edition(found) {
                return Ok(Judged::Bad);
            }
            if !has_its_choice(alloc, state, &entry)? {
                return Ok(Judged::Bad);
            }
            Ok(Judged::Next { entry })
        }
        Err(RecordNo::Form) => Ok(Judged::Bad),
        Err(RecordNo::OutOfMemory) => Err(OutOfMemory),
    }
}
