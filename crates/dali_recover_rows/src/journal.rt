use dali_base::{OutOfMemory, Text};
use dali_journal::Damage;
use dali_outside::{Faults, MemSite};
use dali_recover::{Found, RecoverNo, recover};
use std::alloc::Global;

/// The bytes of the device: the journal, and 0 behind it.
pub(crate) const SIZE: usize = 176;

/// The journal of a day that opens two accounts, issues 7 to the first, and settles its payment of 4 to the second in a
/// cycle. Its gates stand at 16, 38, 60, 89, 117 and, closed, at 163.
const FIVE: &[u8] = b"DALI-JOURNAL\0\0\0\x01\
\x01\0\0\0\x11\x01\0\x0d080000,PART,A\0\
\x01\0\0\0\x11\x01\0\x0d080000,PART,B\0\
\x01\0\0\0\x18\x01\0\x14080001,ISSUE,A,MXN,7\0\
\x01\0\0\0\x17\x01\0\x13080001,PAY,P1,A,B,4\0\
\x01\0\0\0\x29\x01\0\x0e080002,CYCLE,0\x01\
\0\x01\0\0\0\x01\0\x01\0\0\0\0\0\0\0\0\0\x04\0\0\x04\0\0\
\0";

/// What a device comes to: so many entries with the closed gate there, or damage.
#[derive(Clone, Copy, Debug, PartialEq, Eq)]
pub(crate) enum Answer {
    Found { entries: usize, tail: u64 },
    Damaged { place: u64, why: Damage },
    Failed,
}

/// The byte at a place of the device.
pub(crate) fn byte_at(place: usize) -> u8 {
    FIVE.get(place).copied().unwrap_or(0)
}

/// The device, with this byte at a place.
pub(crate) fn changed(alloc: Global, place: usize, byte: u8) -> Result<Text, OutOfMemory> {
    let mut text = Text::new(alloc);
    for at in 0..SIZE {
        text.push(if at == place { byte } else { byte_at(at) })?;
    }
    Ok(text)
}

/// What `recover` answers of a device of these bytes.
pub(crate) fn recovered(alloc: Global, image: Text) -> Result<Answer, OutOfMemory> {
    let mut site = MemSite::from_image(alloc, image, 0, 64, 0, Faults::new(alloc))?;
    Ok(answer_of(recover(alloc, &mut site)))
}

fn answer_of(outcome: Result<Found, RecoverNo>) -> Answer {
    match outcome {
        Ok(found) => Answer::Found {
            entries: found.entries.len(),
            tail: found.journal.tail(),
        },
        Err(RecoverNo::Damaged { place, why }) => Answer::Damaged { place, why },
        Err(_) => Answer::Failed,
    }
}
