//! Journals that were laid out by hand, and what is found of them: every row's place and reason is counted by hand.

use crate::{Found, RecoverNo, recover};
use dali_base::{OutOfMemory, Text};
use dali_journal::Damage;
use dali_outside::{Fault, Faults, MemSite};
use std::alloc::Global;
use std::process::Abort;
use std::test::Fail;

/// The journal of PART A and PART B, as an edition 1 day of two lines leaves it; its third gate stands at 60.
const TWO: &[u8] = b"DALI-JOURNAL\0\0\0\x01\
\x01\0\0\0\x11\x01\0\x0d080000,PART,A\0\
\x01\0\0\0\x11\x01\0\x0d080000,PART,B\0\0";

/// The journal of PART A, PART B and ISSUE A MXN 100; its closed gate stands at 91.
const THREE: &[u8] = b"DALI-JOURNAL\0\0\0\x01\
\x01\0\0\0\x11\x01\0\x0d080000,PART,A\0\
\x01\0\0\0\x11\x01\0\x0d080000,PART,B\0\
\x01\0\0\0\x1a\x01\0\x16080001,ISSUE,A,MXN,100\0\0";

/// An edition 2 journal whose second record falls back to edition 1.
const FALLEN: &[u8] = b"DALI-JOURNAL\xff\0\0\x01\
\x01\0\0\0\x11\x02\0\x0d080000,PART,A\0\
\x01\0\0\0\x11\x01\0\x0d080000,PART,B\0\0";

/// The same journal with its records the other way round: editions rise.
const RISEN: &[u8] = b"DALI-JOURNAL\xff\0\0\x01\
\x01\0\0\0\x11\x01\0\x0d080000,PART,A\0\
\x01\0\0\0\x11\x02\0\x0d080000,PART,B\0\0";

/// The head of an edition 1 journal and its first gate, open.
const OPEN: &[u8] = b"DALI-JOURNAL\0\0\0\x01\x01";

/// A choice of nothing: no places, no parts.
const EMPTY_CHOICE: &[u8] = b"\x01\0\0\0\0";

/// What is found: so many entries with the closed gate there; or damage.
#[derive(Clone, Copy, Debug, PartialEq, Eq)]
enum Answer {
    Found { entries: usize, tail: u64 },
    Damaged { place: u64, why: Damage },
    DiskFault,
    OutOfMemory,
}

fn answer_of(outcome: Result<Found, RecoverNo>) -> Answer {
    match outcome {
        Ok(found) => Answer::Found {
            entries: found.entries.len(),
            tail: found.journal.tail(),
        },
        Err(RecoverNo::Damaged { place, why }) => Answer::Damaged { place, why },
        Err(RecoverNo::DiskFault) => Answer::DiskFault,
        Err(RecoverNo::OutOfMemory) => Answer::OutOfMemory,
    }
}

/// A device of so many bytes: these pieces, and 0 behind them.
fn image(alloc: Global, size: usize, pieces: &[&[u8]]) -> Result<Text, OutOfMemory> {
    let mut text = Text::new(alloc);
    for piece in pieces {
        text.add(piece)?;
    }
    for _ in text.len()..size {
        text.push(0)?;
    }
    Ok(text)
}

fn found_in(alloc: Global, image: Text) -> Result<Answer, OutOfMemory> {
    let mut site = MemSite::from_image(alloc, image, 0, 64, 0, Faults::new(alloc))?;
    Ok(answer_of(recover(alloc, &mut site)))
}

/// A device of 64 bytes whose first record begins with these bytes: the last byte of its length, and its payload.
fn first_record(alloc: Global, pieces: &[&[u8]]) -> Result<Answer, OutOfMemory> {
    let mut text = image(alloc, 0, &[OPEN, b"\0\0\0".as_slice()])?;
    text.add(image(alloc, 0, pieces)?.bytes())?;
    found_in(alloc, image(alloc, 64, &[text.bytes()])?)
}

const fn damaged(place: u64, why: Damage) -> Answer {
    Answer::Damaged { place, why }
}

#[test]
fn first_records(rt: HostRuntime) -> Result<(), Fail> {
    let alloc = rt.alloc();
    let illegal = damaged(16, Damage::Illegal);
    let no_entry = damaged(16, Damage::Entry);
    let rows: [(&[&[u8]], Answer); 8] = [
        (&[b"\x2a"], no_entry),
        (&[b"\x2b"], damaged(16, Damage::Length)),
        (&[b"\x15\x01\0\x0d080000,PART,A", EMPTY_CHOICE], illegal),
        (&[b"\x12\x01\0\x0e080000,CYCLE,0\0"], illegal),
        (
            &[b"\x16\x01\0\x0e080000,CYCLE,0", EMPTY_CHOICE],
            Answer::Found {
                entries: 1,
                tail: 43,
            },
        ),
        (
            &[b"\x18\x01\0\x0e080000,CYCLE,0\x01\0\x01\0\0\0\0"],
            illegal,
        ),
        (&[b"\x11\x02\0\x0d080000,PART,A\0"], no_entry),
        (
            &[b"\x11\x01\0\x0d080000,PART,A\0"],
            Answer::Found {
                entries: 1,
                tail: 38,
            },
        ),
    ];
    for (pieces, wanted) in rows {
        assert_eq!(rt; first_record(alloc, pieces)?, wanted);
    }
    Ok(())
}

/// The journal of two lines on 64 bytes, with these bytes from a place on.
fn changed(alloc: Global, at: usize, bytes: &[u8]) -> Result<Answer, OutOfMemory> {
    let (front, rest) = TWO.split_at(at.min(TWO.len()));
    let behind = &rest[bytes.len().min(rest.len())..];
    found_in(alloc, image(alloc, 64, &[front, bytes, behind])?)
}

#[test]
fn changed_bytes(rt: HostRuntime) -> Result<(), Fail> {
    let alloc = rt.alloc();
    let rows: [(usize, &[u8], Answer); 9] = [
        (17, b"\0\0\0\xc8", damaged(16, Damage::Length)),
        (17, b"\xff\xff\xff\xff", damaged(16, Damage::Length)),
        (21, b"\0", damaged(16, Damage::Entry)),
        (37, b"\x01", damaged(16, Damage::Entry)),
        (
            38,
            b"\0",
            Answer::Found {
                entries: 1,
                tail: 38,
            },
        ),
        (
            38,
            b"\xff",
            Answer::Found {
                entries: 2,
                tail: 60,
            },
        ),
        (43, b"\x02", damaged(38, Damage::Entry)),
        (60, b"\x01", damaged(60, Damage::Length)),
        (0, b"d", damaged(0, Damage::Header)),
    ];
    for (at, bytes, wanted) in rows {
        assert_eq!(rt; changed(alloc, at, bytes)?, wanted);
    }
    Ok(())
}

#[test]
fn whole_devices(rt: HostRuntime) -> Result<(), Fail> {
    let alloc = rt.alloc();
    let rows: [(&[u8], usize, Answer); 8] = [
        (b"", 64, damaged(0, Damage::Header)),
        (b"", 16, damaged(0, Damage::Short)),
        (OPEN, 17, damaged(16, Damage::Length)),
        (
            &OPEN[..16],
            17,
            Answer::Found {
                entries: 0,
                tail: 16,
            },
        ),
        (
            TWO,
            61,
            Answer::Found {
                entries: 2,
                tail: 60,
            },
        ),
        (
            THREE,
            4096,
            Answer::Found {
                entries: 3,
                tail: 91,
            },
        ),
        (FALLEN, 64, damaged(38, Damage::Entry)),
        (
            RISEN,
            64,
            Answer::Found {
                entries: 2,
                tail: 60,
            },
        ),
    ];
    for (bytes, size, wanted) in rows {
        assert_eq!(rt; found_in(alloc, image(alloc, size, &[bytes])?)?, wanted);
    }
    Ok(())
}

/// What is found on a device of which these calls fail, and how many were made.
fn counted(alloc: Global, image: Text, fails: Faults) -> Result<(Answer, u64), OutOfMemory> {
    let mut site = MemSite::from_image(alloc, image, 0, 64, 0, fails)?;
    let answer = answer_of(recover(alloc, &mut site));
    Ok((answer, site.made()))
}

/// The device of three lines, of which this call alone fails: what is found, and how many calls were made.
fn failing(alloc: Global, call: u64) -> Result<(Answer, u64), OutOfMemory> {
    let mut fails = Faults::new(alloc);
    fails.push(Fault { call, went: 0 })?;
    counted(alloc, image(alloc, 4096, &[THREE])?, fails)
}

/// Two calls open the journal, and one reads all its records and the closed gate.
#[test]
fn each_call_is_made_once(rt: HostRuntime) -> Result<(), Fail> {
    let alloc = rt.alloc();
    for call in 1..4 {
        assert_eq!(rt; failing(alloc, call)?, (Answer::DiskFault, call));
    }
    assert_eq!(rt;
        failing(alloc, 4)?,
        (
            Answer::Found {
                entries: 3,
                tail: 91
            },
            3
        )
    );
    Ok(())
}

/// A piece of 65,536 bytes has 2,978 records of 22 bytes and the front of one more, so three pieces have 6,000 records.
#[test]
fn pieces(rt: HostRuntime) -> Result<(), Fail> {
    let alloc = rt.alloc();
    let mut text = image(alloc, 0, &[&OPEN[..16]])?;
    for _ in 0..6000 {
        text.add(&TWO[16..38])?;
    }
    text.push(0)?;
    assert_eq!(rt;
        counted(alloc, text, Faults::new(alloc))?,
        (
            Answer::Found {
                entries: 6000,
                tail: 132_016
            },
            5
        )
    );
    Ok(())
}

/// A record that is longer than a piece is read by itself, in two reads behind that of the piece: here it is none.
#[test]
fn long_record(rt: HostRuntime) -> Result<(), Fail> {
    let alloc = rt.alloc();
    let front: [&[u8]; 2] = [&TWO[..38], b"\x01\0\x01\0\0"];
    let text = image(alloc, 65_580, &front)?;
    assert_eq!(rt;
        counted(alloc, text, Faults::new(alloc))?,
        (damaged(38, Damage::Entry), 6)
    );
    let text = image(alloc, 65_579, &front)?;
    assert_eq!(rt;
        counted(alloc, text, Faults::new(alloc))?,
        (damaged(38, Damage::Length), 4)
    );
    Ok(())
}
