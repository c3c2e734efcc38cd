//! A plain slow reader of a journal: byte for byte as the format says, with none of the code that it is compared with.

use crate::bytes::Unread;
use crate::day::Day;
use crate::journal::Answer;
use dali_journal::Damage;

/// What stands in the place of a record's choice.
#[derive(Clone, Copy)]
pub(crate) enum Kept<'a> {
    Nothing,
    /// A choice, by its bytes.
    Choice(&'a [u8]),
}

/// An entry as its record spells it.
#[derive(Clone, Copy)]
pub(crate) struct Read<'a> {
    pub(crate) edition: u8,
    pub(crate) line: &'a [u8],
    pub(crate) kept: Kept<'a>,
}

/// What stands at a gate.
enum AtGate<'a> {
    Closed,
    TooLong,
    Payload(&'a [u8]),
}

/// What a device of these bytes comes to.
pub(crate) fn read_slowly(bytes: &[u8]) -> Answer {
    if bytes.len() < 17 {
        return damaged(0, Damage::Short);
    }
    match edition_of(bytes) {
        Some(edition) => read_records(bytes, edition),
        None => damaged(0, Damage::Header),
    }
}

fn damaged(place: usize, why: Damage) -> Answer {
    Answer::Damaged {
        place: place as u64,
        why,
    }
}

/// The edition of the header, where there is one.
fn edition_of(bytes: &[u8]) -> Option<u8> {
    let (header, _) = bytes.split_at(16.min(bytes.len()));
    let (text, marks) = header.split_at(12.min(header.len()));
    if text != b"DALI-JOURNAL".as_slice() {
        return None;
    }
    match marks {
        [0, 0, 0, 1] => Some(1),
        [a, 0, 0, 1] if *a != 0 => Some(2),
        [a, b, 0, 1] if *a != 0 && *b != 0 => Some(3),
        [a, b, c, 1] if *a != 0 && *b != 0 && *c != 0 => Some(4),
        _ => None,
    }
}

/// What the records behind a header of this edition come to.
fn read_records(bytes: &[u8], edition: u8) -> Answer {
    let mut day = Day::new();
    let mut place: usize = 16;
    let mut last = 0;
    for entries in 0..bytes.len() {
        let payload = match at_gate(bytes, place) {
            AtGate::Closed => {
                return Answer::Found {
                    entries,
                    tail: place as u64,
                };
            }
            AtGate::TooLong => return damaged(place, Damage::Length),
            AtGate::Payload(payload) => payload,
        };
        let Some(read) = entry_of(payload) else {
            return damaged(place, Damage::Entry);
        };
        if read.edition > edition || read.edition < last {
            return damaged(place, Damage::Entry);
        }
        if !day.takes(&read) {
            return damaged(place, Damage::Illegal);
        }
        last = read.edition;
        place = place.saturating_add(payload.len()).saturating_add(5);
    }
    Answer::Failed
}

/// What stands at the gate at a place.
fn at_gate(bytes: &[u8], place: usize) -> AtGate<'_> {
    let mut unread = Unread {
        bytes: bytes.get(place..).unwrap_or(&[]),
    };
    match unread.byte() {
        Some(0) => return AtGate::Closed,
        Some(_) => {}
        None => return AtGate::TooLong,
    }
    let payload = match unread.number(4) {
        Some(len) => unread.piece(len),
        None => None,
    };
    // Behind the payload the next gate stands.
    match (payload, unread.byte()) {
        (Some(payload), Some(_)) => AtGate::Payload(payload),
        _ => AtGate::TooLong,
    }
}

/// The entry that these bytes, all of them, are the record of.
fn entry_of(payload: &[u8]) -> Option<Read<'_>> {
    let mut unread = Unread { bytes: payload };
    let edition = unread.byte()?;
    let len = unread.number(2)?;
    let line = unread.piece(len)?;
    let kept = match unread.byte()? {
        0 => Kept::Nothing,
        1 => Kept::Choice(unread.bytes),
        _ => return None,
    };
    if edition < 1 || edition > 4 || !is_line(line) {
        return None;
    }
    let whole = match kept {
        Kept::Nothing => unread.bytes.is_empty(),
        Kept::Choice(_) => is_choice(&mut unread)? && unread.bytes.is_empty(),
    };
    if !whole {
        return None;
    }
    Some(Read {
        edition,
        line,
        kept,
    })
}

fn is_line(line: &[u8]) -> bool {
    match line {
        [] => false,
        [first, ..] => *first != b'#' && line.len() <= 200 && line.iter().all(|byte| *byte != 10),
    }
}

/// Whether a choice stands at the front. `None` where the bytes end before.
fn is_choice(unread: &mut Unread<'_>) -> Option<bool> {
    if place_list(unread)?.is_none() {
        return Some(false);
    }
    let parts = unread.number(2)?;
    let mut least = 0;
    for _ in 0..parts {
        let Some((first, len)) = place_list(unread)? else {
            return Some(false);
        };
        let bound = unread.number(8)?;
        if len == 0 || first < least || bound > 16_384_000_000_000_000_000 || !is_tree(unread)? {
            return Some(false);
        }
        least = first.saturating_add(1);
    }
    Some(true)
}

/// The first place of a list of rising ones below 1,024, and how many there are. `Some(None)` where it is none.
fn place_list(unread: &mut Unread<'_>) -> Option<Option<(u64, u64)>> {
    let count = unread.number(2)?;
    let mut first = 0;
    let mut least = 0;
    for k in 0..count {
        let place = unread.number(2)?;
        if place < least || place >= 1024 {
            return Some(None);
        }
        if k == 0 {
            first = place;
        }
        least = place.saturating_add(1);
    }
    Some(Some((first, count)))
}

/// Whether a tree without multipliers stands at the front: no record here has bytes for one.
fn is_tree(unread: &mut Unread<'_>) -> Option<bool> {
    let mut open: u64 = 1;
    for _ in 0..unread.bytes.len() {
        if open == 0 {
            return Some(true);
        }
        if !is_fixes(unread)? {
            return Some(false);
        }
        match unread.byte()? {
            4 if unread.number(2)? == 0 => open = open.saturating_sub(1),
            5 if unread.number(2)? < 4096 => open = open.saturating_sub(1),
            6 if unread.number(2)? < 1024 && unread.number(2)? == 0 => {
                open = open.saturating_add(1);
            }
            _ => return Some(false),
        }
    }
    Some(open == 0)
}

fn is_fixes(unread: &mut Unread<'_>) -> Option<bool> {
    let count = unread.number(2)?;
    for _ in 0..count {
        let kind = unread.byte()?;
        let place = unread.number(2)?;
        let line = if kind == 3 { 0 } else { unread.number(2)? };
        if kind < 1 || kind > 3 || place >= 1024 || line >= 4096 {
            return Some(false);
        }
    }
    Some(true)
}
