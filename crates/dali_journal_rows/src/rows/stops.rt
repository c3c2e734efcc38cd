//! What a stop leaves behind each number of calls of the device, to the byte: loose bytes have the fill.

ghost use Rattle.std.specs.Prelude.{◌≡◌, ◌⊎◌, ◌≤◌, ◌+◌, true, length, IfOk, IfSome};

use super::{A, B, ISSUE, ONE, THREE, TWO, at_end, device, formatted, holds, site_of, two_more};
use dali_base::{NEWEST, OutOfMemory, Text};
use dali_journal::{Journal, frame, open_journal};
use dali_outside::{Faults, MemSite};
use std::alloc::Global;
use std::process::Abort;
use std::test::Fail;

/// A site with a journal of the first record, open at its end.
fn with_first(alloc: Global) -> Result<Option<(MemSite, Journal)>, OutOfMemory>
    ensures { IfOk result (λ o. IfSome o (λ both. (both.1.tail + both.1.left ≡ both.0.sight.size) × (both.1.ended ≡ true))) }
{
    let mut site = formatted(alloc, 128, Faults::new(alloc))?;
    let sealed = frame(alloc, A)?;
    let Some(mut journal) = at_end(alloc, &mut site) else {
        return Ok(None);
    };
    match journal.append(&mut site, &sealed) {
        Ok(()) => Ok(Some((site, journal))),
        Err(_) => Ok(None),
    }
}

/// Whether the append of a second record works where every call after so many fails, and what a stop then leaves.
fn append_stopped(
    alloc: Global,
    calls: u64,
    fill: u8,
) -> Result<Option<(bool, Text)>, OutOfMemory> {
    let sealed = frame(alloc, B)?;
    let Some((mut site, mut journal)) = with_first(alloc)? else {
        return Ok(None);
    };
    site.fuse(calls);
    let worked = journal.append(&mut site, &sealed).is_ok();
    Ok(Some((worked, site.stop_image(alloc, fill)?)))
}

/// The same for the append of two further records in one group.
fn group_stopped(alloc: Global, calls: u64, fill: u8) -> Result<Option<(bool, Text)>, OutOfMemory> {
    let group = two_more(alloc)?;
    let Some((mut site, mut journal)) = with_first(alloc)? else {
        return Ok(None);
    };
    site.fuse(calls);
    let worked = journal.append_group(&mut site, &group).is_ok();
    Ok(Some((worked, site.stop_image(alloc, fill)?)))
}

/// What a stop behind so many calls of an append to `ONE` leaves, which makes it `after`. The frames, from place 39 on,
/// are written by the first call and firm by the second; the gate, at place 38, is written by the third and firm by the
/// fourth.
fn left_by_append(calls: u64, fill: u8, after: &[u8]) -> [u8; 128]
    requires { (39 ≤ length after.now) × (length after.now ≤ 128) }
{
    let mut image = if calls < 2 {
        device(ONE)
    } else {
        device(after)
    };
    if calls < 2 {
        image[39..after.len()].fill(fill);
    } else if calls < 4 {
        image[38] = fill;
    }
    image
}

/// How many records stand after a stop behind so many calls of an append.
fn standing(calls: u64, fill: u8, before: usize, after: usize) -> usize
    ensures { result ≡ before ⊎ result ≡ after }
{
    if calls >= 4 || (calls >= 2 && fill != 0) {
        after
    } else {
        before
    }
}

#[test]
fn stops_of_append(rt: HostRuntime) -> Result<(), Fail> {
    for calls in 0..6 {
        for fill in [0, 1, 255] {
            let Some((worked, image)) = append_stopped(rt.alloc(), calls, fill)? else {
                panic!(&rt; "open");
            };
            assert_eq!(rt; worked, calls >= 4);
            assert_eq!(rt; image.bytes(), left_by_append(calls, fill, TWO).as_slice());
            let count = standing(calls, fill, 1, 2);
            holds(&rt, rt.alloc(), image.bytes(), &[A, B][..count])?;
        }
    }
    Ok(())
}

#[test]
fn stops_of_append_group(rt: HostRuntime) -> Result<(), Fail> {
    for calls in 0..6 {
        for fill in [0, 1, 255] {
            let Some((worked, image)) = group_stopped(rt.alloc(), calls, fill)? else {
                panic!(&rt; "open");
            };
            assert_eq!(rt; worked, calls >= 4);
            assert_eq!(rt;
                image.bytes(),
                left_by_append(calls, fill, THREE).as_slice()
            );
            let count = standing(calls, fill, 1, 3);
            holds(&rt, rt.alloc(), image.bytes(), &[A, B, ISSUE][..count])?;
        }
    }
    Ok(())
}

/// Whether the raise of a journal of the first record works where every call after so many fails, and what a stop then
/// leaves.
fn raise_stopped(alloc: Global, calls: u64, fill: u8) -> Result<Option<(bool, Text)>, OutOfMemory> {
    let mut site = site_of(alloc, &device(ONE))?;
    let Ok(mut journal) = open_journal(alloc, &mut site) else {
        return Ok(None);
    };
    if journal.edition() >= NEWEST {
        return Ok(None);
    }
    site.fuse(calls);
    let worked = journal.raise_edition(&mut site).is_ok();
    Ok(Some((worked, site.stop_image(alloc, fill)?)))
}

/// The edition of the journal that an image holds.
fn edition_of(alloc: Global, image: &[u8]) -> Result<Option<u8>, OutOfMemory> {
    let mut site = site_of(alloc, image)?;
    match open_journal(alloc, &mut site) {
        Ok(journal) => Ok(Some(journal.edition())),
        Err(_) => Ok(None),
    }
}

/// What a stop behind so many calls of a raise of `ONE` leaves: the first edition byte, at place 12, is written by the
/// first call and firm by the second.
fn left_by_raise(calls: u64, fill: u8) -> [u8; 128] {
    let mut image = device(ONE);
    image[12] = if calls < 2 { fill } else { 1 };
    image
}

#[test]
fn stops_of_raise(rt: HostRuntime) -> Result<(), Fail> {
    for calls in 0..4 {
        for fill in [0, 1, 255] {
            let Some((worked, image)) = raise_stopped(rt.alloc(), calls, fill)? else {
                panic!(&rt; "open");
            };
            assert_eq!(rt; worked, calls >= 2);
            assert_eq!(rt; image.bytes(), left_by_raise(calls, fill).as_slice());
            let edition = if calls < 2 && fill == 0 { 1 } else { 2 };
            assert_eq!(rt; edition_of(rt.alloc(), image.bytes())?, Some(edition));
            holds(&rt, rt.alloc(), image.bytes(), &[A])?;
        }
    }
    Ok(())
}
