//! Journals whose bytes, and whose frames, are laid out by hand.

use crate::{ShipEnd, ship_journal};
use dali_base::{OutOfMemory, Text};
use dali_journal::Damage;
use dali_outside::{Fault, Faults, MemSite};
use std::alloc::Global;
use std::test::Fail;

/// What stands before the first gate of a journal in edition 1.
const HEADER: &[u8] = b"DALI-JOURNAL\0\0\0\x01";

/// The records of three lines behind their gates, and the closed gate behind them.
const THREE: &[u8] = b"\x01\0\0\0\x11\x01\0\x0d080000,PART,A\0\
\x01\0\0\0\x11\x01\0\x0d080000,PART,B\0\
\x01\0\0\0\x1a\x01\0\x16080001,ISSUE,A,MXN,100\0\0";

/// Their frames.
const FRAMES: &[u8] = b"\0\0\0\0\0\0\0\x01\0\0\0\x11\x01\0\x0d080000,PART,A\0\
\0\0\0\0\0\0\0\x02\0\0\0\x11\x01\0\x0d080000,PART,B\0\
\0\0\0\0\0\0\0\x03\0\0\0\x1a\x01\0\x16080001,ISSUE,A,MXN,100\0";

/// What recovery calls of the disk for three lines: a sync, the header, and one read of the records.
const CALLS: u64 = 3;

/// How many entries the long journal has, all of one line. A frame of theirs has 29 bytes, so that the first 2,260 are the first
/// piece of 64 KiB or more.
const MANY: usize = 3000;

/// How a ship of these bytes ends, of which this call alone fails; what it has printed, and how many calls it made.
fn ship(
    alloc: Global,
    image: Text,
    fault: Option<Fault>,
) -> Result<(ShipEnd, Text, u64), OutOfMemory> {
    let mut fails = Faults::new(alloc);
    if let Some(fault) = fault {
        fails.push(fault)?;
    }
    let mut site = MemSite::from_image(alloc, image, 100_000, 10_000, 64, fails)?;
    let answer = ship_journal(alloc, &mut site);
    let mut printed = Text::new(alloc);
    printed.add(site.printed())?;
    Ok((answer, printed, site.made()))
}

/// A device of these bytes behind the header.
fn device(alloc: Global, header: &[u8], body: &[u8]) -> Result<Text, OutOfMemory> {
    let mut image = Text::new(alloc);
    image.add(header)?;
    image.add(body)?;
    Ok(image)
}

/// A device with so many records of one line.
fn long_device(alloc: Global) -> Result<Text, OutOfMemory> {
    let mut image = device(alloc, HEADER, b"")?;
    for _ in 0..MANY {
        image.add(&THREE[..22])?;
    }
    image.push(0)?;
    Ok(image)
}

#[test]
fn frames_of_three_lines(rt: HostRuntime) -> Result<(), Fail> {
    let alloc = rt.alloc();
    let (answer, printed, calls) = ship(alloc, device(alloc, HEADER, THREE)?, None)?;
    assert_eq!(rt; answer, ShipEnd::Done);
    assert_eq!(rt; printed.len(), 96);
    assert_eq!(rt; printed.bytes(), FRAMES);
    assert_eq!(rt; calls, CALLS + 1);
    Ok(())
}

/// An empty journal has no frame, and nothing is put.
#[test]
fn empty_journal(rt: HostRuntime) -> Result<(), Fail> {
    let alloc = rt.alloc();
    let (answer, printed, calls) = ship(alloc, device(alloc, HEADER, b"\0")?, None)?;
    assert_eq!(rt; answer, ShipEnd::Done);
    assert_eq!(rt; printed.len(), 0);
    assert_eq!(rt; calls, 3);
    Ok(())
}

#[test]
fn ships_that_fail(rt: HostRuntime) -> Result<(), Fail> {
    let alloc = rt.alloc();
    for call in 1..CALLS + 2 {
        let image = device(alloc, HEADER, THREE)?;
        let (answer, printed, _) = ship(alloc, image, Some(Fault { call, went: 40 }))?;
        if call > CALLS {
            assert_eq!(rt; answer, ShipEnd::PrintFault);
            assert_eq!(rt; printed.bytes(), &FRAMES[..40]);
        } else {
            assert_eq!(rt; answer, ShipEnd::DiskFault);
            assert_eq!(rt; printed.len(), 0);
        }
    }
    Ok(())
}

/// A journal of two pieces, whole, and with its second put failing.
#[test]
fn pieces(rt: HostRuntime) -> Result<(), Fail> {
    let alloc = rt.alloc();
    // Of the 66,000 bytes of its records one read takes 65,536, and another one the rest.
    let calls = CALLS + 1;
    let (answer, printed, made) = ship(alloc, long_device(alloc)?, None)?;
    assert_eq!(rt; answer, ShipEnd::Done);
    assert_eq!(rt; printed.len(), 29 * MANY);
    assert_eq!(rt;
        &printed.bytes()[29 * 2999..29 * 2999 + 12],
        b"\0\0\0\0\0\0\x0b\xb8\0\0\0\x11".as_slice()
    );
    assert_eq!(rt; made, calls + 2);
    let second = Fault {
        call: calls + 2,
        went: 1,
    };
    let (answer, printed, _) = ship(alloc, long_device(alloc)?, Some(second))?;
    assert_eq!(rt; answer, ShipEnd::PrintFault);
    assert_eq!(rt; printed.len(), 29 * 2260 + 1);
    Ok(())
}

#[test]
fn damaged_device(rt: HostRuntime) -> Result<(), Fail> {
    let alloc = rt.alloc();
    let image = device(alloc, HEADER, &THREE[..40])?;
    let (answer, printed, _) = ship(alloc, image, None)?;
    let (place, why) = (38, Damage::Length);
    assert_eq!(rt; answer, ShipEnd::Damaged { place, why });
    assert_eq!(rt; printed.len(), 0);
    Ok(())
}
