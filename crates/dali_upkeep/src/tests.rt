//! A journal of five lines, exported and raised: its table and its bytes are laid out by hand.

ghost use Rattle.std.specs.Prelude.{◌≡◌, ◌≤◌, ◌+◌, true, length, IfOk, IfSome, OnOk};

use crate::{ExportEnd, RaiseEnd, export_journal, raise_journal};
use dali_base::{OutOfMemory, Text};
use dali_journal::{Damage, Journal, format, frame, open_journal};
use dali_outside::{Fault, Faults, MemSite};
use dali_recover::recover;
use std::alloc::Global;
use std::process::Abort;
use std::test::Fail;

/// The record of `080000,PART,A` in edition 1.
const A: &[u8] = b"\x01\0\x0d080000,PART,A\0";

/// The record of `080000,PART,B` in edition 1.
const B: &[u8] = b"\x01\0\x0d080000,PART,B\0";

/// The record of `080001,ISSUE,A,MXN,100` in edition 1.
const ISSUE: &[u8] = b"\x01\0\x16080001,ISSUE,A,MXN,100\0";

/// The record of `080002,PAY,P1,A,B,30` in edition 1.
const PAY: &[u8] = b"\x01\0\x14080002,PAY,P1,A,B,30\0";

/// The record of `080003,SETTLE,P1` in edition 1.
const SETTLE: &[u8] = b"\x01\0\x10080003,SETTLE,P1\0";

/// The header row of the table.
const HEADER: &[u8] = b"number,command,account,asset,delta,after\n";

/// The table of the five lines.
const TABLE: &[u8] =
    b"number,command,account,asset,delta,after\n1,3,A,MXN,100,100\n2,5,A,MXN,-30,70\n3,5,B,MXN,30,30\n";

/// What recovery calls of the disk for a journal of two lines: a sync, the header, and one read of its records.
const CALLS: u64 = 3;

/// The journal of PART A and PART B without its edition bytes: what stands before these, and what stands behind them.
const HEAD: &[u8] = b"DALI-JOURNAL";

const BODY: &[u8] = b"\x01\
\x01\0\0\0\x11\x01\0\x0d080000,PART,A\0\
\x01\0\0\0\x11\x01\0\x0d080000,PART,B\0\0";

/// A site of these bytes, of which this call alone fails.
fn site_of(alloc: Global, bytes: &[u8], fault: Option<Fault>) -> Result<MemSite, OutOfMemory> {
    let mut image = Text::new(alloc);
    image.add(bytes)?;
    let mut fails = Faults::new(alloc);
    if let Some(fault) = fault {
        fails.push(fault)?;
    }
    MemSite::from_image(alloc, image, 512, 64, 64, fails)
}

/// The device of 64 bytes with the journal of two lines that has these edition bytes.
fn device(alloc: Global, marks: &[u8; 3]) -> Result<Text, OutOfMemory> {
    let mut text = Text::new(alloc);
    for piece in [HEAD, marks.as_slice(), BODY, b"\0\0\0".as_slice()] {
        text.add(piece)?;
    }
    Ok(text)
}

/// The open journal of a site that holds an empty one, read to its end.
fn at_end(alloc: Global, site: &mut MemSite) -> Option<Journal>
    ensures { IfSome result (λ journal. (journal.tail + journal.left ≡ site.new.sight.size) × (journal.ended ≡ true)) }
{
    let Ok(mut journal) = open_journal(alloc, site) else {
        return None;
    };
    match journal.next_record(alloc, site) {
        Ok(None) => Some(journal),
        _ => None,
    }
}

/// Appends a payload, which works.
fn append(
    rt: &impl Abort,
    alloc: Global,
    journal: &mut Journal,
    site: &mut MemSite,
    payload: &[u8],
) -> Result<(), OutOfMemory>
    requires at_site { journal.old.tail + journal.old.left ≡ site.old.sight.size }
    requires ended { journal.old.ended ≡ true }
    requires short { length payload.now ≤ 200 }
    ensures at_site { OnOk result (journal.new.tail + journal.new.left ≡ site.new.sight.size) }
    ensures ended { OnOk result (journal.new.ended ≡ true) }
{
    let sealed = frame(alloc, payload)?;
    match journal.append(site, &sealed) {
        Ok(()) => {}
        Err(_) => panic!(rt; "append"),
    }
    Ok(())
}

#[test]
fn export_of_five_lines(rt: HostRuntime) -> Result<(), Fail> {
    let alloc = rt.alloc();
    let mut site = MemSite::new(alloc, 256, 512, 64, 4096, Faults::new(alloc))?;
    assert!(rt; format(&mut site).is_ok());
    let Some(mut journal) = at_end(alloc, &mut site) else {
        panic!(&rt; "open");
    };
    append(&rt, alloc, &mut journal, &mut site, A)?;
    append(&rt, alloc, &mut journal, &mut site, B)?;
    append(&rt, alloc, &mut journal, &mut site, ISSUE)?;
    append(&rt, alloc, &mut journal, &mut site, PAY)?;
    append(&rt, alloc, &mut journal, &mut site, SETTLE)?;
    assert_eq!(rt; export_journal(alloc, &mut site), ExportEnd::Done);
    assert_eq!(rt; site.printed(), TABLE);
    Ok(())
}

/// How the export of two lines ends where this call fails, and what it has printed then.
fn export_failing(alloc: Global, call: u64, went: u32) -> Result<(ExportEnd, Text), OutOfMemory> {
    let image = device(alloc, &[0, 0, 0])?;
    let mut site = site_of(alloc, image.bytes(), Some(Fault { call, went }))?;
    let answer = export_journal(alloc, &mut site);
    let mut printed = Text::new(alloc);
    printed.add(site.printed())?;
    Ok((answer, printed))
}

#[test]
fn exports_that_fail(rt: HostRuntime) -> Result<(), Fail> {
    for call in 1..CALLS + 1 {
        let (answer, printed) = export_failing(rt.alloc(), call, 0)?;
        assert_eq!(rt; answer, ExportEnd::DiskFault);
        assert_eq!(rt; printed.len(), 0);
    }
    let (answer, printed) = export_failing(rt.alloc(), CALLS + 1, 20)?;
    assert_eq!(rt; answer, ExportEnd::PrintFault);
    assert_eq!(rt; printed.bytes(), &HEADER[..20]);
    let (answer, printed) = export_failing(rt.alloc(), CALLS + 2, 0)?;
    assert_eq!(rt; answer, ExportEnd::Done);
    assert_eq!(rt; printed.bytes(), HEADER);
    Ok(())
}

/// A device whose header's edition bytes are none.
#[test]
fn damaged_devices(rt: HostRuntime) -> Result<(), Fail> {
    let alloc = rt.alloc();
    let image = device(alloc, &[0, 1, 0])?;
    let (place, why) = (0, Damage::Header);
    let mut site = site_of(alloc, image.bytes(), None)?;
    assert_eq!(rt;
        export_journal(alloc, &mut site),
        ExportEnd::Damaged { place, why }
    );
    assert_eq!(rt; site.printed().len(), 0);
    assert_eq!(rt;
        raise_journal(alloc, &mut site),
        RaiseEnd::Damaged { place, why }
    );
    assert_eq!(rt; site.bytes(), image.bytes());
    Ok(())
}

/// How a raise of a journal of this edition ends where every call after so many fails, and what a stop then leaves.
fn raise_stopped(
    alloc: Global,
    edition: u8,
    calls: u64,
    fill: u8,
) -> Result<(RaiseEnd, Text), OutOfMemory> {
    let image = device(alloc, &marks_of(edition, 0))?;
    let mut site = site_of(alloc, image.bytes(), None)?;
    site.fuse(calls);
    let answer = raise_journal(alloc, &mut site);
    Ok((answer, site.stop_image(alloc, fill)?))
}

/// The edition of the journal that an image holds, and the number of entries of its history.
fn standing(alloc: Global, image: &[u8]) -> Result<Option<(u8, usize)>, OutOfMemory> {
    let mut site = site_of(alloc, image, None)?;
    match recover(alloc, &mut site) {
        Ok(found) => Ok(Some((found.journal.edition(), found.entries.len()))),
        Err(_) => Ok(None),
    }
}

/// A raise from each edition that has a next one, stopped behind each call. The edition byte is written by the call behind
/// recovery's and firm by the one behind that.
#[test]
fn stops_of_raise(rt: HostRuntime) -> Result<(), Fail> {
    let alloc = rt.alloc();
    for edition in 1..4 {
        for calls in 0..CALLS + 4 {
            for fill in [0, 1, 255] {
                let (answer, image) = raise_stopped(alloc, edition, calls, fill)?;
                let wanted = if calls < CALLS + 2 {
                    RaiseEnd::DiskFault
                } else {
                    RaiseEnd::Done
                };
                assert_eq!(rt; answer, wanted);
                let stands = left_byte(calls, fill);
                let left = device(alloc, &marks_of(edition, stands))?;
                assert_eq!(rt; image.bytes(), left.bytes());
                let raised = if stands == 0 { edition } else { edition + 1 };
                assert_eq!(rt; standing(alloc, image.bytes())?, Some((raised, 2)));
            }
        }
    }
    Ok(())
}

/// The edition bytes of a journal of this edition, 1 to 3, with this byte for the next one.
fn marks_of(edition: u8, next: u8) -> [u8; 3] {
    match edition {
        1 => [next, 0, 0],
        2 => [255, next, 0],
        _ => [1, 7, next],
    }
}

/// The edition byte that is written, after a stop behind so many calls.
fn left_byte(calls: u64, fill: u8) -> u8 {
    if calls < CALLS {
        0
    } else if calls < CALLS + 2 {
        fill
    } else {
        1
    }
}

/// A journal of the newest edition stays as it is: no call is made but those of recovery.
#[test]
fn raise_of_the_newest(rt: HostRuntime) -> Result<(), Fail> {
    let alloc = rt.alloc();
    let image = device(alloc, &[1, 2, 3])?;
    let mut site = site_of(alloc, image.bytes(), None)?;
    assert_eq!(rt; raise_journal(alloc, &mut site), RaiseEnd::Done);
    assert_eq!(rt; site.made(), CALLS);
    assert_eq!(rt; site.bytes(), image.bytes());
    Ok(())
}
