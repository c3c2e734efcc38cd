//! The calls of the device that each call of a journal makes, whatever its size: where one of them alone fails, it is the
//! last, and the answer is that fault.

ghost use Rattle.std.specs.Prelude.{◌≡◌, ◌≢◌, ◌+◌, true, [], IfOk};

use super::{B, ONE, device, text, two_more};
use dali_base::{NEWEST, OutOfMemory};
use dali_journal::{AppendNo, Group, Journal, OpenNo, Sealed, format, frame, open_journal};
use dali_outside::{Fault, Faults, MemSite};
use std::alloc::Global;
use std::test::Fail;

/// The calls of a day with the journal of the first record that work, with the calls of the device that were made. An
/// answer other than a disk fault counts as 99.
type Done = (u32, u64);

/// The device of the first record with so many further bytes, of which this call alone fails.
fn failing(alloc: Global, more: usize, call: u64) -> Result<MemSite, OutOfMemory> {
    let mut fails = Faults::new(alloc);
    fails.push(Fault { call, went: 1 })?;
    let mut image = text(alloc, &device(ONE))?;
    let behind = vec![in alloc; 0; more]?;
    image.add(&behind)?;
    MemSite::from_image(alloc, image, 0, 64, 4096, fails)
}

/// Opens the journal, reads its record, and reads on to the closed gate; or how many of these work.
fn read_to_end(alloc: Global, site: &mut MemSite) -> Result<Journal, u32>
    ensures { IfOk result (λ journal. (journal.tail + journal.left ≡ site.new.sight.size) × (journal.ended ≡ true)) }
{
    let mut journal = match open_journal(alloc, site) {
        Ok(journal) => journal,
        Err(OpenNo::DiskFault) => return Err(0),
        Err(_) => return Err(99),
    };
    match journal.next_record(alloc, site) {
        Ok(Some(_)) => {}
        Err(OpenNo::DiskFault) => return Err(1),
        _ => return Err(99),
    }
    match journal.next_record(alloc, site) {
        Ok(None) => Ok(journal),
        Err(OpenNo::DiskFault) => Err(2),
        _ => Err(99),
    }
}

/// Appends a frame and a group and raises the edition; how many calls work by then.
fn write_on(journal: &mut Journal, site: &mut MemSite, sealed: &Sealed, group: &Group) -> u32
    requires at_site { journal.old.tail + journal.old.left ≡ site.old.sight.size }
    requires ended { journal.old.ended ≡ true }
    requires filled { group.now ≢ [] }
{
    match journal.append(site, sealed) {
        Ok(()) => {}
        Err(AppendNo::DiskFault) => return 3,
        Err(_) => return 99,
    }
    match journal.append_group(site, group) {
        Ok(()) => {}
        Err(AppendNo::DiskFault) => return 4,
        Err(_) => return 99,
    }
    if journal.edition() >= NEWEST {
        return 99;
    }
    match journal.raise_edition(site) {
        Ok(()) => 6,
        Err(_) => 5,
    }
}

/// A day with a journal where this call of the device alone fails.
fn day(alloc: Global, more: usize, call: u64) -> Result<Done, OutOfMemory> {
    let mut site = failing(alloc, more, call)?;
    let sealed = frame(alloc, B)?;
    let group = two_more(alloc)?;
    let done = match read_to_end(alloc, &mut site) {
        Ok(mut journal) => write_on(&mut journal, &mut site, &sealed, &group),
        Err(done) => done,
    };
    Ok((done, site.made()))
}

/// Whose call of the device each is: 2 to open the journal, 2 to read its record, 1 at the closed gate, 4 of each append,
/// 2 of the raise.
const CALLS: [u32; 15] = [0, 0, 1, 1, 2, 3, 3, 3, 3, 4, 4, 4, 4, 5, 5];

#[test]
fn each_call_is_made_once(rt: HostRuntime) -> Result<(), Fail> {
    for more in [0, 60_000] {
        for call in 1..16 {
            let done = CALLS[call - 1];
            let made = call as u64;
            assert_eq!(rt; day(rt.alloc(), more, made)?, (done, made));
        }
        assert_eq!(rt; day(rt.alloc(), more, 16)?, (6, 15));
    }
    Ok(())
}

/// Whether the format of 64 bytes works where this call of the device alone fails, and how many were made.
fn format_failing(alloc: Global, call: u64) -> Result<(bool, u64), OutOfMemory> {
    let mut fails = Faults::new(alloc);
    fails.push(Fault { call, went: 3 })?;
    let mut site = MemSite::new(alloc, 64, 0, 64, 4096, fails)?;
    let worked = format(&mut site).is_ok();
    Ok((worked, site.made()))
}

#[test]
fn format_makes_two_calls(rt: HostRuntime) -> Result<(), Fail> {
    assert_eq!(rt; format_failing(rt.alloc(), 1)?, (false, 1));
    assert_eq!(rt; format_failing(rt.alloc(), 2)?, (false, 2));
    assert_eq!(rt; format_failing(rt.alloc(), 3)?, (true, 2));
    Ok(())
}
