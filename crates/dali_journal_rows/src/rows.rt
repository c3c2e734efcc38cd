ghost use Rattle.std.specs.Prelude.{◌≡◌, ◌≤◌, ◌+◌, true, length, IfOk, OnOk, IfSome};

use dali_base::{OutOfMemory, Text};
use dali_journal::{AppendNo, Damage, Group, Journal, OpenNo, format, frame, open_journal};
use dali_outside::{Faults, MemSite};
use std::alloc::Global;
use std::process::Abort;
use std::test::Fail;

mod calls;
mod stops;

/// The record of `080000,PART,A` in edition 1.
const A: &[u8] = b"\x01\0\x0d080000,PART,A\0";

/// The record of `080000,PART,B` in edition 1.
const B: &[u8] = b"\x01\0\x0d080000,PART,B\0";

/// The record of `080001,ISSUE,A,MXN,100` in edition 1.
const ISSUE: &[u8] = b"\x01\0\x16080001,ISSUE,A,MXN,100\0";

/// The first 17 bytes of an empty journal of edition 1.
const EMPTY: &[u8] = b"DALI-JOURNAL\0\0\0\x01\0";

/// The bytes of the journal of the first record.
const ONE: &[u8] = b"DALI-JOURNAL\0\0\0\x01\
\x01\0\0\0\x11\x01\0\x0d080000,PART,A\0\0";

/// The bytes of the journal of the first two records.
const TWO: &[u8] = b"DALI-JOURNAL\0\0\0\x01\
\x01\0\0\0\x11\x01\0\x0d080000,PART,A\0\
\x01\0\0\0\x11\x01\0\x0d080000,PART,B\0\0";

/// The bytes of the journal of these three records.
const THREE: &[u8] = b"DALI-JOURNAL\0\0\0\x01\
\x01\0\0\0\x11\x01\0\x0d080000,PART,A\0\
\x01\0\0\0\x11\x01\0\x0d080000,PART,B\0\
\x01\0\0\0\x1a\x01\0\x16080001,ISSUE,A,MXN,100\0\0";

fn text(alloc: Global, bytes: &[u8]) -> Result<Text, OutOfMemory>
    ensures { IfOk result (λ text. text ≡ bytes.now) }
{
    let mut text = Text::new(alloc);
    text.add(bytes)?;
    Ok(text)
}

/// A device of 128 bytes: these, and 0 behind them.
fn device(front: &[u8]) -> [u8; 128]
    requires { length front.now ≤ 128 }
{
    let mut bytes = [0; 128];
    bytes[..front.len()].copy_from_slice(front);
    bytes
}

/// The first 64 bytes of a device.
fn small(device: &[u8; 128]) -> &[u8] {
    &device[..64]
}

/// A site of these bytes.
fn site_of(alloc: Global, bytes: &[u8]) -> Result<MemSite, OutOfMemory>
    ensures { IfOk result (λ site. site.sight.size ≡ length bytes.now) }
{
    MemSite::from_image(alloc, text(alloc, bytes)?, 0, 64, 4096, Faults::new(alloc))
}

/// A site of so many bytes with an empty journal, of which the listed calls fail.
fn formatted(alloc: Global, size: u64, fails: Faults) -> Result<MemSite, OutOfMemory>
    requires { 64 ≤ size }
    ensures { IfOk result (λ site. site.sight.size ≡ size) }
{
    let mut site = MemSite::new(alloc, size, 0, 64, 4096, fails)?;
    let _ = format(&mut site);
    Ok(site)
}

#[test]
fn init_bytes(rt: HostRuntime) -> Result<(), Fail> {
    let alloc = rt.alloc();
    let mut site = MemSite::new(alloc, 64, 0, 64, 4096, Faults::new(alloc))?;
    assert!(rt; format(&mut site).is_ok());
    assert_eq!(rt; site.bytes(), small(&device(EMPTY)));
    Ok(())
}

/// The open journal of a site that holds an empty one, read to its end.
fn at_end(alloc: Global, site: &mut MemSite) -> Option<Journal>
    ensures { IfSome result (λ journal. (journal.tail + journal.left ≡ site.new.sight.size) × (journal.ended ≡ true)) }
{
    let Ok(mut journal) = open_journal(alloc, site) else {
        return None;
    };
    match journal.next_record(alloc, site) {
        Ok(None) => Some(journal),
        _ => None,
    }
}

/// Appends a payload, which works, and leaves the tail there.
fn appends(
    rt: &impl Abort,
    alloc: Global,
    journal: &mut Journal,
    site: &mut MemSite,
    payload: &[u8],
    tail: u64,
) -> Result<(), OutOfMemory>
    requires at_site { journal.old.tail + journal.old.left ≡ site.old.sight.size }
    requires ended { journal.old.ended ≡ true }
    requires short { length payload.now ≤ 200 }
    ensures at_site { OnOk result (journal.new.tail + journal.new.left ≡ site.new.sight.size) }
    ensures ended { OnOk result (journal.new.ended ≡ true) }
{
    let sealed = frame(alloc, payload)?;
    match journal.append(site, &sealed) {
        Ok(()) => {}
        Err(_) => panic!(rt; "append"),
    }
    assert_eq!(rt; sealed.len(), payload.len() + 5);
    assert_eq!(rt; journal.tail(), tail);
    Ok(())
}

#[test]
fn three_appends(rt: HostRuntime) -> Result<(), Fail> {
    let alloc = rt.alloc();
    let mut site = formatted(alloc, 64, Faults::new(alloc))?;
    let Some(mut journal) = at_end(alloc, &mut site) else {
        panic!(&rt; "open");
    };
    appends(&rt, alloc, &mut journal, &mut site, A, 38)?;
    appends(&rt, alloc, &mut journal, &mut site, B, 60)?;
    assert_eq!(rt; site.bytes(), small(&device(TWO)));
    let third = journal.append(&mut site, &frame(alloc, A)?);
    assert_eq!(rt; third, Err(AppendNo::JournalFull { need: 23, left: 4 }));
    assert_eq!(rt; journal.left(), 4);
    assert_eq!(rt; site.bytes(), small(&device(TWO)));
    Ok(())
}

#[test]
fn one_by_one(rt: HostRuntime) -> Result<(), Fail> {
    let alloc = rt.alloc();
    let mut site = formatted(alloc, 128, Faults::new(alloc))?;
    let Some(mut journal) = at_end(alloc, &mut site) else {
        panic!(&rt; "open");
    };
    appends(&rt, alloc, &mut journal, &mut site, A, 38)?;
    appends(&rt, alloc, &mut journal, &mut site, B, 60)?;
    appends(&rt, alloc, &mut journal, &mut site, ISSUE, 91)?;
    assert_eq!(rt; site.bytes(), device(THREE).as_slice());
    Ok(())
}

/// A group of the three records.
fn three(alloc: Global) -> Result<Group, OutOfMemory>
    ensures { IfOk result (λ group. length group ≡ 3) }
{
    let mut group = Group::new(alloc)?;
    group.add(A);
    group.add(B);
    group.add(ISSUE);
    Ok(group)
}

/// A group of the second and the third record.
fn two_more(alloc: Global) -> Result<Group, OutOfMemory>
    ensures { IfOk result (λ group. length group ≡ 2) }
{
    let mut group = Group::new(alloc)?;
    group.add(B);
    group.add(ISSUE);
    Ok(group)
}

#[test]
fn in_one_group(rt: HostRuntime) -> Result<(), Fail> {
    let alloc = rt.alloc();
    let mut site = formatted(alloc, 128, Faults::new(alloc))?;
    let Some(mut journal) = at_end(alloc, &mut site) else {
        panic!(&rt; "open");
    };
    let group = three(alloc)?;
    assert_eq!(rt; (group.len(), group.bytes()), (3, 75));
    assert_eq!(rt; journal.append_group(&mut site, &group), Ok(()));
    assert_eq!(rt; journal.tail(), 91);
    assert_eq!(rt; site.bytes(), device(THREE).as_slice());
    Ok(())
}

#[test]
fn a_cleared_group(rt: HostRuntime) -> Result<(), Fail> {
    let mut group = three(rt.alloc())?;
    group.clear();
    group.add(A);
    assert_eq!(rt; (group.len(), group.bytes()), (1, 22));
    Ok(())
}

/// The next record is this one.
fn reads(
    rt: &impl Abort,
    alloc: Global,
    journal: &mut Journal,
    site: &mut MemSite,
    payload: Option<&[u8]>,
)
    requires { journal.old.tail + journal.old.left ≡ site.old.sight.size }
    ensures { journal.new.tail + journal.new.left ≡ site.new.sight.size }
{
    match journal.next_record(alloc, site) {
        Ok(found) => assert_eq!(rt; found.as_ref().map(|text| text.bytes()), payload),
        Err(_) => panic!(rt; "read"),
    }
}

/// The image holds these payloads, at most three.
fn holds(rt: &impl Abort, alloc: Global, image: &[u8], list: &[&[u8]]) -> Result<(), OutOfMemory> {
    let mut site = site_of(alloc, image)?;
    let Ok(mut journal) = open_journal(alloc, &mut site) else {
        panic!(rt; "open");
    };
    reads(rt, alloc, &mut journal, &mut site, list.first().copied());
    reads(rt, alloc, &mut journal, &mut site, list.get(1).copied());
    reads(rt, alloc, &mut journal, &mut site, list.get(2).copied());
    reads(rt, alloc, &mut journal, &mut site, None);
    Ok(())
}

#[test]
fn reads_three_records(rt: HostRuntime) -> Result<(), Fail> {
    let alloc = rt.alloc();
    let mut site = site_of(alloc, THREE)?;
    let Ok(mut journal) = open_journal(alloc, &mut site) else {
        panic!(&rt; "open");
    };
    reads(&rt, alloc, &mut journal, &mut site, Some(A));
    reads(&rt, alloc, &mut journal, &mut site, Some(B));
    reads(&rt, alloc, &mut journal, &mut site, Some(ISSUE));
    reads(&rt, alloc, &mut journal, &mut site, None);
    Ok(())
}

/// How the first record of this device is answered: its length, or what is wrong.
fn first(alloc: Global, image: &[u8]) -> Result<Option<usize>, OpenNo> {
    let Ok(mut site) = site_of(alloc, image) else {
        return Err(OpenNo::OutOfMemory);
    };
    let mut journal = open_journal(alloc, &mut site)?;
    let payload = journal.next_record(alloc, &mut site)?;
    Ok(payload.map(|text| text.len()))
}

#[test]
fn damaged_devices(rt: HostRuntime) {
    let alloc = rt.alloc();
    let header = Err(OpenNo::Damaged {
        place: 0,
        why: Damage::Header,
    });
    let short = Err(OpenNo::Damaged {
        place: 0,
        why: Damage::Short,
    });
    assert_eq!(rt; first(alloc, &[0; 64]), header);
    assert_eq!(rt; first(alloc, &[0; 16]), short);
    assert_eq!(rt; first(alloc, b"DALI-JOURNAL\0\x01\0\x01\0"), header);
    assert_eq!(rt; first(alloc, EMPTY), Ok(None));
    assert_eq!(rt; first(alloc, b"DALI-JOURNAL\x01\x02\xff\x01\0"), Ok(None));
}

/// A device of 64 bytes with an open gate and these four bytes behind it.
fn with_length(length: [u8; 4]) -> [u8; 64] {
    let mut image = [0; 64];
    image[..16].copy_from_slice(b"DALI-JOURNAL\0\0\0\x01");
    image[16] = 1;
    image[17..21].copy_from_slice(&length);
    image
}

#[test]
fn lengths(rt: HostRuntime) {
    let alloc = rt.alloc();
    let damaged = Err(OpenNo::Damaged {
        place: 16,
        why: Damage::Length,
    });
    assert_eq!(rt; first(alloc, &with_length([0, 0, 0, 0x2a])), Ok(Some(42)));
    assert_eq!(rt; first(alloc, &with_length([0, 0, 0, 0x2b])), damaged);
    assert_eq!(rt; first(alloc, &with_length([0, 0, 0, 0xc8])), damaged);
    assert_eq!(rt; first(alloc, &with_length([0xff; 4])), damaged);
    assert_eq!(rt; first(alloc, b"DALI-JOURNAL\0\0\0\x01\x01"), damaged);
}

#[test]
fn zero_record(rt: HostRuntime) -> Result<(), Fail> {
    let alloc = rt.alloc();
    let mut site = site_of(alloc, &with_length([0, 0, 0, 0x2a]))?;
    let Ok(mut journal) = open_journal(alloc, &mut site) else {
        panic!(&rt; "open");
    };
    reads(&rt, alloc, &mut journal, &mut site, Some(&[0; 42]));
    assert_eq!(rt; (journal.tail(), journal.left()), (63, 1));
    Ok(())
}

#[test]
fn smallest_device(rt: HostRuntime) -> Result<(), Fail> {
    let alloc = rt.alloc();
    let mut site = site_of(alloc, EMPTY)?;
    let Some(mut journal) = at_end(alloc, &mut site) else {
        panic!(&rt; "open");
    };
    let answer = journal.append(&mut site, &frame(alloc, A)?);
    assert_eq!(rt; answer, Err(AppendNo::JournalFull { need: 23, left: 1 }));
    assert_eq!(rt; site.bytes(), EMPTY);
    Ok(())
}

#[test]
fn raises_to_the_next_edition(rt: HostRuntime) -> Result<(), Fail> {
    let alloc = rt.alloc();
    let mut site = site_of(alloc, b"DALI-JOURNAL\x01\0\0\x01\0")?;
    let Ok(mut journal) = open_journal(alloc, &mut site) else {
        panic!(&rt; "open");
    };
    if journal.edition() >= 4 {
        panic!(&rt; "edition");
    }
    assert_eq!(rt; journal.edition(), 2);
    assert!(rt; journal.raise_edition(&mut site).is_ok());
    assert_eq!(rt; journal.edition(), 3);
    assert_eq!(rt; site.bytes(), b"DALI-JOURNAL\x01\x01\0\x01\0".as_slice());
    Ok(())
}
