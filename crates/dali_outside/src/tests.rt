ghost use Rattle.std.specs.Prelude.{◌≡◌, ◌+◌, ◌≤◌, length, IfOk};

use crate::{Failed, Fault, Faults, MemSite, MemSource, Site, Source};
use dali_base::{OutOfMemory, Seq, Text};
use std::alloc::Global;
use std::process::Abort;
use std::test::Fail;

fn text(alloc: Global, bytes: &[u8]) -> Result<Text, OutOfMemory>
    ensures { IfOk result (λ text. text ≡ bytes.now) }
{
    let mut text = Seq::new(alloc);
    text.add(bytes)?;
    Ok(text)
}

fn faults(alloc: Global, entries: &[Fault]) -> Result<Faults, OutOfMemory> {
    let mut faults = Seq::new(alloc);
    faults.extend(entries)?;
    Ok(faults)
}

/// The next take answers so, and this stands in front of its two bytes afterwards.
fn takes(
    rt: &impl Abort,
    source: &mut MemSource,
    into: &mut [u8],
    given: Result<usize, Failed>,
    front: &[u8],
) {
    assert_eq!(rt; source.take(into), given);
    assert!(rt; into.starts_with(front));
}

/// The next put works or not, and this is printed afterwards.
fn puts(rt: &impl Abort, site: &mut MemSite, piece: &[u8], worked: bool, printed: &[u8]) {
    assert_eq!(rt; site.put(piece).is_ok(), worked);
    assert_eq!(rt; site.printed(), printed);
}

#[test]
fn gives_one_byte_at_a_time(rt: HostRuntime) -> Result<(), Fail> {
    let alloc = rt.alloc();
    let mut source = MemSource::new(text(alloc, b"ab")?, 1, Seq::new(alloc));
    let mut into = [0; 8];
    takes(&rt, &mut source, &mut into, Ok(1), b"a\0");
    takes(&rt, &mut source, &mut into, Ok(1), b"b\0");
    takes(&rt, &mut source, &mut into, Ok(0), b"b\0");
    assert_eq!(rt; source.made(), 3);
    Ok(())
}

#[test]
fn goes_on_after_a_failed_take(rt: HostRuntime) -> Result<(), Fail> {
    let alloc = rt.alloc();
    let fails = faults(alloc, &[Fault { call: 3, went: 0 }])?;
    let mut source = MemSource::new(text(alloc, b"abcdef")?, 2, fails);
    let mut into = [0; 2];
    takes(&rt, &mut source, &mut into, Ok(2), b"ab");
    takes(&rt, &mut source, &mut into, Ok(2), b"cd");
    takes(&rt, &mut source, &mut into, Err(Failed), b"cd");
    takes(&rt, &mut source, &mut into, Ok(2), b"ef");
    takes(&rt, &mut source, &mut into, Ok(0), b"ef");
    Ok(())
}

#[test]
fn leaves_a_prefix_of_a_failed_put(rt: HostRuntime) -> Result<(), Fail> {
    let alloc = rt.alloc();
    let fails = faults(
        alloc,
        &[
            Fault { call: 1, went: 7 },
            Fault { call: 1, went: 1 },
            Fault { call: 3, went: 99 },
        ],
    )?;
    let mut site = MemSite::new(alloc, 0, 64, 64, 0, fails)?;
    puts(&rt, &mut site, b"2,NO,THERE\n", false, b"2,NO,TH");
    puts(&rt, &mut site, b"x\n", true, b"2,NO,THx\n");
    puts(&rt, &mut site, b"y\n", false, b"2,NO,THx\ny\n");
    assert_eq!(rt; site.made(), 3);
    Ok(())
}

#[test]
fn fails_beyond_its_rooms(rt: HostRuntime) -> Result<(), Fail> {
    let alloc = rt.alloc();
    let fails = faults(alloc, &[Fault { call: 2, went: 4 }])?;
    let mut site = MemSite::new(alloc, 0, 10, 3, 0, fails)?;
    puts(&rt, &mut site, b"1,OK\n", true, b"1,OK\n");
    puts(&rt, &mut site, b"12,OK\n", false, b"1,OK\n");
    puts(&rt, &mut site, b"2,OK\n", true, b"1,OK\n2,OK\n");
    puts(&rt, &mut site, b"", false, b"1,OK\n2,OK\n");
    Ok(())
}

#[test]
fn fails_after_its_fuse(rt: HostRuntime) -> Result<(), Fail> {
    let alloc = rt.alloc();
    let fails = faults(
        alloc,
        &[Fault { call: 2, went: 1 }, Fault { call: 4, went: 1 }],
    )?;
    let mut site = MemSite::new(alloc, 0, 64, 64, 0, fails)?;
    site.fuse(0);
    puts(&rt, &mut site, b"a\n", false, b"");
    site.fuse(2);
    puts(&rt, &mut site, b"b\n", false, b"b");
    puts(&rt, &mut site, b"c\n", true, b"bc\n");
    puts(&rt, &mut site, b"d\n", false, b"bc\n");
    Ok(())
}

/// A site of four bytes with room for six calls and for three replaced bytes.
fn small(alloc: Global, fails: &[Fault]) -> Result<MemSite, OutOfMemory>
    ensures { IfOk result (λ site. site.sight.size ≡ 4) }
{
    MemSite::from_image(alloc, text(alloc, b"abcd")?, 8, 6, 3, faults(alloc, fails)?)
}

/// The next write works or not, and these bytes stand afterwards; a stop leaves this image.
fn writes(
    rt: &impl Abort,
    alloc: Global,
    site: &mut MemSite,
    piece: &[u8],
    worked: bool,
    bytes: &[u8],
    image: &[u8],
) -> Result<(), OutOfMemory>
    requires { 1 + length piece.now ≤ site.old.sight.size }
    ensures { site.new.sight.size ≡ site.old.sight.size }
{
    let answer = site.write(1, piece).is_ok();
    let left = site.stop_image(alloc, b'x')?;
    assert_eq!(rt; answer, worked);
    assert_eq!(rt; site.bytes(), bytes);
    assert_eq!(rt; left.bytes(), image);
    Ok(())
}

#[test]
fn a_range_is_loose_until_a_sync(rt: HostRuntime) -> Result<(), Fail> {
    let alloc = rt.alloc();
    let mut site = small(alloc, &[])?;
    writes(&rt, alloc, &mut site, b"PQ", true, b"aPQd", b"axxd")?;
    assert_eq!(rt; site.sync(), Ok(()));
    writes(&rt, alloc, &mut site, b"R", true, b"aRQd", b"axQd")?;
    Ok(())
}

#[test]
fn a_failed_write_leaves_what_went(rt: HostRuntime) -> Result<(), Fail> {
    let alloc = rt.alloc();
    let mut site = small(alloc, &[Fault { call: 1, went: 1 }])?;
    writes(&rt, alloc, &mut site, b"PQ", false, b"aP\xeed", b"axxd")?;
    Ok(())
}

#[test]
fn a_write_beyond_its_room_loosens(rt: HostRuntime) -> Result<(), Fail> {
    let alloc = rt.alloc();
    let mut site = small(alloc, &[Fault { call: 2, went: 1 }])?;
    writes(&rt, alloc, &mut site, b"PQ", true, b"aPQd", b"axxd")?;
    writes(&rt, alloc, &mut site, b"RST", false, b"aPQd", b"axxx")?;
    Ok(())
}

#[test]
fn reads_what_stands(rt: HostRuntime) -> Result<(), Fail> {
    let mut site = small(rt.alloc(), &[Fault { call: 2, went: 1 }])?;
    let mut into = [0; 2];
    assert_eq!(rt; site.read(1, &mut into), Ok(()));
    assert_eq!(rt; into.as_slice(), b"bc".as_slice());
    assert_eq!(rt; site.read(0, &mut into), Err(Failed));
    assert_eq!(rt; site.sync(), Ok(()));
    assert_eq!(rt; site.made(), 3);
    Ok(())
}
