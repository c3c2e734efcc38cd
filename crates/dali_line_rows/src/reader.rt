ghost use Rattle.std.specs.Prelude.{◌≤◌};

use dali_base::{OutOfMemory, Text};
use dali_line::{LineEnd, Lines};
use dali_outside::{Fault, Faults, MemSource};
use std::alloc::Global;
use std::test::Fail;

/// How a reader of lines ends.
type End = Result<(), LineEnd>;

fn text(alloc: Global, bytes: &[u8]) -> Result<Text, OutOfMemory> {
    let mut text = Text::new(alloc);
    text.add(bytes)?;
    Ok(text)
}

fn faults(alloc: Global, call: u64) -> Result<Faults, OutOfMemory> {
    let mut faults = Faults::new(alloc);
    faults.push(Fault { call, went: 0 })?;
    Ok(faults)
}

/// The commands of the first five calls, each with an LF behind it, and how the call that gave none ended.
fn commands(alloc: Global, source: &mut MemSource) -> Result<(Text, End), OutOfMemory> {
    let mut given = Text::new(alloc);
    let mut lines = Lines::new(alloc)?;
    for _ in 0..5 {
        match lines.next(source) {
            Ok(Some(line)) => {
                given.add(line.bytes())?;
                given.add(b"\n")?;
            }
            Ok(None) => return Ok((given, Ok(()))),
            Err(end) => return Ok((given, Err(end))),
        }
    }
    Ok((given, Err(LineEnd::OutOfMemory)))
}

/// The same of a file that is given in pieces of this length.
fn commands_of(alloc: Global, file: Text, piece: u32) -> Result<(Text, End), OutOfMemory>
    requires { 1 ≤ piece }
{
    let mut source = MemSource::new(file, piece, Faults::new(alloc));
    commands(alloc, &mut source)
}

#[test]
fn files_are_cut_into_commands(rt: HostRuntime) -> Result<(), Fail> {
    let cases: [(&[u8], &[u8]); 6] = [
        (b"", b""),
        (b"a\nb\nc\n", b"a\nb\nc\n"),
        (b"a\r\n\r\n\n#b\n#\r\nc", b"a\nc\n"),
        // One CR goes, and only before an LF.
        (b"a\r\r\nb\r", b"a\r\nb\r\n"),
        (b"\r", b"\r\n"),
        (b"#a", b""),
    ];
    for (file, expected) in cases {
        for piece in [1, 3, 4096] {
            let (given, end) = commands_of(rt.alloc(), text(rt.alloc(), file)?, piece)?;
            assert_eq!(rt; given.bytes(), expected);
            assert_eq!(rt; end, Ok(()));
        }
    }
    Ok(())
}

/// A first line of these bytes repeated, and this behind it.
fn long(
    alloc: Global,
    first: &[u8],
    byte: u8,
    count: usize,
    rest: &[u8],
) -> Result<Text, OutOfMemory> {
    let mut file = text(alloc, first)?;
    for _ in 0..count {
        file.add(&[byte])?;
    }
    file.add(rest)?;
    Ok(file)
}

#[test]
fn two_hundred_bytes_are_a_command(rt: HostRuntime) -> Result<(), Fail> {
    for rest in [b"\n".as_slice(), b"\r\n", b""] {
        let file = long(rt.alloc(), b"", b'X', 200, rest)?;
        let (given, end) = commands_of(rt.alloc(), file, 64)?;
        assert_eq!(rt; given.len(), 201);
        assert_eq!(rt; end, Ok(()));
    }
    Ok(())
}

#[test]
fn one_byte_more_is_a_long_line(rt: HostRuntime) -> Result<(), Fail> {
    for rest in [b"X\n".as_slice(), b"X", b"\r", b"\rX"] {
        let file = long(rt.alloc(), b"a\n", b'X', 200, rest)?;
        let (given, end) = commands_of(rt.alloc(), file, 64)?;
        assert_eq!(rt; given.bytes(), b"a\n".as_slice());
        assert_eq!(rt; end, Err(LineEnd::LongLine { command: 2 }));
    }
    Ok(())
}

#[test]
fn a_long_comment_is_skipped(rt: HostRuntime) -> Result<(), Fail> {
    let file = long(rt.alloc(), b"#", b'X', 1000, b"\na\n")?;
    let (given, end) = commands_of(rt.alloc(), file, 64)?;
    assert_eq!(rt; given.bytes(), b"a\n".as_slice());
    assert_eq!(rt; end, Ok(()));
    Ok(())
}

#[test]
fn a_failed_take_ends_it(rt: HostRuntime) -> Result<(), Fail> {
    let alloc = rt.alloc();
    let file = text(alloc, b"a\nb\ncd\n")?;
    let mut source = MemSource::new(file, 2, faults(alloc, 3)?);
    let mut lines = Lines::new(alloc)?;
    for _ in 0..2 {
        assert!(rt; lines.next(&mut source).is_ok());
    }
    let end = lines.next(&mut source);
    assert!(rt; matches!(end, Err(LineEnd::ReadFault)));
    let after = lines.next(&mut source);
    assert!(rt; matches!(after, Ok(None)));
    Ok(())
}
