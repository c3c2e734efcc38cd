ghost use Rattle.std.specs.Prelude.{false, []};

use crate::stage::{THREE_LINES, new_day, source_of};
use dali_base::{OutOfMemory, Text};
use dali_desk::Status;
use dali_outside::{Failed, Fault, Source};
use std::alloc::Global;
use std::test::Fail;

/// How the day of three lines ends whose takes give 20 bytes and of which this one fails, and what it prints.
fn take_failed(alloc: Global, call: u64) -> Result<(Status, Text), OutOfMemory> {
    let fault = Fault { call, went: 0 };
    let mut source = source_of(alloc, THREE_LINES, 20, Some(fault))?;
    new_day(alloc, &mut source, 4096)
}

/// A take that fails leaves the commands done that an LF had ended before.
#[test]
fn take_fails(rt: HostRuntime) -> Result<(), Fail> {
    let cases: [(u64, &[u8]); 4] = [
        (1, b""),
        (2, b"1,OK\n"),
        (3, b"1,OK\n2,OK\n"),
        (4, b"1,OK\n2,OK\n3,OK\n"),
    ];
    for (call, replies) in cases {
        let (status, printed) = take_failed(rt.alloc(), call)?;
        assert_eq!(rt; status, Status::ReadFault);
        assert_eq!(rt; printed.bytes(), replies);
    }
    Ok(())
}

/// One command, and then a comment without end.
#[derive(Drop)]
struct Endless {
    begun: bool,
}

impl Source for Endless {
    ghost tells = { false };

    ghost feed = { λ s. record { left = []; faults = 0 } };

    fn take(&mut self, into: &mut [u8]) -> Result<usize, Failed> {
        let first = b"080000,PART,A\n#";
        if !self.begun && first.len() <= into.len() {
            self.begun = true;
            into[..first.len()].copy_from_slice(first);
            return Ok(first.len());
        }
        into.fill(b'x');
        Ok(into.len())
    }
}

/// The commands that an LF ended within the limit are done.
#[test]
fn long_file(rt: HostRuntime) -> Result<(), Fail> {
    let mut source = Endless { begun: false };
    let (status, printed) = new_day(rt.alloc(), &mut source, 4096)?;
    assert_eq!(rt; status, Status::LongFile);
    assert_eq!(rt; printed.bytes(), b"1,OK\n".as_slice());
    Ok(())
}
