use crate::stage::{HEADER, THREE_LINES, day_of, device, site_of, text};
use dali_base::{OutOfMemory, Text};
use dali_desk::Status;
use std::alloc::Global;
use std::test::Fail;

const REPLIES: &[u8] = b"1,OK\n2,OK\n3,OK\n";

/// A day that was stopped: how it ended, whether it printed nothing, and the image that the stop left.
#[derive(Drop)]
struct Stop {
    status: Status,
    is_silent: bool,
    image: Text,
}

/// The day of three lines, stopped after so many calls, where each loose byte becomes this one.
fn stopped(alloc: Global, calls: u64, fill: u8) -> Result<Stop, OutOfMemory> {
    let mut site = site_of(alloc, device(alloc, HEADER, 112)?, None)?;
    site.fuse(calls);
    let status = day_of(alloc, THREE_LINES, &mut site)?;
    let image = site.stop_image(alloc, fill)?;
    Ok(Stop {
        status,
        is_silent: site.printed().is_empty(),
        image,
    })
}

/// How this file over this image ends, and what it prints.
fn rerun(alloc: Global, file: &[u8], image: Text) -> Result<(Status, Text), OutOfMemory> {
    let mut site = site_of(alloc, image, None)?;
    let status = day_of(alloc, file, &mut site)?;
    Ok((status, text(alloc, site.printed())?))
}

/// Call 4 writes the body, and call 6 the gate. A stop within the body's write leaves a closed gate and so no entry; one within the
/// gate's leaves none where its byte is 0, and else all three.
#[test]
fn stop_in_body_and_in_gate(rt: HostRuntime) -> Result<(), Fail> {
    for fill in [0, 1, 0xff] {
        for (calls, gate) in [(3, 0), (5, fill)] {
            let stopped = stopped(rt.alloc(), calls, fill)?;
            assert_eq!(rt; stopped.status, Status::DiskFault);
            assert!(rt; stopped.is_silent);
            assert_eq!(rt; stopped.image.bytes().get(16).copied(), Some(gate));
            let (status, printed) = rerun(rt.alloc(), THREE_LINES, stopped.image)?;
            assert_eq!(rt; status, Status::Done);
            assert_eq!(rt; printed.bytes(), REPLIES);
        }
    }
    Ok(())
}
