use crate::stage::{FRAMES, HEADER, JOURNAL, follow, joined, site_of};
use dali_base::OutOfMemory;
use dali_follow::FollowEnd;
use std::alloc::Global;
use std::process::Abort;
use std::test::Fail;

/// How following these frames over a journal of 4,096 bytes ends, where the journal begins so; whether it printed this text,
/// and whether its device begins so then.
fn ends(
    alloc: Global,
    frames: &[&[u8]],
    journal: &[u8],
    printed: &[u8],
    device: &[u8],
) -> Result<(FollowEnd, bool, bool), OutOfMemory> {
    let mut site = site_of(alloc, journal, 4096)?;
    let end = follow(alloc, joined(alloc, frames)?, &mut site);
    Ok((
        end,
        site.printed() == printed,
        site.bytes().starts_with(device),
    ))
}

#[test]
fn shipped_whole(rt: HostRuntime) -> Result<(), Fail> {
    let alloc = rt.alloc();
    assert_eq!(rt;
        ends(alloc, &FRAMES, HEADER, b"HELD,3\n", JOURNAL)?,
        (FollowEnd::Done, true, true)
    );
    Ok(())
}

/// Frames in another order, repeated and cut; one with no edition; and frames over another day's journal.
#[test]
fn streams(rt: HostRuntime) -> Result<(), Fail> {
    let alloc = rt.alloc();
    let [first, second, third] = FRAMES;
    let two = &JOURNAL[..60];
    let zeroed = b"\0\0\0\0\0\0\0\x01\0\0\0\x11\0\0\x0d080000,PART,A\0".as_slice();
    let other = b"DALI-JOURNAL\0\0\0\x01\x01\0\0\0\x11\x01\0\x0d080000,PART,D\0\0".as_slice();
    let rows: [(&[&[u8]], &[u8], &[u8], &[u8], FollowEnd); 6] = [
        (
            &[first, third, second],
            HEADER,
            b"HELD,2\n",
            two,
            FollowEnd::Done,
        ),
        (
            &[first, first, second, &third[..19]],
            HEADER,
            b"HELD,2\n",
            two,
            FollowEnd::Done,
        ),
        (
            &[zeroed],
            HEADER,
            b"",
            b"DALI-JOURNAL\0\0\0\x01\0\0\0",
            FollowEnd::BadFrame { place: 0 },
        ),
        (
            &[first, second],
            other,
            b"",
            other,
            FollowEnd::OtherDay { command: 1 },
        ),
        (
            &[first, second, zeroed],
            HEADER,
            b"",
            two,
            FollowEnd::OtherDay { command: 1 },
        ),
        (
            &[first, second, b"\0\0\0\0\0\0\0\x03\x20\0\0\x01"],
            HEADER,
            b"",
            two,
            FollowEnd::BadFrame { place: 58 },
        ),
    ];
    for (frames, journal, printed, device, end) in rows {
        assert_eq!(rt;
            ends(alloc, frames, journal, printed, device)?,
            (end, true, true)
        );
    }
    Ok(())
}

/// On a device of 64 bytes two of them fit.
#[test]
fn full(rt: HostRuntime) -> Result<(), Fail> {
    let alloc = rt.alloc();
    let mut site = site_of(alloc, HEADER, 64)?;
    let end = follow(alloc, joined(alloc, &FRAMES)?, &mut site);
    assert_eq!(rt; end, FollowEnd::JournalFull { need: 32, left: 4 });
    assert!(rt; site.bytes().starts_with(&JOURNAL[..60]));
    assert!(rt; site.printed().is_empty());
    Ok(())
}
