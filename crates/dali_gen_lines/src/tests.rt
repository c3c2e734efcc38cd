use crate::DayLines;
use std::test::Fail;

/// The first and the last of the 105 lines of the day of 1.
#[test]
fn the_lines_of_one(rt: HostRuntime) -> Result<(), Fail> {
    let mut lines = DayLines::of(rt.alloc(), 1)?;
    let first = lines.next(rt.alloc())?.ok_or("a line")?;
    assert_eq!(rt; first.bytes(), b"080000,PART,A01".as_slice());
    for _ in 0..103 {
        lines.next(rt.alloc())?;
    }
    let last = lines.next(rt.alloc())?.ok_or("a last line")?;
    assert_eq!(rt; last.bytes(), b"140000,CLOSE".as_slice());
    assert!(rt; lines.next(rt.alloc())?.is_none());
    Ok(())
}
