use crate::generate;
use std::test::Fail;

/// A number that tells texts apart: each byte behind 31 times what stands before it, modulo 2^32.
fn digest(text: &[u8]) -> u32 {
    let mut digest = 0u32;
    for byte in text {
        digest = digest.wrapping_mul(31).wrapping_add(u32::from(*byte));
    }
    digest
}

/// The line of this number, from 1, without its LF.
fn line(text: &[u8], number: usize) -> &[u8] {
    match text
        .split(|byte| *byte == b'\n')
        .nth(number.saturating_sub(1))
    {
        Some(line) => line,
        None => b"no line",
    }
}

#[test]
fn the_day_of_twenty(rt: HostRuntime) -> Result<(), Fail> {
    let text = generate(rt.alloc(), 20)?;
    let day = text.bytes();
    assert_eq!(rt; line(day, 1), b"080000,PART,A01".as_slice());
    assert_eq!(rt; line(day, 13), b"080000,INST,I01,8700".as_slice());
    assert_eq!(rt; line(day, 85), b"090000,PAY,T1,A10,A12,3271200".as_slice());
    assert_eq!(rt;
        line(day, 86),
        b"090000,DVP,T2,A03,A10,I09,196,1724800".as_slice()
    );
    assert_eq!(rt; line(day, 87), b"090000,FOP,T3,A04,A02,I21,58".as_slice());
    assert_eq!(rt; line(day, 165), b"093000,CYCLE,40".as_slice());
    assert_eq!(rt; line(day, 408), b"123000,CYCLE,40".as_slice());
    assert_eq!(rt; line(day, 409), b"140000,CLOSE".as_slice());
    assert_eq!(rt; line(day, 410), b"".as_slice());
    assert_eq!(rt; line(day, 411), b"no line".as_slice());
    Ok(())
}

#[test]
fn whole_days(rt: HostRuntime) -> Result<(), Fail> {
    let least = generate(rt.alloc(), 1)?;
    assert_eq!(rt; least.len(), 2535);
    assert_eq!(rt; digest(least.bytes()), 15413079);
    let middle = generate(rt.alloc(), 20)?;
    assert_eq!(rt; middle.len(), 12762);
    assert_eq!(rt; digest(middle.bytes()), 645583896);
    let most = generate(rt.alloc(), 64)?;
    assert_eq!(rt; most.len(), 36822);
    assert_eq!(rt; digest(most.bytes()), 892371209);
    Ok(())
}
