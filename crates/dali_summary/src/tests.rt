use crate::Summary;
use dali_machine::{Code, Outcome};
use std::test::Fail;

#[test]
fn a_summary_of_few(rt: HostRuntime) -> Result<(), Fail> {
    let mut summary = Summary::new(rt.alloc());
    summary.add(1, &Outcome::Done)?;
    summary.add(2, &Outcome::No { code: Code::Short })?;
    summary.add(3, &Outcome::Done)?;
    let text = summary.text(rt.alloc(), 7, 11, 13)?;
    let wanted = b"TRIAL,7\nCOMMANDS,3\nREFUSED,1\nWAITING,11\nPOSTINGS,13\n";
    assert_eq!(rt; text.bytes(), wanted.as_slice());
    Ok(())
}

#[test]
fn an_empty_summary(rt: HostRuntime) -> Result<(), Fail> {
    let summary = Summary::new(rt.alloc());
    let text = summary.text(rt.alloc(), u64::MAX, u32::MAX, u64::MAX)?;
    let wanted =
        b"TRIAL,18446744073709551615\nCOMMANDS,0\nREFUSED,0\nWAITING,4294967295\nPOSTINGS,18446744073709551615\n";
    assert_eq!(rt; text.bytes(), wanted.as_slice());
    Ok(())
}
