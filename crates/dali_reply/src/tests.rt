use crate::reply;
use dali_account::{Pair, Pairs};
use dali_base::{Kind, Name, read_name};
use dali_ledger::{Posting, Postings};
use dali_machine::{Code, Outcome};
use dali_waiting::{Ids, WaitRow, WaitRows};
use std::test::Fail;

fn name(bytes: &[u8]) -> Result<Name, Fail> {
    match read_name(bytes) {
        Some(name) => Ok(name),
        None => Err("no name".into()),
    }
}

#[test]
fn an_accepted_command(rt: HostRuntime) -> Result<(), Fail> {
    let first = reply(rt.alloc(), 1, &Outcome::Done)?;
    assert_eq!(rt; first.bytes(), b"1,OK\n".as_slice());
    let last = reply(rt.alloc(), u64::MAX, &Outcome::Done)?;
    assert_eq!(rt; last.bytes(), b"18446744073709551615,OK\n".as_slice());
    Ok(())
}

#[test]
fn each_refusal(rt: HostRuntime) -> Result<(), Fail> {
    let cases: [(Code, &[u8]); 14] = [
        (Code::Form, b"7,NO,FORM\n"),
        (Code::Back, b"7,NO,BACK\n"),
        (Code::Closed, b"7,NO,CLOSED\n"),
        (Code::There, b"7,NO,THERE\n"),
        (Code::Full, b"7,NO,FULL\n"),
        (Code::Name, b"7,NO,NAME\n"),
        (Code::Total, b"7,NO,TOTAL\n"),
        (Code::Short, b"7,NO,SHORT\n"),
        (Code::Cash, b"7,NO,CASH\n"),
        (Code::SelfDeal, b"7,NO,SELF\n"),
        (Code::Late, b"7,NO,LATE\n"),
        (Code::Value, b"7,NO,VALUE\n"),
        (Code::Gone, b"7,NO,GONE\n"),
        (Code::Linked, b"7,NO,LINKED\n"),
    ];
    for (code, expected) in cases {
        let text = reply(rt.alloc(), 7, &Outcome::No { code })?;
        assert_eq!(rt; text.bytes(), expected);
    }
    Ok(())
}

#[test]
fn a_queue(rt: HostRuntime) -> Result<(), Fail> {
    let mut rows = WaitRows::new(rt.alloc());
    let items: [(&[u8], Kind, u64); 3] = [
        (b"P1", Kind::Pay, 6),
        (b"D2", Kind::Dvp, 1_000_000_000_000_000),
        (b"ABCDEFGHIJ09", Kind::Fop, 500),
    ];
    for (id, kind, value) in items {
        let id = name(id)?;
        rows.push(WaitRow { id, kind, value })?;
    }
    let text = reply(rt.alloc(), 10, &Outcome::Queue { rows })?;
    let expected =
        b"10,WAIT,P1,PAY,6\n10,WAIT,D2,DVP,1000000000000000\n10,WAIT,ABCDEFGHIJ09,FOP,500\n10,END\n";
    assert_eq!(rt; text.bytes(), expected.as_slice());
    Ok(())
}

#[test]
fn an_empty_queue(rt: HostRuntime) -> Result<(), Fail> {
    let rows = WaitRows::new(rt.alloc());
    let text = reply(rt.alloc(), 8, &Outcome::Queue { rows })?;
    assert_eq!(rt; text.bytes(), b"8,END\n".as_slice());
    Ok(())
}

#[test]
fn an_account(rt: HostRuntime) -> Result<(), Fail> {
    let mut pairs = Pairs::new(rt.alloc());
    pairs.push(Pair {
        asset: name(b"MXN")?,
        balance: 10,
    })?;
    let mut ids = Ids::new(rt.alloc());
    ids.push(name(b"P1")?)?;
    let text = reply(rt.alloc(), 10, &Outcome::Stat { pairs, ids })?;
    assert_eq!(rt;
        text.bytes(),
        b"10,BAL,MXN,10\n10,HELD,P1\n10,END\n".as_slice()
    );
    Ok(())
}

#[test]
fn postings_of_an_account(rt: HostRuntime) -> Result<(), Fail> {
    let account = name(b"T")?;
    let mut rows = Postings::new(rt.alloc());
    rows.push(Posting {
        number: 2,
        command: 6,
        account,
        asset: name(b"MXN")?,
        delta: 510,
        after: 510,
    })?;
    rows.push(Posting {
        number: 6,
        command: 9,
        account,
        asset: name(b"MXN")?,
        delta: -510,
        after: 0,
    })?;
    let text = reply(rt.alloc(), 11, &Outcome::Ledger { rows })?;
    let expected = b"11,ROW,2,6,MXN,510,510\n11,ROW,6,9,MXN,-510,0\n11,END\n";
    assert_eq!(rt; text.bytes(), expected.as_slice());
    Ok(())
}
