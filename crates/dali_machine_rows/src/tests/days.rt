use super::{Day, answers};
use dali_statement::ledger_csv;
use std::test::Fail;

const BEFORE_EARMARKS: &[u8] = b"080000,PART,A\n\
    080000,PART,B\n\
    080001,ISSUE,A,MXN,10\n";

const EARMARKS: &[u8] = b"080002,EARMARK,A,MXN,6\n\
    080002,PAY,P1,A,B,5\n\
    080002,SETTLE,P1\n\
    080002,RELEASE,A,MXN,7\n\
    080003,RELEASE,A,MXN,6\n\
    080003,SETTLE,P1\n";

#[test]
fn earmark_raised(rt: HostRuntime) -> Result<(), Fail> {
    let mut day = Day::new(rt.alloc());
    day.take(&rt, 1, BEFORE_EARMARKS)?;
    day.take(&rt, 2, EARMARKS)?;
    assert_eq!(rt;
        day.answers.bytes(),
        b"OK OK OK OK OK SHORT SHORT OK OK".as_slice()
    );
    Ok(())
}

#[test]
fn earmark_not_raised(rt: HostRuntime) -> Result<(), Fail> {
    let mut day = Day::new(rt.alloc());
    day.take(&rt, 1, BEFORE_EARMARKS)?;
    day.take(&rt, 1, EARMARKS)?;
    assert_eq!(rt;
        day.answers.bytes(),
        b"OK OK OK FORM OK OK FORM FORM GONE".as_slice()
    );
    Ok(())
}

#[test]
fn linked_pair(rt: HostRuntime) -> Result<(), Fail> {
    let text = b"080000,PART,A\n\
        080000,PART,B\n\
        080000,PART,C\n\
        080000,ISSUE,B,MXN,3\n\
        080001,PAY,P1,B,A,3\n\
        080001,PAY,P2,A,C,10\n\
        080001,LINK,P1,P2\n\
        080001,SETTLE,P1\n\
        080002,ISSUE,A,MXN,7\n";
    let told = answers(&rt, rt.alloc(), 3, text)?;
    assert_eq!(rt; told.bytes(), b"OK OK OK OK OK OK OK LINKED OK".as_slice());
    Ok(())
}

#[test]
fn rank_refusals(rt: HostRuntime) -> Result<(), Fail> {
    let text = b"080000,PART,A\n\
        080000,PART,B\n\
        080000,PAY,P1,A,B,10\n\
        080000,RANK,P9,2\n\
        080000,RANK,P1,17\n\
        080000,RANK,P1,0\n\
        080000,RANK,P1,3\n";
    let told = answers(&rt, rt.alloc(), 4, text)?;
    assert_eq!(rt; told.bytes(), b"OK OK OK GONE FORM FORM OK".as_slice());
    Ok(())
}

const DELIVERY: &[u8] = b"080000,PART,R\n\
    080000,PART,S\n\
    080000,INST,X,10\n\
    080000,ISSUE,R,X,50\n\
    080000,ISSUE,S,MXN,500\n\
    090000,DVP,D1,R,S,X,50,500\n\
    090000,SETTLE,D1\n\
    090000,STAT,R\n\
    090000,STAT,S\n\
    090000,LEDGER,R\n";

const POSTINGS: &[u8] = b"number,command,account,asset,delta,after\n\
    1,4,R,X,50,50\n\
    2,5,S,MXN,500,500\n\
    3,7,R,MXN,500,500\n\
    4,7,R,X,-50,0\n\
    5,7,S,MXN,-500,0\n\
    6,7,S,X,50,50\n";

#[test]
fn delivery_alone(rt: HostRuntime) -> Result<(), Fail> {
    let mut day = Day::new(rt.alloc());
    day.take(&rt, 1, DELIVERY)?;
    assert_eq!(rt;
        day.answers.bytes(),
        b"OK OK OK OK OK OK OK 1+0 1+0 3".as_slice()
    );
    let table = ledger_csv(rt.alloc(), day.state.ledger())?;
    assert_eq!(rt; table.bytes(), POSTINGS);
    Ok(())
}
