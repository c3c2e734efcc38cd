use crate::day::{Day, place_of};
use dali_base::Text;
use std::alloc::Global;
use std::process::Abort;
use std::test::Fail;

/// A day in an edition, and its replies, in which what is said of a certificate stands in its place.
#[derive(Clone, Copy)]
struct Row {
    edition: u8,
    day: &'static [u8],
    replies: &'static [u8],
}

const RING: &[u8] = b"080000,PART,A\n080000,PART,B\n080000,PART,C\n\
080001,PAY,P1,A,B,100\n080001,PAY,P2,B,C,100\n080001,PAY,P3,C,A,100\n\
080002,CYCLE,0\n080002,LEDGER,A\n080002,QUEUE\n";

/// Two deliveries, of which the second pays for the first.
const CHAIN: &[u8] = b"080000,PART,R\n080000,PART,S\n080000,PART,T\n080000,INST,X,10\n\
080000,ISSUE,R,X,50\n080000,ISSUE,T,MXN,510\n\
090000,DVP,D1,R,S,X,50,500\n090000,DVP,D2,S,T,X,50,510\n\
100000,CYCLE,0\n100000,STAT,S\n100000,LEDGER,T\n100000,LEDGER,R\n";

/// A cycle over what is past its cut-off leaves it in the queue.
const PAST: &[u8] = b"080000,PART,A\n080000,PART,B\n080000,CUTOFF,PAY,150000\n\
080000,ISSUE,A,MXN,1\n150000,PAY,P1,A,B,1\n150001,CYCLE,0\n150001,CANCEL,P1\n";

/// A cycle at the cut-off itself takes it.
const AT_THE_CUTOFF: &[u8] = b"080000,PART,A\n080000,PART,B\n080000,CUTOFF,PAY,150000\n\
080000,ISSUE,A,MXN,1\n140000,PAY,P1,A,B,1\n150000,CYCLE,0\n150000,STAT,B\n";

/// Two linked payments settle together or not at all.
const LINKED: &[u8] = b"080000,PART,A\n080000,PART,B\n080000,PART,C\n080000,ISSUE,B,MXN,3\n\
080001,PAY,P1,B,A,3\n080001,PAY,P2,A,C,10\n080001,LINK,P1,P2\n080001,SETTLE,P1\n\
080002,CYCLE,0\n080002,ISSUE,A,MXN,7\n080003,CYCLE,0\n080003,QUEUE\n080003,STAT,C\n";

/// Two opposite payments, linked, have no effects together, so they write no posting.
const OPPOSITES: &[u8] = b"080000,PART,A\n080000,PART,B\n080001,PAY,P1,A,B,5\n080001,PAY,P2,B,A,5\n\
080001,LINK,P1,P2\n080002,CYCLE,0\n080002,LEDGER,A\n";

/// A linked pair whose second is past its cut-off isn't eligible, though its first is.
const LATE_PAIR: &[u8] = b"080000,PART,A\n080000,PART,B\n080000,INST,X,2\n080000,ISSUE,A,X,4\n\
080000,ISSUE,B,MXN,9\n080001,FOP,F1,A,B,X,4\n080001,PAY,P1,B,A,9\n080001,LINK,F1,P1\n\
080001,CUTOFF,PAY,090000\n090001,CYCLE,0\n";

/// A rank multiplies the value that a cycle counts.
const RANKED: &[u8] = b"080000,PART,A\n080000,PART,B\n080000,ISSUE,A,MXN,10\n\
080001,PAY,P1,A,B,10\n080001,PAY,P2,A,B,6\n080001,RANK,P2,3\n080002,CYCLE,100\n080002,QUEUE\n";

const ROWS: [Row; 8] = [
    Row {
        edition: 1,
        day: RING,
        replies: b"1,OK\n2,OK\n3,OK\n4,OK\n5,OK\n6,OK\n7,CYCLE,OPTIMAL,300,3,300,0\n7,POST,P1\n7,POST,P2\n7,POST,P3\nVALID,OPTIMAL,300,3,300,0\n8,END\n9,END\n",
    },
    Row {
        edition: 1,
        day: CHAIN,
        replies: b"1,OK\n2,OK\n3,OK\n4,OK\n5,OK\n6,OK\n7,OK\n8,OK\n9,CYCLE,OPTIMAL,1010,2,1010,0\n9,POST,D1\n9,POST,D2\nVALID,OPTIMAL,1010,2,1010,0\n10,BAL,MXN,10\n10,END\n11,ROW,2,6,MXN,510,510\n11,ROW,6,9,MXN,-510,0\n11,ROW,7,9,X,50,50\n11,END\n12,ROW,1,5,X,50,50\n12,ROW,3,9,MXN,500,500\n12,ROW,4,9,X,-50,0\n12,END\n",
    },
    Row {
        edition: 1,
        day: PAST,
        replies: b"1,OK\n2,OK\n3,OK\n4,OK\n5,OK\n6,CYCLE,OPTIMAL,0,0,0,0\nVALID,OPTIMAL,0,0,0,0\n7,OK\n",
    },
    Row {
        edition: 1,
        day: AT_THE_CUTOFF,
        replies: b"1,OK\n2,OK\n3,OK\n4,OK\n5,OK\n6,CYCLE,OPTIMAL,1,1,1,0\n6,POST,P1\nVALID,OPTIMAL,1,1,1,0\n7,BAL,MXN,1\n7,END\n",
    },
    Row {
        edition: 3,
        day: LINKED,
        replies: b"1,OK\n2,OK\n3,OK\n4,OK\n5,OK\n6,OK\n7,OK\n8,NO,LINKED\n9,CYCLE,OPTIMAL,0,0,0,0\nVALID,OPTIMAL,0,0,0,0\n10,OK\n11,CYCLE,OPTIMAL,13,2,13,0\n11,POST,P1\n11,POST,P2\nVALID,OPTIMAL,13,1,13,0\n12,END\n13,BAL,MXN,10\n13,END\n",
    },
    Row {
        edition: 3,
        day: OPPOSITES,
        replies: b"1,OK\n2,OK\n3,OK\n4,OK\n5,OK\n6,CYCLE,OPTIMAL,10,2,10,0\n6,POST,P1\n6,POST,P2\nVALID,OPTIMAL,10,1,10,0\n7,END\n",
    },
    Row {
        edition: 3,
        day: LATE_PAIR,
        replies: b"1,OK\n2,OK\n3,OK\n4,OK\n5,OK\n6,OK\n7,OK\n8,OK\n9,OK\n10,CYCLE,OPTIMAL,0,0,0,0\nVALID,OPTIMAL,0,0,0,0\n",
    },
    Row {
        edition: 4,
        day: RANKED,
        replies: b"1,OK\n2,OK\n3,OK\n4,OK\n5,OK\n6,OK\n7,CYCLE,OPTIMAL,18,1,18,1\n7,POST,P2\nVALID,OPTIMAL,18,1,18,1\n8,WAIT,P1,PAY,10\n8,END\n",
    },
];

#[test]
fn days(rt: HostRuntime) -> Result<(), Fail> {
    for row in ROWS {
        let day = taken(&rt, rt.alloc(), row.edition, row.day)?;
        assert_eq!(rt; day.replies.bytes(), row.replies);
    }
    Ok(())
}

fn taken(rt: &impl Abort, alloc: Global, edition: u8, text: &[u8]) -> Result<Day, Fail> {
    let mut bytes = Text::new(alloc);
    bytes.add(text)?;
    let mut day = Day::new(alloc);
    day.take(rt, edition, bytes)?;
    Ok(day)
}

/// In an edition before that of a verb it is no command, so the same days settle each payment by itself.
#[test]
fn earlier_editions(rt: HostRuntime) -> Result<(), Fail> {
    let day = taken(&rt, rt.alloc(), 2, OPPOSITES)?;
    assert!(rt;
        place_of(
            day.replies.bytes(),
            b"5,NO,FORM\n6,CYCLE,OPTIMAL,10,2,10,0\n"
        )
        .is_some()
    );
    let day = taken(&rt, rt.alloc(), 3, RANKED)?;
    assert!(rt; place_of(day.replies.bytes(), b"6,NO,FORM\n7,CYCLE,OPTIMAL,10,1,10,").is_some());
    Ok(())
}
