use crate::stage::{new_day, source_of};
use dali_base::{OutOfMemory, Text};
use dali_desk::Status;
use std::alloc::Global;
use std::test::Fail;

/// A day file over a fresh journal, and its replies.
#[derive(Clone, Copy)]
struct Row {
    file: &'static [u8],
    replies: &'static [u8],
}

const ROWS: [Row; 16] = [
    // first_refusals
    Row {
        file: b"080000,PART,A\n080000,PART,A\n080000,ISSUE,B,MXN,1\nx\n",
        replies: b"1,OK\n2,NO,THERE\n3,NO,NAME\n4,NO,FORM\n",
    },
    // empty_file
    Row {
        file: b"",
        replies: b"",
    },
    // The CR before an LF, comments and empty lines are passed over, and the last line needs no LF.
    Row {
        file: b"# day\r\n\r\n080000,PART,A\r\n\n080000,PART,B\r\n080001,ISSUE,A,MXN,100",
        replies: b"1,OK\n2,OK\n3,OK\n",
    },
    // A CR that no LF follows is part of the line.
    Row {
        file: b"080000,PART,A\r",
        replies: b"1,NO,FORM\n",
    },
    // line_both_ways
    Row {
        file: b"235959,CUTOFF,FOP,000000\n080000,PAY,P1,A,B,07\n080000,part,A\n080000,PART,A,\n",
        replies: b"1,OK\n2,NO,FORM\n3,NO,FORM\n4,NO,FORM\n",
    },
    // empty_cycle
    Row {
        file: b"080000,CYCLE,5\n",
        replies: b"1,CYCLE,OPTIMAL,0,0,0,0\nBLOCK,1\nBUDGET,5\nSET\nLAST\n1,END\n",
    },
    Row {
        file: b"080000,CYCLE,0\n",
        replies: b"1,CYCLE,OPTIMAL,0,0,0,0\nBLOCK,1\nBUDGET,0\nSET\nLAST\n1,END\n",
    },
    // past_cutoff: the cycle has no item.
    Row {
        file: b"080000,PART,A\n080000,PART,B\n080000,CUTOFF,PAY,150000\n150000,PAY,P1,A,B,1\n150001,PAY,P2,A,B,1\n150001,SETTLE,P1\n150001,CYCLE,0\n150001,CANCEL,P1\n",
        replies: b"1,OK\n2,OK\n3,OK\n4,OK\n5,NO,LATE\n6,NO,LATE\n7,CYCLE,OPTIMAL,0,0,0,0\nBLOCK,1\nBUDGET,0\nSET\nLAST\n7,END\n8,OK\n",
    },
    // id_once
    Row {
        file: b"080000,PART,A\n080000,PART,B\n080001,PAY,P1,A,B,1\n080001,CANCEL,P1\n080001,CANCEL,P1\n080001,PAY,P1,A,B,1\n",
        replies: b"1,OK\n2,OK\n3,OK\n4,OK\n5,NO,GONE\n6,NO,THERE\n",
    },
    // moments_back, without and with an instruction that waits
    Row {
        file: b"090000,PART,A\n085959,PART,B\n100000,PART,A\n095959,PART,C\n246000,PART,C\n100000,CLOSE\n100000,CLOSE\n100000,QUEUE\n",
        replies: b"1,OK\n2,NO,BACK\n3,NO,THERE\n4,NO,BACK\n5,NO,FORM\n6,OK\n7,NO,CLOSED\n8,END\n",
    },
    Row {
        file: b"090000,PART,A\n085959,PART,B\n100000,PART,A\n095959,PART,C\n246000,PART,C\n100000,PART,B\n100000,PAY,P1,A,B,6\n100000,CLOSE\n100000,CLOSE\n100000,QUEUE\n",
        replies: b"1,OK\n2,NO,BACK\n3,NO,THERE\n4,NO,BACK\n5,NO,FORM\n6,OK\n7,OK\n8,OK\n9,NO,CLOSED\n10,WAIT,P1,PAY,6\n10,END\n",
    },
    // fop_refusals
    Row {
        file: b"080000,PART,A\n080000,PART,B\n080000,INST,X,1000000000\n080001,FOP,F1,A,B,X,1000000\n080001,FOP,F2,A,B,X,1000001\n080001,FOP,F2,A,A,X,1000001\n080001,FOP,F2,A,A,MXN,1\n080001,FOP,F2,A,Z,MXN,1\n080001,FOP,F1,Z,Z,MXN,1\n080001,QUEUE\n",
        replies: b"1,OK\n2,OK\n3,OK\n4,OK\n5,NO,VALUE\n6,NO,SELF\n7,NO,CASH\n8,NO,NAME\n9,NO,THERE\n10,WAIT,F1,FOP,1000000000000000\n10,END\n",
    },
    // settle_alone
    Row {
        file: b"080000,PART,A\n080000,PART,B\n080000,ISSUE,A,MXN,5\n080001,PAY,P1,A,B,6\n080002,SETTLE,P1\n080002,ISSUE,A,MXN,1\n080002,SETTLE,P1\n080002,SETTLE,P1\n080002,DRAW,B,MXN,7\n080002,DRAW,B,MXN,6\n",
        replies: b"1,OK\n2,OK\n3,OK\n4,OK\n5,NO,SHORT\n6,OK\n7,OK\n8,NO,GONE\n9,NO,SHORT\n10,OK\n",
    },
    // A delivery against payment books both sides at once, and statements show what is held, what waits and what was posted.
    Row {
        file: b"080000,PART,R\n080000,PART,S\n080000,INST,X,10\n080000,ISSUE,R,X,50\n080000,ISSUE,S,MXN,510\n090000,DVP,D1,R,S,X,40,500\n090000,DVP,D2,S,R,X,45,9\n100000,SETTLE,D2\n100000,SETTLE,D1\n100001,STAT,S\n100001,STAT,R\n100001,LEDGER,S\n100001,LEDGER,Z\n",
        replies: b"1,OK\n2,OK\n3,OK\n4,OK\n5,OK\n6,OK\n7,OK\n8,NO,SHORT\n9,OK\n10,BAL,MXN,10\n10,BAL,X,40\n10,HELD,D2\n10,END\n11,BAL,MXN,500\n11,BAL,X,10\n11,HELD,D2\n11,END\n12,ROW,2,5,MXN,510,510\n12,ROW,5,9,MXN,-500,10\n12,ROW,6,9,X,40,40\n12,END\n13,NO,NAME\n",
    },
    // earmark_not_raised: the verbs of later editions are no commands in a journal of edition 1.
    Row {
        file: b"080000,PART,A\n080001,ISSUE,A,MXN,10\n080002,EARMARK,A,MXN,6\n080002,RELEASE,A,MXN,6\n080002,LINK,P1,P2\n080002,RANK,P1,2\n",
        replies: b"1,OK\n2,OK\n3,NO,FORM\n4,NO,FORM\n5,NO,FORM\n6,NO,FORM\n",
    },
    // ring
    Row {
        file: b"080000,PART,A\n080000,PART,B\n080000,PART,C\n080001,PAY,P1,A,B,100\n080001,PAY,P2,B,C,100\n080001,PAY,P3,C,A,100\n080002,CYCLE,0\n080002,LEDGER,A\n",
        replies: b"1,OK\n2,OK\n3,OK\n4,OK\n5,OK\n6,OK\n7,CYCLE,OPTIMAL,300,3,300,0\n7,POST,P1\n7,POST,P2\n7,POST,P3\nBLOCK,1\nBUDGET,0\nLINE,A,MXN,0\nLINE,B,MXN,0\nLINE,C,MXN,0\nITEM,P1,100,0:-100,1:100\nITEM,P2,100,1:-100,2:100\nITEM,P3,100,0:100,2:-100\nSET,0,1,2\nPART,300,0,1,2\nBOUND\nLAST\n7,END\n8,END\n",
    },
];

/// How a file in pieces of this length ends, and what it prints.
fn ended(alloc: Global, file: &[u8], piece: u32) -> Result<(Status, Text), OutOfMemory> {
    let mut source = source_of(alloc, file, piece, None)?;
    new_day(alloc, &mut source, 4096)
}

#[test]
fn days(rt: HostRuntime) -> Result<(), Fail> {
    for row in ROWS {
        for piece in [1, 7, 65_536] {
            let (status, printed) = ended(rt.alloc(), row.file, piece)?;
            assert_eq!(rt; status, Status::Done);
            assert_eq!(rt; printed.bytes(), row.replies);
        }
    }
    Ok(())
}
