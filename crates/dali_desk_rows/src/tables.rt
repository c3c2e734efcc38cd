use crate::stage::{HEADER, day, device, site_of, source_of, text};
use dali_base::{OutOfMemory, Text};
use dali_desk::Status;
use std::alloc::Global;
use std::test::Fail;

/// So many pieces of a text, one after the other: bytes, a number that rises from the first, where there is one, and bytes behind it.
type Pieces = (u64, &'static [u8], Option<u64>, &'static [u8]);

/// A file over a fresh journal with room for it, in takes of so many bytes: how it ends, what it prints, and the calls of the site
/// that it makes.
#[derive(Clone, Copy)]
struct Row {
    file: &'static [Pieces],
    take: u32,
    status: Status,
    replies: &'static [Pieces],
    calls: u64,
}

/// The total of an asset is at most 10^18.
const MOST_ISSUED: &[Pieces] = &[
    (1, b"080000,PART,A\n", None, b""),
    (1000, b"080000,ISSUE,A,MXN,1000000000000000\n", None, b""),
    (
        1,
        b"080000,ISSUE,A,MXN,1\n080000,ISSUE,Z,MXN,1\n",
        None,
        b"",
    ),
];

const MOST_ISSUED_REPLIES: &[Pieces] = &[
    (1001, b"", Some(1), b",OK\n"),
    (1, b"1002,NO,TOTAL\n1003,NO,NAME\n", None, b""),
];

/// There is room for 1,000 accounts, 1,000 codes and 1,024 queued instructions.
const FULL: &[Pieces] = &[
    (1001, b"080000,PART,A", Some(1), b"\n"),
    (1001, b"080000,INST,I", Some(1), b",5\n"),
    (1025, b"080001,PAY,P", Some(1), b",A1,A2,1\n"),
    (
        1,
        b"080001,CANCEL,P7\n080001,PAY,Q,A1,A2,1\n080001,PAY,R,A1,A2,1\n",
        None,
        b"",
    ),
];

const FULL_REPLIES: &[Pieces] = &[
    (1000, b"", Some(1), b",OK\n"),
    (1, b"1001,NO,FULL\n", None, b""),
    (1000, b"", Some(1002), b",OK\n"),
    (1, b"2002,NO,FULL\n", None, b""),
    (1024, b"", Some(2003), b",OK\n"),
    (
        1,
        b"3027,NO,FULL\n3028,OK\n3029,OK\n3030,NO,FULL\n",
        None,
        b"",
    ),
];

/// An accepted command, a comment of 1,000 bytes, and a command of 200 or 201 bytes with what follows it. The CR before an LF
/// isn't counted, and one at the end of input is.
const LONGEST: &[Pieces] = &[
    (1, b"080000,PART,A\n#", None, b""),
    (999, b"c", None, b""),
    (1, b"\n", None, b""),
    (200, b"X", None, b""),
];

const LONGEST_LF: &[Pieces] = &[
    (1, b"080000,PART,A\n#", None, b""),
    (999, b"c", None, b""),
    (1, b"\n", None, b""),
    (200, b"X", None, b""),
    (1, b"\n", None, b""),
];

const LONGEST_CR_LF: &[Pieces] = &[
    (1, b"080000,PART,A\n#", None, b""),
    (999, b"c", None, b""),
    (1, b"\n", None, b""),
    (200, b"X", None, b""),
    (1, b"\r\n", None, b""),
];

const LONGEST_CR: &[Pieces] = &[
    (1, b"080000,PART,A\n#", None, b""),
    (999, b"c", None, b""),
    (1, b"\n", None, b""),
    (200, b"X", None, b""),
    (1, b"\r", None, b""),
];

const TOO_LONG: &[Pieces] = &[
    (1, b"080000,PART,A\n#", None, b""),
    (999, b"c", None, b""),
    (1, b"\n", None, b""),
    (201, b"X", None, b""),
    (1, b"\n080000,PART,B\n", None, b""),
];

const ROWS: [Row; 13] = [
    Row {
        file: MOST_ISSUED,
        take: 65_536,
        status: Status::Done,
        replies: MOST_ISSUED_REPLIES,
        calls: 83,
    },
    Row {
        file: FULL,
        take: 65_536,
        status: Status::Done,
        replies: FULL_REPLIES,
        calls: 243,
    },
    Row {
        file: LONGEST,
        take: 30,
        status: Status::Done,
        replies: &[(1, b"1,OK\n2,NO,FORM\n", None, b"")],
        calls: 8,
    },
    Row {
        file: LONGEST_LF,
        take: 30,
        status: Status::Done,
        replies: &[(1, b"1,OK\n2,NO,FORM\n", None, b"")],
        calls: 8,
    },
    Row {
        file: LONGEST_CR_LF,
        take: 30,
        status: Status::Done,
        replies: &[(1, b"1,OK\n2,NO,FORM\n", None, b"")],
        calls: 8,
    },
    Row {
        file: LONGEST_CR,
        take: 30,
        status: Status::LongLine { command: 2 },
        replies: &[(1, b"1,OK\n", None, b"")],
        calls: 8,
    },
    Row {
        file: TOO_LONG,
        take: 30,
        status: Status::LongLine { command: 2 },
        replies: &[(1, b"1,OK\n", None, b"")],
        calls: 8,
    },
    // Opening takes a sync and two reads; 64 commands are one group of two writes and two syncs, with one put behind them.
    Row {
        file: &[],
        take: 65_536,
        status: Status::Done,
        replies: &[],
        calls: 3,
    },
    Row {
        file: &[(1, b"x\n", None, b"")],
        take: 65_536,
        status: Status::Done,
        replies: &[(1, b"", Some(1), b",NO,FORM\n")],
        calls: 8,
    },
    Row {
        file: &[(64, b"x\n", None, b"")],
        take: 65_536,
        status: Status::Done,
        replies: &[(64, b"", Some(1), b",NO,FORM\n")],
        calls: 8,
    },
    Row {
        file: &[(65, b"x\n", None, b"")],
        take: 65_536,
        status: Status::Done,
        replies: &[(65, b"", Some(1), b",NO,FORM\n")],
        calls: 13,
    },
    Row {
        file: &[(128, b"x\n", None, b"")],
        take: 65_536,
        status: Status::Done,
        replies: &[(128, b"", Some(1), b",NO,FORM\n")],
        calls: 13,
    },
    Row {
        file: &[(129, b"x\n", None, b"")],
        take: 65_536,
        status: Status::Done,
        replies: &[(129, b"", Some(1), b",NO,FORM\n")],
        calls: 18,
    },
];

fn add_pieces(text: &mut Text, pieces: &Pieces) -> Result<(), OutOfMemory> {
    let (times, before, first, behind) = *pieces;
    for n in 0..times {
        text.add(before)?;
        if let Some(first) = first {
            text.add_number(first.saturating_add(n))?;
        }
        text.add(behind)?;
    }
    Ok(())
}

fn built(alloc: Global, all: &[Pieces]) -> Result<Text, OutOfMemory> {
    let mut text = Text::new(alloc);
    for pieces in all {
        add_pieces(&mut text, pieces)?;
    }
    Ok(text)
}

/// How the file of a row ends, what it prints, and the calls of the site that it makes.
fn ended(alloc: Global, row: &Row) -> Result<(Status, Text, u64), OutOfMemory> {
    let file = built(alloc, row.file)?;
    let mut source = source_of(alloc, file.bytes(), row.take, None)?;
    let mut site = site_of(alloc, device(alloc, HEADER, 1_048_576)?, None)?;
    let status = day(alloc, &mut source, &mut site)?;
    Ok((status, text(alloc, site.printed())?, site.made()))
}

#[test]
fn tables(rt: HostRuntime) -> Result<(), Fail> {
    for row in ROWS {
        let (status, printed, calls) = ended(rt.alloc(), &row)?;
        assert_eq!(rt; status, row.status);
        assert_eq!(rt; calls, row.calls);
        assert_eq!(rt; printed.bytes(), built(rt.alloc(), row.replies)?.bytes());
    }
    Ok(())
}
