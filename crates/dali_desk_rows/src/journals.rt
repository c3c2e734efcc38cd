use crate::stage::{HEADER, IMAGE, THREE_LINES, day_of, device, site_of};
use dali_base::OutOfMemory;
use dali_desk::Status;
use dali_outside::Fault;
use std::alloc::Global;
use std::test::Fail;

/// A day over a device of this size that begins with these bytes and goes on with 0, of which this call fails: how it ends, what it
/// prints, and the bytes with which the device then begins, before it goes on with 0.
#[derive(Clone, Copy)]
pub(crate) struct Row {
    pub(crate) device: &'static [u8],
    pub(crate) size: usize,
    pub(crate) file: &'static [u8],
    pub(crate) fault: Option<Fault>,
    pub(crate) status: Status,
    pub(crate) replies: &'static [u8],
    pub(crate) left: &'static [u8],
}

const REPLIES: &[u8] = b"1,OK\n2,OK\n3,OK\n";

/// The journal of two accounts on a device of 64 bytes, all of it.
const TWO: &[u8] = b"DALI-JOURNAL\0\0\0\x01\
\x01\0\0\0\x11\x01\0\x0d080000,PART,A\0\
\x01\0\0\0\x11\x01\0\x0d080000,PART,B\0\
\0\0\0\0";

/// The journal of the three commands with its first gate closed.
const CLOSED: &[u8] = b"DALI-JOURNAL\0\0\0\x01\
\0\0\0\0\x11\x01\0\x0d080000,PART,A\0\
\x01\0\0\0\x11\x01\0\x0d080000,PART,B\0\
\x01\0\0\0\x1a\x01\0\x16080001,ISSUE,A,MXN,100\0\0";

const ROWS: [Row; 14] = [
    // three_lines
    Row {
        device: HEADER,
        size: 4096,
        file: THREE_LINES,
        fault: None,
        status: Status::Done,
        replies: REPLIES,
        left: IMAGE,
    },
    // empty_file
    Row {
        device: HEADER,
        size: 64,
        file: b"",
        fault: None,
        status: Status::Done,
        replies: b"",
        left: HEADER,
    },
    // journal_full
    Row {
        device: HEADER,
        size: 64,
        file: b"080000,PART,A\n080000,PART,B\n080000,PART,C\n",
        fault: None,
        status: Status::JournalFull { need: 23, left: 4 },
        replies: b"1,OK\n2,OK\n",
        left: TWO,
    },
    // image_smallest
    Row {
        device: HEADER,
        size: 17,
        file: b"080000,PART,A\n",
        fault: None,
        status: Status::JournalFull { need: 23, left: 1 },
        replies: b"",
        left: HEADER,
    },
    // other_day: another command, and a file that ends early
    Row {
        device: IMAGE,
        size: 4096,
        file: b"080000,PART,A\n080000,PART,D\n",
        fault: None,
        status: Status::OtherDay { command: 2 },
        replies: b"1,OK\n",
        left: IMAGE,
    },
    Row {
        device: IMAGE,
        size: 4096,
        file: b"080000,PART,A\n",
        fault: None,
        status: Status::OtherDay { command: 2 },
        replies: b"1,OK\n",
        left: IMAGE,
    },
    // put_fails, and its rerun
    Row {
        device: HEADER,
        size: 4096,
        file: THREE_LINES,
        fault: Some(Fault { call: 8, went: 7 }),
        status: Status::PrintFault,
        replies: b"1,OK\n2,",
        left: IMAGE,
    },
    Row {
        device: IMAGE,
        size: 4096,
        file: THREE_LINES,
        fault: None,
        status: Status::Done,
        replies: REPLIES,
        left: IMAGE,
    },
    // write_fails
    Row {
        device: HEADER,
        size: 4096,
        file: THREE_LINES,
        fault: Some(Fault { call: 4, went: 9 }),
        status: Status::DiskFault,
        replies: b"",
        left: b"DALI-JOURNAL\0\0\0\x01\0\0\0\0\x11\x01\0\x0d08\
\xee\xee\xee\xee\xee\xee\xee\xee\xee\xee\xee\xee\xee\xee\xee\xee\xee\xee\xee\xee\xee\xee\
\xee\xee\xee\xee\xee\xee\xee\xee\xee\xee\xee\xee\xee\xee\xee\xee\xee\xee\xee\xee\xee\xee\
\xee\xee\xee\xee\xee\xee\xee\xee\xee\xee\xee\xee\xee\xee\xee\xee\xee\xee\xee\xee\xee\xee",
    },
    // stop_in_body: a closed gate, whatever stands behind it
    Row {
        device: b"DALI-JOURNAL\0\0\0\x01\
\0\
\0\0\0\0\0\0\0\0\0\0\0\0\0\0\0\0\0\0\0\0\0\0\0\0\0\
\0\0\0\0\0\0\0\0\0\0\0\0\0\0\0\0\0\0\0\0\0\0\0\0\0\
\0\0\0\0\0\0\0\0\0\0\0\0\0\0\0\0\0\0\0\0\0\0\0\0\0",
        size: 112,
        file: THREE_LINES,
        fault: None,
        status: Status::Done,
        replies: REPLIES,
        left: IMAGE,
    },
    Row {
        device: b"DALI-JOURNAL\0\0\0\x01\
\0\
\x01\x01\x01\x01\x01\x01\x01\x01\x01\x01\x01\x01\x01\x01\x01\x01\x01\x01\x01\x01\x01\x01\x01\x01\x01\
\x01\x01\x01\x01\x01\x01\x01\x01\x01\x01\x01\x01\x01\x01\x01\x01\x01\x01\x01\x01\x01\x01\x01\x01\x01\
\x01\x01\x01\x01\x01\x01\x01\x01\x01\x01\x01\x01\x01\x01\x01\x01\x01\x01\x01\x01\x01\x01\x01\x01\x01",
        size: 112,
        file: THREE_LINES,
        fault: None,
        status: Status::Done,
        replies: REPLIES,
        left: IMAGE,
    },
    Row {
        device: b"DALI-JOURNAL\0\0\0\x01\
\0\
\xff\xff\xff\xff\xff\xff\xff\xff\xff\xff\xff\xff\xff\xff\xff\xff\xff\xff\xff\xff\xff\xff\xff\xff\xff\
\xff\xff\xff\xff\xff\xff\xff\xff\xff\xff\xff\xff\xff\xff\xff\xff\xff\xff\xff\xff\xff\xff\xff\xff\xff\
\xff\xff\xff\xff\xff\xff\xff\xff\xff\xff\xff\xff\xff\xff\xff\xff\xff\xff\xff\xff\xff\xff\xff\xff\xff",
        size: 112,
        file: THREE_LINES,
        fault: None,
        status: Status::Done,
        replies: REPLIES,
        left: IMAGE,
    },
    // stop_in_gate: another day goes on over a closed gate, and any byte but 0 is an open one
    Row {
        device: CLOSED,
        size: 112,
        file: b"080000,PART,D\n",
        fault: None,
        status: Status::Done,
        replies: b"1,OK\n",
        left: b"DALI-JOURNAL\0\0\0\x01\
\x01\0\0\0\x11\x01\0\x0d080000,PART,D\0\
\0\0\0\0\x11\x01\0\x0d080000,PART,B\0\
\x01\0\0\0\x1a\x01\0\x16080001,ISSUE,A,MXN,100\0\0",
    },
    Row {
        device: b"DALI-JOURNAL\0\0\0\x01\
\xff\0\0\0\x11\x01\0\x0d080000,PART,A\0\
\x01\0\0\0\x11\x01\0\x0d080000,PART,B\0\
\x01\0\0\0\x1a\x01\0\x16080001,ISSUE,A,MXN,100\0\0",
        size: 112,
        file: THREE_LINES,
        fault: None,
        status: Status::Done,
        replies: REPLIES,
        left: b"DALI-JOURNAL\0\0\0\x01\
\xff\0\0\0\x11\x01\0\x0d080000,PART,A\0\
\x01\0\0\0\x11\x01\0\x0d080000,PART,B\0\
\x01\0\0\0\x1a\x01\0\x16080001,ISSUE,A,MXN,100\0\0",
    },
];

/// Whether the day over a device ends as it should, prints what it should, and leaves the device as it should be.
pub(crate) fn is_met(alloc: Global, row: &Row) -> Result<bool, OutOfMemory> {
    let mut site = site_of(alloc, device(alloc, row.device, row.size)?, row.fault)?;
    let status = day_of(alloc, row.file, &mut site)?;
    let left = device(alloc, row.left, row.size)?;
    Ok(status == row.status && site.printed() == row.replies && site.bytes() == left.bytes())
}

#[test]
fn journals(rt: HostRuntime) -> Result<(), Fail> {
    for (n, row) in ROWS.iter().enumerate() {
        assert!(rt; is_met(rt.alloc(), row)?, "row {n}");
    }
    Ok(())
}
