use dali_base::{OutOfMemory, Text};
use dali_gateway::{Gate, read_gate};
use dali_line::{LineEnd, Lines};
use dali_outside::Source;
use std::alloc::Global;
use std::process::Abort;
use std::test::Fail;

/// The bytes that a gate gives to pieces of this room, up to the end.
fn taken(alloc: Global, gate: &mut Gate, room: usize) -> Result<Text, OutOfMemory> {
    let mut into = [0; 64];
    let mut bytes = Text::new(alloc);
    for _ in 0..100 {
        if let Ok(n) = gate.take(&mut into[..room.min(64)]) {
            bytes.add(&into[..n])?;
        }
    }
    Ok(bytes)
}

/// The bytes are a gateway input of so many inboxes and turns, and this is its merge.
fn merges(
    rt: &impl Abort,
    alloc: Global,
    bytes: &[u8],
    counts: (u32, u32),
    merge: &[u8],
) -> Result<(), Fail> {
    for room in [1, 2, 3, 64] {
        let mut gate = read_gate(alloc, bytes)?;
        assert_eq!(rt; (gate.inboxes(), gate.turns()), counts);
        assert_eq!(rt; taken(alloc, &mut gate, room)?.bytes(), merge);
        assert_eq!(rt; gate.take(&mut [0]), Ok(0));
        assert_eq!(rt; (gate.inboxes(), gate.turns()), counts);
    }
    Ok(())
}

#[test]
fn gate_turns(rt: HostRuntime) -> Result<(), Fail> {
    let alloc = rt.alloc();
    let aba =
        b"GATE,2\nINBOX,35\n080000,PART,A\n080001,ISSUE,A,MXN,5\n\nINBOX,14\n080000,PART,B\n\nTURNS,3\nABA\n";
    let aab =
        b"GATE,2\nINBOX,35\n080000,PART,A\n080001,ISSUE,A,MXN,5\n\nINBOX,14\n080000,PART,B\n\nTURNS,3\nAAB\n";
    let abba =
        b"GATE,2\nINBOX,35\n080000,PART,A\n080001,ISSUE,A,MXN,5\n\nINBOX,14\n080000,PART,B\n\nTURNS,4\nABBA\n";
    let crossed = b"080000,PART,A\r\n080000,PART,B\r\n080001,ISSUE,A,MXN,5\r\n";
    merges(&rt, alloc, aba, (2, 3), crossed)?;
    merges(
        &rt,
        alloc,
        aab,
        (2, 3),
        b"080000,PART,A\r\n080001,ISSUE,A,MXN,5\r\n080000,PART,B\r\n",
    )?;
    merges(&rt, alloc, abba, (2, 4), crossed)
}

#[test]
fn empty_inboxes_and_comments_give_nothing(rt: HostRuntime) -> Result<(), Fail> {
    let bytes =
        b"GATE,4\nINBOX,12\na\n# c\n\n\r\n##\n\nINBOX,0\n\nINBOX,5\n#only\nINBOX,3\nx\ny\nTURNS,9\nABCDAABCD\n";
    merges(&rt, rt.alloc(), bytes, (4, 9), b"a\r\nx\r\ny\r\n")
}

#[test]
fn commands_keep_their_crs(rt: HostRuntime) -> Result<(), Fail> {
    let bytes = b"GATE,2\nINBOX,7\nx\r\r\nyy\r\nINBOX,4\na\r\nb\nTURNS,5\nBAABA\n";
    merges(&rt, rt.alloc(), bytes, (2, 5), b"a\r\nx\r\r\nyy\r\r\nb\r\n")
}

#[test]
fn no_turns_give_nothing(rt: HostRuntime) -> Result<(), Fail> {
    merges(
        &rt,
        rt.alloc(),
        b"GATE,1\nINBOX,2\na\n\nTURNS,0\n\n",
        (1, 0),
        b"",
    )
}

#[test]
fn a_reader_of_lines_finds_each_command(rt: HostRuntime) -> Result<(), Fail> {
    let alloc = rt.alloc();
    let bytes = b"GATE,2\nINBOX,7\nx\r\r\nyy\r\nINBOX,4\na\r\nb\nTURNS,5\nBAABA\n";
    let mut gate = read_gate(alloc, bytes)?;
    let mut lines = Lines::new(alloc)?;
    for command in [b"a".as_slice(), b"x\r", b"yy\r", b"b"] {
        let line = lines.next(&mut gate)?.ok_or("a command")?;
        assert_eq!(rt; line.bytes(), command);
    }
    assert!(rt; lines.next(&mut gate)?.is_none());
    Ok(())
}
