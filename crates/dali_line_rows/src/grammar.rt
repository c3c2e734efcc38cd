use dali_base::{Kind, read_moment, read_name};
use dali_line::{Command, Line, Verb, read_line, write_line};
use std::test::Fail;

#[test]
fn lines_are_read(rt: HostRuntime) -> Result<(), Fail> {
    let command = Command {
        moment: read_moment(b"235959").ok_or("a moment")?,
        verb: Verb::Issue {
            account: read_name(b"ABCDEFGHIJ09").ok_or("a name")?,
            asset: read_name(b"MXN").ok_or("a name")?,
            quantity: 1_000_000_000_000_000,
        },
    };
    let line = b"235959,ISSUE,ABCDEFGHIJ09,MXN,1000000000000000";
    for edition in [1, 4] {
        assert_eq!(rt; read_line(edition, line), Some(command));
    }
    for edition in [0, 5] {
        assert_eq!(rt; read_line(edition, line), None);
    }
    let others: [&[u8]; 6] = [
        b"",
        b"x",
        b"080000,PART,ABCDEFGHIJKLM",
        b"080000,PART,a",
        b"080000,ISSUE,A,MXN,0",
        b"080000,ISSUE,A,MXN,1000000000000001",
    ];
    for other in others {
        assert_eq!(rt; read_line(1, other), None);
    }
    Ok(())
}

#[test]
fn each_verb_is_read_in_its_edition(rt: HostRuntime) {
    let lines: [(u8, &[u8]); 19] = [
        (1, b"080000,PART,A"),
        (1, b"080000,INST,X,1000000000"),
        (1, b"080000,ISSUE,A,MXN,1"),
        (1, b"080000,DRAW,A,MXN,1"),
        (1, b"080000,DVP,D1,A,B,X,50,500"),
        (1, b"080000,FOP,F1,A,B,X,50"),
        (1, b"080000,PAY,P1,A,B,7"),
        (1, b"080000,CANCEL,P1"),
        (1, b"080000,SETTLE,P1"),
        (1, b"235959,CUTOFF,FOP,000000"),
        (1, b"080000,CYCLE,0"),
        (1, b"080000,QUEUE"),
        (1, b"080000,CLOSE"),
        (1, b"080000,STAT,A"),
        (1, b"080000,LEDGER,A"),
        (2, b"080000,EARMARK,A,MXN,6"),
        (2, b"080000,RELEASE,A,MXN,6"),
        (3, b"080000,LINK,P1,P2"),
        (4, b"080000,RANK,P1,16"),
    ];
    for (first, line) in lines {
        for edition in 1..=4 {
            assert_eq!(rt; read_line(edition, line).is_some(), first <= edition);
        }
    }
}

#[test]
fn other_lines_are_refused(rt: HostRuntime) {
    let others: [&[u8]; 12] = [
        b"080000,PAY,P1,A,B,07",
        b"080000,part,A",
        b"080000,PART,A,",
        b"080000,INST,X,1000000001",
        b"080000,INST,X,0",
        b"080000,CYCLE,4097",
        b"080000,RANK,P1,17",
        b"080000,RANK,P1,0",
        b"080000,CUTOFF,SWAP,000000",
        b"246000,PART,C",
        b"080000,QUEUE,A",
        b"080000,DVP,D1,A,B,X,50,500,1",
    ];
    for other in others {
        assert_eq!(rt; read_line(4, other), None);
    }
}

#[test]
fn lines_are_kept(rt: HostRuntime) -> Result<(), Fail> {
    let line = Line::copy(rt.alloc(), b"080000,PART,A")?;
    assert_eq!(rt; line.bytes(), b"080000,PART,A".as_slice());
    assert_eq!(rt; line.len(), 13);
    assert_eq!(rt; line.get(7).copied(), Some(b'P'));
    assert_eq!(rt; line.get(13), None);
    Ok(())
}

#[test]
fn a_cut_off_is_written_as_it_was_read(rt: HostRuntime) -> Result<(), Fail> {
    let command = Command {
        moment: read_moment(b"235959").ok_or("a moment")?,
        verb: Verb::Cutoff {
            kind: Kind::Fop,
            moment: read_moment(b"000000").ok_or("a moment")?,
        },
    };
    let line = write_line(rt.alloc(), &command)?;
    assert_eq!(rt; line.bytes(), b"235959,CUTOFF,FOP,000000".as_slice());
    assert_eq!(rt; read_line(1, line.bytes()), Some(command));
    Ok(())
}
