use dali_gateway::{GateNo, read_gate};
use std::alloc::Global;
use std::process::Abort;

/// These bytes are no gateway input from this place on.
fn breaks(rt: &impl Abort, alloc: Global, bytes: &[u8], place: u64) {
    assert_eq!(rt; read_gate(alloc, bytes).err(), Some(GateNo::Form { place }));
}

#[test]
fn gate_forms(rt: HostRuntime) {
    let alloc = rt.alloc();
    let turns =
        b"GATE,2\nINBOX,35\n080000,PART,A\n080001,ISSUE,A,MXN,5\n\nINBOX,14\n080000,PART,B\n\nTURNS,3\nCBA\n";
    breaks(&rt, alloc, turns, 84);
    breaks(&rt, alloc, b"GATE,0", 5);
    breaks(&rt, alloc, b"", 0);
}

#[test]
fn heads_are_told_from_others(rt: HostRuntime) {
    let rows: [(&[u8], u64); 9] = [
        (b"gate,1\n", 0),
        (b"GATE", 4),
        (b"GATE,1", 6),
        (b"GATE,01\n", 5),
        (b"GATE,17\n", 6),
        (b"GATE,20\n", 6),
        (b"GATE,\n", 5),
        (b"GATE,1\r\n", 6),
        (b"GATE,16\nTURNS,0\n\n", 8),
    ];
    for (bytes, place) in rows {
        breaks(&rt, rt.alloc(), bytes, place);
    }
}

#[test]
fn sizes_that_lie_break_at_the_end_or_at_the_lf(rt: HostRuntime) {
    let rows: [(&[u8], u64); 8] = [
        (b"GATE,1\nINBOX,5\nabc", 18),
        (b"GATE,1\nINBOX,5\nabcde", 20),
        (b"GATE,1\nINBOX,67108864\n0123456789", 32),
        (b"GATE,1\nINBOX,67108865\n0123456789", 20),
        (b"GATE,1\nINBOX,00\n\n", 14),
        (b"GATE,1\nINBOX,2\nabc\n", 17),
        (b"GATE,2\nINBOX,0\n\nTURNS,0\n\n", 16),
        (b"GATE,1\nINBOX,0\n\nINBOX,0\n\n", 16),
    ];
    for (bytes, place) in rows {
        breaks(&rt, rt.alloc(), bytes, place);
    }
}

#[test]
fn turns_break_at_the_first_other_byte(rt: HostRuntime) {
    let rows: [(&[u8], u64); 9] = [
        (b"GATE,1\nINBOX,0\n\nTURNS,1048577\n", 28),
        (b"GATE,1\nINBOX,0\n\nTURNS,1048576\nAAA", 33),
        (b"GATE,1\nINBOX,0\n\nTURNS,1\nB\n", 24),
        (b"GATE,1\nINBOX,0\n\nTURNS,1\na\n", 24),
        (b"GATE,1\nINBOX,0\n\nTURNS,2\nA\n", 25),
        (b"GATE,1\nINBOX,0\n\nTURNS,1\nAA\n", 25),
        (b"GATE,1\nINBOX,0\n\nTURNS,1\nA", 25),
        (b"GATE,1\nINBOX,0\n\nTURNS,1\nA\r\n", 25),
        (b"GATE,1\nINBOX,0\n\nTURNS,1\nA\nGATE", 26),
    ];
    for (bytes, place) in rows {
        breaks(&rt, rt.alloc(), bytes, place);
    }
}
