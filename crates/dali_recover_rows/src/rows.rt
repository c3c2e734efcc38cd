use crate::journal::{Answer, SIZE, byte_at, changed, recovered};
use crate::reader::read_slowly;
use dali_base::OutOfMemory;
use dali_journal::Damage;
use std::alloc::Global;
use std::process::Abort;
use std::test::Fail;

const fn damaged(place: u64, why: Damage) -> Answer {
    Answer::Damaged { place, why }
}

const fn found(entries: usize, tail: u64) -> Answer {
    Answer::Found { entries, tail }
}

/// A byte's place, its value, and what the device then comes to, worked out by hand.
fn worked_out() -> [(usize, u8, Answer); 22] {
    [
        // The header: its text, its edition bytes and the byte behind them.
        (0, b'E', damaged(0, Damage::Header)),
        (12, 1, found(5, 163)),
        (13, 0xff, damaged(0, Damage::Header)),
        (15, 2, damaged(0, Damage::Header)),
        // The first record's gate and length: closed, past the device, and a byte too many.
        (16, 0, found(0, 16)),
        (16, 0xff, found(5, 163)),
        (20, 0xff, damaged(16, Damage::Length)),
        (20, 0x12, damaged(16, Damage::Entry)),
        // Its edition is above the journal's.
        (21, 2, damaged(16, Damage::Entry)),
        // At 18:00:00 all that follows is back, so the cycle isn't accepted and has a choice.
        (24, b'1', damaged(117, Damage::Illegal)),
        // No command, or another account: the payment is refused, and the choice's place isn't there.
        (29, 0xff, damaged(117, Damage::Illegal)),
        (36, b'B', damaged(117, Damage::Illegal)),
        // One more is issued, and one more is paid than the choice's bound says.
        (87, b'8', found(5, 163)),
        (115, b'5', damaged(117, Damage::Illegal)),
        // The cycle: its budget, its choice left out with the bytes still there, its place, its bound, and a short end.
        (138, b'1', found(5, 163)),
        (139, 0, damaged(117, Damage::Entry)),
        (143, 1, damaged(117, Damage::Illegal)),
        (157, 5, damaged(117, Damage::Illegal)),
        (160, 5, damaged(117, Damage::Illegal)),
        (160, 6, damaged(117, Damage::Entry)),
        // An open gate where the closed one stood, and a byte behind it.
        (163, 1, damaged(163, Damage::Entry)),
        (164, 0xff, found(5, 163)),
    ]
}

#[test]
fn by_hand(rt: HostRuntime) -> Result<(), Fail> {
    for (place, byte, wanted) in worked_out() {
        let answer = recovered(rt.alloc(), changed(rt.alloc(), place, byte)?)?;
        assert_eq!(rt; answer, wanted);
        let slowly = read_slowly(changed(rt.alloc(), place, byte)?.bytes());
        assert_eq!(rt; slowly, wanted);
    }
    Ok(())
}

/// The device with this byte at a place comes to what the slow reader says.
fn agrees(rt: &impl Abort, alloc: Global, place: usize, byte: u8) -> Result<(), OutOfMemory> {
    let image = changed(alloc, place, byte)?;
    let slowly = read_slowly(image.bytes());
    let answer = recovered(alloc, image)?;
    assert_eq!(rt; answer, slowly);
    assert!(rt; answer != Answer::Failed);
    Ok(())
}

/// Each byte of the device made 00, 01, FF and its value plus one.
#[test]
fn every_byte(rt: HostRuntime) -> Result<(), Fail> {
    for place in 0..SIZE {
        let more = byte_at(place).wrapping_add(1);
        for byte in [0, 1, 0xff, more] {
            agrees(&rt, rt.alloc(), place, byte)?;
        }
    }
    Ok(())
}
