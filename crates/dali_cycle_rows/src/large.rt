use crate::day::{Day, place_of};
use dali_base::{OutOfMemory, Text};
use std::alloc::Global;
use std::test::Fail;

/// A piece of a command.
#[derive(Clone, Copy)]
enum Piece {
    Word(&'static [u8]),
    Number(u64),
}

use Piece::{Number, Word};

fn add(text: &mut Text, piece: Piece) -> Result<(), OutOfMemory> {
    match piece {
        Word(word) => text.add(word),
        Number(number) => text.add_number(number),
    }
}

fn add_all(text: &mut Text, pieces: &[Piece]) -> Result<(), OutOfMemory> {
    for piece in pieces {
        add(text, *piece)?;
    }
    Ok(())
}

/// Adds a command for each n below a number: n between two pieces.
fn add_each(
    text: &mut Text,
    count: u64,
    before: &'static [u8],
    behind: &'static [u8],
) -> Result<(), OutOfMemory> {
    for n in 0..count {
        add_all(text, &[Word(before), Number(n), Word(behind)])?;
    }
    Ok(())
}

/// Adds the commands for each of some rows, as `add_each` does.
fn add_rows(
    text: &mut Text,
    rows: &[(u64, &'static [u8], &'static [u8])],
) -> Result<(), OutOfMemory> {
    for (count, before, behind) in rows {
        add_each(text, *count, before, behind)?;
    }
    Ok(())
}

/// Adds deliveries of a code from the account of each number below a count to the next one, of the last of the thousand to
/// the first.
fn add_round(
    text: &mut Text,
    count: u64,
    code: &'static [u8],
    behind: &'static [u8],
) -> Result<(), OutOfMemory> {
    for n in 0..count {
        let next = n.saturating_add(1) % 1000;
        let pieces = [
            Word(b"090000,DVP,D"),
            Word(code),
            Number(n),
            Word(b",A"),
            Number(n),
            Word(b",A"),
            Number(next),
            Word(b","),
            Word(code),
            Word(behind),
        ];
        add_all(text, &pieces)?;
    }
    Ok(())
}

/// A thousand accounts, each of which sells a code to the next for cash that it has, and 24 that do so with another code.
fn deliveries(alloc: Global) -> Result<Text, OutOfMemory> {
    let mut text = Text::new(alloc);
    let rows: [(u64, &'static [u8], &'static [u8]); 6] = [
        (1, b"080000,INST,X", b",10\n"),
        (1, b"080000,INST,Y", b",10\n"),
        (1000, b"080000,PART,A", b"\n"),
        (1000, b"080000,ISSUE,A", b",X0,3\n"),
        (1000, b"080000,ISSUE,A", b",MXN,50\n"),
        (24, b"080000,ISSUE,A", b",Y0,2\n"),
    ];
    add_rows(&mut text, &rows)?;
    add_round(&mut text, 1000, b"X0", b",3,20\n")?;
    add_round(&mut text, 24, b"Y0", b",2,21\n")?;
    Ok(text)
}

/// A full queue settles at once: 1,024 deliveries, which change the code X0 and cash of nobody, since each account gives what
/// it gets, but for the cash of two; and the code Y0 of two.
#[test]
fn a_full_queue(rt: HostRuntime) -> Result<(), Fail> {
    let mut text = deliveries(rt.alloc())?;
    text.add(b"100000,CYCLE,0\n100000,QUEUE\n100000,STAT,A0\n100000,STAT,A24\n")?;
    let mut day = Day::new(rt.alloc());
    day.take(&rt, 1, text)?;
    let replies = day.replies.bytes();
    // 1,000 of 20 and 24 of 21.
    let cycle = b"4051,CYCLE,OPTIMAL,20504,1024,20504,0\n4051,POST,DX00\n";
    assert!(rt; place_of(replies, cycle).is_some());
    let behind =
        b"VALID,OPTIMAL,20504,1024,20504,0\n4052,END\n4053,BAL,MXN,71\n4053,BAL,X0,3\n4053,END\n4054,BAL,MXN,29\n4054,BAL,X0,3\n4054,BAL,Y0,2\n4054,END\n";
    assert!(rt; replies.ends_with(behind));
    Ok(())
}

/// Adds for each of the first 500 accounts a holding of a code, the cash for it in the other half, and the delivery.
fn add_sales(text: &mut Text, code: &'static [u8]) -> Result<(), OutOfMemory> {
    for n in 0..500 {
        let other = Number(n + 500);
        let pieces = [
            Word(b"080000,ISSUE,A"),
            Number(n),
            Word(b","),
            Word(code),
            Word(b",2\n080000,ISSUE,A"),
            other,
            Word(b",MXN,7\n080000,DVP,D"),
            Word(code),
            Number(n),
            Word(b",A"),
            Number(n),
            Word(b",A"),
            other,
            Word(b","),
            Word(code),
            Word(b",2,7\n"),
        ];
        add_all(text, &pieces)?;
    }
    Ok(())
}

/// Each account sells both codes to an account of the other half: no two deliveries change the same pair but for cash.
fn across(alloc: Global) -> Result<Text, OutOfMemory> {
    let mut text = Text::new(alloc);
    let rows: [(u64, &'static [u8], &'static [u8]); 3] = [
        (1, b"080000,INST,X", b",10\n"),
        (1, b"080000,INST,Y", b",10\n"),
        (1000, b"080000,PART,A", b"\n"),
    ];
    add_rows(&mut text, &rows)?;
    add_sales(&mut text, b"X0")?;
    add_sales(&mut text, b"Y0")?;
    Ok(text)
}

/// A net of 3,000 moves: 500 accounts give two codes each and get cash, and 500 the other way round.
#[test]
fn a_wide_net(rt: HostRuntime) -> Result<(), Fail> {
    let mut text = across(rt.alloc())?;
    text.add(b"100000,CYCLE,0\n100000,STAT,A7\n100000,STAT,A507\n")?;
    let mut day = Day::new(rt.alloc());
    day.take(&rt, 1, text)?;
    // 2,000 issues and 3,000 moves.
    assert_eq!(rt; day.state.ledger().len(), 5000);
    let behind =
        b"VALID,OPTIMAL,7000,1000,7000,0\n4004,BAL,MXN,14\n4004,END\n4005,BAL,X0,2\n4005,BAL,Y0,2\n4005,END\n";
    assert!(rt; day.replies.bytes().ends_with(behind));
    Ok(())
}

/// The commands of a day on which one account can pay one of 120 payments.
fn one_of_many(alloc: Global) -> Result<Text, OutOfMemory> {
    let mut text = Text::new(alloc);
    text.add(b"080000,PART,A\n080000,PART,B\n080000,ISSUE,A,MXN,7\n")?;
    add_each(&mut text, 120, b"080001,PAY,P", b",A,B,4\n")?;
    text.add(b"080002,CYCLE,118\n080002,LEDGER,B\n")?;
    Ok(text)
}

/// With each branching the certificate bars all payments that are left.
#[test]
fn a_long_reply(rt: HostRuntime) -> Result<(), Fail> {
    let text = one_of_many(rt.alloc())?;
    let mut day = Day::new(rt.alloc());
    day.take(&rt, 1, text)?;
    assert!(rt; day.longest > 80_000);
    assert!(rt; place_of(day.replies.bytes(), b"124,CYCLE,UNFINISHED,4,1,7,118\n").is_some());
    let behind = b"VALID,UNFINISHED,4,1,7,118\n125,ROW,3,124,MXN,4,4\n125,END\n";
    assert!(rt; day.replies.bytes().ends_with(behind));
    Ok(())
}
