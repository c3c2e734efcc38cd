ghost use Rattle.std.specs.Prelude.{pos, ◌+ℤ◌, IsTrue};
ghost use Rattle.dali_ledger.specs.Postings.{IsSum};

use crate::{Ledger, Posting};
use dali_account::{Move, Net};
use dali_base::{Name, OutOfMemory, Seq, read_name};
use std::alloc::Global;
use std::test::Fail;

fn name(bytes: &[u8]) -> Result<Name, Fail> {
    Ok(read_name(bytes).ok_or("no name")?)
}

fn may_follow(sum: u64, item: &Move) -> bool
    ensures { IsTrue result → IsSum (pos sum +ℤ item.now.delta) }
{
    match sum.checked_add_signed(item.delta) {
        Some(after) => after <= 1_000_000_000_000_000_000,
        None => false,
    }
}

/// Posts a net of this one move, unless a sum of deltas would leave its bounds.
fn post_one(
    alloc: Global,
    ledger: &mut Ledger,
    command: u64,
    item: &Move,
) -> Result<(), OutOfMemory> {
    let mut net = Net::new(alloc);
    if item.delta == 0 {
        return Ok(());
    }
    net.push(*item)?;
    ledger.reserve(1)?;
    if !may_follow(ledger.delta_sum(item.account, item.asset), item) {
        return Ok(());
    }
    ledger.post(command, &net);
    Ok(())
}

/// A ledger of these moves of MXN, a command each from 4 on: an account and its delta.
fn ledger_of(alloc: Global, moves: &[(&[u8], i64)]) -> Result<Ledger, Fail> {
    let asset = name(b"MXN".as_slice())?;
    let mut ledger = Ledger::new(alloc);
    for (at, (account, delta)) in moves.iter().enumerate() {
        let item = Move {
            account: name(account)?,
            asset,
            delta: *delta,
        };
        post_one(alloc, &mut ledger, 4 + at as u64, &item)?;
    }
    Ok(ledger)
}

/// The ledger that the tests read.
fn six_postings(alloc: Global) -> Result<Ledger, Fail> {
    let bank = b"BANK".as_slice();
    let client = b"CLIENT".as_slice();
    let other = b"OTHER".as_slice();
    ledger_of(
        alloc,
        &[
            (bank, 700),
            (client, 50),
            (bank, -200),
            (other, 1),
            (client, -50),
            (bank, 3),
        ],
    )
}

#[test]
fn a_posting_is_numbered_and_summed(rt: HostRuntime) -> Result<(), Fail> {
    let ledger = six_postings(rt.alloc())?;
    let third = Posting {
        number: 3,
        command: 6,
        account: name(b"BANK".as_slice())?,
        asset: name(b"MXN".as_slice())?,
        delta: -200,
        after: 500,
    };
    assert_eq!(rt; ledger.at(2).copied(), Some(third));
    assert_eq!(rt; ledger.len(), 6);
    assert_eq!(rt; ledger.at(6).copied(), None);
    Ok(())
}

#[test]
fn sums_of_pairs(rt: HostRuntime) -> Result<(), Fail> {
    let ledger = six_postings(rt.alloc())?;
    let asset = name(b"MXN".as_slice())?;
    let bank = name(b"BANK".as_slice())?;
    assert_eq!(rt; ledger.delta_sum(bank, asset), 503);
    assert_eq!(rt; ledger.delta_sum(name(b"CLIENT".as_slice())?, asset), 0);
    assert_eq!(rt; ledger.delta_sum(bank, bank), 0);
    Ok(())
}

/// The numbers of the account's postings.
fn numbers_of(alloc: Global, ledger: &Ledger, account: &[u8]) -> Result<Seq<u64>, Fail> {
    let mut numbers = Seq::new(alloc);
    for posting in ledger.rows_of(alloc, name(account)?)?.as_slice() {
        numbers.push(posting.number)?;
    }
    Ok(numbers)
}

#[test]
fn rows_of_each_account(rt: HostRuntime) -> Result<(), Fail> {
    let ledger = six_postings(rt.alloc())?;
    let table = [
        (b"BANK".as_slice(), [1, 3, 6].as_slice()),
        (b"CLIENT".as_slice(), [2, 5].as_slice()),
        (b"OTHER".as_slice(), [4].as_slice()),
        (b"NOBODY".as_slice(), [].as_slice()),
    ];
    for (account, numbers) in table {
        assert_eq!(rt;
            numbers_of(rt.alloc(), &ledger, account)?.as_slice(),
            numbers
        );
    }
    Ok(())
}
