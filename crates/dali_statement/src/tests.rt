ghost use Rattle.std.specs.Prelude.{◌≡◌, pos, ◌+ℤ◌, IsTrue, IfOk};
ghost use Rattle.dali_ledger.specs.Postings.{IsSum};

use crate::ledger_csv;
use dali_account::{Move, Net};
use dali_base::{Name, OutOfMemory, read_name};
use dali_ledger::Ledger;
use std::alloc::Global;
use std::test::Fail;

fn name(bytes: &[u8]) -> Result<Name, Fail>
    ensures { IfOk result (λ name. name ≡ bytes.now) }
{
    match read_name(bytes) {
        Some(name) => Ok(name),
        None => Err("no name".into()),
    }
}

fn may_follow(sum: u64, item: &Move) -> bool
    ensures { IsTrue result → IsSum (pos sum +ℤ item.now.delta) }
{
    match sum.checked_add_signed(item.delta) {
        Some(after) => after <= 1_000_000_000_000_000_000,
        None => false,
    }
}

/// Posts a net of this one move, unless a sum of deltas would leave its bounds.
fn post_one(
    alloc: Global,
    ledger: &mut Ledger,
    command: u64,
    item: &Move,
) -> Result<(), OutOfMemory> {
    let mut net = Net::new(alloc);
    if item.delta == 0 {
        return Ok(());
    }
    net.push(*item)?;
    ledger.reserve(1)?;
    if !may_follow(ledger.delta_sum(item.account, item.asset), item) {
        return Ok(());
    }
    ledger.post(command, &net);
    Ok(())
}

#[test]
fn table_of_no_postings(rt: HostRuntime) -> Result<(), Fail> {
    let ledger = Ledger::new(rt.alloc());
    let text = ledger_csv(rt.alloc(), &ledger)?;
    assert_eq!(rt;
        text.bytes(),
        b"number,command,account,asset,delta,after\n".as_slice()
    );
    Ok(())
}

#[test]
fn table_of_two(rt: HostRuntime) -> Result<(), Fail> {
    let mut ledger = Ledger::new(rt.alloc());
    let mut item = Move {
        account: name(b"T".as_slice())?,
        asset: name(b"MXN".as_slice())?,
        delta: 510,
    };
    post_one(rt.alloc(), &mut ledger, 6, &item)?;
    item.delta = -510;
    post_one(rt.alloc(), &mut ledger, 9, &item)?;
    let text = ledger_csv(rt.alloc(), &ledger)?;
    let table = b"number,command,account,asset,delta,after\n1,6,T,MXN,510,510\n2,9,T,MXN,-510,0\n";
    assert_eq!(rt; text.bytes(), table.as_slice());
    Ok(())
}
