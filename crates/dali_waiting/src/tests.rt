ghost use Rattle.std.specs.Prelude.{◌≡◌, IfOk};

use crate::{Ids, WaitRow, held, waiting};
use dali_base::{Kind, Name, read_name};
use dali_queue::{Instruction, Queue};
use std::alloc::Global;
use std::test::Fail;

fn name(bytes: &[u8]) -> Result<Name, Fail>
    ensures { IfOk result (λ name. name ≡ bytes.now) }
{
    match read_name(bytes) {
        Some(name) => Ok(name),
        None => Err("no name".into()),
    }
}

/// Enters a payment of 6, unless the queue is full or knows the id.
fn enter_payment(queue: &mut Queue, id: Name, giver: Name, taker: Name) -> Result<(), Fail> {
    if giver == taker || queue.is_used(id) || queue.is_full() {
        return Err("not entered".into());
    }
    queue.enter(Instruction {
        id,
        kind: Kind::Pay,
        giver,
        taker,
        code: name(b"MXN".as_slice())?,
        quantity: 6,
        cash: 0,
        value: 6,
        rank: 1,
    })?;
    Ok(())
}

fn chain(alloc: Global) -> Result<Queue, Fail> {
    let mut queue = Queue::new(alloc);
    let middle = name(b"B".as_slice())?;
    enter_payment(
        &mut queue,
        name(b"P1".as_slice())?,
        name(b"A".as_slice())?,
        middle,
    )?;
    enter_payment(
        &mut queue,
        name(b"P2".as_slice())?,
        middle,
        name(b"C".as_slice())?,
    )?;
    Ok(queue)
}

#[test]
fn rows_of_a_chain(rt: HostRuntime) -> Result<(), Fail> {
    let mut queue = chain(rt.alloc())?;
    let id = name(b"P2".as_slice())?;
    if queue.place(id).is_some() {
        queue.set_rank(id, 3);
    }
    let rows = waiting(rt.alloc(), &queue)?;
    let last = WaitRow {
        id,
        kind: Kind::Pay,
        value: 6,
    };
    assert_eq!(rt; rows.len(), 2);
    assert_eq!(rt; rows.get(1).copied(), Some(last));
    Ok(())
}

#[test]
fn held_by_a_party(rt: HostRuntime) -> Result<(), Fail> {
    let queue = chain(rt.alloc())?;
    let mut both = Ids::new(rt.alloc());
    both.push(name(b"P1".as_slice())?)?;
    both.push(name(b"P2".as_slice())?)?;
    assert_eq!(rt; held(rt.alloc(), &queue, name(b"B".as_slice())?)?, both);
    Ok(())
}

#[test]
fn held_by_a_taker(rt: HostRuntime) -> Result<(), Fail> {
    let queue = chain(rt.alloc())?;
    let ids = held(rt.alloc(), &queue, name(b"C".as_slice())?)?;
    assert_eq!(rt; ids.len(), 1);
    assert_eq!(rt; ids.get(0).copied(), Some(name(b"P2".as_slice())?));
    Ok(())
}
