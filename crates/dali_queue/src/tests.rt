ghost use Rattle.std.specs.Prelude.{◌≡◌, ◌≤◌, IfOk};
ghost use Rattle.dali_queue.specs.Instruction.{IsInstruction};

use crate::{Gone, Instruction, Queue};
use dali_account::{Move, Net};
use dali_base::{Kind, Moment, Name, Places, Text, read_moment, read_name};
use std::alloc::Global;
use std::test::Fail;

fn name(bytes: &[u8]) -> Result<Name, Fail>
    ensures { IfOk result (λ name. name ≡ bytes.now) }
{
    match read_name(bytes) {
        Some(name) => Ok(name),
        None => Err("no name".into()),
    }
}

fn moment(bytes: &[u8]) -> Result<Moment, Fail> {
    Ok(read_moment(bytes).ok_or("no moment")?)
}

/// Enters a new instruction, unless the queue is full or knows the id.
fn enter(queue: &mut Queue, item: Instruction) -> Result<(), Fail>
    requires item { IsInstruction item }
    requires rank { item.rank ≡ 1 }
{
    if queue.is_used(item.id) || queue.is_full() {
        return Err("not entered".into());
    }
    queue.enter(item)?;
    Ok(())
}

/// A payment from A to B.
fn enter_payment(queue: &mut Queue, id: Name, cash: u64) -> Result<(), Fail> {
    let giver = name(b"A".as_slice())?;
    let taker = name(b"B".as_slice())?;
    if cash == 0 || cash > 1_000_000_000_000_000 {
        return Err("no cash".into());
    }
    let payment = Instruction {
        id,
        kind: Kind::Pay,
        giver,
        taker,
        code: name(b"MXN".as_slice())?,
        quantity: cash,
        cash: 0,
        value: cash,
        rank: 1,
    };
    enter(queue, payment)
}

fn three_payments(alloc: Global) -> Result<Queue, Fail> {
    let mut queue = Queue::new(alloc);
    queue.reserve(3)?;
    enter_payment(&mut queue, name(b"P1".as_slice())?, 7)?;
    enter_payment(&mut queue, name(b"P2".as_slice())?, 8)?;
    enter_payment(&mut queue, name(b"P3".as_slice())?, 9)?;
    Ok(queue)
}

#[test]
fn id_once(rt: HostRuntime) -> Result<(), Fail> {
    let mut queue = three_payments(rt.alloc())?;
    let id = name(b"P2".as_slice())?;
    assert_eq!(rt; queue.place(id), Some(1));
    assert_eq!(rt; queue.cancel(id).map(|item| item.value), Ok(8));
    assert_eq!(rt; queue.cancel(id).map(|item| item.value), Err(Gone));
    assert_eq!(rt; queue.is_used(id), true);
    assert_eq!(rt; queue.place(id), None);
    assert_eq!(rt; queue.len(), 2);
    Ok(())
}

#[test]
fn a_full_queue(rt: HostRuntime) -> Result<(), Fail> {
    let mut queue = Queue::new(rt.alloc());
    enter_many(rt.alloc(), &mut queue, 1023)?;
    assert_eq!(rt; queue.is_full(), false);
    let last = name(b"LAST".as_slice())?;
    enter_payment(&mut queue, last, 1)?;
    assert_eq!(rt; queue.is_full(), true);
    assert_eq!(rt; queue.cancel(last).is_ok(), true);
    assert_eq!(rt; queue.is_full(), false);
    Ok(())
}

fn enter_many(alloc: Global, queue: &mut Queue, count: u64) -> Result<(), Fail> {
    for n in 0..count {
        let mut text = Text::new(alloc);
        text.push(b'P')?;
        text.add_number(n)?;
        enter_payment(queue, name(text.bytes())?, 1)?;
    }
    Ok(())
}

#[test]
fn past_cutoff(rt: HostRuntime) -> Result<(), Fail> {
    let mut queue = Queue::new(rt.alloc());
    let cutoff = moment(b"150000".as_slice())?;
    let after = moment(b"150001".as_slice())?;
    queue.set_cutoff(Kind::Pay, cutoff);
    assert_eq!(rt; queue.is_late(Kind::Pay, cutoff), false);
    assert_eq!(rt; queue.is_late(Kind::Pay, after), true);
    assert_eq!(rt; queue.is_late(Kind::Dvp, after), false);
    Ok(())
}

/// Links two queued instructions of different groups that fit together.
fn link(queue: &mut Queue, first: Name, second: Name) -> Result<(), Fail> {
    if queue.place(first).is_none()
        || queue.place(second).is_none()
        || queue.same_group(first, second)
        || queue.group_size(first) + queue.group_size(second) > 8
    {
        return Err("not linked".into());
    }
    queue.link(first, second);
    Ok(())
}

#[test]
fn links_stay(rt: HostRuntime) -> Result<(), Fail> {
    let mut queue = three_payments(rt.alloc())?;
    let first = name(b"P1".as_slice())?;
    let second = name(b"P2".as_slice())?;
    let third = name(b"P3".as_slice())?;
    link(&mut queue, first, second)?;
    assert_eq!(rt; queue.same_group(second, third), false);
    link(&mut queue, third, first)?;
    assert_eq!(rt; queue.group_size(second), 3);
    assert_eq!(rt; queue.cancel(first).is_ok(), true);
    assert_eq!(rt; queue.same_group(second, third), true);
    assert_eq!(rt; queue.group_size(first), 0);
    Ok(())
}

#[test]
fn a_rank(rt: HostRuntime) -> Result<(), Fail> {
    let mut queue = three_payments(rt.alloc())?;
    let id = name(b"P2".as_slice())?;
    if queue.place(id).is_some() {
        queue.set_rank(id, 16);
    }
    assert_eq!(rt; queue.at(1).map(|item| item.rank), Some(16));
    assert_eq!(rt; queue.at(0).map(|item| item.rank), Some(1));
    assert_eq!(rt; queue.at(3).map(|item| item.rank), None);
    Ok(())
}

#[test]
fn removed_at_once(rt: HostRuntime) -> Result<(), Fail> {
    let mut queue = three_payments(rt.alloc())?;
    remove_outer(rt.alloc(), &mut queue)?;
    assert_eq!(rt; queue.len(), 1);
    assert_eq!(rt; queue.place(name(b"P2".as_slice())?), Some(0));
    assert_eq!(rt; queue.is_used(name(b"P3".as_slice())?), true);
    Ok(())
}

fn remove_outer(alloc: Global, queue: &mut Queue) -> Result<(), Fail> {
    let mut places = Places::new(alloc);
    places.push(0)?;
    places.push(2)?;
    if queue.len() < 3 {
        return Err("too few".into());
    }
    queue.remove_all(&places);
    Ok(())
}

/// A delivery of 50 units of X against payment.
fn enter_delivery(
    queue: &mut Queue,
    id: Name,
    giver: Name,
    taker: Name,
    cash: u64,
) -> Result<(), Fail> {
    let code = name(b"X".as_slice())?;
    if cash == 0 || cash > 1_000_000_000_000_000 || giver == taker {
        return Err("no cash".into());
    }
    let delivery = Instruction {
        id,
        kind: Kind::Dvp,
        giver,
        taker,
        code,
        quantity: 50,
        cash,
        value: cash,
        rank: 1,
    };
    enter(queue, delivery)
}

fn delivery_chain(alloc: Global) -> Result<Net, Fail> {
    let mut queue = Queue::new(alloc);
    let middle = name(b"S".as_slice())?;
    enter_delivery(
        &mut queue,
        name(b"D1".as_slice())?,
        name(b"R".as_slice())?,
        middle,
        500,
    )?;
    enter_delivery(
        &mut queue,
        name(b"D2".as_slice())?,
        middle,
        name(b"T".as_slice())?,
        510,
    )?;
    net_of_both(alloc, &queue)
}

fn net_of_both(alloc: Global, queue: &Queue) -> Result<Net, Fail> {
    let mut places = Places::new(alloc);
    places.push(0)?;
    places.push(1)?;
    if queue.len() < 2 {
        return Err("too few".into());
    }
    Ok(queue.net(alloc, &places)?)
}

fn change(account: &[u8], asset: &[u8], delta: i64) -> Result<Move, Fail> {
    Ok(Move {
        account: name(account)?,
        asset: name(asset)?,
        delta,
    })
}

#[test]
fn net_of_a_chain(rt: HostRuntime) -> Result<(), Fail> {
    let net = delivery_chain(rt.alloc())?;
    assert_eq!(rt; net.len(), 5);
    assert_eq!(rt;
        net.get(0).copied(),
        Some(change(b"R".as_slice(), b"MXN".as_slice(), 500)?)
    );
    assert_eq!(rt;
        net.get(1).copied(),
        Some(change(b"R".as_slice(), b"X".as_slice(), -50)?)
    );
    assert_eq!(rt;
        net.get(2).copied(),
        Some(change(b"S".as_slice(), b"MXN".as_slice(), 10)?)
    );
    Ok(())
}

#[test]
fn end_of_a_chain(rt: HostRuntime) -> Result<(), Fail> {
    let net = delivery_chain(rt.alloc())?;
    assert_eq!(rt;
        net.get(3).copied(),
        Some(change(b"T".as_slice(), b"MXN".as_slice(), -510)?)
    );
    assert_eq!(rt;
        net.get(4).copied(),
        Some(change(b"T".as_slice(), b"X".as_slice(), 50)?)
    );
    Ok(())
}
