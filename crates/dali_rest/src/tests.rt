ghost use Rattle.std.specs.Prelude.{◌≡◌, length, IsTrue, IfOk};
ghost use Rattle.dali_base.specs.Spelling.{is_name};
ghost use Rattle.dali_problem.specs.Feasible.{ArePlaces};

use crate::Room;
use dali_base::{Name, OutOfMemory, Places, read_name};
use dali_problem::{Effect, LineRow, Problem, Sums};
use std::alloc::Global;

fn name(bytes: &[u8]) -> Name
    requires { IsTrue (is_name bytes.now) }
    ensures { result ≡ bytes.now }
{
    read_name(bytes).unwrap()
}

/// Whether one place can be added, the rest of the members, and whether two members can be exchanged; `None` for a
/// set that isn't feasible.
fn answers(
    alloc: Global,
    problem: &Problem,
    set: &[u32],
    members: &[u32],
) -> Result<Option<(bool, bool, bool)>, OutOfMemory>
    requires set { ArePlaces problem.now set.now }
    requires members { ArePlaces problem.now members.now }
{
    let mut chosen = Places::new(alloc);
    chosen.extend(set)?;
    let mut part = Places::new(alloc);
    part.extend(members)?;
    let mut sums = Sums::new(alloc, problem)?;
    let mut room = Room::new(alloc, problem)?;
    if !problem.is_feasible(&chosen, &mut sums) {
        return Ok(None);
    }
    let one = room.can_add_one(problem, &chosen);
    let rest = room.can_add_rest(problem, &chosen, &part);
    let swap = room.can_swap(problem, &chosen, &part);
    Ok(Some((one, rest, swap)))
}

/// Two accounts without balance, each of which owes the other 100: neither pays alone, and both pay together.
fn ring(alloc: Global) -> Result<Problem, OutOfMemory>
    ensures { IfOk result (λ problem. length problem.items ≡ 2) }
{
    let mut problem = Problem::new(alloc);
    problem.add_line(LineRow {
        account: name(b"A"),
        asset: name(b"MXN"),
        balance: 0,
    })?;
    problem.add_line(LineRow {
        account: name(b"B"),
        asset: name(b"MXN"),
        balance: 0,
    })?;
    let there = [
        Effect {
            line: 0,
            amount: -100,
        },
        Effect {
            line: 1,
            amount: 100,
        },
    ];
    let back = [
        Effect {
            line: 0,
            amount: 100,
        },
        Effect {
            line: 1,
            amount: -100,
        },
    ];
    problem.add_item(name(b"P1"), 100, &there)?;
    problem.add_item(name(b"P2"), 100, &back)?;
    Ok(problem)
}

/// A line with 6, from which one item takes 5 and another 6.
fn two_payments(alloc: Global) -> Result<Problem, OutOfMemory>
    ensures { IfOk result (λ problem. length problem.items ≡ 2) }
{
    let mut problem = Problem::new(alloc);
    problem.add_line(LineRow {
        account: name(b"A"),
        asset: name(b"MXN"),
        balance: 6,
    })?;
    let five = [Effect {
        line: 0,
        amount: -5,
    }];
    let six = [Effect {
        line: 0,
        amount: -6,
    }];
    problem.add_item(name(b"P1"), 5, &five)?;
    problem.add_item(name(b"P2"), 6, &six)?;
    Ok(problem)
}

#[test]
fn both_or_none(rt: HostRuntime) {
    let problem = ring(rt.alloc()).expect(&rt, "memory");
    let told = answers(rt.alloc(), &problem, &[], &[0, 1]).expect(&rt, "memory");
    assert_eq!(rt; told, Some((false, true, false)));
}

#[test]
fn one_member_alone(rt: HostRuntime) {
    let problem = ring(rt.alloc()).expect(&rt, "memory");
    let told = answers(rt.alloc(), &problem, &[], &[0]).expect(&rt, "memory");
    assert_eq!(rt; told, Some((false, false, false)));
}

#[test]
fn greater_payment(rt: HostRuntime) {
    let problem = two_payments(rt.alloc()).expect(&rt, "memory");
    let told = answers(rt.alloc(), &problem, &[0], &[0, 1]).expect(&rt, "memory");
    assert_eq!(rt; told, Some((false, false, true)));
}

#[test]
fn greatest_payment(rt: HostRuntime) {
    let problem = two_payments(rt.alloc()).expect(&rt, "memory");
    let told = answers(rt.alloc(), &problem, &[1], &[0, 1]).expect(&rt, "memory");
    assert_eq!(rt; told, Some((false, false, false)));
}

#[test]
fn one_more(rt: HostRuntime) {
    let problem = two_payments(rt.alloc()).expect(&rt, "memory");
    let told = answers(rt.alloc(), &problem, &[], &[0, 1]).expect(&rt, "memory");
    assert_eq!(rt; told, Some((true, false, false)));
}
