ghost use Rattle.std.specs.Prelude.{◌≡◌, ℕ, ◌<◌, length, IsTrue, IfOk};
ghost use Rattle.dali_base.specs.Spelling.{is_name};
ghost use Rattle.dali_problem.specs.Feasible.{ArePlaces};
ghost use Rattle.dali_problem.specs.Kept.{IsOf};

use crate::grow;
use dali_base::{Name, OutOfMemory, Places, read_name};
use dali_problem::{Effect, LineRow, Partial, Problem};
use std::alloc::Global;

fn name(bytes: &[u8]) -> Name
    requires { IsTrue (is_name bytes.now) }
    ensures { result ≡ bytes.now }
{
    read_name(bytes).unwrap()
}

/// Two accounts without balance, each of which owes the other 100: neither pays alone, and both pay together.
fn ring(alloc: Global) -> Result<Problem, OutOfMemory>
    ensures { IfOk result (λ problem. length problem.items ≡ 2) }
{
    let mut problem = Problem::new(alloc);
    problem.add_line(LineRow {
        account: name(b"A"),
        asset: name(b"MXN"),
        balance: 0,
    })?;
    problem.add_line(LineRow {
        account: name(b"B"),
        asset: name(b"MXN"),
        balance: 0,
    })?;
    let there = [
        Effect {
            line: 0,
            amount: -100,
        },
        Effect {
            line: 1,
            amount: 100,
        },
    ];
    let back = [
        Effect {
            line: 0,
            amount: 100,
        },
        Effect {
            line: 1,
            amount: -100,
        },
    ];
    problem.add_item(name(b"P1"), 100, &there)?;
    problem.add_item(name(b"P2"), 100, &back)?;
    Ok(problem)
}

/// A line with 6, from which one item takes 5 and another 6.
fn two_payments(alloc: Global) -> Result<Problem, OutOfMemory>
    ensures { IfOk result (λ problem. length problem.items ≡ 2) }
{
    let mut problem = Problem::new(alloc);
    problem.add_line(LineRow {
        account: name(b"A"),
        asset: name(b"MXN"),
        balance: 6,
    })?;
    let five = [Effect {
        line: 0,
        amount: -5,
    }];
    let six = [Effect {
        line: 0,
        amount: -6,
    }];
    problem.add_item(name(b"P1"), 5, &five)?;
    problem.add_item(name(b"P2"), 6, &six)?;
    Ok(problem)
}

/// Both places of a problem of two, undecided.
fn undecided(alloc: Global, problem: &Problem) -> Result<Partial, OutOfMemory>
    requires { length problem.now.items ≡ 2 }
    ensures { IfOk result (IsOf problem.now) }
{
    let mut members = Places::new(alloc);
    members.extend(&[0, 1])?;
    Partial::new(alloc, problem, &members)
}

/// What is grown from these places: the value, or `None`.
fn grown_value(
    alloc: Global,
    problem: &Problem,
    partial: &Partial,
    start: &[u32],
) -> Result<Option<u64>, OutOfMemory>
    requires of { IsOf problem.now partial.now }
    requires start { ArePlaces problem.now start.now }
{
    let mut places = Places::new(alloc);
    places.extend(start)?;
    match grow(alloc, problem, partial, &places)? {
        Some(set) => Ok(Some(problem.value_of(&set))),
        None => Ok(None),
    }
}

#[test]
fn both_of_a_ring(rt: HostRuntime) {
    let problem = ring(rt.alloc()).expect(&rt, "memory");
    let partial = undecided(rt.alloc(), &problem).expect(&rt, "memory");
    let value = grown_value(rt.alloc(), &problem, &partial, &[]).expect(&rt, "memory");
    assert_eq!(rt; value, Some(200));
}

#[test]
fn the_greater_payment(rt: HostRuntime) {
    let problem = two_payments(rt.alloc()).expect(&rt, "memory");
    let partial = undecided(rt.alloc(), &problem).expect(&rt, "memory");
    let value = grown_value(rt.alloc(), &problem, &partial, &[0]).expect(&rt, "memory");
    assert_eq!(rt; value, Some(6));
}
