ghost use Rattle.std.specs.Prelude.{◌≡◌, IsTrue};
ghost use Rattle.dali_base.specs.Spelling.{is_name};

use crate::{Columns, Effect, LineRow, Mark, Partial, Problem, Sums, Touch};
use dali_base::{Name, Places, read_name};

fn name(bytes: &[u8]) -> Name
    requires { IsTrue (is_name bytes.now) }
    ensures { result ≡ bytes.now }
{
    read_name(bytes).unwrap()
}

/// A line with 7, from which an item takes 4.
#[test]
fn one_payment(rt: HostRuntime) {
    let mut problem = Problem::new(rt.alloc());
    let row = LineRow {
        account: name(b"A"),
        asset: name(b"MXN"),
        balance: 7,
    };
    let line = problem.add_line(row).expect(&rt, "memory");
    assert_eq!(rt; line, 0);
    let effects = [Effect {
        line: 0,
        amount: -4,
    }];
    let place = problem
        .add_item(name(b"P1"), 4, &effects)
        .expect(&rt, "memory");
    assert_eq!(rt; place, 0);

    let mut places = Places::new(rt.alloc());
    places.push(0).expect(&rt, "memory");
    let mut sums = Sums::new(rt.alloc(), &problem).expect(&rt, "memory");
    assert!(rt; problem.is_feasible(&places, &mut sums));
    assert_eq!(rt; problem.value_of(&places), 4);

    let mut partial = Partial::new(rt.alloc(), &problem, &places).expect(&rt, "memory");
    assert!(rt; !partial.is_short(0));
    assert!(rt; partial.is_safe(&problem, 0));
    partial.fix(&problem, 0, true);
    assert_eq!(rt; partial.mark(0), Mark::Chosen);

    let columns = Columns::new(rt.alloc(), &problem).expect(&rt, "memory");
    let touch = Touch {
        place: 0,
        amount: -4,
    };
    assert_eq!(rt; columns.touching(0).first().copied(), Some(touch));
}

/// Two accounts without balance, each of which owes the other 100: neither pays alone, and both pay together.
#[test]
fn ring(rt: HostRuntime) {
    let mut problem = Problem::new(rt.alloc());
    let first = LineRow {
        account: name(b"A"),
        asset: name(b"MXN"),
        balance: 0,
    };
    let second = LineRow {
        account: name(b"B"),
        asset: name(b"MXN"),
        balance: 0,
    };
    problem.add_line(first).expect(&rt, "memory");
    problem.add_line(second).expect(&rt, "memory");
    let there = [
        Effect {
            line: 0,
            amount: -100,
        },
        Effect {
            line: 1,
            amount: 100,
        },
    ];
    let back = [
        Effect {
            line: 0,
            amount: 100,
        },
        Effect {
            line: 1,
            amount: -100,
        },
    ];
    problem
        .add_item(name(b"P1"), 100, &there)
        .expect(&rt, "memory");
    problem
        .add_item(name(b"P2"), 100, &back)
        .expect(&rt, "memory");

    let mut sums = Sums::new(rt.alloc(), &problem).expect(&rt, "memory");
    let mut places = Places::new(rt.alloc());
    places.push(0).expect(&rt, "memory");
    assert!(rt; !problem.is_feasible(&places, &mut sums));
    places.push(1).expect(&rt, "memory");
    assert!(rt; problem.is_feasible(&places, &mut sums));
    assert_eq!(rt; problem.value_of(&places), 200);

    let partial = Partial::new(rt.alloc(), &problem, &places).expect(&rt, "memory");
    assert!(rt; !partial.is_safe(&problem, 0));
    assert!(rt; !partial.is_barred(&problem, 1, 1));
    assert!(rt; !partial.is_needed(&problem, 1, 0));
}
