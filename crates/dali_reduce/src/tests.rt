ghost use Rattle.std.specs.Prelude.{◌≡◌, IsTrue};
ghost use Rattle.dali_base.specs.Spelling.{is_name};

use crate::reduce;
use dali_base::{Name, Places, read_name};
use dali_problem::{Effect, LineRow, Mark, Partial, Problem};
use dali_tree::Fix;

fn name(bytes: &[u8]) -> Name
    requires { IsTrue (is_name bytes.now) }
    ensures { result ≡ bytes.now }
{
    read_name(bytes).unwrap()
}

/// A has 3 and owes B 4; B has nothing and owes C 2. Neither can pay: B's only credit is barred first.
#[test]
fn chain(rt: HostRuntime) {
    let mut problem = Problem::new(rt.alloc());
    let first = LineRow {
        account: name(b"A"),
        asset: name(b"MXN"),
        balance: 3,
    };
    let second = LineRow {
        account: name(b"B"),
        asset: name(b"MXN"),
        balance: 0,
    };
    problem.add_line(first).expect(&rt, "memory");
    problem.add_line(second).expect(&rt, "memory");
    let there = [
        Effect {
            line: 0,
            amount: -4,
        },
        Effect { line: 1, amount: 4 },
    ];
    let on = [Effect {
        line: 1,
        amount: -2,
    }];
    problem
        .add_item(name(b"P1"), 4, &there)
        .expect(&rt, "memory");
    problem.add_item(name(b"P2"), 2, &on).expect(&rt, "memory");

    let mut members = Places::new(rt.alloc());
    members.push(0).expect(&rt, "memory");
    members.push(1).expect(&rt, "memory");
    let mut partial = Partial::new(rt.alloc(), &problem, &members).expect(&rt, "memory");
    let fixes = reduce(rt.alloc(), &problem, &mut partial).expect(&rt, "memory");
    let barred = [
        Fix::Barred { place: 0, line: 0 },
        Fix::Barred { place: 1, line: 1 },
    ];
    assert_eq!(rt; fixes.as_slice(), barred.as_slice());
    assert_eq!(rt; partial.mark(1), Mark::Left);
}
