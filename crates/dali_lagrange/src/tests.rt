ghost use Rattle.std.specs.Prelude.{◌≡◌, [], ◌∷◌, length, IsTrue, IfOk};
ghost use Rattle.dali_base.specs.Spelling.{is_name};
ghost use Rattle.dali_problem.specs.Kept.{IsOf};
ghost use Rattle.dali_problem.specs.Partial.{mark};
ghost use Rattle.dali_lagrange.specs.KeptSum.{IsSumOf};

use crate::{Kept, Point, best_at, settle, sum};
use dali_base::{Name, OutOfMemory, Places, Seq, read_name};
use dali_problem::{Effect, LineRow, Mark, Partial, Problem};
use std::alloc::Global;

fn name(bytes: &[u8]) -> Name
    requires { IsTrue (is_name bytes.now) }
    ensures { result ≡ bytes.now }
{
    read_name(bytes).unwrap()
}

/// Whether the Sum at the point is this number.
fn sum_is(problem: &Problem, partial: &Partial, point: &Point, expected: i128) -> bool
    requires partial { IsOf problem.now partial.now }
    requires point { length point.now ≡ length problem.now.lines }
{
    sum(problem, partial, point) == expected
}

/// A line with 7, and an item of value 12 that takes 4 from it and one of value 4 that takes 8.
#[test]
fn two_payments(rt: HostRuntime) {
    let mut problem = Problem::new(rt.alloc());
    let row = LineRow {
        account: name(b"A"),
        asset: name(b"MXN"),
        balance: 7,
    };
    problem.add_line(row).expect(&rt, "memory");
    let less = [Effect {
        line: 0,
        amount: -4,
    }];
    let more = [Effect {
        line: 0,
        amount: -8,
    }];
    problem
        .add_item(name(b"P1"), 12, &less)
        .expect(&rt, "memory");
    problem
        .add_item(name(b"P2"), 4, &more)
        .expect(&rt, "memory");
    let mut places = Places::new(rt.alloc());
    places.extend(&[0, 1]).expect(&rt, "memory");
    let partial = Partial::new(rt.alloc(), &problem, &places).expect(&rt, "memory");

    let mut point = Point::new(rt.alloc(), &problem).expect(&rt, "memory");
    assert!(rt; sum_is(&problem, &partial, &point, 4096 * (12 + 4)));
    assert_eq!(rt; best_at(&problem, &partial, &point, 0), 2048);
    let mut lam = Seq::new(rt.alloc());
    lam.push((0, 2048)).expect(&rt, "memory");
    point.load(&lam);
    assert_eq!(rt; point.get(0), 2048);
    let best = 2048 * 7 + 4096 * 12 - 2048 * 4;
    assert!(rt; sum_is(&problem, &partial, &point, best));
    point.set(0, 1);
    let near = 7 + (4096 * 12 - 4) + (4096 * 4 - 8);
    assert!(rt; sum_is(&problem, &partial, &point, near));
}

/// A line with 7, and three items of value 4 that take 4 from it each.
fn three_payments(alloc: Global) -> Result<Problem, OutOfMemory>
    ensures lines { IfOk result (λ problem. length problem.lines ≡ 1) }
    ensures items { IfOk result (λ problem. length problem.items ≡ 3) }
{
    let mut problem = Problem::new(alloc);
    problem.add_line(LineRow {
        account: name(b"A"),
        asset: name(b"MXN"),
        balance: 7,
    })?;
    let effects = [Effect {
        line: 0,
        amount: -4,
    }];
    problem.add_item(name(b"P1"), 4, &effects)?;
    problem.add_item(name(b"P2"), 4, &effects)?;
    problem.add_item(name(b"P3"), 4, &effects)?;
    Ok(problem)
}

/// All places of that problem.
fn three_places(alloc: Global) -> Result<Places, OutOfMemory>
    ensures { IfOk result (λ places. places ≡ 0 ∷ 1 ∷ 2 ∷ []) }
{
    let mut places = Places::new(alloc);
    places.extend(&[0, 1, 2])?;
    Ok(places)
}

/// All of them undecided.
fn three_undecided(alloc: Global, problem: &Problem) -> Result<Kept, OutOfMemory>
    requires { length problem.now.items ≡ 3 }
    ensures of { IfOk result (λ kept. IsSumOf problem.now kept) }
    ensures undecided { IfOk result (λ kept. mark kept.marks 0 ≡ Mark.Undecided) }
{
    let places = three_places(alloc)?;
    Kept::new(alloc, problem, &places)
}

#[test]
fn best_point(rt: HostRuntime) {
    let problem = three_payments(rt.alloc()).expect(&rt, "memory");
    let places = three_places(rt.alloc()).expect(&rt, "memory");
    let partial = Partial::new(rt.alloc(), &problem, &places).expect(&rt, "memory");
    let point = Point::new(rt.alloc(), &problem).expect(&rt, "memory");
    assert_eq!(rt; best_at(&problem, &partial, &point, 0), 4096);
}

/// From all 0 the Sum is 3 * 4 * 4,096, and at the best point 7 * 4,096.
#[test]
fn settled_at_the_best_point(rt: HostRuntime) {
    let problem = three_payments(rt.alloc()).expect(&rt, "memory");
    let mut kept = three_undecided(rt.alloc(), &problem).expect(&rt, "memory");
    assert_eq!(rt; kept.sum(), 12 * 4096);
    assert!(rt; !kept.is_settled(&problem));
    assert_eq!(rt; kept.best_at(&problem, 0), 4096);
    kept.set(&problem, 0, 4096);
    assert_eq!(rt; kept.sum(), 7 * 4096);
    assert!(rt; kept.is_settled(&problem));
}

#[test]
fn settles(rt: HostRuntime) {
    let problem = three_payments(rt.alloc()).expect(&rt, "memory");
    let places = three_places(rt.alloc()).expect(&rt, "memory");
    let partial = Partial::new(rt.alloc(), &problem, &places).expect(&rt, "memory");
    let lam = settle(rt.alloc(), &problem, &partial, &Seq::new(rt.alloc())).expect(&rt, "memory");
    assert_eq!(rt; lam.len(), 1);
    assert_eq!(rt; lam.get(0).copied(), Some((0, 4096)));
}

/// With the multiplier 2 a place's reduced value is 4 * 4,096 - 2 * 4.
#[test]
fn kept_follows(rt: HostRuntime) {
    let problem = three_payments(rt.alloc()).expect(&rt, "memory");
    let mut kept = three_undecided(rt.alloc(), &problem).expect(&rt, "memory");
    kept.set(&problem, 0, 2);
    assert_eq!(rt; kept.reduced(0), 16376);
    assert_eq!(rt; kept.sum(), 2 * 7 + 3 * 16376);
    kept.fix(&problem, 0, false);
    assert_eq!(rt; kept.mark(0), Mark::Left);
    assert_eq!(rt; kept.sum(), 2 * 7 + 2 * 16376);
    kept.free(&problem, 0);
    assert_eq!(rt; kept.sum(), 2 * 7 + 3 * 16376);
}

#[test]
fn loads(rt: HostRuntime) {
    let problem = three_payments(rt.alloc()).expect(&rt, "memory");
    let mut kept = three_undecided(rt.alloc(), &problem).expect(&rt, "memory");
    let mut lam = Seq::new(rt.alloc());
    lam.push((0, 2)).expect(&rt, "memory");
    kept.load(&problem, &lam);
    assert_eq!(rt; kept.multiplier(0), 2);
    kept.load(&problem, &Seq::new(rt.alloc()));
    assert_eq!(rt; kept.multiplier(0), 0);
}
