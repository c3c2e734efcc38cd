ghost use Rattle.std.specs.Prelude.{◌≡◌, IsTrue};
ghost use Rattle.dali_base.specs.Spelling.{is_name};

use crate::building::{put_item, put_line};
use dali_base::{Name, read_name};
use dali_problem::{Effect, LineRow, Problem};
use std::alloc::Global;
use std::process::Abort;

fn name(bytes: &[u8]) -> Name
    requires { IsTrue (is_name bytes.now) }
    ensures { result ≡ bytes.now }
{
    read_name(bytes).unwrap()
}

/// A line with this balance.
fn line(account: &[u8], asset: &[u8], balance: u64) -> LineRow
    requires account { IsTrue (is_name account.now) }
    requires asset { IsTrue (is_name asset.now) }
{
    LineRow {
        account: name(account),
        asset: name(asset),
        balance,
    }
}

/// An account's cash, with nothing on it.
fn empty_line(account: &[u8]) -> LineRow
    requires { IsTrue (is_name account.now) }
{
    line(account, b"MXN", 0)
}

fn effect(line: u32, amount: i64) -> Effect {
    Effect { line, amount }
}

/// Three accounts without balance, each of which owes the next 100.
pub(crate) fn ring(rt: &impl Abort, alloc: Global) -> Problem {
    let mut problem = Problem::new(alloc);
    put_line(rt, &mut problem, empty_line(b"A"));
    put_line(rt, &mut problem, empty_line(b"B"));
    put_line(rt, &mut problem, empty_line(b"C"));
    let first = [effect(0, -100), effect(1, 100)];
    let second = [effect(1, -100), effect(2, 100)];
    let third = [effect(0, 100), effect(2, -100)];
    put_item(rt, &mut problem, name(b"P1"), 100, &first);
    put_item(rt, &mut problem, name(b"P2"), 100, &second);
    put_item(rt, &mut problem, name(b"P3"), 100, &third);
    problem
}

/// A line with 7 and an empty one, and three items of value 4 that each move 4 from the one to the other.
pub(crate) fn three_payments(rt: &impl Abort, alloc: Global) -> Problem {
    let mut problem = Problem::new(alloc);
    put_line(rt, &mut problem, line(b"A", b"MXN", 7));
    put_line(rt, &mut problem, empty_line(b"B"));
    let moves = [effect(0, -4), effect(1, 4)];
    put_item(rt, &mut problem, name(b"P1"), 4, &moves);
    put_item(rt, &mut problem, name(b"P2"), 4, &moves);
    put_item(rt, &mut problem, name(b"P3"), 4, &moves);
    problem
}

/// The lines and items of `three_payments`, and behind them a line with 5, an empty one, and an item of value 5 that moves
/// 5 between these.
pub(crate) fn payments_apart(rt: &impl Abort, alloc: Global) -> Problem {
    let mut problem = Problem::new(alloc);
    put_line(rt, &mut problem, line(b"A", b"MXN", 7));
    put_line(rt, &mut problem, empty_line(b"B"));
    put_line(rt, &mut problem, line(b"C", b"MXN", 5));
    put_line(rt, &mut problem, empty_line(b"D"));
    let moves = [effect(0, -4), effect(1, 4)];
    put_item(rt, &mut problem, name(b"P1"), 4, &moves);
    put_item(rt, &mut problem, name(b"P2"), 4, &moves);
    put_item(rt, &mut problem, name(b"P3"), 4, &moves);
    let apart = [effect(2, -5), effect(3, 5)];
    put_item(rt, &mut problem, name(b"P4"), 5, &apart);
    problem
}

/// A line with 10 and an empty one, and three items that move 6, 5 and 5, which are their values.
pub(crate) fn two_fives(rt: &impl Abort, alloc: Global) -> Problem {
    let mut problem = Problem::new(alloc);
    put_line(rt, &mut problem, line(b"A", b"MXN", 10));
    put_line(rt, &mut problem, empty_line(b"B"));
    let six = [effect(0, -6), effect(1, 6)];
    let five = [effect(0, -5), effect(1, 5)];
    put_item(rt, &mut problem, name(b"P1"), 6, &six);
    put_item(rt, &mut problem, name(b"P2"), 5, &five);
    put_item(rt, &mut problem, name(b"P3"), 5, &five);
    problem
}

/// The id of an item, `P` and the four digits of its place.
fn numbered(rt: &impl Abort, place: u32) -> Name {
    let thousands = b'0' + (place / 1000 % 10) as u8;
    let hundreds = b'0' + (place / 100 % 10) as u8;
    let tens = b'0' + (place / 10 % 10) as u8;
    let ones = b'0' + (place % 10) as u8;
    read_name(&[b'P', thousands, hundreds, tens, ones]).expect(rt, "a name")
}

/// A line with 4, and so many items of value 4 that each take 4 from it.
pub(crate) fn one_of_many(rt: &impl Abort, alloc: Global, items: u32) -> Problem {
    let mut problem = Problem::new(alloc);
    put_line(rt, &mut problem, line(b"A", b"MXN", 4));
    for place in 0..items {
        put_item(rt, &mut problem, numbered(rt, place), 4, &[effect(0, -4)]);
    }
    problem
}

/// A line with 6 and an empty one, and two items that move 5 and 6, which are their values.
pub(crate) fn greater_payment(rt: &impl Abort, alloc: Global) -> Problem {
    let mut problem = Problem::new(alloc);
    put_line(rt, &mut problem, line(b"A", b"MXN", 6));
    put_line(rt, &mut problem, empty_line(b"B"));
    let less = [effect(0, -5), effect(1, 5)];
    let more = [effect(0, -6), effect(1, 6)];
    put_item(rt, &mut problem, name(b"P1"), 5, &less);
    put_item(rt, &mut problem, name(b"P2"), 6, &more);
    problem
}

/// R sells 50 X to S, who has no cash, for 500, and S sells them on to T, who has 510, for 510.
pub(crate) fn delivery_chain(rt: &impl Abort, alloc: Global) -> Problem {
    let mut problem = Problem::new(alloc);
    put_line(rt, &mut problem, line(b"R", b"MXN", 0));
    put_line(rt, &mut problem, line(b"R", b"X", 50));
    put_line(rt, &mut problem, line(b"S", b"MXN", 0));
    put_line(rt, &mut problem, line(b"S", b"X", 0));
    put_line(rt, &mut problem, line(b"T", b"MXN", 510));
    put_line(rt, &mut problem, line(b"T", b"X", 0));
    let first = [
        effect(0, 500),
        effect(1, -50),
        effect(2, -500),
        effect(3, 50),
    ];
    let second = [
        effect(2, 510),
        effect(3, -50),
        effect(4, -510),
        effect(5, 50),
    ];
    put_item(rt, &mut problem, name(b"D1"), 500, &first);
    put_item(rt, &mut problem, name(b"D2"), 510, &second);
    problem
}

/// R sells X to S and S sells Y to R, each for 100, and neither has cash.
pub(crate) fn linked_deliveries(rt: &impl Abort, alloc: Global) -> Problem {
    let mut problem = Problem::new(alloc);
    put_line(rt, &mut problem, line(b"R", b"MXN", 0));
    put_line(rt, &mut problem, line(b"R", b"X", 10));
    put_line(rt, &mut problem, line(b"R", b"Y", 0));
    put_line(rt, &mut problem, line(b"S", b"MXN", 0));
    put_line(rt, &mut problem, line(b"S", b"X", 0));
    put_line(rt, &mut problem, line(b"S", b"Y", 10));
    let first = [
        effect(0, 100),
        effect(1, -10),
        effect(3, -100),
        effect(4, 10),
    ];
    let second = [
        effect(0, -100),
        effect(2, 10),
        effect(3, 100),
        effect(5, -10),
    ];
    put_item(rt, &mut problem, name(b"D1"), 100, &first);
    put_item(rt, &mut problem, name(b"D2"), 100, &second);
    problem
}

/// Three accounts without balance, each of which owes the next 100, and the first of them 1,000 besides.
pub(crate) fn ring_beside_unpayable(rt: &impl Abort, alloc: Global) -> Problem {
    let mut problem = Problem::new(alloc);
    put_line(rt, &mut problem, empty_line(b"A"));
    put_line(rt, &mut problem, empty_line(b"B"));
    put_line(rt, &mut problem, empty_line(b"C"));
    let first = [effect(0, -100), effect(1, 100)];
    let second = [effect(1, -100), effect(2, 100)];
    let third = [effect(0, 100), effect(2, -100)];
    let more = [effect(0, -1000), effect(1, 1000)];
    put_item(rt, &mut problem, name(b"P1"), 100, &first);
    put_item(rt, &mut problem, name(b"P2"), 100, &second);
    put_item(rt, &mut problem, name(b"P3"), 100, &third);
    put_item(rt, &mut problem, name(b"P4"), 1000, &more);
    problem
}
