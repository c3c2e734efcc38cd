ghost use Rattle.std.specs.Prelude.{◌≤◌, length};
ghost use Rattle.dali_check.specs.Room.{IsFor};

use crate::choices::{bound, choice, one_part, two_branches, two_parts};
use crate::problems::{
    delivery_chain, linked_deliveries, payments_apart, ring, ring_beside_unpayable, three_payments,
};
use dali_check::{Scratch, allowed, fits};
use dali_plain::{best_of, is_feasible_mask, places_of_mask, value_of_mask};
use dali_problem::{Problem, Sums};
use dali_tree::{Choice, Fix};
use std::alloc::Global;
use std::process::Abort;

/// The answers on a set are those of the plain program on its mask.
fn agrees_at(rt: &impl Abort, alloc: Global, problem: &Problem, mask: u32) {
    let mut sums = Sums::new(alloc, problem).expect(rt, "memory");
    let places = places_of_mask(alloc, problem, mask).expect(rt, "memory");
    let feasible = problem.is_feasible(&places, &mut sums);
    assert_eq!(rt; feasible, is_feasible_mask(problem, mask));
    assert_eq!(rt; problem.value_of(&places), value_of_mask(problem, mask));
}

/// The answers on all sets are those of the plain program, and the best is worth this.
fn agrees(rt: &impl Abort, alloc: Global, problem: &Problem, best: u64) {
    assert!(rt; problem.items() <= 10);
    for mask in 0..1u32 << problem.items() {
        agrees_at(rt, alloc, problem, mask);
    }
    assert_eq!(rt; best_of(problem), best);
}

/// The sum of the bounds of all parts, in centavos.
fn sum_of_bounds(rt: &impl Abort, choice: &Choice) -> u64 {
    let mut total: u64 = 0;
    for part in choice.parts.as_slice() {
        total = total.checked_add(part.bound).expect(rt, "small bounds");
    }
    total
}

/// The choice is allowed, and its set is best where it is worth the sum of the bounds. That sum, in centavos.
fn allowed_bound(
    rt: &impl Abort,
    problem: &Problem,
    budget: u64,
    choice: &Choice,
    scratch: &mut Scratch,
) -> u64
    requires { IsFor problem.now scratch.old }
    ensures { IsFor problem.now scratch.new }
{
    assert!(rt; fits(problem, choice));
    assert!(rt; allowed(problem, budget, choice, scratch).is_ok());
    assert!(rt; problem.items() <= 10);
    let bounds = sum_of_bounds(rt, choice);
    let value = problem.value_of(&choice.places);
    let best = best_of(problem);
    assert!(rt; best <= bounds);
    assert!(rt; value != bounds || value == best);
    bounds
}

#[test]
fn a_ring(rt: HostRuntime) {
    let alloc = rt.alloc();
    let problem = ring(&rt, alloc);
    agrees(&rt, alloc, &problem, 300);
    let mut scratch = Scratch::new(alloc, &problem).expect(&rt, "memory");
    let tree = bound(alloc, &[], &[]).expect(&rt, "memory");
    let all = one_part(alloc, &[0, 1, 2], &[0, 1, 2], 300, tree).expect(&rt, "memory");
    assert_eq!(rt; allowed_bound(&rt, &problem, 0, &all, &mut scratch), 300);
}

#[test]
fn a_chain(rt: HostRuntime) {
    let alloc = rt.alloc();
    let problem = delivery_chain(&rt, alloc);
    agrees(&rt, alloc, &problem, 1010);
    let mut scratch = Scratch::new(alloc, &problem).expect(&rt, "memory");
    let tree = bound(alloc, &[], &[]).expect(&rt, "memory");
    let both = one_part(alloc, &[0, 1], &[0, 1], 1010, tree).expect(&rt, "memory");
    assert_eq!(rt; allowed_bound(&rt, &problem, 0, &both, &mut scratch), 1010);
}

#[test]
fn deliveries_that_need_each_other(rt: HostRuntime) {
    let alloc = rt.alloc();
    let problem = linked_deliveries(&rt, alloc);
    agrees(&rt, alloc, &problem, 200);
    let mut scratch = Scratch::new(alloc, &problem).expect(&rt, "memory");
    let tree = bound(alloc, &[], &[]).expect(&rt, "memory");
    let both = one_part(alloc, &[0, 1], &[0, 1], 200, tree).expect(&rt, "memory");
    assert_eq!(rt; allowed_bound(&rt, &problem, 0, &both, &mut scratch), 200);
}

#[test]
fn a_ring_beside_a_payment_that_is_never_met(rt: HostRuntime) {
    let alloc = rt.alloc();
    let problem = ring_beside_unpayable(&rt, alloc);
    agrees(&rt, alloc, &problem, 300);
    let mut scratch = Scratch::new(alloc, &problem).expect(&rt, "memory");
    let barred = Fix::Barred { place: 3, line: 0 };
    let tree = bound(alloc, &[barred], &[]).expect(&rt, "memory");
    let ring = one_part(alloc, &[0, 1, 2], &[0, 1, 2, 3], 300, tree).expect(&rt, "memory");
    assert_eq!(rt; allowed_bound(&rt, &problem, 0, &ring, &mut scratch), 300);
}

/// With no branch the bound of an allowed choice may be above the best value; with two it isn't.
#[test]
fn one_of_three(rt: HostRuntime) {
    let alloc = rt.alloc();
    let problem = three_payments(&rt, alloc);
    agrees(&rt, alloc, &problem, 4);
    let mut scratch = Scratch::new(alloc, &problem).expect(&rt, "memory");
    let tree = bound(alloc, &[], &[(0, 4096)]).expect(&rt, "memory");
    let open = choice(alloc, 7, tree).expect(&rt, "memory");
    assert_eq!(rt; allowed_bound(&rt, &problem, 0, &open, &mut scratch), 7);
    let tree = two_branches(alloc, 4096).expect(&rt, "memory");
    let closed = choice(alloc, 4, tree).expect(&rt, "memory");
    assert_eq!(rt; allowed_bound(&rt, &problem, 2, &closed, &mut scratch), 4);
}

/// One of three payments, and one apart from them.
#[test]
fn two_queues(rt: HostRuntime) {
    let alloc = rt.alloc();
    let problem = payments_apart(&rt, alloc);
    agrees(&rt, alloc, &problem, 9);
    let mut scratch = Scratch::new(alloc, &problem).expect(&rt, "memory");
    let both = two_parts(alloc, 5).expect(&rt, "memory");
    assert_eq!(rt; allowed_bound(&rt, &problem, 2, &both, &mut scratch), 9);
}
