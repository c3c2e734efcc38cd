use crate::judging::reason_against;
use crate::problems::{
    delivery_chain, greater_payment, linked_deliveries, payments_apart, ring,
    ring_beside_unpayable, three_payments, two_fives,
};
use dali_check::fits;
use dali_plain::best_of;
use dali_problem::Problem;
use dali_search::solve;
use dali_tree::branchings;
use std::alloc::Global;
use std::process::Abort;

/// What a search is to find: its value and bound, in centavos, and its branchings.
#[derive(Clone, Copy)]
struct Row {
    value: u64,
    bound: u64,
    branchings: u64,
}

/// The choice of a search is allowed, and has this value, bound and branchings, in one part.
fn finds(rt: &impl Abort, alloc: Global, problem: &Problem, budget: u64, row: &Row) {
    assert!(rt; budget <= 4096);
    let choice = solve(alloc, problem, budget).expect(rt, "memory");
    assert!(rt; fits(problem, &choice));
    assert!(rt; reason_against(rt, alloc, problem, budget, &choice).is_none());
    assert_eq!(rt; problem.value_of(&choice.places), row.value);
    let parts = choice.parts.as_slice();
    assert_eq!(rt; parts.len(), 1);
    assert_eq!(rt; parts[0].bound, row.bound);
    assert_eq!(rt; branchings(&parts[0].tree), row.branchings);
}

/// With a budget that is enough for every set, the value of a search is the best one.
fn finds_best(rt: &impl Abort, alloc: Global, problem: &Problem) {
    let choice = solve(alloc, problem, 1023).expect(rt, "memory");
    assert!(rt; fits(problem, &choice));
    assert!(rt; problem.items() <= 10);
    assert!(rt; reason_against(rt, alloc, problem, 1023, &choice).is_none());
    assert_eq!(rt; problem.value_of(&choice.places), best_of(problem));
}

#[test]
fn a_ring(rt: HostRuntime) {
    let alloc = rt.alloc();
    let problem = ring(&rt, alloc);
    let all = Row {
        value: 300,
        bound: 300,
        branchings: 0,
    };
    finds(&rt, alloc, &problem, 0, &all);
    finds_best(&rt, alloc, &problem);
}

/// With each branching more the bound falls, up to the value.
#[test]
fn one_of_three(rt: HostRuntime) {
    let alloc = rt.alloc();
    let problem = three_payments(&rt, alloc);
    let bounds = [7, 7, 4];
    for spent in 0..bounds.len() {
        let row = Row {
            value: 4,
            bound: bounds[spent],
            branchings: spent as u64,
        };
        finds(&rt, alloc, &problem, spent as u64, &row);
    }
    finds_best(&rt, alloc, &problem);
}

#[test]
fn two_of_three(rt: HostRuntime) {
    let alloc = rt.alloc();
    let problem = two_fives(&rt, alloc);
    finds_best(&rt, alloc, &problem);
}

#[test]
fn a_chain(rt: HostRuntime) {
    let alloc = rt.alloc();
    let problem = delivery_chain(&rt, alloc);
    let both = Row {
        value: 1010,
        bound: 1010,
        branchings: 0,
    };
    finds(&rt, alloc, &problem, 0, &both);
    finds_best(&rt, alloc, &problem);
}

#[test]
fn deliveries_that_need_each_other(rt: HostRuntime) {
    let alloc = rt.alloc();
    let problem = linked_deliveries(&rt, alloc);
    let both = Row {
        value: 200,
        bound: 200,
        branchings: 0,
    };
    finds(&rt, alloc, &problem, 0, &both);
    finds_best(&rt, alloc, &problem);
}

#[test]
fn a_ring_beside_a_payment_that_is_never_met(rt: HostRuntime) {
    let alloc = rt.alloc();
    let problem = ring_beside_unpayable(&rt, alloc);
    let ring = Row {
        value: 300,
        bound: 300,
        branchings: 0,
    };
    finds(&rt, alloc, &problem, 0, &ring);
    finds_best(&rt, alloc, &problem);
}

#[test]
fn the_greater_of_two(rt: HostRuntime) {
    let alloc = rt.alloc();
    let problem = greater_payment(&rt, alloc);
    let greater = Row {
        value: 6,
        bound: 6,
        branchings: 0,
    };
    finds(&rt, alloc, &problem, 0, &greater);
    finds_best(&rt, alloc, &problem);
}

#[test]
fn two_queues(rt: HostRuntime) {
    let alloc = rt.alloc();
    let problem = payments_apart(&rt, alloc);
    finds_best(&rt, alloc, &problem);
}

#[test]
fn nothing_to_settle(rt: HostRuntime) {
    let alloc = rt.alloc();
    let problem = Problem::new(alloc);
    let choice = solve(alloc, &problem, 5).expect(&rt, "memory");
    assert!(rt; choice.places.is_empty());
    assert!(rt; choice.parts.is_empty());
}
