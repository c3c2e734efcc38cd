use crate::judging::reason_against;
use crate::problems::{payments_apart, ring};
use dali_check::fits;
use dali_parts::{finest, solve_parts};
use dali_problem::Problem;
use dali_tree::{Part, branchings};
use std::alloc::Global;
use std::process::Abort;

/// A part has this bound, in centavos, and so many branchings.
fn is_part(rt: &impl Abort, part: &Part, members: &[u32], bound: u64, spent: u64) {
    assert_eq!(rt; part.members.as_slice(), members);
    assert_eq!(rt; part.bound, bound);
    assert_eq!(rt; branchings(&part.tree), spent);
}

/// The choice is allowed, is worth 9 centavos, and has the three payments as one part, which spends the budget up to this
/// bound, and the fourth as another, which is closed without a branching.
fn finds_two(rt: &impl Abort, alloc: Global, budget: u64, bound: u64) {
    let problem = payments_apart(rt, alloc);
    assert!(rt; budget <= 4096);
    let choice = solve_parts(alloc, &problem, budget).expect(rt, "memory");
    assert!(rt; fits(&problem, &choice));
    assert!(rt; reason_against(rt, alloc, &problem, budget, &choice).is_none());
    assert_eq!(rt; problem.value_of(&choice.places), 9);
    let parts = choice.parts.as_slice();
    assert_eq!(rt; parts.len(), 2);
    is_part(rt, &parts[0], &[0, 1, 2], bound, budget);
    is_part(rt, &parts[1], &[3], 5, 0);
}

#[test]
fn two_parts(rt: HostRuntime) {
    finds_two(&rt, rt.alloc(), 2, 4);
}

#[test]
fn two_parts_unfinished(rt: HostRuntime) {
    finds_two(&rt, rt.alloc(), 1, 7);
}

/// The parts are the classes of linked places: three payments from one account, and one between two others.
#[test]
fn classes_of_payments(rt: HostRuntime) {
    let alloc = rt.alloc();
    let parts = finest(alloc, &payments_apart(&rt, alloc)).expect(&rt, "memory");
    let lists = parts.as_slice();
    assert_eq!(rt; lists.len(), 2);
    assert_eq!(rt; lists[0].as_slice(), [0, 1, 2].as_slice());
    assert_eq!(rt; lists[1].as_slice(), [3].as_slice());
}

/// A ring is one part, though no account stands in all of its payments; an empty problem has none.
#[test]
fn a_ring_is_one_class(rt: HostRuntime) {
    let alloc = rt.alloc();
    let round = finest(alloc, &ring(&rt, alloc)).expect(&rt, "memory");
    assert_eq!(rt; round.len(), 1);
    let none = finest(alloc, &Problem::new(alloc)).expect(&rt, "memory");
    assert!(rt; none.is_empty());
}
