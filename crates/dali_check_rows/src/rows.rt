ghost use Rattle.dali_check.specs.Room.{IsFor};

use crate::choices::{bound, choice, listed, one_part, two_branches, two_parts};
use crate::judging::{is_lean, is_proved, reason_against};
use crate::problems::{delivery_chain, greater_payment, payments_apart, ring, three_payments};
use dali_check::{NotAllowed, Scratch, allowed, fits};
use dali_problem::Problem;
use dali_tree::{Choice, Part};

#[test]
fn proves_branches(rt: HostRuntime) {
    let alloc = rt.alloc();
    let problem = three_payments(&rt, alloc);
    let mut scratch = Scratch::new(alloc, &problem).expect(&rt, "memory");
    let tree = two_branches(alloc, 4096).expect(&rt, "memory");
    let right = choice(alloc, 4, tree).expect(&rt, "memory");
    assert!(rt; is_proved(&problem, &right, &mut scratch));
    let tree = two_branches(alloc, 4096).expect(&rt, "memory");
    let low = choice(alloc, 3, tree).expect(&rt, "memory");
    assert!(rt; !is_proved(&problem, &low, &mut scratch));
    assert!(rt; is_proved(&problem, &right, &mut scratch));
}

#[test]
fn lean_branches(rt: HostRuntime) {
    let alloc = rt.alloc();
    let problem = three_payments(&rt, alloc);
    let mut scratch = Scratch::new(alloc, &problem).expect(&rt, "memory");
    let tree = two_branches(alloc, 4096).expect(&rt, "memory");
    let settled = choice(alloc, 4, tree).expect(&rt, "memory");
    assert!(rt; is_lean(&problem, &settled, 4, &mut scratch));
    let tree = two_branches(alloc, 3096).expect(&rt, "memory");
    let unsettled = choice(alloc, 4, tree).expect(&rt, "memory");
    assert!(rt; !is_lean(&problem, &unsettled, 4, &mut scratch));
}

#[test]
fn lean_roots(rt: HostRuntime) {
    let alloc = rt.alloc();
    let problem = three_payments(&rt, alloc);
    let mut scratch = Scratch::new(alloc, &problem).expect(&rt, "memory");
    let tree = bound(alloc, &[], &[(0, 4096)]).expect(&rt, "memory");
    let open = choice(alloc, 7, tree).expect(&rt, "memory");
    assert!(rt; is_proved(&problem, &open, &mut scratch));
    assert!(rt; is_lean(&problem, &open, 4, &mut scratch));
    let tree = bound(alloc, &[], &[(0, 4096)]).expect(&rt, "memory");
    let loose = choice(alloc, 8, tree).expect(&rt, "memory");
    assert!(rt; is_proved(&problem, &loose, &mut scratch));
    assert!(rt; !is_lean(&problem, &loose, 4, &mut scratch));
}

#[test]
fn proves_ring(rt: HostRuntime) {
    let alloc = rt.alloc();
    let problem = ring(&rt, alloc);
    let mut scratch = Scratch::new(alloc, &problem).expect(&rt, "memory");
    let tree = bound(alloc, &[], &[]).expect(&rt, "memory");
    let low = choice(alloc, 299, tree).expect(&rt, "memory");
    assert!(rt; !is_proved(&problem, &low, &mut scratch));
    let tree = bound(alloc, &[], &[]).expect(&rt, "memory");
    let right = choice(alloc, 300, tree).expect(&rt, "memory");
    assert!(rt; is_proved(&problem, &right, &mut scratch));
}

/// Whether the choice fits and is allowed.
fn is_allowed(problem: &Problem, budget: u64, choice: &Choice, scratch: &mut Scratch) -> bool
    requires { IsFor problem.now scratch.old }
    ensures { IsFor problem.now scratch.new }
{
    if !fits(problem, choice) {
        return false;
    }
    allowed(problem, budget, choice, scratch).is_ok()
}

/// The reason against a choice, where it fits.
fn reason(
    problem: &Problem,
    budget: u64,
    choice: &Choice,
    scratch: &mut Scratch,
) -> Option<NotAllowed>
    requires { IsFor problem.now scratch.old }
    ensures { IsFor problem.now scratch.new }
{
    if !fits(problem, choice) {
        return None;
    }
    allowed(problem, budget, choice, scratch).err()
}

#[test]
fn allowed_budgets(rt: HostRuntime) {
    let alloc = rt.alloc();
    let problem = three_payments(&rt, alloc);
    let mut scratch = Scratch::new(alloc, &problem).expect(&rt, "memory");
    let tree = two_branches(alloc, 4096).expect(&rt, "memory");
    let settled = choice(alloc, 4, tree).expect(&rt, "memory");
    assert!(rt; is_allowed(&problem, 2, &settled, &mut scratch));
    assert!(rt; is_allowed(&problem, 3, &settled, &mut scratch));
    assert!(rt; is_allowed(&problem, 4096, &settled, &mut scratch));
    let found = reason(&problem, 1, &settled, &mut scratch);
    assert_eq!(rt; found, Some(NotAllowed::Overspent));
}

#[test]
fn not_lean(rt: HostRuntime) {
    let alloc = rt.alloc();
    let problem = three_payments(&rt, alloc);
    let mut scratch = Scratch::new(alloc, &problem).expect(&rt, "memory");
    let tree = two_branches(alloc, 3096).expect(&rt, "memory");
    let unsettled = choice(alloc, 4, tree).expect(&rt, "memory");
    let found = reason(&problem, 2, &unsettled, &mut scratch);
    assert_eq!(rt; found, Some(NotAllowed::NotLean { part: 0 }));
}

#[test]
fn idle_root(rt: HostRuntime) {
    let alloc = rt.alloc();
    let problem = three_payments(&rt, alloc);
    let mut scratch = Scratch::new(alloc, &problem).expect(&rt, "memory");
    let tree = bound(alloc, &[], &[(0, 4096)]).expect(&rt, "memory");
    let open = choice(alloc, 7, tree).expect(&rt, "memory");
    assert!(rt; is_allowed(&problem, 0, &open, &mut scratch));
    let found = reason(&problem, 1, &open, &mut scratch);
    assert_eq!(rt; found, Some(NotAllowed::Idle));
    let found = reason(&problem, 7, &open, &mut scratch);
    assert_eq!(rt; found, Some(NotAllowed::Idle));
    let found = reason(&problem, 4096, &open, &mut scratch);
    assert_eq!(rt; found, Some(NotAllowed::Idle));
}

#[test]
fn members_left_out(rt: HostRuntime) {
    let alloc = rt.alloc();
    let problem = three_payments(&rt, alloc);
    let mut scratch = Scratch::new(alloc, &problem).expect(&rt, "memory");
    let tree = bound(alloc, &[], &[]).expect(&rt, "memory");
    let fewer = one_part(alloc, &[0], &[0, 1], 12, tree).expect(&rt, "memory");
    let found = reason(&problem, 0, &fewer, &mut scratch);
    assert_eq!(rt; found, Some(NotAllowed::Members));
}

#[test]
fn shared_line(rt: HostRuntime) {
    let alloc = rt.alloc();
    let problem = three_payments(&rt, alloc);
    let mut scratch = Scratch::new(alloc, &problem).expect(&rt, "memory");
    let tree = bound(alloc, &[], &[]).expect(&rt, "memory");
    let mut split = one_part(alloc, &[0], &[0, 1], 12, tree).expect(&rt, "memory");
    let part = Part {
        members: listed(alloc, &[2]).expect(&rt, "memory"),
        bound: 4,
        tree: bound(alloc, &[], &[]).expect(&rt, "memory"),
    };
    split.parts.push(part).expect(&rt, "memory");
    let found = reason(&problem, 0, &split, &mut scratch);
    assert_eq!(rt; found, Some(NotAllowed::Shared));
}

/// A part by itself is allowed with the bound 5; its bound 4 isn't proved, and no end of its tree has the bound 6.
#[test]
fn second_part(rt: HostRuntime) {
    let alloc = rt.alloc();
    let problem = payments_apart(&rt, alloc);
    let unproved = Some(NotAllowed::Unproved { part: 1 });
    let not_lean = Some(NotAllowed::NotLean { part: 1 });
    for (second, wanted) in [(5, None), (4, unproved), (6, not_lean)] {
        let both = two_parts(alloc, second).expect(&rt, "memory");
        let found = reason_against(&rt, alloc, &problem, 2, &both);
        assert_eq!(rt; found, wanted);
    }
}

/// All three places are the rest, and can't be paid together; each can by itself.
#[test]
fn one_place_more(rt: HostRuntime) {
    let alloc = rt.alloc();
    let problem = three_payments(&rt, alloc);
    let tree = bound(alloc, &[], &[]).expect(&rt, "memory");
    let empty = one_part(alloc, &[], &[0, 1, 2], 12, tree).expect(&rt, "memory");
    let found = reason_against(&rt, alloc, &problem, 0, &empty);
    assert_eq!(rt; found, Some(NotAllowed::Addable));
}

#[test]
fn sets_of_a_ring(rt: HostRuntime) {
    let alloc = rt.alloc();
    let problem = ring(&rt, alloc);
    let mut scratch = Scratch::new(alloc, &problem).expect(&rt, "memory");
    let tree = bound(alloc, &[], &[]).expect(&rt, "memory");
    let alone = one_part(alloc, &[0], &[0, 1, 2], 300, tree).expect(&rt, "memory");
    let found = reason(&problem, 0, &alone, &mut scratch);
    assert_eq!(rt; found, Some(NotAllowed::Infeasible));
    let tree = bound(alloc, &[], &[]).expect(&rt, "memory");
    let empty = one_part(alloc, &[], &[0, 1, 2], 300, tree).expect(&rt, "memory");
    let found = reason(&problem, 0, &empty, &mut scratch);
    assert_eq!(rt; found, Some(NotAllowed::Addable));
}

#[test]
fn sets_of_two(rt: HostRuntime) {
    let alloc = rt.alloc();
    let problem = greater_payment(&rt, alloc);
    let mut scratch = Scratch::new(alloc, &problem).expect(&rt, "memory");
    let tree = bound(alloc, &[], &[]).expect(&rt, "memory");
    let less = one_part(alloc, &[0], &[0, 1], 6, tree).expect(&rt, "memory");
    let found = reason(&problem, 0, &less, &mut scratch);
    assert_eq!(rt; found, Some(NotAllowed::Swappable));
    let tree = bound(alloc, &[], &[]).expect(&rt, "memory");
    let more = one_part(alloc, &[1], &[0, 1], 6, tree).expect(&rt, "memory");
    let found = reason(&problem, 0, &more, &mut scratch);
    assert_eq!(rt; found, Some(NotAllowed::Unproved { part: 0 }));
}

#[test]
fn sets_of_a_chain(rt: HostRuntime) {
    let alloc = rt.alloc();
    let problem = delivery_chain(&rt, alloc);
    let mut scratch = Scratch::new(alloc, &problem).expect(&rt, "memory");
    let tree = bound(alloc, &[], &[]).expect(&rt, "memory");
    let both = one_part(alloc, &[0, 1], &[0, 1], 1010, tree).expect(&rt, "memory");
    assert!(rt; is_allowed(&problem, 0, &both, &mut scratch));
    let tree = bound(alloc, &[], &[]).expect(&rt, "memory");
    let alone = one_part(alloc, &[0], &[0, 1], 1010, tree).expect(&rt, "memory");
    let found = reason(&problem, 0, &alone, &mut scratch);
    assert_eq!(rt; found, Some(NotAllowed::Infeasible));
    let tree = bound(alloc, &[], &[]).expect(&rt, "memory");
    let empty = one_part(alloc, &[], &[0, 1], 1010, tree).expect(&rt, "memory");
    let found = reason(&problem, 0, &empty, &mut scratch);
    assert_eq!(rt; found, Some(NotAllowed::Addable));
}
