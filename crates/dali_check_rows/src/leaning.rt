use crate::choices::{bound, branch, choice, one_part, two_branches};
use crate::judging::reason_against;
use crate::problems::{three_payments, two_fives};
use dali_base::OutOfMemory;
use dali_check::NotAllowed;
use dali_problem::Problem;
use dali_tree::{Fix, Tree};
use std::alloc::Global;
use std::process::Abort;

const NOT_LEAN: Option<NotAllowed> = Some(NotAllowed::NotLean { part: 0 });

/// The answer on the set of place 0 with this tree and bound.
fn answer(
    rt: &impl Abort,
    alloc: Global,
    problem: &Problem,
    budget: u64,
    bound: u64,
    tree: Tree,
) -> Option<NotAllowed> {
    let judged = choice(alloc, bound, tree).expect(rt, "memory");
    reason_against(rt, alloc, problem, budget, &judged)
}

/// A root's multiplier on line 0 may be off where a better one gains less than a 1,024th of the Sum: 25 of 28,697 at
/// 4,091 and 28 of 28,700 at 4,100, but not 30 of 28,702 at 4,090 and 35 of 28,707 at 4,101.
#[test]
fn nearly_settled(rt: HostRuntime) {
    let alloc = rt.alloc();
    let problem = three_payments(&rt, alloc);
    for (multiplier, wanted) in [
        (4090, NOT_LEAN),
        (4091, None),
        (4100, None),
        (4101, NOT_LEAN),
    ] {
        let tree = two_branches(alloc, multiplier).expect(&rt, "memory");
        let found = answer(&rt, alloc, &problem, 2, 4, tree);
        assert_eq!(rt; found, wanted);
    }
}

/// With all multipliers 0 the Sum of an end at the root is 49,152. These give that, 49,147 and 49,154, and no change of a
/// single one gains a 1,024th.
#[test]
fn no_worse_than_without_multipliers(rt: HostRuntime) {
    let alloc = rt.alloc();
    let problem = three_payments(&rt, alloc);
    for (first, second, most, wanted) in [
        (7020, 2925, 12, None),
        (7021, 2925, 11, None),
        (7022, 2926, 12, NOT_LEAN),
    ] {
        let tree = bound(alloc, &[], &[(0, first), (1, second)]).expect(&rt, "memory");
        let found = answer(&rt, alloc, &problem, 0, most, tree);
        assert_eq!(rt; found, wanted);
    }
}

/// A branch on place 0 with these multipliers, which closes where it is chosen and ends with a bound of 8 where it is
/// left.
fn end_with_8(alloc: Global, lam: &[(u32, u64)]) -> Result<Tree, OutOfMemory> {
    let first = Fix::Barred { place: 1, line: 0 };
    let second = Fix::Barred { place: 2, line: 0 };
    let inside = bound(alloc, &[first, second], &[])?;
    let outside = bound(alloc, &[], &[(0, 4680), (1, 585)])?;
    branch(alloc, 0, lam, inside, outside)
}

/// A branch has at least the bound of its part, 8: with 4,682 and 586 its Sum is 32,774, with 4,096 alone 28,672.
#[test]
fn branch_below_the_bound(rt: HostRuntime) {
    let alloc = rt.alloc();
    let problem = three_payments(&rt, alloc);
    let tree = end_with_8(alloc, &[(0, 4682), (1, 586)]).expect(&rt, "memory");
    assert_eq!(rt; answer(&rt, alloc, &problem, 1, 8, tree), None);
    let tree = end_with_8(alloc, &[(0, 4096)]).expect(&rt, "memory");
    assert_eq!(rt; answer(&rt, alloc, &problem, 1, 8, tree), NOT_LEAN);
}

/// A branch on place 0 with 4,096 on line 0. It ends so where it is chosen, and with a bound of 7 where it is left.
fn end_with_7(alloc: Global, fixes: &[Fix], lam: &[(u32, u64)]) -> Result<Tree, OutOfMemory> {
    let inside = bound(alloc, fixes, lam)?;
    let outside = bound(alloc, &[], &[(0, 4096)])?;
    branch(alloc, 0, &[(0, 4096)], inside, outside)
}

/// Where place 0 is chosen an end is closed by barring the others; settled multipliers alone leave it open, with a rule
/// that holds.
#[test]
fn rule_that_still_holds(rt: HostRuntime) {
    let alloc = rt.alloc();
    let problem = three_payments(&rt, alloc);
    let first = Fix::Barred { place: 1, line: 0 };
    let second = Fix::Barred { place: 2, line: 0 };
    let tree = end_with_7(alloc, &[first, second], &[]).expect(&rt, "memory");
    assert_eq!(rt; answer(&rt, alloc, &problem, 1, 7, tree), None);
    let tree = end_with_7(alloc, &[], &[(0, 4096)]).expect(&rt, "memory");
    assert_eq!(rt; answer(&rt, alloc, &problem, 1, 7, tree), NOT_LEAN);
}

/// A branch on the item of 6, and on each side no place undecided.
fn all_decided(alloc: Global) -> Result<Tree, OutOfMemory> {
    let first = Fix::Barred { place: 1, line: 0 };
    let second = Fix::Barred { place: 2, line: 0 };
    let inside = bound(alloc, &[first, second], &[])?;
    let both = [Fix::Safe { place: 1 }, Fix::Safe { place: 2 }];
    let outside = bound(alloc, &both, &[])?;
    branch(alloc, 0, &[(0, 4096)], inside, outside)
}

/// A search that reaches the two items of 5 with nothing undecided takes them.
#[test]
fn better_set_not_taken(rt: HostRuntime) {
    let alloc = rt.alloc();
    let problem = two_fives(&rt, alloc);
    let tree = all_decided(alloc).expect(&rt, "memory");
    let fives = one_part(alloc, &[1, 2], &[0, 1, 2], 10, tree).expect(&rt, "memory");
    assert_eq!(rt; reason_against(&rt, alloc, &problem, 1, &fives), None);
    let tree = all_decided(alloc).expect(&rt, "memory");
    assert_eq!(rt; answer(&rt, alloc, &problem, 1, 10, tree), NOT_LEAN);
}

/// A branch on a place with 4,096 on line 0, which closes where it is chosen and ends with a bound of 7 where it is left.
fn branch_on(alloc: Global, place: u32, others: (u32, u32)) -> Result<Tree, OutOfMemory> {
    let first = Fix::Barred {
        place: others.0,
        line: 0,
    };
    let second = Fix::Barred {
        place: others.1,
        line: 0,
    };
    let inside = bound(alloc, &[first, second], &[])?;
    let outside = bound(alloc, &[], &[(0, 4096)])?;
    branch(alloc, place, &[(0, 4096)], inside, outside)
}

/// All reduced values at the root are 0, so the branch is on the first place.
#[test]
fn first_place_at_a_tie(rt: HostRuntime) {
    let alloc = rt.alloc();
    let problem = three_payments(&rt, alloc);
    for (place, others, wanted) in [
        (0, (1, 2), None),
        (1, (0, 2), NOT_LEAN),
        (2, (0, 1), NOT_LEAN),
    ] {
        let tree = branch_on(alloc, place, others).expect(&rt, "memory");
        let found = answer(&rt, alloc, &problem, 1, 7, tree);
        assert_eq!(rt; found, wanted);
    }
}
