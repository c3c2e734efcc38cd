ghost use Rattle.dali_problem.specs.Kept.{IsOf};

use crate::queues::{all_places, payments, problem_behind, ring};
use dali_base::{Places, Seq};
use dali_guess::{aim, flips, smoothed};
use dali_problem::{Partial, Problem};
use dali_tree::Lam;
use std::alloc::Global;
use std::process::Abort;

/// The partial choice in which all places are undecided.
fn undecided(rt: &impl Abort, alloc: Global, problem: &Problem) -> Partial
    ensures { IsOf problem.now result }
{
    let places = all_places(rt, alloc, problem);
    Partial::new(alloc, problem, &places).expect(rt, "memory")
}

/// The set that flips find from nothing.
fn flipped(rt: &impl Abort, alloc: Global, problem: &Problem) -> Places {
    let partial = undecided(rt, alloc, problem);
    flips(alloc, problem, &partial, &Seq::new(alloc), 20).expect(rt, "memory")
}

/// The smoothed multipliers.
fn smooth(rt: &impl Abort, alloc: Global, problem: &Problem) -> Lam {
    let partial = undecided(rt, alloc, problem);
    smoothed(alloc, problem, &partial).expect(rt, "memory")
}

/// The multipliers that are aimed at from these.
fn aimed(rt: &impl Abort, alloc: Global, problem: &Problem, lam: &[(u32, u64)]) -> Lam {
    let partial = undecided(rt, alloc, problem);
    let mut start = Seq::new(alloc);
    start.extend(lam).expect(rt, "memory");
    aim(alloc, problem, &partial, &start, 8, 4).expect(rt, "memory")
}

/// Three accounts owe each other in a ring, and all of it settles together.
#[test]
fn a_ring(rt: HostRuntime) {
    let alloc = rt.alloc();
    let problem = problem_behind(&rt, alloc, ring(&rt, alloc));
    let found = flipped(&rt, alloc, &problem);
    assert_eq!(rt; found.as_slice(), [0, 1, 2].as_slice());
    assert!(rt; smooth(&rt, alloc, &problem).is_empty());
    assert!(rt; aimed(&rt, alloc, &problem, &[]).is_empty());
}

/// Whether these are a multiplier of line 0, within some fiftieth of 4,096.
fn is_near(multiplier: &(u32, u64)) -> bool {
    multiplier.0 == 0 && 4020 <= multiplier.1 && multiplier.1 <= 4170
}

/// One of the payments can be made, small and large: the Sum is least where the payer's line has 4,096.
#[test]
fn one_of_many(rt: HostRuntime) {
    let alloc = rt.alloc();
    for count in [3, 400] {
        let problem = problem_behind(&rt, alloc, payments(&rt, alloc, 7, count));
        assert_eq!(rt; flipped(&rt, alloc, &problem).len(), 1);
        let lam = smooth(&rt, alloc, &problem);
        assert_eq!(rt; lam.len(), 1);
        assert!(rt; lam.as_slice().iter().all(is_near));
        let aim = aimed(&rt, alloc, &problem, &[(0, 4096)]);
        assert_eq!(rt; aim.as_slice(), [(0, 4096)].as_slice());
    }
}

/// All payments can be made, so no line needs a multiplier.
#[test]
fn all_of_many(rt: HostRuntime) {
    let alloc = rt.alloc();
    let problem = problem_behind(&rt, alloc, payments(&rt, alloc, 5000, 400));
    assert_eq!(rt; flipped(&rt, alloc, &problem).len(), 400);
    assert!(rt; smooth(&rt, alloc, &problem).is_empty());
}
