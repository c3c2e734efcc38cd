use crate::choices::{bound, choice, one_part};
use crate::problems::three_payments;
use dali_check::fits;
use dali_problem::Problem;
use dali_tree::Fix;
use std::alloc::Global;
use std::process::Abort;

/// Whether a part with this bound, and with these fixes and multipliers at its end, fits.
fn end_fits(
    rt: &impl Abort,
    alloc: Global,
    problem: &Problem,
    most: u64,
    fixes: &[Fix],
    lam: &[(u32, u64)],
) -> bool {
    let tree = bound(alloc, fixes, lam).expect(rt, "memory");
    let judged = choice(alloc, most, tree).expect(rt, "memory");
    fits(problem, &judged)
}

/// Whether a set and the members of a part fit.
fn places_fit(
    rt: &impl Abort,
    alloc: Global,
    problem: &Problem,
    set: &[u32],
    members: &[u32],
) -> bool {
    let tree = bound(alloc, &[], &[]).expect(rt, "memory");
    let judged = one_part(alloc, set, members, 12, tree).expect(rt, "memory");
    fits(problem, &judged)
}

/// Multipliers are 1 to 2^44 and stand on rising lines of the two that there are.
#[test]
fn multipliers(rt: HostRuntime) {
    let alloc = rt.alloc();
    let problem = three_payments(&rt, alloc);
    for (line, multiplier, fit) in [
        (1, 1, true),
        (2, 1, false),
        (1, 0, false),
        (1, 17_592_186_044_416, true),
        (1, 17_592_186_044_417, false),
    ] {
        let found = end_fits(&rt, alloc, &problem, 7, &[], &[(line, multiplier)]);
        assert_eq!(rt; found, fit);
    }
    for (first, second, fit) in [(0, 1, true), (1, 0, false), (1, 1, false)] {
        let found = end_fits(&rt, alloc, &problem, 7, &[], &[(first, 1), (second, 1)]);
        assert_eq!(rt; found, fit);
    }
}

/// Fixes name one of three places and one of two lines.
#[test]
fn fixes(rt: HostRuntime) {
    let alloc = rt.alloc();
    let problem = three_payments(&rt, alloc);
    for (fix, fit) in [
        (Fix::Barred { place: 2, line: 1 }, true),
        (Fix::Barred { place: 3, line: 1 }, false),
        (Fix::Barred { place: 2, line: 2 }, false),
        (Fix::Needed { place: 2, line: 1 }, true),
        (Fix::Needed { place: 3, line: 1 }, false),
        (Fix::Needed { place: 2, line: 2 }, false),
        (Fix::Safe { place: 2 }, true),
        (Fix::Safe { place: 3 }, false),
    ] {
        let found = end_fits(&rt, alloc, &problem, 7, &[fix], &[]);
        assert_eq!(rt; found, fit);
    }
}

/// A bound is at most 16,384,000,000,000,000,000.
#[test]
fn bounds(rt: HostRuntime) {
    let alloc = rt.alloc();
    let problem = three_payments(&rt, alloc);
    for (most, fit) in [
        (0, true),
        (16_384_000_000_000_000_000, true),
        (16_384_000_000_000_000_001, false),
    ] {
        let found = end_fits(&rt, alloc, &problem, most, &[], &[]);
        assert_eq!(rt; found, fit);
    }
}

/// A set and a part name rising places of the three that there are, and no part is empty.
#[test]
fn places(rt: HostRuntime) {
    let alloc = rt.alloc();
    let problem = three_payments(&rt, alloc);
    assert!(rt; places_fit(&rt, alloc, &problem, &[], &[2]));
    assert!(rt; !places_fit(&rt, alloc, &problem, &[], &[]));
    for (first, second, fit) in [(0, 2, true), (2, 0, false), (0, 0, false), (0, 3, false)] {
        let found = places_fit(&rt, alloc, &problem, &[first, second], &[0]);
        assert_eq!(rt; found, fit);
        let found = places_fit(&rt, alloc, &problem, &[], &[first, second]);
        assert_eq!(rt; found, fit);
    }
}
