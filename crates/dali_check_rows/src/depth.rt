use crate::choices::{chain, choice_among};
use crate::judging::{is_proved, reason_against};
use crate::problems::one_of_many;
use dali_check::{NotAllowed, Scratch, fits};

/// A path of 1,024 branches fits, and one more doesn't. Each of 1,024 places can be branched on.
#[test]
fn deepest_tree(rt: HostRuntime) {
    let alloc = rt.alloc();
    let problem = one_of_many(&rt, alloc, 1024);
    let mut scratch = Scratch::new(alloc, &problem).expect(&rt, "memory");
    let tree = chain(alloc, 1024).expect(&rt, "memory");
    let deepest = choice_among(alloc, 1024, 4, tree).expect(&rt, "memory");
    assert!(rt; is_proved(&problem, &deepest, &mut scratch));
    let tree = chain(alloc, 1025).expect(&rt, "memory");
    let deeper = choice_among(alloc, 1024, 4, tree).expect(&rt, "memory");
    assert!(rt; !fits(&problem, &deeper));
}

/// A chain of branches is lean as long as two places are undecided: the last one by itself is safe.
#[test]
fn deepest_lean_tree(rt: HostRuntime) {
    let alloc = rt.alloc();
    let problem = one_of_many(&rt, alloc, 1024);
    let not_lean = Some(NotAllowed::NotLean { part: 0 });
    let overspent = Some(NotAllowed::Overspent);
    for (branches, budget, wanted) in [
        (1023, 1023, None),
        (1023, 1022, overspent),
        (1024, 1024, not_lean),
    ] {
        let tree = chain(alloc, branches).expect(&rt, "memory");
        let part = choice_among(alloc, 1024, 4, tree).expect(&rt, "memory");
        let found = reason_against(&rt, alloc, &problem, budget, &part);
        assert_eq!(rt; found, wanted);
    }
}
