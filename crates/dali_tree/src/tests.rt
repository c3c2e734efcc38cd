use crate::{Choice, End, Fix, Part, Tree, branchings, depth};
use dali_base::{OutOfMemory, Seq};
use sqlite_items::Boxed;
use std::alloc::Global;
use std::process::Abort;
use std::test::Fail;

fn short(alloc: Global, line: u32) -> Tree {
    Tree {
        fixes: Seq::new(alloc),
        end: End::Short { line },
    }
}

fn branch(alloc: Global, place: u32, inside: Tree, outside: Tree) -> Result<Tree, OutOfMemory> {
    let mut fixes = Seq::new(alloc);
    fixes.push(Fix::Needed { place: 9, line: 1 })?;
    fixes.push(Fix::Safe { place: 8 })?;
    let mut lam = Seq::new(alloc);
    lam.push((1, 4096))?;
    Ok(Tree {
        fixes,
        end: End::Branch {
            place,
            lam,
            inside: Boxed::new(alloc, inside)?,
            outside: Boxed::new(alloc, outside)?,
        },
    })
}

/// Branches at 0, outside of that at 1, and inside of that at 2.
fn zigzag(alloc: Global) -> Result<Tree, OutOfMemory> {
    let third = branch(alloc, 2, short(alloc, 5), short(alloc, 6))?;
    let second = branch(alloc, 1, third, short(alloc, 4))?;
    branch(alloc, 0, short(alloc, 3), second)
}

/// Branches at 0, and at 1 on both sides of that.
fn even(alloc: Global) -> Result<Tree, OutOfMemory> {
    let inside = branch(alloc, 1, short(alloc, 3), short(alloc, 4))?;
    let outside = branch(alloc, 1, short(alloc, 5), short(alloc, 6))?;
    branch(alloc, 0, inside, outside)
}

fn counts(rt: &impl Abort, tree: &Tree, branches: u64, longest: u32) {
    assert_eq!(rt; branchings(tree), branches);
    assert_eq!(rt; depth(tree), longest);
}

#[test]
fn counts_branches_and_the_longest_path(rt: HostRuntime) -> Result<(), Fail> {
    let alloc = rt.alloc();
    counts(&rt, &short(alloc, 0), 0, 0);
    counts(&rt, &even(alloc)?, 3, 2);
    counts(&rt, &zigzag(alloc)?, 3, 3);
    Ok(())
}

/// The end of the zigzag that is reached outside of 0, inside of 1 and outside of 2.
fn last_line(tree: &Tree) -> Option<u32> {
    let second = side(tree, false)?;
    let third = side(second, true)?;
    match &side(third, false)?.end {
        End::Short { line } => Some(*line),
        _ => None,
    }
}

fn side(tree: &Tree, taken: bool) -> Option<&Tree> {
    match &tree.end {
        End::Branch { inside, .. } if taken => Some(inside.get()),
        End::Branch { outside, .. } => Some(outside.get()),
        _ => None,
    }
}

fn choice(alloc: Global) -> Result<Choice, OutOfMemory> {
    let mut places = Seq::new(alloc);
    places.extend(&[0, 2])?;
    let mut members = Seq::new(alloc);
    members.extend(&[0, 1, 2])?;
    let mut parts = Seq::new(alloc);
    parts.push(Part {
        members,
        bound: 700,
        tree: zigzag(alloc)?,
    })?;
    Ok(Choice { places, parts })
}

fn is_copied(rt: &impl Abort, copied: &Choice) {
    assert_eq!(rt; copied.places.as_slice(), [0, 2].as_slice());
    for part in copied.parts.as_slice() {
        assert_eq!(rt; part.members.as_slice(), [0, 1, 2].as_slice());
        assert_eq!(rt; part.bound, 700);
        assert_eq!(rt;
            part.tree.fixes.get(1).copied(),
            Some(Fix::Safe { place: 8 })
        );
        assert_eq!(rt; last_line(&part.tree), Some(6));
    }
    assert_eq!(rt; copied.parts.len(), 1);
}

#[test]
fn copies_a_choice(rt: HostRuntime) -> Result<(), Fail> {
    let alloc = rt.alloc();
    let copied = choice(alloc)?.copy(alloc)?;
    is_copied(&rt, &copied);
    Ok(())
}
