use crate::{RecordNo, decode, encode, greatest_length};
use dali_base::{OutOfMemory, Seq, Text};
use dali_tree::{End, Fix, Tree};
use std::alloc::Global;
use std::process::Abort;
use std::test::Fail;

/// The record of an entry without a choice.
const PLAIN: &[u8] = b"\x01\x00\x0d080000,PART,A\x00";

/// The record of a cycle that settles a ring of three payments.
const RING: &[u8] =
    b"\x01\x00\x0e080002,CYCLE,0\x01\x00\x03\x00\x00\x00\x01\x00\x02\x00\x01\x00\x03\x00\x00\x00\x01\x00\x02\x00\x00\x00\x00\x00\x00\x01\x2c\x00\x00\x04\x00\x00";

/// What stands before the tree in the record of a cycle that posts one item of three.
const FRONT: &[u8] =
    b"\x01\x00\x0e080002,CYCLE,2\x01\x00\x01\x00\x00\x00\x01\x00\x03\x00\x00\x00\x01\x00\x02\x00\x00\x00\x00\x00\x00\x00\x04";

/// A tree of two branches at the multiplier 4,096 of line 0, with three ends at 0: the root, its inside, the second
/// branch, its inside and its outside.
const ROOT: &[u8] = b"\x00\x00\x06\x00\x00\x00\x01\x00\x00\x00\x00\x00\x00\x00\x00\x10\x00";

const INSIDE: &[u8] =
    b"\x00\x02\x01\x00\x01\x00\x00\x01\x00\x02\x00\x00\x04\x00\x01\x00\x00\x00\x00\x00\x00\x00\x00\x00\x00";

const SECOND: &[u8] = b"\x00\x00\x06\x00\x01\x00\x00";

const SECOND_INSIDE: &[u8] =
    b"\x00\x01\x01\x00\x02\x00\x00\x04\x00\x01\x00\x00\x00\x00\x00\x00\x00\x00\x00\x00";

const SECOND_OUTSIDE: &[u8] =
    b"\x00\x01\x03\x00\x02\x04\x00\x01\x00\x00\x00\x00\x00\x00\x00\x00\x00\x00";

/// The second branch with a multiplier that is the one of the branch above.
const SAME: &[u8] = b"\x00\x00\x06\x00\x01\x00\x01\x00\x00\x00\x00\x00\x00\x00\x00\x10\x00";

/// The root with its line twice, with a line past the last one, and with a multiplier past the greatest.
const TWICE: &[u8] =
    b"\x00\x00\x06\x00\x00\x00\x02\x00\x00\x00\x00\x00\x00\x00\x00\x10\x00\x00\x00\x00\x00\x00\x00\x00\x00\x20\x00";

const PAST: &[u8] = b"\x00\x00\x06\x00\x00\x00\x01\x10\x00\x00\x00\x00\x00\x00\x00\x10\x00";

const GREATER: &[u8] = b"\x00\x00\x06\x00\x00\x00\x01\x00\x00\x00\x00\x10\x00\x00\x00\x00\x01";

/// The record with this root and this second branch.
fn searched(alloc: Global, root: &[u8], second: &[u8]) -> Result<Text, OutOfMemory> {
    let mut text = Seq::new(alloc);
    for piece in [FRONT, root, INSIDE, second, SECOND_INSIDE, SECOND_OUTSIDE] {
        text.add(piece)?;
    }
    Ok(text)
}

fn is_spelled_again(rt: &impl Abort, alloc: Global, bytes: &[u8]) -> Result<(), Fail> {
    let entry = decode(alloc, bytes)?;
    let text = encode(alloc, &entry)?;
    assert_eq!(rt; text.bytes(), bytes);
    Ok(())
}

#[test]
fn records_are_spelled_again(rt: HostRuntime) -> Result<(), Fail> {
    let alloc = rt.alloc();
    let tree = searched(alloc, ROOT, SECOND)?;
    for bytes in [PLAIN, RING, tree.bytes()] {
        is_spelled_again(&rt, alloc, bytes)?;
    }
    Ok(())
}

fn is_no_record(rt: &impl Abort, alloc: Global, bytes: &[u8]) {
    assert!(rt; matches!(decode(alloc, bytes), Err(RecordNo::Form)));
}

#[test]
fn multipliers_are_changes(rt: HostRuntime) -> Result<(), Fail> {
    let alloc = rt.alloc();
    for (root, second) in [
        (ROOT, SAME),
        (TWICE, SECOND),
        (PAST, SECOND),
        (GREATER, SECOND),
    ] {
        let text = searched(alloc, root, second)?;
        is_no_record(&rt, alloc, text.bytes());
    }
    Ok(())
}

#[test]
fn fronts_are_no_records(rt: HostRuntime) {
    for end in 0..RING.len() {
        is_no_record(&rt, rt.alloc(), &RING[..end]);
    }
}

/// The record of an entry with these bytes in the place of its first and behind its last.
fn changed(alloc: Global, first: u8, behind: &[u8]) -> Result<Text, OutOfMemory> {
    let mut text = Seq::new(alloc);
    text.push(first)?;
    text.add(&PLAIN[1..])?;
    text.add(behind)?;
    Ok(text)
}

#[test]
fn editions_are_1_to_4(rt: HostRuntime) -> Result<(), Fail> {
    let alloc = rt.alloc();
    is_spelled_again(&rt, alloc, changed(alloc, 4, b"")?.bytes())?;
    for (edition, behind) in [(0, b"".as_slice()), (5, b""), (1, b"\x00")] {
        let text = changed(alloc, edition, behind)?;
        is_no_record(&rt, alloc, text.bytes());
    }
    Ok(())
}

/// The side of a branch.
fn side(tree: &Tree, taken: bool) -> Option<&Tree> {
    match &tree.end {
        End::Branch { inside, .. } if taken => Some(inside.get()),
        End::Branch { outside, .. } => Some(outside.get()),
        _ => None,
    }
}

fn has(rt: &impl Abort, tree: &Tree, lam: &[(u32, u64)], fixes: &[Fix]) {
    assert_eq!(rt; tree.fixes.as_slice(), fixes);
    match &tree.end {
        End::Bound { lam: own } => assert_eq!(rt; own.as_slice(), lam),
        End::Branch { lam: own, .. } => assert_eq!(rt; own.as_slice(), lam),
        End::Short { .. } => assert!(rt; lam.is_empty()),
    }
}

fn is_searched(rt: &impl Abort, tree: &Tree) -> Option<()> {
    let at = [(0, 4096)];
    let second = side(tree, false)?;
    has(rt, tree, &at, &[]);
    has(rt, second, &at, &[]);
    has(
        rt,
        side(second, true)?,
        &[],
        &[Fix::Barred { place: 2, line: 0 }],
    );
    has(rt, side(second, false)?, &[], &[Fix::Safe { place: 2 }]);
    Some(())
}

#[test]
fn a_tree_is_read(rt: HostRuntime) -> Result<(), Fail> {
    let alloc = rt.alloc();
    let entry = decode(alloc, searched(alloc, ROOT, SECOND)?.bytes())?;
    let choice = entry.choice.as_ref().ok_or("a choice")?;
    for part in choice.parts.as_slice() {
        assert_eq!(rt; part.bound, 4);
        is_searched(&rt, &part.tree).ok_or("two branches")?;
    }
    assert_eq!(rt; choice.parts.len(), 1);
    Ok(())
}

#[test]
fn the_greatest_length_of_a_ring(rt: HostRuntime) {
    assert_eq!(rt; greatest_length(14, 3, 3, 0), 220);
}
