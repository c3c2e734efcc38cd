use dali_base::{OutOfMemory, Places, Seq};
use dali_tree::{Choice, End, Fix, Part, Tree};
use sqlite_items::Boxed;
use std::alloc::Global;

/// A bound end behind these fixes, with these multipliers on their lines.
pub(crate) fn bound(alloc: Global, fixes: &[Fix], lam: &[(u32, u64)]) -> Result<Tree, OutOfMemory> {
    let mut listed = Seq::new(alloc);
    listed.extend(fixes)?;
    let mut multipliers = Seq::new(alloc);
    multipliers.extend(lam)?;
    Ok(Tree {
        fixes: listed,
        end: End::Bound { lam: multipliers },
    })
}

/// A branch on a place, with these multipliers on their lines.
pub(crate) fn branch(
    alloc: Global,
    place: u32,
    lam: &[(u32, u64)],
    inside: Tree,
    outside: Tree,
) -> Result<Tree, OutOfMemory> {
    let mut multipliers = Seq::new(alloc);
    multipliers.extend(lam)?;
    Ok(Tree {
        fixes: Seq::new(alloc),
        end: End::Branch {
            place,
            lam: multipliers,
            inside: Boxed::new(alloc, inside)?,
            outside: Boxed::new(alloc, outside)?,
        },
    })
}

/// Branches on place 0, with this multiplier on line 0, and on place 1 where that is left; the other places follow.
pub(crate) fn two_branches(alloc: Global, multiplier: u64) -> Result<Tree, OutOfMemory> {
    let first = Fix::Barred { place: 1, line: 0 };
    let second = Fix::Barred { place: 2, line: 0 };
    let inside = bound(alloc, &[first, second], &[])?;
    let taken = bound(alloc, &[second], &[])?;
    let left = bound(alloc, &[Fix::Safe { place: 2 }], &[])?;
    let outside = branch(alloc, 1, &[(0, 4096)], taken, left)?;
    branch(alloc, 0, &[(0, multiplier)], inside, outside)
}

/// A branch on place 0, one on place 1 where that is left, and so on, so many. Each has 4,096 on line 0, as each of the
/// ends. From place 1,024 on they go by place 0 again.
pub(crate) fn chain(alloc: Global, branches: u32) -> Result<Tree, OutOfMemory> {
    let mut tree = bound(alloc, &[], &[(0, 4096)])?;
    for made in 0..branches {
        let inside = bound(alloc, &[], &[(0, 4096)])?;
        let place = (branches - 1 - made) % 1024;
        tree = branch(alloc, place, &[(0, 4096)], inside, tree)?;
    }
    Ok(tree)
}

/// A list of these places.
pub(crate) fn listed(alloc: Global, places: &[u32]) -> Result<Places, OutOfMemory> {
    let mut list = Places::new(alloc);
    list.extend(places)?;
    Ok(list)
}

/// A set, with one part of these members.
pub(crate) fn one_part(
    alloc: Global,
    set: &[u32],
    members: &[u32],
    bound: u64,
    tree: Tree,
) -> Result<Choice, OutOfMemory> {
    let mut parts = Seq::new(alloc);
    parts.push(Part {
        members: listed(alloc, members)?,
        bound,
        tree,
    })?;
    Ok(Choice {
        places: listed(alloc, set)?,
        parts,
    })
}

/// The set of place 0, with one part of places 0 to 2.
pub(crate) fn choice(alloc: Global, bound: u64, tree: Tree) -> Result<Choice, OutOfMemory> {
    one_part(alloc, &[0], &[0, 1, 2], bound, tree)
}

/// The set of place 0, with one part of the first so many places.
pub(crate) fn choice_among(
    alloc: Global,
    members: u32,
    bound: u64,
    tree: Tree,
) -> Result<Choice, OutOfMemory> {
    let mut first = Places::new(alloc);
    for place in 0..members {
        first.push(place)?;
    }
    one_part(alloc, &[0], first.as_slice(), bound, tree)
}

/// The set of places 0 and 3, with a part of places 0 to 2 that two branches bound by 4, and one of place 3 with this
/// bound.
pub(crate) fn two_parts(alloc: Global, second: u64) -> Result<Choice, OutOfMemory> {
    let tree = two_branches(alloc, 4096)?;
    let mut choice = one_part(alloc, &[0, 3], &[0, 1, 2], 4, tree)?;
    let part = Part {
        members: listed(alloc, &[3])?,
        bound: second,
        tree: bound(alloc, &[], &[])?,
    };
    choice.parts.push(part)?;
    Ok(choice)
}
