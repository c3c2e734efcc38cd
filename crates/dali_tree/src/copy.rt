ghost use Rattle.std.specs.Prelude.{◌≡◌, IfOk};

use crate::choice::{Part, Parts};
use crate::tree::{End, Tree};
use dali_base::{OutOfMemory, Seq};
use sqlite_items::Boxed;
use std::alloc::Global;

/// Equal parts.
pub(crate) fn copy_parts(alloc: Global, parts: &[Part]) -> Result<Parts, OutOfMemory>
    ensures { IfOk result (λ copied. copied ≡ parts.now) }
{
    let mut copied = Seq::new(alloc);
    for part in parts {
        copied.push(copy_part(alloc, part)?)?;
    }
    Ok(copied)
}

fn copy_part(alloc: Global, part: &Part) -> Result<Part, OutOfMemory>
    ensures { IfOk result (λ copied. copied ≡ part.now) }
{
    Ok(Part {
        members: part.members.copy(alloc)?,
        bound: part.bound,
        tree: copy_tree(alloc, &part.tree)?,
    })
}

#[cycle(copy)]
fn copy_tree(alloc: Global, tree: &Tree) -> Result<Tree, OutOfMemory>
    ensures { IfOk result (λ copied. copied ≡ tree.now) }
{
    Ok(Tree {
        fixes: tree.fixes.copy(alloc)?,
        end: copy_end(alloc, &tree.end)?,
    })
}

#[cycle(copy)]
fn copy_end(alloc: Global, end: &End) -> Result<End, OutOfMemory>
    ensures { IfOk result (λ copied. copied ≡ end.now) }
{
    match end {
        End::Bound { lam } => Ok(End::Bound {
            lam: lam.copy(alloc)?,
        }),
        End::Short { line } => Ok(End::Short { line: *line }),
        End::Branch {
            place,
            lam,
            inside,
            outside,
        } => Ok(End::Branch {
            place: *place,
            lam: lam.copy(alloc)?,
            inside: Boxed::new(alloc, copy_tree(alloc, inside.get())?)?,
            outside: Boxed::new(alloc, copy_tree(alloc, outside.get())?)?,
        }),
    }
}
