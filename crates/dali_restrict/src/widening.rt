ghost use Rattle.std.specs.Prelude.{◌≡◌, ℕ, map, length, IfOk};
ghost use Rattle.dali_tree.specs.Fits.{PartFits};
ghost use Rattle.dali_tree.specs.Range.{IsPartInRange};
ghost use Rattle.dali_tree.specs.Tree.{branch_count};
ghost use Rattle.dali_check.specs.Proves.{proves_part};
ghost use Rattle.dali_check.specs.Lean.{lean_part};
ghost use Rattle.dali_restrict.specs.Restriction.{old_of, IsRestriction};
ghost use Rattle.dali_restrict.specs.Widened.{wide_fix, wide_lam, wide_tree, wide_ends, wide_part};

use crate::restriction::Restricted;
use dali_base::{OutOfMemory, Places, Seq};
use dali_problem::Problem;
use dali_tree::{End, Fix, Fixes, Lam, Part, Tree};
use sqlite_items::Boxed;
use std::alloc::Global;

/// A part of the restriction with the old numbers. The part's numbers are in range there. Answers only want of memory but
/// Ok.
///
/// It proves its bound in the whole problem exactly where the part does in the restriction, it is lean there exactly where
/// the part is lean here, and it fits where the part does, with as many branches.
pub fn widen(
    alloc: Global,
    problem: &Problem,
    inner: &Restricted,
    part: &Part,
) -> Result<Part, OutOfMemory>
    requires restriction { IsRestriction problem.now inner.now.places inner.now.problem inner.now.lines }
    requires in_range { IsPartInRange (length inner.now.problem.items) (length inner.now.problem.lines) part.now }
    ensures part { IfOk result (λ wide. wide ≡ wide_part inner.now.places inner.now.lines part.now) }
    ensures proves { IfOk result (λ wide. proves_part problem.now wide ≡ proves_part inner.now.problem part.now) }
    ensures lean { IfOk result (λ wide. (v : ℕ) → lean_part problem.now wide v ≡ lean_part inner.now.problem part.now v) }
    ensures fits { IfOk result (λ wide. PartFits (length inner.now.problem.items) (length inner.now.problem.lines) part.now →
        PartFits (length problem.now.items) (length problem.now.lines) wide) }
    ensures branches { IfOk result (λ wide. branch_count wide.tree ≡ branch_count part.now.tree) }
{
    let _items = problem.items();
    let places = inner.places.as_slice();
    let lines = inner.lines.as_slice();
    let wide = renumbered(alloc, places, lines, part)?;
    Ok(wide)
}

/// The part with these old numbers.
fn renumbered(
    alloc: Global,
    places: &[u32],
    lines: &[u32],
    part: &Part,
) -> Result<Part, OutOfMemory>
    ensures { IfOk result (λ wide. wide ≡ wide_part places.now lines.now part.now) }
{
    Ok(Part {
        members: old_numbers(alloc, places, part.members.as_slice())?,
        bound: part.bound,
        tree: wide_tree(alloc, places, lines, &part.tree)?,
    })
}

/// The old number behind a number; past the last one 0.
pub fn old_of(numbers: &[u32], at: u32) -> u32
    ensures { result ≡ old_of numbers.now at }
{
    if at as usize >= numbers.len() {
        return 0;
    }
    numbers[at as usize]
}

/// The old numbers behind these.
fn old_numbers(alloc: Global, numbers: &[u32], these: &[u32]) -> Result<Places, OutOfMemory>
    ensures { IfOk result (λ old. old ≡ map (old_of numbers.now) these.now) }
{
    let mut old = Seq::new(alloc);
    for at in these {
        old.push(old_of(numbers, *at))?;
    }
    Ok(old)
}

#[cycle(widening)]
fn wide_tree(alloc: Global, places: &[u32], lines: &[u32], tree: &Tree) -> Result<Tree, OutOfMemory>
    ensures { IfOk result (λ wide. wide ≡ wide_tree places.now lines.now tree.now) }
{
    Ok(Tree {
        fixes: wide_fixes(alloc, places, lines, tree.fixes.as_slice())?,
        end: wide_end(alloc, places, lines, &tree.end)?,
    })
}

#[cycle(widening)]
fn wide_end(alloc: Global, places: &[u32], lines: &[u32], end: &End) -> Result<End, OutOfMemory>
    ensures { IfOk result (λ wide. wide ≡ wide_ends places.now lines.now end.now) }
{
    match end {
        End::Bound { lam } => Ok(End::Bound {
            lam: wide_lam(alloc, lines, lam.as_slice())?,
        }),
        End::Short { line } => Ok(End::Short {
            line: old_of(lines, *line),
        }),
        End::Branch {
            place,
            lam,
            inside,
            outside,
        } => Ok(End::Branch {
            place: old_of(places, *place),
            lam: wide_lam(alloc, lines, lam.as_slice())?,
            inside: Boxed::new(alloc, wide_tree(alloc, places, lines, inside.get())?)?,
            outside: Boxed::new(alloc, wide_tree(alloc, places, lines, outside.get())?)?,
        }),
    }
}

fn wide_fixes(
    alloc: Global,
    places: &[u32],
    lines: &[u32],
    fixes: &[Fix],
) -> Result<Fixes, OutOfMemory>
    ensures { IfOk result (λ wide. wide ≡ map (wide_fix places.now lines.now) fixes.now) }
{
    let mut wide = Seq::new(alloc);
    for fix in fixes {
        wide.push(wide_fix(places, lines, *fix))?;
    }
    Ok(wide)
}

fn wide_fix(places: &[u32], lines: &[u32], fix: Fix) -> Fix
    ensures { result ≡ wide_fix places.now lines.now fix }
{
    match fix {
        Fix::Barred { place, line } => Fix::Barred {
            place: old_of(places, place),
            line: old_of(lines, line),
        },
        Fix::Needed { place, line } => Fix::Needed {
            place: old_of(places, place),
            line: old_of(lines, line),
        },
        Fix::Safe { place } => Fix::Safe {
            place: old_of(places, place),
        },
    }
}

fn wide_lam(alloc: Global, lines: &[u32], lam: &[(u32, u64)]) -> Result<Lam, OutOfMemory>
    ensures { IfOk result (λ wide. wide ≡ wide_lam lines.now lam.now) }
{
    let mut wide = Seq::new(alloc);
    for (line, multiplier) in lam {
        wide.push((old_of(lines, *line), *multiplier))?;
    }
    Ok(wide)
}
