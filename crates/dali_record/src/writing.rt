ghost use Rattle.std.specs.Prelude.{◌≡◌, ◌++◌, OnOk, IsTrue};
ghost use Rattle.dali_base.specs.Limits.{most_items, most_lines};
ghost use Rattle.dali_tree.specs.Fits.{tree_fits};
ghost use Rattle.dali_tree.specs.Ends.{ends_fit};
ghost use Rattle.dali_record.specs.Multipliers.{Rises, all_zero, multiplier};
ghost use Rattle.dali_record.specs.TreeText.{places_text, list_text, fix_text, multiplier_text, lam_text, tree_text, ends_text};

use crate::multipliers::changes_between;
use crate::numbers::{put_count, put_eight, put_two};
use dali_base::{OutOfMemory, Text};
use dali_tree::{End, Fix, Tree};
use std::alloc::Global;

/// Adds a list of places.
pub(crate) fn put_places(out: &mut Text, places: &[u32]) -> Result<(), OutOfMemory>
    ensures { OnOk result (out.new ≡ out.old ++ places_text places.now) }
{
    put_count(out, places.len())?;
    for place in places {
        put_two(out, *place)?;
    }
    Ok(())
}

fn put_fixes(out: &mut Text, fixes: &[Fix]) -> Result<(), OutOfMemory>
    ensures { OnOk result (out.new ≡ out.old ++ list_text fix_text fixes.now) }
{
    put_count(out, fixes.len())?;
    for fix in fixes {
        put_fix(out, fix)?;
    }
    Ok(())
}

fn put_fix(out: &mut Text, fix: &Fix) -> Result<(), OutOfMemory>
    ensures { OnOk result (out.new ≡ out.old ++ fix_text fix.now) }
{
    match *fix {
        Fix::Barred { place, line } => {
            out.push(1)?;
            put_two(out, place)?;
            put_two(out, line)
        }
        Fix::Needed { place, line } => {
            out.push(2)?;
            put_two(out, place)?;
            put_two(out, line)
        }
        Fix::Safe { place } => {
            out.push(3)?;
            put_two(out, place)
        }
    }
}

/// Adds a node's multipliers, as changes from those of the branch above.
fn put_lam(
    alloc: Global,
    out: &mut Text,
    above: &[(u32, u64)],
    lam: &[(u32, u64)],
) -> Result<(), OutOfMemory>
    ensures { OnOk result (Rises 0 most_lines above.now → Rises 0 most_lines lam.now → out.new ≡ out.old ++ lam_text (multiplier above.now) lam.now) }
{
    let changes = changes_between(alloc, above, lam)?;
    put_multipliers(out, changes.as_slice())
}

fn put_multipliers(out: &mut Text, multipliers: &[(u32, u64)]) -> Result<(), OutOfMemory>
    ensures { OnOk result (out.new ≡ out.old ++ list_text multiplier_text multipliers.now) }
{
    put_count(out, multipliers.len())?;
    for multiplier in multipliers {
        put_multiplier(out, multiplier)?;
    }
    Ok(())
}

fn put_multiplier(out: &mut Text, multiplier: &(u32, u64)) -> Result<(), OutOfMemory>
    ensures { OnOk result (out.new ≡ out.old ++ multiplier_text multiplier.now) }
{
    put_two(out, multiplier.0)?;
    put_eight(out, multiplier.1)
}

/// Adds a part's tree.
pub(crate) fn put_root(alloc: Global, out: &mut Text, tree: &Tree) -> Result<(), OutOfMemory>
    requires { IsTrue (tree_fits most_items most_lines tree.now) }
    ensures { OnOk result (out.new ≡ out.old ++ tree_text tree.now all_zero) }
{
    put_tree(alloc, out, &[], tree)
}

/// Adds a tree that fits, below these multipliers of the branch above.
#[cycle(putting)]
fn put_tree(
    alloc: Global,
    out: &mut Text,
    above: &[(u32, u64)],
    tree: &Tree,
) -> Result<(), OutOfMemory>
    ensures { OnOk result (Rises 0 most_lines above.now → IsTrue (tree_fits most_items most_lines tree.now) →
        out.new ≡ out.old ++ tree_text tree.now (multiplier above.now)) }
{
    put_fixes(out, tree.fixes.as_slice())?;
    put_end(alloc, out, above, &tree.end)
}

/// Adds an end that fits, likewise.
#[cycle(putting)]
fn put_end(
    alloc: Global,
    out: &mut Text,
    above: &[(u32, u64)],
    end: &End,
) -> Result<(), OutOfMemory>
    ensures { OnOk result (Rises 0 most_lines above.now → IsTrue (ends_fit most_items most_lines end.now) →
        out.new ≡ out.old ++ ends_text end.now (multiplier above.now)) }
{
    match end {
        End::Bound { lam } => {
            out.push(4)?;
            put_lam(alloc, out, above, lam.as_slice())
        }
        End::Short { line } => {
            out.push(5)?;
            put_two(out, *line)
        }
        End::Branch {
            place,
            lam,
            inside,
            outside,
        } => {
            out.push(6)?;
            put_two(out, *place)?;
            put_lam(alloc, out, above, lam.as_slice())?;
            put_tree(alloc, out, lam.as_slice(), inside.get())?;
            put_tree(alloc, out, lam.as_slice(), outside.get())
        }
    }
}
