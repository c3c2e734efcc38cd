ghost use Rattle.std.specs.Prelude.{◌≡◌, ℕ, ◌+◌, ◌<◌, ◌↔◌, length, slice_index, slice_index_or, map, IsTrue, nat_le};
ghost use Rattle.std.specs.List.{All, AllPairs, list_all};
ghost use Rattle.dali_tree.specs.Tree.{branch_depth};
ghost use Rattle.dali_tree.specs.Fits.{fix_fits, multiplier_fits, is_rising, lam_fits, tree_fits, AreRising, PartFits, first_member, Fits};
ghost use Rattle.dali_tree.specs.Range.{IsInRange};
ghost use Rattle.dali_tree.specs.Ends.{ends_fit, end_depth};

use dali_base::limits::{MOST_BOUND, MOST_DEPTH, MOST_FIXES, MOST_MULTIPLIER};
use dali_problem::Problem;
use dali_tree::{Choice, End, Fix, Part, Tree};

/// Whether a choice fits a problem: all that it names is in range, and its lists rise. Takes no memory, and goes no
/// deeper into a tree than a choice that fits.
pub fn fits(problem: &Problem, choice: &Choice) -> bool
    ensures answer { IsTrue result ↔ Fits (length problem.now.items) (length problem.now.lines) choice.now }
    ensures in_range { IsTrue result → IsInRange (length problem.now.items) (length problem.now.lines) choice.now }
{
    choice_fits(choice, problem.items(), problem.lines())
}

/// Whether a choice fits every problem with so many items and lines. Takes no memory, and goes no deeper into a tree than
/// a choice that fits.
pub fn choice_fits(choice: &Choice, items: u32, lines: u32) -> bool
    ensures { IsTrue result ↔ Fits items lines choice.now }
{
    let parts = choice.parts.as_slice();
    rises(choice.places.as_slice(), items) && all_fit(parts, items, lines) && firsts_rise(parts)
}

/// Whether the numbers rise and are below `end`.
fn rises(numbers: &[u32], end: u32) -> bool
    ensures { IsTrue result ↔ AreRising end numbers.now }
{
    numbers.iter().all(|number| *number < end) && steps_up(numbers)
}

/// Whether each number is below the next.
fn steps_up(numbers: &[u32]) -> bool
    ensures { IsTrue result ↔ AllPairs (λ i j. i < j) numbers.now }
{
    for at in 1..numbers.len() {
        if numbers[at - 1] >= numbers[at] {
            return false;
        }
    }
    true
}

/// Whether each part fits.
fn all_fit(parts: &[Part], items: u32, lines: u32) -> bool
    ensures { IsTrue result ↔ All (PartFits items lines) parts.now }
{
    parts.iter().all(|part| part_fits(part, items, lines))
}

/// Whether a part fits.
fn part_fits(part: &Part, items: u32, lines: u32) -> bool
    ensures { IsTrue result ↔ PartFits items lines part.now }
{
    !part.members.is_empty()
        && rises(part.members.as_slice(), items)
        && part.bound <= MOST_BOUND
        && is_within(&part.tree, MOST_DEPTH)
        && node_fits(&part.tree, items, lines)
}

/// Whether the first members rise from part to part.
fn firsts_rise(parts: &[Part]) -> bool
    ensures { IsTrue result ↔ AllPairs (λ a b. first_member a < first_member b) parts.now }
{
    for at in 1..parts.len() {
        if first_member(&parts[at - 1]) >= first_member(&parts[at]) {
            return false;
        }
    }
    true
}

/// The first member of a part, or 0.
fn first_member(part: &Part) -> u32
    ensures { result ≡ first_member part.now }
{
    match part.members.as_slice().first() {
        Some(place) => *place,
        None => 0,
    }
}

/// Whether no path of the tree has more branches than this.
#[cycle(within)]
fn is_within(tree: &Tree, most: u32) -> bool
    ensures { result ≡ nat_le (branch_depth tree.now) most }
{
    end_is_within(&tree.end, most)
}

/// Whether no path from an end has more branches than this.
#[cycle(within)]
fn end_is_within(end: &End, most: u32) -> bool
    ensures { result ≡ nat_le (end_depth end.now) most }
{
    match end {
        End::Bound { .. } | End::Short { .. } => true,
        End::Branch {
            inside,
            outside,
            ..
        } => most > 0 && is_within(inside.get(), most - 1) && is_within(outside.get(), most - 1),
    }
}

/// Whether every node has at most 1,024 fixes, and all that a tree names is in range.
#[cycle(fitting)]
fn node_fits(tree: &Tree, items: u32, lines: u32) -> bool
    ensures { result ≡ tree_fits items lines tree.now }
{
    let fixes = tree.fixes.as_slice();
    fixes.len() <= MOST_FIXES && fixes_fit(fixes, items, lines) && end_fits(&tree.end, items, lines)
}

/// Whether all that an end names is in range.
#[cycle(fitting)]
fn end_fits(end: &End, items: u32, lines: u32) -> bool
    ensures { result ≡ ends_fit items lines end.now }
{
    match end {
        End::Bound { lam } => lam_fits(lam.as_slice(), lines),
        End::Short { line } => *line < lines,
        End::Branch {
            place,
            lam,
            inside,
            outside,
        } => {
            *place < items
                && lam_fits(lam.as_slice(), lines)
                && node_fits(inside.get(), items, lines)
                && node_fits(outside.get(), items, lines)
        }
    }
}

fn fixes_fit(fixes: &[Fix], items: u32, lines: u32) -> bool
    ensures { result ≡ list_all (fix_fits items lines) fixes.now }
{
    fixes.iter().all(|fix| fix_fits(fix, items, lines))
}

fn fix_fits(fix: &Fix, items: u32, lines: u32) -> bool
    ensures { result ≡ fix_fits items lines fix.now }
{
    match *fix {
        Fix::Barred { place, line } | Fix::Needed { place, line } => place < items && line < lines,
        Fix::Safe { place } => place < items,
    }
}

/// Whether multipliers are 1 to 2^44 on rising lines in range.
fn lam_fits(lam: &[(u32, u64)], lines: u32) -> bool
    ensures { result ≡ lam_fits lines lam.now }
{
    multipliers_fit(lam, lines) && lines_rise(lam)
}

fn multipliers_fit(lam: &[(u32, u64)], lines: u32) -> bool
    ensures { result ≡ list_all (multiplier_fits lines) lam.now }
{
    lam.iter()
        .all(|multiplier| multiplier_fits(multiplier, lines))
}

fn multiplier_fits(multiplier: &(u32, u64), lines: u32) -> bool
    ensures { result ≡ multiplier_fits lines multiplier.now }
{
    multiplier.0 < lines && 1 <= multiplier.1 && multiplier.1 <= MOST_MULTIPLIER
}

/// Whether the lines of multipliers rise.
fn lines_rise(lam: &[(u32, u64)]) -> bool
    ensures { result ≡ is_rising (map (λ m. m.0) lam.now) }
{
    lines_step_up(lam)
}

/// Whether each line is below the next.
fn lines_step_up(lam: &[(u32, u64)]) -> bool
    ensures { IsTrue result ↔ AllPairs (λ a b. a.0 < b.0) lam.now }
{
    for at in 1..lam.len() {
        if lam[at - 1].0 >= lam[at].0 {
            return false;
        }
    }
    true
}
