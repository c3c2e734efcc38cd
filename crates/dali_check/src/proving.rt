ghost use Rattle.std.specs.Prelude.{◌≡◌, ℕ, ◌≤◌, List, length, IsTrue, slice_set, if◌then◌else◌};
ghost use Rattle.dali_problem.specs.declared.mark.Mark.TheVariants.{Undecided, Chosen, Left};
ghost use Rattle.dali_problem.specs.Feasible.{ArePlaces, IsFeasible, value_of};
ghost use Rattle.dali_problem.specs.Rest.{IsSubset};
ghost use Rattle.dali_problem.specs.Partial.{mark, Agrees};
ghost use Rattle.dali_problem.specs.Kept.{IsOf};
ghost use Rattle.dali_tree.specs.Range.{lam_in_range, tree_in_range, IsPartInRange};
ghost use Rattle.dali_check.specs.Proves.{closes, proves_tree, proves_part};
ghost use Rattle.dali_check.specs.Ends.{proves_ends};
ghost use Rattle.dali_tree.specs.Ends.{ends_in_range};
ghost use Rattle.dali_check.specs.Room.{IsReady, IsFor};

use crate::members::{enter, leave};
use crate::scratch::Scratch;
use crate::standing::{exceeds, take_on};
use dali_fixes::{apply, undo};
use dali_lagrange::Kept;
use dali_problem::{Partial, Problem};
use dali_tree::{End, Lam, Part, Tree};

/// Whether the part's tree proves its bound, with its members all undecided, by `proves_part` of `specs/Proves.antt`.
/// Takes no memory.
///
/// Where it does, no feasible set of the part's members is worth more than the bound, in centavos.
pub fn proves(problem: &Problem, part: &Part, scratch: &mut Scratch) -> bool
    requires made { IsFor problem.now scratch.old }
    requires in_range { IsPartInRange (length problem.now.items) (length problem.now.lines) part.now }
    ensures answer { result ≡ proves_part problem.now part.now }
    ensures bound { IsTrue result → (t : List ℕ) → ArePlaces problem.now t → IsFeasible problem.now t → IsSubset t part.now.members →
        value_of problem.now t ≤ part.now.bound }
    ensures made { IsFor problem.now scratch.new }
{
    let members = part.members.as_slice();
    enter(problem, members, &mut scratch.partial);
    let proved = node(
        problem,
        part.bound,
        &part.tree,
        &mut scratch.partial,
        &mut scratch.kept,
    );
    leave(problem, members, &mut scratch.partial);
    proved
}

/// Whether a tree proves the bound at a partial choice, which is put back.
///
/// Where it does, no feasible set that agrees with that choice is worth more than the bound, in centavos.
#[cycle(proves)]
fn node(problem: &Problem, bound: u64, tree: &Tree, partial: &mut Partial, kept: &mut Kept) -> bool
    requires of { IsOf problem.now partial.old }
    requires ready { IsReady problem.now kept.old }
    requires in_range { IsTrue (tree_in_range (length problem.now.items) (length problem.now.lines) tree.now) }

    // the answer, and what it means
    ensures answer { result ≡ proves_tree problem.now bound tree.now partial.old.marks }
    ensures bound { IsTrue result → (t : List ℕ) → ArePlaces problem.now t → IsFeasible problem.now t → Agrees partial.old.marks t →
        value_of problem.now t ≤ bound }

    // the scratch is as before
    ensures of { IsOf problem.now partial.new }
    ensures marks { partial.new.marks ≡ partial.old.marks }
    ensures ready { IsReady problem.now kept.new }
{
    let _items = problem.items();
    let fixes = tree.fixes.as_slice();
    let taken = apply(problem, fixes, partial);
    let proved = taken == fixes.len() && end(problem, bound, &tree.end, partial, kept);
    undo(problem, &fixes[..taken], partial);
    proved
}

/// Whether an end proves the bound at a partial choice, which is put back.
#[cycle(proves)]
fn end(problem: &Problem, bound: u64, end: &End, partial: &mut Partial, kept: &mut Kept) -> bool
    requires of { IsOf problem.now partial.old }
    requires ready { IsReady problem.now kept.old }
    requires in_range { IsTrue (ends_in_range (length problem.now.items) (length problem.now.lines) end.now) }
    ensures answer { result ≡ proves_ends problem.now bound end.now partial.old.marks }
    ensures of { IsOf problem.now partial.new }
    ensures marks { partial.new.marks ≡ partial.old.marks }
    ensures ready { IsReady problem.now kept.new }
{
    match end {
        End::Bound { lam } => closes(problem, bound, lam, partial, kept),
        End::Short { line } => partial.is_short(*line),
        End::Branch {
            place,
            inside,
            outside,
            ..
        } => {
            partial.mark(*place).is_undecided()
                && side(problem, bound, inside.get(), *place, true, partial, kept)
                && side(problem, bound, outside.get(), *place, false, partial, kept)
        }
    }
}

/// Whether a tree proves the bound with this place chosen, or left.
#[cycle(proves)]
fn side(
    problem: &Problem,
    bound: u64,
    tree: &Tree,
    place: u32,
    chosen: bool,
    partial: &mut Partial,
    kept: &mut Kept,
) -> bool
    requires of { IsOf problem.now partial.old }
    requires ready { IsReady problem.now kept.old }
    requires in_range { IsTrue (tree_in_range (length problem.now.items) (length problem.now.lines) tree.now) }
    requires undecided { mark partial.old.marks place ≡ Undecided }

    // the answer
    ensures answer { result ≡ proves_tree problem.now bound tree.now (slice_set partial.old.marks place (if chosen then Chosen else Left)) }

    // the scratch is as before
    ensures of { IsOf problem.now partial.new }
    ensures marks { partial.new.marks ≡ partial.old.marks }
    ensures ready { IsReady problem.now kept.new }
{
    partial.fix(problem, place, chosen);
    let proved = node(problem, bound, tree, partial, kept);
    partial.free(problem, place);
    proved
}

/// Whether the Sum at these multipliers closes an end. Costs the places, the lines, and what touches the lines whose
/// multipliers change.
fn closes(problem: &Problem, bound: u64, lam: &Lam, partial: &Partial, kept: &mut Kept) -> bool
    requires of { IsOf problem.now partial.now }
    requires ready { IsReady problem.now kept.old }
    requires in_range { IsTrue (lam_in_range (length problem.now.lines) lam.now) }
    ensures answer { result ≡ closes problem.now bound lam.now partial.now.marks }
    ensures ready { IsReady problem.now kept.new }
{
    take_on(problem, lam, partial, kept);
    !exceeds(kept, bound)
}
