ghost use Rattle.std.specs.Prelude.{◌≡◌, ◌<◌, ◌==◌, ◌&&◌, ◌||◌, length, IsTrue, slice_set, if◌then◌else◌};
ghost use Rattle.std.specs.List.{All};
ghost use Rattle.dali_problem.specs.declared.mark.Mark.TheVariants.{Undecided, Chosen, Left};
ghost use Rattle.dali_problem.specs.Partial.{mark};
ghost use Rattle.dali_problem.specs.Kept.{IsOf};
ghost use Rattle.dali_tree.specs.Range.{lam_in_range, tree_in_range, IsPartInRange};
ghost use Rattle.dali_check.specs.Ends.{lean_ends, tight_ends};
ghost use Rattle.dali_tree.specs.Ends.{ends_in_range};
ghost use Rattle.dali_check.specs.Lean.{is_finished, is_led, is_tight, lean_tree, tight_tree, lean_part};
ghost use Rattle.dali_check.specs.Room.{IsReady, IsFor};

use crate::members::{enter, leave};
use crate::reduced::is_open;
use crate::scratch::Scratch;
use crate::standing::{exceeds, is_nearest, is_tight, is_worked, reaches, take_on};
use dali_fixes::{apply, undo};
use dali_lagrange::Kept;
use dali_problem::{Partial, Problem};
use dali_tree::{End, Lam, Part, Tree};

/// What a part claims: its bound, and the value of its chosen places, in centavos.
#[derive(Clone, Copy)]
struct Claim {
    bound: u64,
    value: u64,
}

/// Whether the part is lean, by `lean_part` of `specs/Lean.antt`, where `value` is what its chosen places are worth, in
/// centavos. Takes no memory.
pub fn lean(problem: &Problem, part: &Part, value: u64, scratch: &mut Scratch) -> bool
    requires made { IsFor problem.now scratch.old }
    requires in_range { IsPartInRange (length problem.now.items) (length problem.now.lines) part.now }
    ensures answer { result ≡ lean_part problem.now part.now value }
    ensures made { IsFor problem.now scratch.new }
{
    lean_with(
        problem,
        part,
        value,
        &mut scratch.partial,
        &mut scratch.kept,
    )
}

/// The same with what it takes of a scratch.
pub(crate) fn lean_with(
    problem: &Problem,
    part: &Part,
    value: u64,
    partial: &mut Partial,
    kept: &mut Kept,
) -> bool
    requires of { IsOf problem.now partial.old }
    requires idle { All (λ m. m ≡ Left) partial.old.marks }
    requires ready { IsReady problem.now kept.old }
    requires in_range { IsPartInRange (length problem.now.items) (length problem.now.lines) part.now }

    // the answer
    ensures answer { result ≡ lean_part problem.now part.now value }

    // the scratch is as before
    ensures of { IsOf problem.now partial.new }
    ensures idle { All (λ m. m ≡ Left) partial.new.marks }
    ensures ready { IsReady problem.now kept.new }
{
    let members = part.members.as_slice();
    let claim = Claim {
        bound: part.bound,
        value,
    };
    let mut tight = false;
    enter(problem, members, partial);
    let held = node(problem, claim, &part.tree, partial, kept, &mut tight);
    leave(problem, members, partial);
    is_lean(claim, held, tight)
}

fn is_lean(claim: Claim, held: bool, tight: bool) -> bool
    ensures { result ≡ (held && (claim.bound == claim.value || tight)) }
{
    held && (claim.bound == claim.value || tight)
}

/// Whether a tree is lean at a partial choice, which is put back. `tight` becomes true where some bound end has the
/// claimed bound.
#[cycle(leans)]
fn node(
    problem: &Problem,
    claim: Claim,
    tree: &Tree,
    partial: &mut Partial,
    kept: &mut Kept,
    tight: &mut bool,
) -> bool
    requires of { IsOf problem.now partial.old }
    requires ready { IsReady problem.now kept.old }
    requires in_range { IsTrue (tree_in_range (length problem.now.items) (length problem.now.lines) tree.now) }

    // the answer
    ensures answer { result ≡ lean_tree problem.now claim.bound claim.value tree.now partial.old.marks }
    ensures tight { IsTrue result → tight.new ≡ (tight.old || tight_tree problem.now claim.bound tree.now partial.old.marks) }

    // the scratch is as before
    ensures of { IsOf problem.now partial.new }
    ensures marks { partial.new.marks ≡ partial.old.marks }
    ensures ready { IsReady problem.now kept.new }
{
    let fixes = tree.fixes.as_slice();
    let taken = apply(problem, fixes, partial);
    let held = taken == fixes.len() && end(problem, claim, &tree.end, partial, kept, tight);
    undo(problem, &fixes[..taken], partial);
    held
}

/// The same of an end.
#[cycle(leans)]
fn end(
    problem: &Problem,
    claim: Claim,
    end: &End,
    partial: &mut Partial,
    kept: &mut Kept,
    tight: &mut bool,
) -> bool
    requires of { IsOf problem.now partial.old }
    requires ready { IsReady problem.now kept.old }
    requires in_range { IsTrue (ends_in_range (length problem.now.items) (length problem.now.lines) end.now) }

    // the answer
    ensures answer { result ≡ lean_ends problem.now claim.bound claim.value end.now partial.old.marks }
    ensures tight { IsTrue result → tight.new ≡ (tight.old || tight_ends problem.now claim.bound end.now partial.old.marks) }

    // the scratch is as before
    ensures of { IsOf problem.now partial.new }
    ensures marks { partial.new.marks ≡ partial.old.marks }
    ensures ready { IsReady problem.now kept.new }
{
    match end {
        End::Bound { lam } => bound_holds(problem, claim, lam, partial, kept, tight),
        End::Short { .. } => true,
        End::Branch {
            place,
            lam,
            inside,
            outside,
        } => {
            let inside = inside.get();
            let outside = outside.get();
            if !branch_holds(problem, claim, *place, lam, partial, kept) {
                return false;
            }
            if !side(problem, claim, inside, *place, true, partial, kept, tight) {
                return false;
            }
            side(problem, claim, outside, *place, false, partial, kept, tight)
        }
    }
}

/// The same of a tree with this place chosen, or left.
#[cycle(leans)]
fn side(
    problem: &Problem,
    claim: Claim,
    tree: &Tree,
    place: u32,
    chosen: bool,
    partial: &mut Partial,
    kept: &mut Kept,
    tight: &mut bool,
) -> bool
    requires of { IsOf problem.now partial.old }
    requires ready { IsReady problem.now kept.old }
    requires in_range { IsTrue (tree_in_range (length problem.now.items) (length problem.now.lines) tree.now) }
    requires undecided { mark partial.old.marks place ≡ Undecided }

    // the answer
    ensures answer { result
        ≡ lean_tree problem.now claim.bound claim.value tree.now (slice_set partial.old.marks place (if chosen then Chosen else Left)) }
    ensures tight { IsTrue result → tight.new
        ≡ (tight.old || tight_tree problem.now claim.bound tree.now (slice_set partial.old.marks place (if chosen then Chosen else Left))) }

    // the scratch is as before
    ensures of { IsOf problem.now partial.new }
    ensures marks { partial.new.marks ≡ partial.old.marks }
    ensures ready { IsReady problem.now kept.new }
{
    partial.fix(problem, place, chosen);
    let held = node(problem, claim, tree, partial, kept, tight);
    partial.free(problem, place);
    held
}

/// Whether a bound end is closed, or worked and open. `tight` becomes true where it has the claimed bound.
#[tactic(auto, unfolding(crate::specs::Lean::is_finished))]
fn bound_holds(
    problem: &Problem,
    claim: Claim,
    lam: &Lam,
    partial: &Partial,
    kept: &mut Kept,
    tight: &mut bool,
) -> bool
    requires of { IsOf problem.now partial.now }
    requires ready { IsReady problem.now kept.old }
    requires in_range { IsTrue (lam_in_range (length problem.now.lines) lam.now) }
    ensures answer { result ≡ is_finished problem.now claim.value lam.now partial.now.marks }
    ensures tight { tight.new ≡ (tight.old || is_tight problem.now claim.bound lam.now partial.now.marks) }
    ensures ready { IsReady problem.now kept.new }
{
    take_on(problem, lam, partial, kept);
    *tight |= is_tight(kept, claim.bound);
    !exceeds(kept, claim.value) || (is_worked(problem, partial, kept) && is_open(problem, partial))
}

/// Whether a branch has the claimed bound at least, is worked, and goes by the nearest place.
#[tactic(auto, unfolding(crate::specs::Lean::is_led))]
fn branch_holds(
    problem: &Problem,
    claim: Claim,
    place: u32,
    lam: &Lam,
    partial: &Partial,
    kept: &mut Kept,
) -> bool
    requires of { IsOf problem.now partial.now }
    requires ready { IsReady problem.now kept.old }
    requires place { place < length problem.now.items }
    requires in_range { IsTrue (lam_in_range (length problem.now.lines) lam.now) }
    ensures answer { result ≡ is_led problem.now claim.bound lam.now partial.now.marks place }
    ensures undecided { IsTrue result → mark partial.now.marks place ≡ Undecided }
    ensures ready { IsReady problem.now kept.new }
{
    take_on(problem, lam, partial, kept);
    if !reaches(kept, claim.bound) {
        return false;
    }
    if !is_worked(problem, partial, kept) {
        return false;
    }
    is_nearest(problem, partial, kept, place)
}
