ghost use Rattle.std.specs.Prelude.{◌≡◌, ℕ, ◌<◌, ◌==◌, ◌↔◌, Bool, true, false, ◌&&◌, ◌||◌, not, length, slice_index_or, IsTrue};
ghost use Rattle.std.specs.List.{All, AllPairs, list_any, list_all};
ghost use Rattle.dali_problem.specs.Clearing.{Clearing, item_at, effect};
ghost use Rattle.dali_problem.specs.Limits.{AreEffects};
ghost use Rattle.dali_problem.specs.Feasible.{has};
ghost use Rattle.dali_tree.specs.Range.{IsPartInRange};
ghost use Rattle.dali_check.specs.Parts.{some_has, ArePartition, changes, AreSeparate};

use dali_problem::{Effect, Problem};
use dali_tree::Part;

/// Whether each place is in one part. There is a mark for each place.
pub(crate) fn are_partition(problem: &Problem, parts: &[Part], marks: &mut [bool]) -> bool
    requires in_range { All (IsPartInRange (length problem.now.items) (length problem.now.lines)) parts.now }
    requires marks { length marks.old ≡ length problem.now.items }
    ensures answer { IsTrue result ↔ ArePartition (length problem.now.items) parts.now }
    ensures marks { length marks.new ≡ length marks.old }
{
    none_empty(parts) && places_apart(parts, marks) && all_marked(marks)
}

/// Whether each part has a member.
fn none_empty(parts: &[Part]) -> bool
    ensures { IsTrue result ↔ All (λ part. 0 < length part.members) parts.now }
{
    parts.iter().all(|part| !part.members.is_empty())
}

/// Whether no place is in two parts. Where that is so, the places of all parts are marked.
fn places_apart(parts: &[Part], marks: &mut [bool]) -> bool
    requires fit { All (λ part. All (λ j. j < length marks.old) part.members) parts.now }
    ensures answer { IsTrue result ↔ AllPairs (λ a b. (j : ℕ) → (has a.members j && has b.members j) ≡ false) parts.now }
    ensures marked { IsTrue result → (j : ℕ) → j < length marks.new → slice_index_or marks.new j false ≡ some_has parts.now j }
    ensures marks { length marks.new ≡ length marks.old }
{
    marks.fill(false);
    for part in parts {
        if !mark_places(part, marks) {
            return false;
        }
    }
    true
}

/// Marks the places of a part where none is marked yet, and answers whether that is so.
fn mark_places(part: &Part, marks: &mut [bool]) -> bool
    requires fit { All (λ j. j < length marks.old) part.now.members }
    ensures answer { IsTrue result ↔ ((j : ℕ) → (slice_index_or marks.old j false && has part.now.members j) ≡ false) }
    ensures marked { IsTrue result → (j : ℕ) → slice_index_or marks.new j false ≡ (slice_index_or marks.old j false || has part.now.members j) }
    ensures marks { length marks.new ≡ length marks.old }
{
    let members = part.members.as_slice();
    if !all_free(members, marks) {
        return false;
    }
    mark_all(members, marks);
    true
}

/// Whether none of these is marked.
fn all_free(numbers: &[u32], marks: &[bool]) -> bool
    requires { All (λ j. j < length marks.now) numbers.now }
    ensures { result ≡ list_all (λ j. not (slice_index_or marks.now j false)) numbers.now }
{
    numbers.iter().all(|number| !marks[*number as usize])
}

/// Marks these.
pub(crate) fn mark_all(numbers: &[u32], marks: &mut [bool])
    requires { All (λ j. j < length marks.old) numbers.now }
    ensures marked { (j : ℕ) → slice_index_or marks.new j false ≡ (slice_index_or marks.old j false || has numbers.now j) }
    ensures marks { length marks.new ≡ length marks.old }
{
    for number in numbers {
        marks[*number as usize] = true;
    }
}

/// Whether no line is changed by two parts. There is a mark for each line.
pub(crate) fn are_separate(problem: &Problem, parts: &[Part], marks: &mut [bool]) -> bool
    requires in_range { All (IsPartInRange (length problem.now.items) (length problem.now.lines)) parts.now }
    requires marks { length marks.old ≡ length problem.now.lines }
    ensures answer { IsTrue result ↔ AreSeparate problem.now parts.now }
    ensures marks { length marks.new ≡ length marks.old }
{
    lines_apart(problem, parts, marks)
}

/// The same, for parts whose members are in range.
fn lines_apart(problem: &Problem, parts: &[Part], marks: &mut [bool]) -> bool
    requires fit { All (λ part. All (λ j. j < length problem.now.items) part.members) parts.now }
    requires marks { length marks.old ≡ length problem.now.lines }
    ensures answer { IsTrue result ↔ AllPairs (λ a b. (l : ℕ) → (changes problem.now a l && changes problem.now b l) ≡ false) parts.now }
    ensures marks { length marks.new ≡ length marks.old }
{
    marks.fill(false);
    for part in parts {
        if !mark_lines(problem, part, marks) {
            return false;
        }
    }
    true
}

/// Marks the lines that a part changes where none is marked yet, and answers whether that is so.
fn mark_lines(problem: &Problem, part: &Part, marks: &mut [bool]) -> bool
    requires fit { All (λ j. j < length problem.now.items) part.now.members }
    requires marks { length marks.old ≡ length problem.now.lines }
    ensures answer { IsTrue result ↔ ((l : ℕ) → (slice_index_or marks.old l false && changes problem.now part.now l) ≡ false) }
    ensures marked { IsTrue result → (l : ℕ) → slice_index_or marks.new l false ≡ (slice_index_or marks.old l false || changes problem.now part.now l) }
    ensures marks { length marks.new ≡ length marks.old }
{
    let _items = problem.items();
    let members = part.members.as_slice();
    if !lines_free(problem, members, marks) {
        return false;
    }
    mark_changed(problem, members, marks);
    true
}

/// Whether these places change no line that is marked.
fn lines_free(problem: &Problem, members: &[u32], marks: &[bool]) -> bool
    requires fit { All (λ j. j < length problem.now.items) members.now }
    requires marks { length marks.now ≡ length problem.now.lines }
    ensures { result ≡ list_all (λ j. list_all (λ e. not (slice_index_or marks.now e.line false)) (item_at problem.now j).effects) members.now }
{
    members
        .iter()
        .all(|place| place_is_free(problem, *place, marks))
}

fn place_is_free(problem: &Problem, place: u32, marks: &[bool]) -> bool
    requires place { place < length problem.now.items }
    requires marks { length marks.now ≡ length problem.now.lines }
    ensures { result ≡ list_all (λ e. not (slice_index_or marks.now e.line false)) (item_at problem.now place).effects }
{
    effects_free(problem.effects(place), marks)
}

fn effects_free(effects: &[Effect], marks: &[bool]) -> bool
    requires { All (λ e. e.line < length marks.now) effects.now }
    ensures { result ≡ list_all (λ e. not (slice_index_or marks.now e.line false)) effects.now }
{
    effects.iter().all(|effect| !marks[effect.line as usize])
}

/// Marks the lines that these places change.
fn mark_changed(problem: &Problem, members: &[u32], marks: &mut [bool])
    requires fit { All (λ j. j < length problem.now.items) members.now }
    requires marks { length marks.old ≡ length problem.now.lines }
    ensures marked { (l : ℕ) → slice_index_or marks.new l false
        ≡ (slice_index_or marks.old l false || list_any (λ j. list_any (λ e. e.line == l) (item_at problem.now j).effects) members.now) }
    ensures marks { length marks.new ≡ length marks.old }
{
    for place in members {
        mark_effects(problem.effects(*place), marks);
    }
}

/// Marks the lines of these effects.
fn mark_effects(effects: &[Effect], marks: &mut [bool])
    requires { All (λ e. e.line < length marks.old) effects.now }
    ensures marked { (l : ℕ) → slice_index_or marks.new l false ≡ (slice_index_or marks.old l false || list_any (λ e. e.line == l) effects.now) }
    ensures marks { length marks.new ≡ length marks.old }
{
    for effect in effects {
        marks[effect.line as usize] = true;
    }
}

fn all_marked(marks: &[bool]) -> bool
    ensures { IsTrue result ↔ All (λ m. m ≡ true) marks.now }
{
    marks.iter().all(|mark| *mark)
}
