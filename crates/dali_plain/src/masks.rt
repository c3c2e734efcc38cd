ghost use Rattle.std.specs.Prelude.{◌≡◌, ℕ, ◌^◌, ◌<◌, ◌≤◌, ◌↔◌, ◌+ℤ◌, length, IsTrue, IfOk};
ghost use Rattle.dali_problem.specs.Sums.{sum_over};
ghost use Rattle.dali_problem.specs.Clearing.{effect, on_line};
ghost use Rattle.dali_problem.specs.Limits.{Within};
ghost use Rattle.dali_problem.specs.Feasible.{ArePlaces, booked, IsFeasible, value_of};
ghost use Rattle.dali_problem.specs.Rules.{is_negative};
ghost use Rattle.dali_plain.specs.Masks.{places_of, IsReached, IsGreatest};

use dali_base::{OutOfMemory, Places};
use dali_problem::{Effect, Problem};
use std::alloc::Global;

/// Whether no line is negative after all items of a mask at once.
pub fn is_feasible_mask(problem: &Problem, mask: u32) -> bool
    ensures { IsTrue result ↔ IsFeasible problem.now (places_of problem.now mask) }
{
    for line in 0..problem.lines() {
        let kept = booked_by(problem, mask, line);
        if is_negative(&kept) {
            return false;
        }
    }
    true
}

/// The sum of the values of the items of a mask, in centavos.
pub fn value_of_mask(problem: &Problem, mask: u32) -> u64
    ensures { result ≡ value_of problem.now (places_of problem.now mask) }
{
    let mut total = 0;
    let mut left = mask;
    for place in 0..problem.items() {
        if left % 2 == 1 {
            total += problem.value(place);
        }
        left /= 2;
    }
    total
}

/// The places of a mask, rising, or want of memory.
pub fn places_of_mask(alloc: Global, problem: &Problem, mask: u32) -> Result<Places, OutOfMemory>
    ensures places { IfOk result (λ places. places ≡ places_of problem.now mask) }
    ensures set { IfOk result (λ places. ArePlaces problem.now places) }
{
    let mut places = Places::new(alloc);
    let mut left = mask;
    for place in 0..problem.items() {
        if left % 2 == 1 {
            places.push(place)?;
        }
        left /= 2;
    }
    Ok(places)
}

/// The greatest value of any feasible set of a problem of up to ten items, in centavos.
pub fn best_of(problem: &Problem) -> u64
    requires { length problem.now.items ≤ 10 }
    ensures { IsGreatest problem.now result }
{
    let sets = 1u32 << problem.items();
    let mut best = 0;
    for mask in 0..sets {
        best = raised(problem, mask, best);
    }
    best
}

/// The value of a mask, where it is feasible and worth more than the best one before it, which is worth `best`; else
/// `best`.
fn raised(problem: &Problem, mask: u32, best: u64) -> u64
    requires { IsReached problem.now best }
    ensures reached { IsReached problem.now result }
    ensures not_below { best ≤ result }
    ensures covered { IsFeasible problem.now (places_of problem.now mask) → value_of problem.now (places_of problem.now mask) ≤ result }
{
    if !is_feasible_mask(problem, mask) {
        return best;
    }
    let value = value_of_mask(problem, mask);
    if value <= best {
        return best;
    }
    value
}

/// What a line has after all items of a mask at once.
fn booked_by(problem: &Problem, mask: u32, line: u32) -> i128
    requires { line < length problem.now.lines }
    ensures { result ≡ booked problem.now (places_of problem.now mask) line }
{
    let mut total = i128::from(problem.line(line).balance);
    add_mask(problem, mask, line, &mut total);
    total
}

/// Adds what the items of a mask change a line by.
fn add_mask(problem: &Problem, mask: u32, line: u32, total: &mut i128)
    requires { Within (2 ^ 60) total.old }
    ensures exact { total.new ≡ total.old +ℤ sum_over (λ j. effect problem.now j line) (places_of problem.now mask) }
    ensures bounded { Within (2 ^ 70) total.new }
{
    let mut left = mask;
    for place in 0..problem.items() {
        if left % 2 == 1 {
            add_item(problem, place, line, total);
        }
        left /= 2;
    }
}

/// Adds what an item changes a line by.
fn add_item(problem: &Problem, place: u32, line: u32, total: &mut i128)
    requires place { place < length problem.now.items }
    requires room { Within (2 ^ 70) total.old }
    ensures { total.new ≡ total.old +ℤ effect problem.now place line }
{
    for effect in problem.effects(place) {
        add_effect(effect, line, total);
    }
}

/// Adds what one effect changes a line by.
#[tactic(auto, using(std::proofs::lemmas::Int::ints))]
fn add_effect(effect: &Effect, line: u32, total: &mut i128)
    requires { Within (2 ^ 100) total.old }
    ensures { total.new ≡ total.old +ℤ on_line line effect.now }
{
    if effect.line == line {
        *total += i128::from(effect.amount);
    }
}

fn is_negative(sum: &i128) -> bool
    ensures { result ≡ is_negative sum.now }
{
    *sum < 0
}
