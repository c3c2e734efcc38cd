ghost use Rattle.std.specs.Prelude.{◌≡◌, ℕ, ◌+◌, ◌*◌, ◌^◌, ◌<◌, ◌≤◌, ◌↔◌, ℤ, pos, ◌+ℤ◌, ◌≤ℤ◌, List, length, slice_index_or, IsTrue, IfOk};
ghost use Rattle.std.specs.List.{All};
ghost use Rattle.dali_problem.specs.Sums.{sum_over};
ghost use Rattle.dali_problem.specs.Clearing.{balance, on_line};
ghost use Rattle.dali_problem.specs.Limits.{Within, AreEffects};
ghost use Rattle.dali_problem.specs.Feasible.{ArePlaces, booked, IsFeasible, value_of};

use crate::line_sum::change;
use crate::problem::Problem;
use crate::row::Effect;
use dali_base::{OutOfMemory, Places};
use std::alloc::Global;
use std::marker::Model;

/// A sum for each line of a problem. Contracts see the number of lines.
#[derive(Debug, Drop)]
pub struct Sums {
    at: Vec<i128>,
}

impl Model for Sums {
    ghost use Rattle.std.specs.Prelude.{ℕ, length};

    ghost Value = { ℕ };

    ghost view = { λ s. length s.at.items };
}

impl Sums {
    /// A sum for each line of this problem. Answers only want of memory but Ok.
    pub fn new(alloc: Global, problem: &Problem) -> Result<Sums, OutOfMemory>
        ensures { IfOk result (λ sums. sums ≡ length problem.now.lines) }
    {
        let lines = problem.lines() as usize;
        Ok(Sums {
            at: vec![in alloc; 0; lines]?,
        })
    }
}

impl Problem {
    /// Whether no line is negative after all effects of these places at once, as `specs/Feasible.antt` defines it.
    pub fn is_feasible(&self, places: &Places, sums: &mut Sums) -> bool
        requires places { ArePlaces self.now places.now }
        requires sums { sums.old ≡ length self.now.lines }
        ensures answer { IsTrue result ↔ IsFeasible self.now places.now }
        ensures lines { sums.new ≡ sums.old }
    {
        let at = sums.at.as_mut_slice();
        begin(at, self);
        book(at, self, places.as_slice());
        none_negative(at)
    }

    /// The sum of the values of these places, in centavos times rank: at most 16,384 * 10^15. `specs/Feasible.antt` defines
    /// it.
    pub fn value_of(&self, places: &Places) -> u64
        requires { ArePlaces self.now places.now }
        ensures { result ≡ value_of self.now places.now }
    {
        let listed = places.as_slice();
        let mut total = 0;
        for place in listed {
            total += self.value(*place);
        }
        total
    }
}

/// Each line's balance.
fn begin(at: &mut [i128], problem: &Problem)
    requires { length at.old ≡ length problem.now.lines }
    ensures { (l : ℕ) → l < length at.new → slice_index_or at.new l (pos 0) ≡ balance problem.now l }
{
    for line in 0..problem.lines() {
        at[line as usize] = i128::from(problem.line(line).balance);
    }
}

/// Each line with the effects of the places added.
fn book(at: &mut [i128], problem: &Problem, places: &[u32])
    requires lines { length at.old ≡ length problem.now.lines }
    requires places { ArePlaces problem.now places.now }
    requires balances { (l : ℕ) → l < length at.old → slice_index_or at.old l (pos 0) ≡ balance problem.now l }
    ensures { (l : ℕ) → l < length at.new → slice_index_or at.new l (pos 0) ≡ booked problem.now places.now l }
{
    for place in places {
        add(at, problem.effects(*place));
    }
}

/// Each line with these effects added.
fn add(at: &mut [i128], effects: &[Effect])
    requires room { All (Within (2 ^ 124)) at.old }
    requires effects { AreEffects (length at.old) effects.now }
    ensures { (l : ℕ) → l < length at.new → slice_index_or at.new l (pos 0)
        ≡ slice_index_or at.old l (pos 0) +ℤ sum_over (on_line l) effects.now }
{
    for effect in effects {
        change(&mut at[effect.line as usize], effect);
    }
}

fn none_negative(at: &[i128]) -> bool
    ensures { IsTrue result ↔ All (λ z. pos 0 ≤ℤ z) at.now }
{
    at.iter().all(|sum| *sum >= 0)
}
