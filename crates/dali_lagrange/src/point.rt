ghost use Rattle.std.specs.Prelude.{◌≡◌, ℕ, ◌^◌, ◌<◌, ◌≤◌, length, slice_index, slice_set, IfOk};
ghost use Rattle.std.specs.Prelude.{replicate};
ghost use Rattle.std.specs.List.{All};
ghost use Rattle.dali_base.specs.Limits.{most_multiplier};
ghost use Rattle.dali_lagrange.specs.Multipliers.{AreMultipliers, multiplier};

use dali_base::OutOfMemory;
use dali_problem::Problem;
use dali_tree::Lam;
use std::alloc::Global;
use std::marker::Model;

/// One multiplier for each line of a problem, each at most 2^44.
#[derive(Debug, Drop)]
pub struct Point {
    multipliers: Vec<u64>,
}

impl Model for Point {
    ghost use Rattle.std.specs.Prelude.{List, ℕ, ◌≤◌, ◌^◌};
    ghost use Rattle.std.specs.List.{All};
    ghost use Rattle.dali_base.specs.Limits.{most_multiplier};

    ghost Value = { List ℕ };

    ghost view = { λ s. s.multipliers.items };

    ghost invariant = { λ s. All (λ m. m ≤ most_multiplier) s.multipliers.items };
}

impl Point {
    /// A multiplier of 0 for each line of the problem. Answers only want of memory but Ok.
    pub fn new(alloc: Global, problem: &Problem) -> Result<Point, OutOfMemory>
        ensures { IfOk result (λ point. point ≡ replicate (length problem.now.lines) 0) }
    {
        Ok(Point {
            multipliers: vec![in alloc; 0; problem.lines() as usize]?,
        })
    }

    /// Takes on these multipliers, each at most 2^44, on rising lines. A line that isn't listed gets 0.
    pub fn load(&mut self, lam: &Lam)
        requires { AreMultipliers (length self.old) lam.now }
        ensures lines { length self.new ≡ length self.old }
        ensures multipliers { (l : ℕ) → l < length self.new → slice_index self.new l ≡ multiplier lam.now l }
    {
        load(lam.as_slice(), self.multipliers.as_mut_slice());
    }

    /// The number of lines.
    pub(crate) fn len(&self) -> usize
        ensures count { result ≡ length self.now }
        ensures bounded { All (λ m. m ≤ most_multiplier) self.now }
    {
        self.multipliers.len()
    }

    /// The multiplier of a line, at most 2^44.
    pub fn get(&self, line: u32) -> u64
        requires { line < length self.now }
        ensures value { result ≡ slice_index self.now line }
        ensures bounded { result ≤ most_multiplier }
    {
        self.multipliers[line as usize]
    }

    /// Gives a line this multiplier, at most 2^44. No other line changes.
    pub fn set(&mut self, line: u32, to: u64)
        requires line { line < length self.old }
        requires bounded { to ≤ most_multiplier }
        ensures { self.new ≡ slice_set self.old line to }
    {
        self.multipliers[line as usize] = to;
    }
}

/// Writes each listed multiplier on its line, the last one first, and 0 on the others.
fn load(lam: &[(u32, u64)], multipliers: &mut [u64])
    requires { AreMultipliers (length multipliers.old) lam.now }
    ensures multipliers { (l : ℕ) → l < length multipliers.new → slice_index multipliers.new l ≡ multiplier lam.now l }
    ensures bounded { All (λ m. m ≤ most_multiplier) multipliers.new }
{
    multipliers.fill(0);
    let mut left = lam.len();
    while left > 0 {
        left -= 1;
        let (line, to) = lam[left];
        multipliers[line as usize] = to;
    }
}
