ghost use Rattle.std.specs.Prelude.{◌≡◌, ℕ, ◌+◌, ◌^◌, ◌<◌, ◌≤◌, length, slice_index, IfOk, IsTrue};
ghost use Rattle.std.specs.List.{All, AllPairs};
ghost use Rattle.dali_base.specs.Limits.{most_multiplier};
ghost use Rattle.dali_tree.specs.Fits.{lam_fits};
ghost use Rattle.dali_lagrange.specs.Listed.{IsNext};
ghost use Rattle.dali_lagrange.specs.Multipliers.{multiplier};

use crate::kept::Kept;
use dali_base::{OutOfMemory, Seq};
use dali_problem::Problem;
use dali_tree::Lam;
use std::alloc::Global;

/// The multiplier of a line, where those before `next` stand on lines before it, and the others not. Then `next` is
/// right for the line behind it.
pub(crate) fn next_multiplier(lam: &[(u32, u64)], next: &mut usize, line: u32) -> u64
    requires rising { AllPairs (λ (a b : ℕ × ℕ). a.0 < b.0) lam.now }
    requires bounded { All (λ (m : ℕ × ℕ). m.1 ≤ most_multiplier) lam.now }
    requires next { IsNext lam.now next.old line }
    ensures value { result ≡ multiplier lam.now line }
    ensures bounded { result ≤ most_multiplier }
    ensures next { IsNext lam.now next.new (line + 1) }
{
    if *next < lam.len() && lam[*next].0 == line {
        let to = lam[*next].1;
        *next += 1;
        to
    } else {
        0
    }
}

/// The multipliers that aren't 0, on rising lines.
pub(crate) fn listed(alloc: Global, problem: &Problem, kept: &Kept) -> Result<Lam, OutOfMemory>
    requires { length kept.now.multipliers ≡ length problem.now.lines }
    ensures fits { IfOk result (λ lam. IsTrue (lam_fits (length problem.now.lines) lam)) }
    ensures multipliers { IfOk result (λ lam. (l : ℕ) → l < length problem.now.lines → multiplier lam l ≡ slice_index kept.now.multipliers l) }
{
    let mut lam = Seq::new(alloc);
    for line in 0..problem.lines() {
        let multiplier = kept.multiplier(line);
        if multiplier > 0 {
            lam.push((line, multiplier))?;
        }
    }
    Ok(lam)
}
