ghost use Rattle.std.specs.Prelude.{◌≡◌, ℕ, ◌<◌, ◌≤◌, ◌^◌, IfOk};
ghost use Rattle.dali_base.specs.Limits.{most_budget};
ghost use Rattle.dali_problem.specs.Feasible.{ArePlaces};
ghost use Rattle.dali_cert_text.specs.declared.block.Block.{Block};
ghost use Rattle.dali_cert_text.specs.Form.{IsBlock, Spells};
ghost use Rattle.dali_check.specs.Allowed.{Allowed};
ghost use Rattle.dali_check.specs.Parts.{bound_of, branchings_of};
ghost use Rattle.dali_verdict.specs.Verdict.{IsVerdict, SaysOf, figures_of};

use crate::verdict::{Figures, Verdict, Why};
use dali_base::OutOfMemory;
use dali_cert_text::{Block, BlockNo, read_block};
use dali_check::{Scratch, allowed};
use dali_tree::{Part, branchings};
use std::alloc::Global;

/// What is said of these bytes: valid, with the figures of the choice, exactly where all of them together are a block whose
/// choice is allowed; else the line from which they are no block, or the first reason why the choice isn't allowed.
/// `specs/Verdict.antt` defines it. The error is want of memory.
pub fn judge(alloc: Global, bytes: &[u8]) -> Result<Verdict, OutOfMemory>
    ensures verdict { IfOk result (IsVerdict bytes.now) }
    ensures valid { (b : Block) → Spells bytes.now b → Allowed b.problem b.budget b.choice → IfOk result (λ verdict. verdict ≡ Verdict.Valid (figures_of b)) }
{
    match read_block(alloc, bytes) {
        Ok(block) => judge_block(alloc, &block),
        Err(no) => judge_no_block(no),
    }
}

/// What is said of bytes that are read as no block.
fn judge_no_block(refusal: BlockNo) -> Result<Verdict, OutOfMemory>
    ensures { IfOk result (λ verdict. (line : ℕ) × (refusal ≡ BlockNo.Form line) × (verdict ≡ Verdict.Invalid (Why.Form line))) }
{
    match refusal {
        BlockNo::Form { line } => Ok(Verdict::Invalid(Why::Form { line })),
        BlockNo::OutOfMemory => Err(OutOfMemory),
    }
}

/// What is said of a block.
fn judge_block(alloc: Global, block: &Block) -> Result<Verdict, OutOfMemory>
    requires { IsBlock block.now }
    ensures { IfOk result (SaysOf block.now) }
{
    let mut scratch = Scratch::new(alloc, &block.problem)?;
    match allowed(&block.problem, block.budget, &block.choice, &mut scratch) {
        Ok(()) => Ok(Verdict::Valid(figures_of(block))),
        Err(reason) => Ok(Verdict::Invalid(Why::NotAllowed(reason))),
    }
}

/// The figures of a block's choice, which is allowed.
fn figures_of(block: &Block) -> Figures
    requires places { ArePlaces block.now.problem block.now.choice.places }
    requires bound { bound_of block.now.choice.parts < 2 ^ 64 }
    requires branches { branchings_of block.now.choice.parts ≤ most_budget }
    ensures { result ≡ figures_of block.now }
{
    let parts = block.choice.parts.as_slice();
    Figures {
        value: block.problem.value_of(&block.choice.places),
        count: block.choice.places.len() as u64,
        bound: parts.iter().map(|part| part.bound).sum(),
        branchings: branchings_of(parts),
    }
}

/// The branchings of all parts.
fn branchings_of(parts: &[Part]) -> u64
    requires { branchings_of parts.now ≤ most_budget }
    ensures { result ≡ branchings_of parts.now }
{
    let mut all = 0;
    for part in parts {
        all += branchings(&part.tree);
    }
    all
}
