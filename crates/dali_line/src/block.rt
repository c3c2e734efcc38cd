ghost use Rattle.std.specs.Prelude.{◌≡◌, ◌≤◌, ◌<◌, ◌==◌, ◌++◌, [], length, take, drop, IfOk, OnOk, OnErr, IsTrue};
ghost use Rattle.dali_outside.specs.Outside.{Rose, Takes};

use dali_base::OutOfMemory;
use dali_outside::{Failed, Source};
use std::alloc::Global;
use std::marker::Model;

/// The bytes that are taken from a source at once.
const BLOCK: usize = 65_536;

/// Bytes that were taken from a source and not used yet. Contracts see the list of them.
#[derive(Debug, Drop)]
pub(crate) struct Block {
    bytes: Vec<u8>,
    start: usize,
    end: usize,
}

impl Model for Block {
    ghost use Rattle.std.specs.Prelude.{List, ℕ};
    ghost use Rattle.dali_line.specs.BlockLayout.{pending_of, IsBlock};

    ghost Value = { List ℕ };

    ghost view = { pending_of };

    ghost invariant = { IsBlock };
}

impl Block {
    pub(crate) fn new(alloc: Global) -> Result<Block, OutOfMemory>
        ensures { IfOk result (λ block. block ≡ []) }
    {
        Ok(Block {
            bytes: vec![in alloc; 0; BLOCK]?,
            start: 0,
            end: 0,
        })
    }

    pub(crate) fn bytes(&self) -> &[u8]
        ensures { result.now ≡ self.now }
    {
        &self.bytes[self.start..self.end]
    }

    pub(crate) fn is_empty(&self) -> bool
        ensures { result ≡ (length self.now == 0) }
    {
        self.start == self.end
    }

    /// Drops the first `n` bytes.
    pub(crate) fn consume(&mut self, n: usize)
        requires { n ≤ length self.old }
        ensures { self.new ≡ drop n self.old }
    {
        self.start += n;
    }

    pub(crate) fn clear(&mut self)
        ensures { self.new ≡ [] }
    {
        self.start = 0;
        self.end = 0;
    }

    /// Takes at most `most` bytes from the source into the empty block, and answers how many. 0 is the end of input.
    pub(crate) fn fill<S: Source>(&mut self, source: &mut S, most: usize) -> Result<usize, Failed>
        requires empty { self.old ≡ [] }
        requires most { 0 < most }

        // what is given
        ensures amount { IfOk result (λ n. length self.new ≡ n) }
        ensures bounded { IfOk result (λ n. n ≤ most) }
        ensures moved { IsTrue S.tells → IfOk result (λ n. (S.feed source.old).left ≡ self.new ++ (S.feed source.new).left) }
        ensures ends { IsTrue S.tells → IfOk result (λ n. n ≡ 0 → (S.feed source.old).left ≡ []) }

        // where it fails
        ensures kept { IsTrue S.tells → OnErr result ((S.feed source.new).left ≡ (S.feed source.old).left) }
        ensures none { OnErr result (self.new ≡ []) }

        // the count of the faults
        ensures faults { (S.feed source.old).faults ≤ (S.feed source.new).faults }
        ensures quiet { OnOk result ((S.feed source.new).faults ≡ (S.feed source.old).faults) }
        ensures failed { OnErr result (Rose (S.feed source.old).faults (S.feed source.new).faults) }
    {
        let n = pull(source, &mut self.bytes[..], most.min(BLOCK))?;
        self.start = 0;
        self.end = n;
        Ok(n)
    }
}

/// Takes at most `most` bytes from the source into the front of these, and answers how many.
fn pull<S: Source>(source: &mut S, bytes: &mut [u8], most: usize) -> Result<usize, Failed>
    requires most { 0 < most }
    requires room { most ≤ length bytes.old }

    // what is given
    ensures length { length bytes.new ≡ length bytes.old }
    ensures bounded { IfOk result (λ n. n ≤ most) }
    ensures moved { IsTrue S.tells → IfOk result (λ n. (S.feed source.old).left ≡ take n bytes.new ++ (S.feed source.new).left) }
    ensures ends { IsTrue S.tells → IfOk result (λ n. n ≡ 0 → (S.feed source.old).left ≡ []) }

    // where it fails
    ensures kept { IsTrue S.tells → OnErr result ((S.feed source.new).left ≡ (S.feed source.old).left) }

    // the count of the faults
    ensures faults { (S.feed source.old).faults ≤ (S.feed source.new).faults }
    ensures quiet { OnOk result ((S.feed source.new).faults ≡ (S.feed source.old).faults) }
    ensures failed { OnErr result (Rose (S.feed source.old).faults (S.feed source.new).faults) }
{
    source.take(&mut bytes[..most])
}
