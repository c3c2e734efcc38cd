ghost use Rattle.std.specs.Prelude.{◌≡◌, ◌≤◌, ◌++◌, true, not, length, take, drop, is_ok, IfOk, OnOk, OnErr, IsTrue};
ghost use Rattle.std.specs.Prelude.{min};
ghost use Rattle.dali_outside.specs.Outside.{Rose, Takes};
ghost use Rattle.dali_outside.specs.Memory.{take_fails, given, supply_moved, supply_failed};

use crate::fault::{Failed, Faults, fault_at};
use crate::source::Source;
use dali_base::Text;
use std::marker::Model;

/// A source in memory, which gives its bytes in pieces and fails at the calls that it was told to fail at.
#[derive(Debug, Drop)]
pub struct MemSource {
    bytes: Text,
    at: usize,
    piece: u32,
    fails: Faults,
    made: u64,
    faults: u64,
}

impl Model for MemSource {
    ghost use Rattle.std.specs.Prelude.{◌≤◌, length, drop};
    ghost use Rattle.dali_outside.specs.Memory.{Supply};

    ghost Value = { Supply };

    ghost view = { λ s. record {
      feed = record { left = drop s.at s.bytes; faults = s.faults };
      piece = s.piece;
      fails = s.fails;
      made = s.made;
    } };

    ghost invariant = { λ s. (s.at ≤ length s.bytes) × (1 ≤ s.piece) };
}

impl MemSource {
    /// A source of these bytes. Each take gives at most `piece` bytes, which is at least 1. The listed calls, counted
    /// from 1, fail.
    pub fn new(bytes: Text, piece: u32, fails: Faults) -> MemSource
        requires { 1 ≤ piece }
        ensures { result ≡ record { feed = record { left = bytes; faults = 0 }; piece = piece; fails = fails; made = 0 } }
    {
        MemSource {
            bytes,
            at: 0,
            piece,
            fails,
            made: 0,
            faults: 0,
        }
    }

    /// The number of calls of `take` so far.
    pub fn made(&self) -> u64
        ensures { result ≡ self.now.made }
    {
        self.made
    }
}

impl Source for MemSource {
    ghost tells = { true };

    ghost feed = { λ supply. supply.feed };

    fn take(&mut self, into: &mut [u8]) -> Result<usize, Failed>
        ensures within { IfOk result (λ n. n ≤ length into.old) }
        ensures taken { IfOk result (λ n. Takes into.new n self.old.feed self.new.feed) }
        ensures kept { OnErr result (self.new.feed.left ≡ self.old.feed.left) }
        ensures faults { self.old.feed.faults ≤ self.new.feed.faults }
        ensures quiet { OnOk result (self.new.feed.faults ≡ self.old.feed.faults) }
        ensures failed { OnErr result (Rose self.old.feed.faults self.new.feed.faults) }

        // what this one gives, and when
        ensures listed { is_ok result ≡ not (take_fails self.old) }
        ensures amount { IfOk result (λ n. n ≡ given self.old (length into.old)) }
        ensures moved { IfOk result (λ n. self.new ≡ supply_moved self.old n) }
        ensures rest { IfOk result (λ n. drop n into.new ≡ drop n into.old) }
        ensures left { OnErr result (self.new ≡ supply_failed self.old) }
        ensures untouched { OnErr result (into.new ≡ into.old) }
    {
        self.made = self.made.saturating_add(1);
        if fault_at(&self.fails, self.made).is_some() {
            self.faults = self.faults.saturating_add(1);
            return Err(Failed);
        }
        let (_, left) = self.bytes.as_slice().split_at(self.at);
        let n = fill(left, self.piece as usize, into);
        self.at += n;
        Ok(n)
    }
}

/// Copies first bytes of `bytes` into the front of `into`, at most `piece`, and answers how many.
fn fill(bytes: &[u8], piece: usize, into: &mut [u8]) -> usize
    ensures amount { result ≡ min piece (min (length into.old) (length bytes.now)) }
    ensures front { take result into.new ≡ take result bytes.now }
    ensures rest { drop result into.new ≡ drop result into.old }
{
    let n = piece.min(into.len().min(bytes.len()));
    into[..n].copy_from_slice(&bytes[..n]);
    n
}
