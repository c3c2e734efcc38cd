ghost use Rattle.std.specs.Prelude.{◌≡◌, ◌<◌, ◌≤◌, ◌+◌, [], ◌∷◌, IsOk, OnOk, OnErr};
ghost use Rattle.std.specs.FinMap as map;
ghost use Rattle.dali_account.specs.Units.{HasNoZero, units_of, with_units};

use dali_base::{Name, OutOfMemory};
use indexmap::IndexMap;
use std::alloc::Global;
use std::marker::Model;

/// Units under pairs of an account and an asset. Contracts see the finite map of the pairs that have some, and for
/// how many new pairs there is room.
#[derive(Drop)]
pub struct Holdings {
    lines: IndexMap<(Name, Name), u64>,
}

impl Model for Holdings {
    ghost use Rattle.dali_account.specs.Holding.{Holding, holding_code, units_in};
    ghost use Rattle.indexmap.specs.IndexMap.{spare};

    ghost Value = { Holding };

    ghost coded = { holding_code };

    ghost view = { λ h. record { units = units_in h.lines.entries; spare = spare h.lines } };
}

impl Holdings {
    /// No units under any pair. Takes no memory.
    pub fn new(alloc: Global) -> Holdings
        ensures units { result.units ≡ map.empty }
    {
        Holdings {
            lines: IndexMap::new(alloc),
        }
    }

    /// The units under this pair, 0 where there are none.
    #[tactic(auto, using(crate::proofs::UnitsLemmas::no_zero_in))]
    pub fn units(&self, account: Name, asset: Name) -> u64
        ensures units { result ≡ units_of self.now.units (account, asset) }
        ensures no_zero { HasNoZero self.now.units }
    {
        match self.lines.get(&(account, asset)) {
            Some(units) => *units,
            None => 0,
        }
    }

    /// Makes room for so many new pairs at least.
    pub fn reserve(&mut self, pairs: usize) -> Result<(), OutOfMemory>
        ensures units { self.new.units ≡ self.old.units }
        ensures ok { OnOk result (pairs ≤ self.new.spare) }
        ensures room { self.old.spare ≤ self.new.spare }
    {
        self.lines.reserve(pairs)?;
        Ok(())
    }

    /// Puts the units under this pair. Where there is room, or some units are there already, memory isn't wanted.
    pub fn put(&mut self, account: Name, asset: Name, units: u64) -> Result<(), OutOfMemory>
        ensures ok { OnOk result (self.new.units ≡ with_units self.old.units (account, asset) units) }
        ensures err { OnErr result (self.new.units ≡ self.old.units) }
        ensures spare { 0 < self.old.spare → IsOk result }
        ensures held { 0 < units_of self.old.units (account, asset) → IsOk result }
        ensures room { self.old.spare ≤ self.new.spare + 1 }
    {
        self.lines.insert((account, asset), units)?;
        Ok(())
    }

    /// Puts fewer units under this pair, which takes no memory.
    pub fn lower(&mut self, account: Name, asset: Name, units: u64)
        requires { units ≤ units_of self.old.units (account, asset) }
        ensures units { self.new.units ≡ with_units self.old.units (account, asset) units }
        ensures room { self.new.spare ≡ self.old.spare }
    {
        let held = match self.lines.get_mut(&(account, asset)) {
            Some(held) => held,
            None => return,
        };
        *held = units;
    }
}
