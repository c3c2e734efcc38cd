ghost use Rattle.std.specs.Prelude.{◌≡◌, ◌≢◌, ◌+◌, ◌≤◌, ℤ, pos, neg_ℤ, ◌+ℤ◌, List, ℕ, [], ◌∷◌, ◌++◌, IfOk, OnOk};
ghost use Rattle.dali_base.specs.Limits.{most_quantity};
ghost use Rattle.dali_account.specs.Units.{PairKey};
ghost use Rattle.dali_account.specs.Net.{IsAfter};
ghost use Rattle.dali_problem.specs.Limits.{Within};
ghost use Rattle.dali_queue.specs.Instruction.{IsInstruction, at_pair, moved, effect};
ghost use Rattle.dali_queue.specs.NetOf.{IsNetOf};
ghost use Rattle.dali_queue.specs.Changed.{ROOM, HALF, change_of, AreWithin, move_of, moves_of};

use crate::instruction::Instruction;
use dali_account::{Move, Net, cash_name};
use dali_base::{Name, OutOfMemory};
use std::alloc::Global;
use std::collections::BTreeMap;

/// The changes of pairs of an account and an asset so far, in byte order of account, then of asset.
#[derive(Drop)]
pub struct Changes {
    deltas: BTreeMap<(Name, Name), i64>,
}

impl Changes {
    /// No changes. Takes no memory.
    pub fn new(alloc: Global) -> Changes
        ensures { (pair : PairKey) → change_of result.deltas pair ≡ pos 0 }
    {
        Changes {
            deltas: BTreeMap::new(alloc),
        }
    }

    /// Adds the effects of an instruction.
    pub fn add(&mut self, item: &Instruction) -> Result<(), OutOfMemory>
        requires item { IsInstruction item.now }
        requires room { AreWithin ROOM self.old.deltas }
        ensures { OnOk result ((pair : PairKey) → change_of self.new.deltas pair ≡ change_of self.old.deltas pair +ℤ effect item.now pair) }
    {
        self.transfer(item.code, item.quantity, item.giver, item.taker)?;
        self.transfer(cash_name(), item.cash, item.taker, item.giver)?;
        Ok(())
    }

    /// Moves units of an asset from a giver to a taker.
    fn transfer(
        &mut self,
        asset: Name,
        units: u64,
        giver: Name,
        taker: Name,
    ) -> Result<(), OutOfMemory>
        requires units { units ≤ most_quantity }
        requires room { AreWithin (ROOM + most_quantity) self.old.deltas }
        ensures { OnOk result ((pair : PairKey) → change_of self.new.deltas pair ≡ change_of self.old.deltas pair +ℤ moved units asset giver taker pair) }
    {
        if units > 0 {
            self.change(giver, asset, minus(units))?;
            self.change(taker, asset, plus(units))?;
        }
        Ok(())
    }

    /// Changes one pair.
    fn change(&mut self, account: Name, asset: Name, delta: i64) -> Result<(), OutOfMemory>
        requires room { Within HALF (change_of self.old.deltas (account, asset)) }
        requires delta { Within HALF delta }
        ensures { OnOk result ((pair : PairKey) → change_of self.new.deltas pair ≡ change_of self.old.deltas pair +ℤ at_pair account asset delta pair) }
    {
        let before = self.so_far(account, asset);
        self.deltas.insert((account, asset), before + delta)?;
        Ok(())
    }

    /// The change of a pair so far.
    fn so_far(&self, account: Name, asset: Name) -> i64
        ensures { result ≡ change_of self.now.deltas (account, asset) }
    {
        match self.deltas.get(&(account, asset)) {
            Some(delta) => *delta,
            None => 0,
        }
    }

    /// The net of the changes.
    pub fn net(&self, alloc: Global) -> Result<Net, OutOfMemory>
        ensures { IfOk result (IsNetOf (change_of self.now.deltas)) }
    {
        let mut net = Net::new(alloc);
        for (pair, delta) in self.deltas.iter() {
            push_change(&mut net, pair, delta)?;
        }
        Ok(net)
    }
}

fn plus(units: u64) -> i64
    requires { units ≤ most_quantity }
    ensures { result ≡ pos units }
{
    units as i64
}

fn minus(units: u64) -> i64
    requires { units ≤ most_quantity }
    ensures { result ≡ neg_ℤ (pos units) }
{
    -plus(units)
}

/// Adds a move to a net, unless it is of 0.
fn push_change(net: &mut Net, pair: &(Name, Name), delta: &i64) -> Result<(), OutOfMemory>
    requires { delta.now ≢ pos 0 → IsAfter net.old (move_of (pair.now, delta.now)) }
    ensures { OnOk result (net.new ≡ net.old ++ moves_of ((pair.now, delta.now) ∷ [])) }
{
    if *delta != 0 {
        net.push(Move {
            account: pair.0,
            asset: pair.1,
            delta: *delta,
        })?;
    }
    Ok(())
}
