ghost use Rattle.std.specs.Prelude.{◌≡◌, ℕ, ◌<◌, ◌≤◌, ◌+◌, [], pos, ◌+ℤ◌, length, slice_get, option_copied, IfOk, OnOk, OnSome};
ghost use Rattle.std.specs.Int.{FitsUnsigned, w64};
ghost use Rattle.std.specs.List.{filter};
ghost use Rattle.dali_base.specs.Readers.{same_bytes};
ghost use Rattle.dali_account.specs.Net.{IsNet, pair_of, after_move};
ghost use Rattle.dali_account.specs.Units.{PairKey};
ghost use Rattle.dali_ledger.specs.Postings.{IsLedger, IsLast, IsSum, delta_sum, with_move, posted};

use crate::places::Places;
use crate::posting::{Posting, Postings};
use dali_account::{Move, Net};
use dali_base::{Name, OutOfMemory, Seq};
use indexmap::IndexMap;
use std::alloc::Global;
use std::marker::Model;

/// The numbered postings, and beside them the sum of the deltas of each pair of an account and an asset, and where each
/// account's postings stand. Contracts see the list of the postings, and for how many more there is room.
#[derive(Drop)]
pub struct Ledger {
    postings: Vec<Posting>,
    sums: IndexMap<(Name, Name), u64>,
    places: Places,
}

impl Model for Ledger {
    ghost use Rattle.dali_ledger.specs.Ledger.{LedgerState};

    ghost Value = { LedgerState };

    ghost use Rattle.dali_ledger.specs.LedgerKept.{state_of, IsKept};

    ghost view = { state_of };

    ghost invariant = { IsKept };
}

impl Ledger {
    /// No postings. Takes no memory.
    pub fn new(alloc: Global) -> Ledger
        ensures postings { result.postings ≡ [] }
    {
        Ledger {
            postings: Vec::new(alloc),
            sums: IndexMap::new(alloc),
            places: Places::new(alloc),
        }
    }

    /// Makes room for so many more postings at least. The postings stay as they were.
    pub fn reserve(&mut self, more: u32) -> Result<(), OutOfMemory>
        ensures postings { self.new.postings ≡ self.old.postings }
        ensures ok { OnOk result (more ≤ self.new.spare) }
        ensures room { self.old.spare ≤ self.new.spare }
    {
        self.postings.reserve(more as usize)?;
        self.sums.reserve(more as usize)?;
        self.places.reserve(more as usize)?;
        Ok(())
    }

    /// Writes one posting for each move of the net, in its order. There is room for them, and afterwards no sum of a
    /// pair's deltas is negative or above 10^18. Takes no memory.
    pub fn post(&mut self, command: u64, net: &Net)
        requires room { length net.now ≤ self.old.spare }
        requires sums { (pair : PairKey) → IsSum (delta_sum (posted self.old.postings command net.now) pair) }
        ensures postings { self.new.postings ≡ posted self.old.postings command net.now }
        ensures room { self.old.spare ≤ self.new.spare + length net.now }
    {
        self.post_moves(command, net.moves());
    }

    /// Writes the postings of the moves of a net.
    fn post_moves(&mut self, command: u64, moves: &[Move])
        requires net { IsNet moves.now }
        requires room { length moves.now ≤ self.old.spare }
        requires sums { (pair : PairKey) → IsSum (delta_sum (posted self.old.postings command moves.now) pair) }
        ensures postings { self.new.postings ≡ posted self.old.postings command moves.now }
        ensures room { self.old.spare ≤ self.new.spare + length moves.now }
    {
        for item in moves {
            self.post_move(command, item);
        }
    }

    /// Writes the posting of one move.
    fn post_move(&mut self, command: u64, item: &Move)
        requires room { 0 < self.old.spare }
        requires sum { IsSum (delta_sum self.old.postings (pair_of item.now) +ℤ item.now.delta) }
        ensures postings { self.new.postings ≡ with_move self.old.postings command item.now }
        ensures room { self.old.spare ≤ self.new.spare + 1 }
    {
        let after = sum_after(self.delta_sum(item.account, item.asset), item);
        self.sums.insert((item.account, item.asset), after).unwrap();
        self.places.add(item.account);
        self.postings.push_reserved(Posting {
            number: self.postings.len() as u64 + 1,
            command,
            account: item.account,
            asset: item.asset,
            delta: item.delta,
            after,
        });
    }

    /// The postings of the account, in order. Takes time for these rows alone, however many other postings there are.
    pub fn rows_of(&self, alloc: Global, account: Name) -> Result<Postings, OutOfMemory>
        ensures { IfOk result (λ rows. rows ≡ filter (λ p. same_bytes p.account account) self.now.postings) }
    {
        let mut rows = Vec::new(alloc);
        let mut next = self.places.last(account);
        while let Some(place) = next {
            rows.push(self.postings[place])?;
            next = self.places.before(place);
        }
        rows.as_mut_slice().reverse();
        Ok(Seq::from_vec(rows))
    }

    /// The sum of the deltas of a pair, which is its balance and the `after` of its last posting. 0 where it has no
    /// postings, and at most 10^18.
    pub fn delta_sum(&self, account: Name, asset: Name) -> u64
        ensures sum { pos result ≡ delta_sum self.now.postings (account, asset) }
        ensures last { (place : ℕ) (p : Posting) → IsLast self.now.postings (account, asset) place p → p.after ≡ result }
        ensures ledger { IsLedger self.now.postings }
    {
        match self.sums.get(&(account, asset)) {
            Some(sum) => *sum,
            None => 0,
        }
    }

    /// The number of postings.
    pub fn len(&self) -> u64
        ensures len { result ≡ length self.now.postings }
        ensures ledger { IsLedger self.now.postings }
    {
        self.postings.len() as u64
    }

    /// The posting at this place, counted from 0. `None` exactly where `place` isn't below the length.
    pub fn at(&self, place: u64) -> Option<&Posting>
        ensures value { option_copied result ≡ slice_get self.now.postings place }
        ensures within { OnSome result (place < length self.now.postings) }
        ensures ledger { IsLedger self.now.postings }
    {
        self.postings.as_slice().get(place as usize)
    }
}

/// The sum of a pair's deltas after the move.
fn sum_after(sum: u64, item: &Move) -> u64
    requires { IsSum (pos sum +ℤ item.now.delta) }
    ensures { result ≡ after_move sum item.now.delta }
{
    sum.checked_add_signed(item.delta).unwrap()
}
