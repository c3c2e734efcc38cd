ghost use Rattle.std.specs.Prelude.{◌≡◌, ◌<◌, ◌+ℤ◌, List, length, IfOk, OnOk};
ghost use Rattle.std.specs.List.{All, AllPairs};
ghost use Rattle.dali_account.specs.declared.net.Move.{Move};
ghost use Rattle.dali_account.specs.Units.{PairKey};
ghost use Rattle.dali_queue.specs.Changed.{ROOM, change_of, AreWithin};
ghost use Rattle.dali_queue.specs.NetOf.{effect_at, effects_of, IsNetOf, items_at, net_of};

use super::Queue;
use crate::changes::Changes;
use dali_account::Net;
use dali_base::{OutOfMemory, Places};
use std::alloc::Global;

impl Queue {
    /// The net of the instructions at these places: for each pair of an account and an asset the sum of their effects
    /// (`specs/NetOf.antt`), in byte order of account, then of asset, without the pairs whose sum is 0. The places rise,
    /// and each is below the length. Want of memory is the only error.
    pub fn net(&self, alloc: Global, places: &Places) -> Result<Net, OutOfMemory>
        requires rising { AllPairs (λ i j. i < j) places.now }
        requires in_range { All (λ p. p < length self.now.queue.waiting) places.now }
        ensures net { IfOk result (IsNetOf (effects_of self.now.queue.waiting places.now)) }
        ensures items { IfOk result (λ net. net ≡ net_of (items_at self.now.queue.waiting places.now)) }
        ensures only { IfOk result (λ net. (other : List Move) → IsNetOf (effects_of self.now.queue.waiting places.now) other → other ≡ net) }
    {
        // The limits of the queue bound the sums.
        let _entries = &self.entries;
        let mut changes = Changes::new(alloc);
        for place in places.as_slice() {
            self.add_effects(&mut changes, *place)?;
        }
        changes.net(alloc)
    }

    /// Adds the effects of the instruction at this place.
    fn add_effects(&self, changes: &mut Changes, place: u32) -> Result<(), OutOfMemory>
        requires { AreWithin ROOM changes.old.deltas }
        ensures { OnOk result ((pair : PairKey) → change_of changes.new.deltas pair ≡ change_of changes.old.deltas pair +ℤ effect_at self.now.queue.waiting pair place) }
    {
        if let Some(item) = self.entries.at(place as usize) {
            changes.add(item)?;
        }
        Ok(())
    }
}
