ghost use Rattle.std.specs.Prelude.{◌≡◌, ◌<◌, ◌≤◌, ◌+◌, ◌++◌, [], ◌∷◌, map, length, slice_get, option_copied, false, is_some, IsOk, IfNone, OnOk, OnSome};
ghost use Rattle.std.specs.List.{count_by};
ghost use Rattle.std.specs.Option.{option_map};
ghost use Rattle.dali_base.specs.Readers.{same_bytes};
ghost use Rattle.indexmap.specs.IndexMap.{spare};
ghost use Rattle.dali_queue.specs.declared.entries.Entry.{Entry};
ghost use Rattle.dali_queue.specs.EntryList.{regrouped_entry};
ghost use Rattle.dali_queue.specs.Queue.{is_queued, item_of, place_in, without, ranked};
ghost use Rattle.dali_queue.specs.Groups.{in_group, group_of, regrouped};
ghost use Rattle.dali_queue.specs.Eligible.{waiting_of};

mod leave;

use crate::instruction::Instruction;
use dali_base::{Name, OutOfMemory};
use indexmap::IndexMap;
use std::alloc::Global;
use std::marker::Model;

/// What is kept of a queued instruction.
#[derive(Clone, Copy, Debug)]
pub struct Entry {
    pub item: Instruction,
    /// The name of its group.
    pub group: Name,
    /// Set only while several entries are taken out at once.
    pub leaving: bool,
}

/// The queued instructions in order of entry, found by place and by id. Contracts see the list, and for how many more
/// there is room.
#[derive(Drop)]
pub struct Entries {
    entries: IndexMap<Name, Entry>,
}

impl Model for Entries {
    ghost use Rattle.dali_queue.specs.Room.{QueueRoom};

    ghost Value = { QueueRoom };

    ghost use Rattle.dali_queue.specs.EntryList.{room_of, AreStored};

    ghost view = { room_of };

    ghost invariant = { AreStored };
}

impl Entries {
    /// None. Takes no memory.
    pub fn new(alloc: Global) -> Entries
        ensures { result.waiting ≡ [] }
    {
        Entries {
            entries: IndexMap::new(alloc),
        }
    }

    /// The number of entries.
    pub fn len(&self) -> usize
        ensures { result ≡ length self.now.waiting }
    {
        self.entries.len()
    }

    /// The entries in order.
    pub fn list(&self) -> &[Entry]
        ensures { waiting_of result.now ≡ self.now.waiting }
    {
        self.entries.values().as_slice()
    }

    /// Makes room for so many more at least.
    pub fn reserve(&mut self, more: usize) -> Result<(), OutOfMemory>
        ensures waiting { self.new.waiting ≡ self.old.waiting }
        ensures ok { OnOk result (more ≤ self.new.spare) }
        ensures succeeds { more ≤ self.old.spare → IsOk result }
        ensures room { self.old.spare ≤ self.new.spare }
    {
        self.entries.reserve(more)?;
        Ok(())
    }

    /// The place of the instruction with this id, counted from 0.
    pub fn place(&self, id: Name) -> Option<usize>
        ensures place { result ≡ place_in self.now.waiting id }
        ensures queued { is_some result ≡ is_queued self.now.waiting id }
    {
        self.entries.get_index_of(&id)
    }

    /// The instruction at this place.
    pub fn at(&self, place: usize) -> Option<&Instruction>
        ensures value { option_copied result ≡ option_map (λ w. w.item) (slice_get self.now.waiting place) }
        ensures within { OnSome result (place < length self.now.waiting) }
    {
        match self.entries.get_index(place) {
            Some((_, entry)) => Some(&entry.item),
            None => None,
        }
    }

    /// The name of the group of the instruction with this id.
    pub fn group(&self, id: Name) -> Option<Name>
        ensures { result ≡ group_of self.now.waiting id }
    {
        match self.entries.get(&id) {
            Some(entry) => Some(entry.group),
            None => None,
        }
    }

    /// The number of instructions in a group.
    pub fn count_in(&self, group: Name) -> usize
        ensures count { result ≡ count_by (in_group group) self.now.waiting }
    {
        count_in(self.entries.values().as_slice(), group)
    }

    /// Puts a new instruction at the end, in a group by itself. Takes no memory.
    pub fn enter(&mut self, item: Instruction)
        requires new { is_queued self.old.waiting item.id ≡ false }
        requires room { 0 < self.old.spare }
        ensures waiting { self.new.waiting ≡ self.old.waiting ++ record { item = item; group = item.id } ∷ [] }
        ensures room { self.old.spare ≤ self.new.spare + 1 }
    {
        let id = item.id;
        let entry = Entry {
            item,
            group: id,
            leaving: false,
        };
        self.entries.insert(id, entry).unwrap();
    }

    /// Takes the instruction with this id out.
    pub fn take(&mut self, id: Name) -> Option<Instruction>
        ensures value { result ≡ item_of self.old.waiting id }
        ensures waiting { self.new.waiting ≡ without self.old.waiting id }
        ensures none { IfNone result (self.new.waiting ≡ self.old.waiting) }
        ensures room { self.old.spare ≤ self.new.spare }
    {
        let entry = self.entries.shift_remove(&id)?;
        Some(entry.item)
    }

    /// Sets the rank of the instruction with this id.
    pub fn set_rank(&mut self, id: Name, rank: u8)
        ensures waiting { self.new.waiting ≡ ranked self.old.waiting id rank }
        ensures room { self.new.spare ≡ self.old.spare }
    {
        let entry = match self.entries.get_mut(&id) {
            Some(entry) => entry,
            None => return,
        };
        entry.item.rank = rank;
    }

    /// Puts all instructions of a group into another.
    pub fn regroup(&mut self, from: Name, to: Name)
        ensures waiting { self.new.waiting ≡ regrouped self.old.waiting from to }
        ensures room { self.new.spare ≡ self.old.spare }
    {
        regroup_all(&mut self.entries, from, to);
    }
}

/// The number of entries in a group.
fn count_in(entries: &[Entry], group: Name) -> usize
    ensures { result ≡ count_by (λ (e : Entry). same_bytes group e.group) entries.now }
{
    entries.iter().filter(|entry| group == entry.group).count()
}

/// Puts all entries of a group into another.
fn regroup_all(entries: &mut IndexMap<Name, Entry>, from: Name, to: Name)
    ensures entries { entries.new.entries ≡ map (regrouped_entry from to) entries.old.entries }
    ensures room { spare entries.new ≡ spare entries.old }
{
    for place in 0..entries.len() {
        if from == entries[place].group {
            entries[place].group = to;
        }
    }
}
