ghost use Rattle.std.specs.Prelude.{◌≡◌, ◌<◌, ◌≤◌, ◌+◌, [], length, nat_lt, nat_le, slice_get, option_copied, false, is_some, is_ok, IsOk, OnOk, OnErr, OnSome};
ghost use Rattle.std.specs.List.{All, AllPairs};
ghost use Rattle.std.specs.Option.{option_map};
ghost use Rattle.std.specs.Result.{result_ok};
ghost use Rattle.dali_base.specs.declared.kind.Kind.{Kind};
ghost use Rattle.dali_queue.specs.Instruction.{IsInstruction};
ghost use Rattle.dali_queue.specs.Cutoffs.{LAST, cutoff_of, with_cutoff};
ghost use Rattle.dali_queue.specs.Queue.{is_used, is_queued, item_of, place_in, entered, without, removed};
ghost use Rattle.dali_queue.specs.Groups.{EntersAlone};
ghost use Rattle.dali_queue.specs.Limits.{most_queued, IsQueue};

mod groups;
mod net;
mod problem;

use crate::cutoffs::Cutoffs;
use crate::entries::Entries;
use crate::instruction::{Gone, Instruction};
use crate::limits::MOST_QUEUED;
use dali_base::{Kind, Moment, Name, OutOfMemory, Places};
use indexmap::IndexSet;
use std::alloc::Global;
use std::marker::Model;

/// The queued instructions in order of entry with their groups, the ids ever accepted, and the cut-off of each kind.
/// Contracts see them as lists (`specs/Queue.antt`), and beside them for how many more instructions there is room.
/// Places are counted from 0.
#[derive(Drop)]
pub struct Queue {
    entries: Entries,
    used: IndexSet<Name>,
    cutoffs: Cutoffs,
}

impl Model for Queue {
    ghost use Rattle.dali_queue.specs.Queue.{QueueState};

    ghost Value = { QueueState };

    ghost use Rattle.dali_queue.specs.Kept.{state_of, IsKept};

    ghost view = { state_of };

    ghost invariant = { IsKept };
}

impl Queue {
    /// An empty queue, with the last moment of the day as the cut-off of each kind. Takes no memory.
    pub fn new(alloc: Global) -> Queue
        ensures waiting { result.queue.waiting ≡ [] }
        ensures used { result.queue.used ≡ [] }
        ensures cutoffs { (kind : Kind) → cutoff_of result.queue.cutoffs kind ≡ LAST }
    {
        Queue {
            entries: Entries::new(alloc),
            used: IndexSet::new(alloc),
            cutoffs: Cutoffs::new(),
        }
    }

    /// Makes room for so many more instructions at least. The queue stays as it was.
    pub fn reserve(&mut self, more: u32) -> Result<(), OutOfMemory>
        ensures queue { self.new.queue ≡ self.old.queue }
        ensures ok { OnOk result (more ≤ self.new.spare) }
        ensures room { self.old.spare ≤ self.new.spare }
    {
        self.entries.reserve(more as usize)?;
        self.used.reserve(more as usize)?;
        Ok(())
    }

    /// Enters an instruction at the end, in a group by itself. Its id is used from then on. The id wasn't used before,
    /// fewer than 1,024 are queued, and the instruction's numbers are within their bounds (`specs/Instruction.antt`),
    /// with the rank 1. Where there is room, memory isn't wanted. At want of memory the queue stays as it was.
    pub fn enter(&mut self, item: Instruction) -> Result<(), OutOfMemory>
        requires new { is_used self.old.queue item.id ≡ false }
        requires few { length self.old.queue.waiting < most_queued }
        requires item { IsInstruction item }
        requires rank { item.rank ≡ 1 }

        // the queue then
        ensures ok { OnOk result (self.new.queue ≡ entered self.old.queue item) }
        ensures alone { OnOk result (EntersAlone self.old.queue.waiting self.new.queue.waiting item.id) }
        ensures err { OnErr result (self.new.queue ≡ self.old.queue) }

        // want of memory, and what was taken in advance
        ensures spare { 0 < self.old.spare → IsOk result }
        ensures room { self.old.spare ≤ self.new.spare + 1 }
    {
        self.entries.reserve(1)?;
        self.used.insert(item.id)?;
        self.entries.enter(item);
        Ok(())
    }

    /// Whether an instruction with this id was ever accepted.
    pub fn is_used(&self, id: Name) -> bool
        ensures { result ≡ is_used self.now.queue id }
    {
        self.used.contains(&id)
    }

    /// Whether there are 1,024 queued instructions.
    pub fn is_full(&self) -> bool
        ensures { result ≡ nat_le most_queued (length self.now.queue.waiting) }
    {
        self.entries.len() >= MOST_QUEUED
    }

    /// Whether the moment is greater than the cut-off of the kind.
    pub fn is_late(&self, kind: Kind, moment: Moment) -> bool
        ensures { result ≡ nat_lt (cutoff_of self.now.queue.cutoffs kind) moment }
    {
        moment > self.cutoffs.of(kind)
    }

    /// Sets the cut-off of a kind.
    pub fn set_cutoff(&mut self, kind: Kind, moment: Moment)
        ensures queue { self.new.queue ≡ record self.old.queue { cutoffs = with_cutoff self.old.queue.cutoffs kind moment } }
        ensures room { self.new.spare ≡ self.old.spare }
    {
        self.cutoffs.set(kind, moment);
    }

    /// The place of the instruction with this id. `None` exactly where it isn't queued.
    pub fn place(&self, id: Name) -> Option<u32>
        ensures place { result ≡ place_in self.now.queue.waiting id }
        ensures queued { is_some result ≡ is_queued self.now.queue.waiting id }
    {
        match self.entries.place(id) {
            Some(place) => Some(place as u32),
            None => None,
        }
    }

    /// The instruction at this place. `None` exactly where `place` isn't below the length.
    pub fn at(&self, place: u32) -> Option<&Instruction>
        ensures value { option_copied result ≡ option_map (λ w. w.item) (slice_get self.now.queue.waiting place) }
        ensures within { OnSome result (place < length self.now.queue.waiting) }
        ensures queue { IsQueue self.now.queue }
    {
        self.entries.at(place as usize)
    }

    /// The number of queued instructions, at most 1,024.
    pub fn len(&self) -> u32
        ensures len { result ≡ length self.now.queue.waiting }
        ensures queue { IsQueue self.now.queue }
    {
        self.entries.len() as u32
    }

    /// Takes the instruction with this id out of the queue. The others of its group stay linked, and its id stays used.
    /// Gone comes exactly where no queued instruction has the id, and then the queue stays as it was.
    pub fn cancel(&mut self, id: Name) -> Result<Instruction, Gone>
        ensures item { result_ok result ≡ item_of self.old.queue.waiting id }
        ensures gone { is_ok result ≡ is_queued self.old.queue.waiting id }
        ensures queue { self.new.queue ≡ record self.old.queue { waiting = without self.old.queue.waiting id } }
        ensures err { OnErr result (self.new.queue ≡ self.old.queue) }
        ensures room { self.old.spare ≤ self.new.spare }
    {
        let Some(item) = self.entries.take(id) else {
            return Err(Gone);
        };
        Ok(item)
    }

    /// Takes the instructions at these places out of the queue. The places rise, and each is below the length. The
    /// others of their groups stay linked, and their ids stay used.
    pub fn remove_all(&mut self, places: &Places)
        requires rising { AllPairs (λ i j. i < j) places.now }
        requires in_range { All (λ p. p < length self.old.queue.waiting) places.now }
        ensures queue { self.new.queue ≡ record self.old.queue { waiting = removed self.old.queue.waiting places.now } }
        ensures room { self.old.spare ≤ self.new.spare }
    {
        self.entries.remove(places.as_slice());
    }
}
