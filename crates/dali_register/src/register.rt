ghost use Rattle.std.specs.Prelude.{◌≡◌, [], Bool, List, IfOk};
ghost use Rattle.dali_entry.specs.EntryRecord.{EntryRecord};
ghost use Rattle.dali_outside.specs.Outside.{Sight};
ghost use Rattle.dali_register.specs.Standing.{SoFar};
ghost use Rattle.dali_register.specs.Starting.{Starts};

use dali_base::{OutOfMemory, Seq, Text};
use dali_journal::{Group, Journal};
use dali_machine::State;
use std::alloc::Global;

/// A day between two commands: the state of all entries so far, the journal of those on the device, and the records and
/// the replies of those that are held back.
pub struct Register {
    pub(crate) state: State,
    pub(crate) journal: Journal,
    pub(crate) group: Group,
    pub(crate) replies: Text,
    pub(crate) alloc: Global,
}

// Written out, so that a function that owns a register isn't proved through all of its parts.
impl Drop for Register {
    fn drop(self) {
        let Register {
            state: _,
            journal: _,
            group: _,
            replies: _,
            alloc: _,
        } = self;
    }
}

impl Register {
    /// The register of this state and this journal, which holds nothing back. Where the replies to all that was found were
    /// printed, it may take the next command (`specs/Starting.antt`).
    pub fn new(alloc: Global, state: State, journal: Journal) -> Result<Register, OutOfMemory>
        ensures state { IfOk result (λ r. r.state ≡ state) }
        ensures journal { IfOk result (λ r. r.journal ≡ journal) }
        ensures group { IfOk result (λ r. r.group ≡ []) }
        ensures replies { IfOk result (λ r. r.replies ≡ []) }
        ensures starts { (told : Bool) (before : Sight) (found : List EntryRecord) (sight : Sight) → Starts told before found state.machine journal sight →
            IfOk result (λ r. SoFar told before found [] [] r sight) }
    {
        // Called for its clause alone: a gate is left of each journal.
        let _left = journal.left();
        let group = Group::new(alloc)?;
        Ok(Register {
            state,
            journal,
            group,
            replies: Seq::new(alloc),
            alloc,
        })
    }
}
