ghost use Rattle.std.specs.Prelude.{◌≡◌, ◌<◌, ◌^◌, IfOk};
ghost use Rattle.dali_machine.specs.History.{HasItsChoice};
ghost use Rattle.dali_machine.specs.Outcomes.{IsReported};
ghost use Rattle.dali_machine.specs.Ready.{CanCommit};
ghost use Rattle.dali_machine.specs.Step.{judged, step};
ghost use Rattle.dali_record.specs.IsRecord.{IsWithin};
ghost use Rattle.dali_register.specs.Making.{IsMade};

use dali_base::{OutOfMemory, Text};
use dali_entry::Entry;
use dali_machine::{Ready, State};
use dali_record::encode;
use dali_reply::reply;
use std::alloc::Global;

/// All that an entry needs before it is taken: its record, its reply, and the command made ready.
#[derive(Drop)]
pub(crate) struct Made {
    pub(crate) record: Text,
    pub(crate) reply: Text,
    pub(crate) ready: Ready,
}

/// Makes an entry ready. The state stays as it was but for spare room, at want of memory too.
pub(crate) fn make(alloc: Global, state: &mut State, entry: Entry) -> Result<Made, OutOfMemory>
    requires within { IsWithin entry }
    requires few { state.old.machine.commands < 2 ^ 63 }
    requires choice { HasItsChoice state.old.machine (judged entry.edition state.old.machine entry.line) entry.choice }
    ensures machine { state.new.machine ≡ state.old.machine }
    ensures made { IfOk result (IsMade entry state.old.machine) }
    ensures reported { IfOk result (λ made. IsReported (step entry.edition state.old.machine entry.line entry.choice).outcome) }
    ensures room { IfOk result (λ made. CanCommit state.new made.ready) }
{
    let record = encode(alloc, &entry)?;
    let Entry {
        edition,
        line,
        choice,
    } = entry;
    let ready = state.prepare(edition, &line, choice)?;
    let reply = reply(alloc, ready.number(), ready.outcome())?;
    Ok(Made {
        record,
        reply,
        ready,
    })
}
