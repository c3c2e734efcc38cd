ghost use Rattle.std.specs.Prelude.{◌≡◌, ℕ, IfOk, Err};
ghost use Rattle.dali_gateway.specs.Form.{Spells, IsFormPlace};
ghost use Rattle.dali_gateway.specs.Merge.{merge};
ghost use Rattle.dali_desk.specs.GateOver.{ComesOf, GateOver};

use crate::day::run_day;
use crate::input::{read_input, status_of_unread};
use crate::limits::MOST_GATED;
use crate::status::Status;
use dali_base::Text;
use dali_gateway::{Gate, GateNo, read_gate};
use dali_outside::{Site, Source};
use std::alloc::Global;

/// Reads the whole input, and takes the commands of the merge of its inboxes over the journal. The site is touched only
/// where the whole input is a gateway input.
pub(crate) fn run_gate<S: Source, T: Site>(alloc: Global, source: &mut S, site: &mut T) -> Status
    ensures { GateOver S.tells T.tells (S.feed source.old) (S.feed source.new) (T.sight site.old) (T.sight site.new) result }
{
    match read_input(alloc, source, MOST_GATED) {
        Ok(input) => take_merge(alloc, input, site),
        Err(no) => status_of_unread(no),
    }
}

/// Takes the commands of the merge, where these bytes are a gateway input.
fn take_merge<T: Site>(alloc: Global, input: Text, site: &mut T) -> Status
    ensures { ComesOf T.tells input (T.sight site.old) (T.sight site.new) result }
{
    match gate_of(alloc, input) {
        Ok(mut gate) => run_day(alloc, &mut gate, site),
        Err(GateNo::Form { place }) => Status::NoGate { place },
        Err(GateNo::OutOfMemory) => Status::OutOfMemory,
    }
}

/// The gate of an input, of whose bytes no second copy is kept.
fn gate_of(alloc: Global, input: Text) -> Result<Gate, GateNo>
    ensures found { IfOk result (λ gate. Spells input gate.inboxes gate.turns) }
    ensures merge { IfOk result (λ gate. gate.left ≡ merge gate.inboxes gate.turns) }
    ensures form { (k : ℕ) → result ≡ Err (GateNo.Form k) → IsFormPlace input k }
{
    read_gate(alloc, input.bytes())
}
