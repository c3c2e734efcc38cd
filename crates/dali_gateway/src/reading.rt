ghost use Rattle.std.specs.Prelude.{◌≡◌, ℕ, List, IfOk, IfErr, Err};
ghost use Rattle.dali_gateway.specs.Form.{Spells, IsFormPlace};
ghost use Rattle.dali_gateway.specs.Language.{Whole};
ghost use Rattle.dali_gateway.specs.Merge.{merge};
ghost use Rattle.dali_gateway.specs.Order.{KeepsOrder};
ghost use Rattle.dali_gateway.specs.Refusal.{Refuses};

use crate::form::{read_inboxes, read_turns};
use crate::gate::Gate;
use crate::limits::MOST_INBOXES;
use crate::pieces::{number_line, word};
use crate::refusal::{GateNo, Refused};
use std::alloc::Global;

/// The gate of a gateway input, of which nothing was taken: the bytes are the one spelling of its inboxes and turns
/// (`specs/Form.antt`), and the bytes left are their merge (`specs/Merge.antt`), which keeps each inbox's order
/// (`specs/Order.antt`). `Form` comes exactly where the bytes are no gateway input; its place, counted in bytes from 0, is
/// the length of their longest front with which some gateway input begins. The other error is want of memory.
pub fn read_gate(alloc: Global, bytes: &[u8]) -> Result<Gate, GateNo>
    ensures found { IfOk result (λ gate. Spells bytes.now gate.inboxes gate.turns) }
    ensures merge { IfOk result (λ gate. gate.left ≡ merge gate.inboxes gate.turns) }
    ensures order { IfOk result (λ gate. KeepsOrder gate.inboxes gate.turns) }
    ensures only { (inboxes : List (List ℕ)) (turns : List ℕ) → Spells bytes.now inboxes turns → IfOk result (λ gate. (gate.inboxes ≡ inboxes) × (gate.turns ≡ turns)) }
    ensures form { (k : ℕ) → result ≡ Err (GateNo.Form k) → IsFormPlace bytes.now k }
{
    match read_whole(alloc, bytes) {
        Ok(gate) => Ok(gate),
        Err(Refused::Form { left }) => Err(GateNo::Form {
            place: (bytes.len() - left) as u64,
        }),
        Err(Refused::Memory) => Err(GateNo::OutOfMemory),
    }
}

/// The same, with what is wrong told from the end of the bytes.
fn read_whole(alloc: Global, bytes: &[u8]) -> Result<Gate, Refused>
    ensures found { IfOk result (λ gate. Spells bytes.now gate.inboxes gate.turns) }
    ensures merge { IfOk result (λ gate. gate.left ≡ merge gate.inboxes gate.turns) }
    ensures form { IfErr result (Refuses Whole bytes.now) }
{
    let rest = word(bytes, b"GATE,")?;
    let (count, rest) = number_line(rest, 1, MOST_INBOXES)?;
    let (inboxes, rest) = read_inboxes(alloc, rest, count)?;
    let turns = read_turns(alloc, rest, count)?;
    Ok(Gate::new(inboxes, turns))
}
