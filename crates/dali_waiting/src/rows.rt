ghost use Rattle.std.specs.Prelude.{◌≡◌, ◌<◌, Some, length, map, slice_get, IfOk};
ghost use Rattle.std.specs.Option.{option_map};
ghost use Rattle.dali_waiting.specs.Rows.{items_of, is_party as is_party_of, row_of, waiting_rows, held_ids};

use dali_base::{Kind, Name, OutOfMemory, Seq};
use dali_queue::{Instruction, Queue};
use std::alloc::Global;

/// A queued instruction as a row.
#[derive(Clone, Copy, Debug, PartialEq, Eq)]
pub struct WaitRow {
    pub id: Name,
    pub kind: Kind,
    /// Its value in centavos, without its rank.
    pub value: u64,
}

/// A list of rows.
pub type WaitRows = Seq<WaitRow>;

/// A list of ids.
pub type Ids = Seq<Name>;

/// A row for each queued instruction, in queue order, as `specs/Rows.antt` defines. Want of memory is the only error.
pub fn waiting(alloc: Global, queue: &Queue) -> Result<WaitRows, OutOfMemory>
    ensures { IfOk result (λ rows. rows ≡ waiting_rows queue.now.queue) }
{
    let mut rows = WaitRows::new(alloc);
    for place in 0..queue.len() {
        rows.push(row(item_at(queue, place)))?;
    }
    Ok(rows)
}

/// The ids of the queued instructions of which the account is giver or taker, in queue order, as `specs/Rows.antt`
/// defines. Want of memory is the only error.
pub fn held(alloc: Global, queue: &Queue, account: Name) -> Result<Ids, OutOfMemory>
    ensures { IfOk result (λ ids. ids ≡ held_ids queue.now.queue account) }
{
    let mut ids = Ids::new(alloc);
    for place in 0..queue.len() {
        let item = item_at(queue, place);
        if is_party(item, account) {
            ids.push(item.id)?;
        }
    }
    Ok(ids)
}

fn item_at(queue: &Queue, place: u32) -> &Instruction
    requires { place < length queue.now.queue.waiting }
    ensures { Some result.now ≡ slice_get (items_of queue.now.queue) place }
{
    queue.at(place).unwrap()
}

fn row(item: &Instruction) -> WaitRow
    ensures { result ≡ row_of item.now }
{
    WaitRow {
        id: item.id,
        kind: item.kind,
        value: item.value,
    }
}

fn is_party(item: &Instruction, account: Name) -> bool
    ensures { result ≡ is_party_of account item.now }
{
    account == item.giver || account == item.taker
}
