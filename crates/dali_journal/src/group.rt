ghost use Rattle.std.specs.Prelude.{◌≡◌, ◌≢◌, ◌+◌, ◌*◌, ◌-◌, ◌≤◌, ◌<◌, ◌++◌, [], ◌∷◌, ℕ, List, length, drop, IfOk};
ghost use Rattle.std.specs.Prelude.{vec_len, vec_capacity};
ghost use Rattle.dali_journal.specs.Limits.{most_payloads, most_grouped};
ghost use Rattle.dali_journal.specs.Frames.{frames_length, open_records, AreFrames, AreShort};
ghost use Rattle.dali_journal.specs.Holds.{gated};

use crate::limits::{MOST_GROUPED, MOST_PAYLOADS};
use dali_base::OutOfMemory;
use std::alloc::Global;
use std::marker::Model;

/// The room for the frames of a group and the gate behind them.
const ROOM: usize = MOST_PAYLOADS * (MOST_GROUPED + 5) + 1;

/// Payloads that are to be appended together, at most 64 of at most 204 bytes each. Contracts see the list of them. Its
/// memory is taken when it is made and none later.
#[derive(Debug, Drop)]
pub struct Group {
    // The records, each behind a gate 1, and a closed gate.
    text: Vec<u8>,
    // The length of each payload.
    lens: Vec<u8>,
}

impl Model for Group {
    ghost use Rattle.std.specs.Prelude.{◌≡◌, ◌≤◌, ◌<◌, ◌+◌, ◌*◌, List, [], ◌∷◌, ◌++◌, ℕ, length, map, vec_len, vec_capacity};
    ghost use Rattle.dali_journal.specs.Limits.{most_payloads, most_grouped};
    ghost use Rattle.dali_journal.specs.GroupText.{payloads};
    ghost use Rattle.dali_journal.specs.Frames.{open_records, AreShort};

    ghost Value = { List (List ℕ) };

    ghost view = { λ s. payloads s.lens.items s.text.items };

    ghost invariant = { λ s.
        (s.text.items ≡ open_records (payloads s.lens.items s.text.items) ++ 0 ∷ [])
        × (s.lens.items ≡ map length (payloads s.lens.items s.text.items))
        × AreShort (payloads s.lens.items s.text.items)
        × (length s.lens.items ≤ most_payloads) × (most_payloads ≤ vec_capacity s.lens)
        × (length s.text.items ≤ (most_grouped + 5) * length s.lens.items + 1)
        × (most_payloads * (most_grouped + 5) + 1 ≤ vec_capacity s.text) };
}

impl Group {
    /// A group without payloads, with room for 64 of 204 bytes.
    pub fn new(alloc: Global) -> Result<Group, OutOfMemory>
        ensures { IfOk result (λ group. group ≡ []) }
    {
        let mut text = Vec::with_capacity(alloc, ROOM)?;
        text.push(0).unwrap();
        Ok(Group {
            text,
            lens: Vec::with_capacity(alloc, MOST_PAYLOADS)?,
        })
    }

    /// Adds a payload of at most 204 bytes to fewer than 64. Takes no memory.
    pub fn add(&mut self, payload: &[u8])
        requires room { length self.old < most_payloads }
        requires short { length payload.now ≤ most_grouped }
        ensures { self.new ≡ self.old ++ payload.now ∷ [] }
    {
        add_record(&mut self.text, payload);
        self.lens.push(payload.len() as u8).unwrap();
    }

    /// The number of payloads.
    pub fn len(&self) -> u32
        ensures { result ≡ length self.now }
    {
        self.lens.len() as u32
    }

    /// The bytes of the payloads' frames: for each of them 5 more than its own.
    pub fn bytes(&self) -> u64
        ensures { result ≡ frames_length self.now }
    {
        self.text.len() as u64 - 1
    }

    /// Takes all payloads out.
    pub fn clear(&mut self)
        ensures { self.new ≡ [] }
    {
        self.lens.clear();
        self.text.clear();
        self.text.push(0).unwrap();
    }

    /// What is written behind the gate: the frames.
    pub(crate) fn frames(&self) -> &[u8]
        requires { self.now ≢ [] }
        ensures frames { AreFrames self.now result.now }
        ensures short { AreShort self.now }
        ensures length { length result.now ≡ frames_length self.now }
    {
        &self.text[1..]
    }
}

/// Puts a record behind a gate 1, and a closed gate, in the place of the closed gate at the end, where there is room.
fn add_record(text: &mut Vec<u8>, payload: &[u8])
    requires ends { (records : List ℕ) × (text.old.items ≡ records ++ 0 ∷ []) }
    requires short { length payload.now ≤ most_grouped }
    requires room { vec_len text.old + (length payload.now + 5) ≤ vec_capacity text.old }
    ensures items { (records : List ℕ) → text.old.items ≡ records ++ 0 ∷ [] → text.new.items ≡ (records ++ gated 1 payload.now) ++ 0 ∷ [] }
    ensures len { vec_len text.new ≡ vec_len text.old + (length payload.now + 5) }
    ensures capacity { vec_capacity text.old ≤ vec_capacity text.new }
{
    text.pop();
    text.push(1).unwrap();
    text.extend_from_slice(&(payload.len() as u32).to_be_bytes())
        .unwrap();
    text.extend_from_slice(payload).unwrap();
    text.push(0).unwrap();
}
