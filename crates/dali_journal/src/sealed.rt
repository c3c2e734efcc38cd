ghost use Rattle.std.specs.Prelude.{◌≡◌, ◌≤◌, ◌<◌, [], ◌∷◌, length, IfOk, OnSome, slice_get};
ghost use Rattle.std.specs.Option.{option_copied};
ghost use Rattle.dali_journal.specs.Limits.{most_payload};
ghost use Rattle.dali_journal.specs.Frames.{frame_of, payload_of, AreFrames, AreShort};

use dali_base::{OutOfMemory, Text};
use std::alloc::Global;
use std::marker::Model;

/// A frame, ready to be appended: the length of a payload of at most 536,870,912 bytes in four bytes, the payload, and a
/// closed gate. Contracts see the list of its bytes.
#[derive(Debug, Drop)]
pub struct Sealed {
    bytes: Text,
}

impl Model for Sealed {
    ghost use Rattle.std.specs.Prelude.{◌≡◌, ◌+◌, ◌≤◌, List, ℕ, length};
    ghost use Rattle.dali_journal.specs.Frames.{frame_of, payload_of};
    ghost use Rattle.dali_journal.specs.Limits.{most_payload};

    ghost Value = { List ℕ };

    ghost view = { λ s. s.bytes };

    ghost invariant = { λ s. (s.bytes ≡ frame_of (payload_of s.bytes)) × (length s.bytes ≤ most_payload + 5) };
}

impl Sealed {
    /// The number of bytes of the frame, which is 5 more than those of the payload.
    pub fn len(&self) -> usize
        ensures { result ≡ length self.now }
    {
        self.bytes.len()
    }

    /// The byte at this place, counted from 0. `None` exactly where `at` isn't below the length.
    pub fn get(&self, at: usize) -> Option<&u8>
        ensures value { option_copied result ≡ slice_get self.now at }
        ensures within { OnSome result (at < length self.now) }
    {
        self.bytes.get(at)
    }

    /// What is written behind the gate: the frame of its payload.
    pub(crate) fn bytes(&self) -> &[u8]
        ensures value { result.now ≡ self.now }
        ensures frame { AreFrames (payload_of self.now ∷ []) self.now }
        ensures short { AreShort (payload_of self.now ∷ []) }
    {
        self.bytes.bytes()
    }
}

/// The frame of a payload of at most 536,870,912 bytes, as `specs/Frames.antt` defines it. The only error is want of
/// memory.
pub fn frame(alloc: Global, payload: &[u8]) -> Result<Sealed, OutOfMemory>
    requires { length payload.now ≤ most_payload }
    ensures value { IfOk result (λ sealed. sealed ≡ frame_of payload.now) }
    ensures payload { IfOk result (λ sealed. payload_of sealed ≡ payload.now) }
{
    let bytes = frame_bytes(alloc, payload)?;
    Ok(Sealed { bytes })
}

fn frame_bytes(alloc: Global, payload: &[u8]) -> Result<Text, OutOfMemory>
    requires { length payload.now ≤ most_payload }
    ensures { IfOk result (λ bytes. bytes ≡ frame_of payload.now) }
{
    let mut bytes = Text::from_vec(Vec::with_capacity(alloc, payload.len() + 5)?);
    bytes.add(&(payload.len() as u32).to_be_bytes())?;
    bytes.add(payload)?;
    bytes.push(0)?;
    Ok(bytes)
}
