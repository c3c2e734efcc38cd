ghost use Rattle.std.specs.Prelude.{◌≡◌, ◌<◌, IsTrue, IfOk, OnSome, length, slice_get};
ghost use Rattle.std.specs.Option.{option_copied};
ghost use Rattle.dali_line.specs.Line.{is_line};

use dali_base::{OutOfMemory, Text};
use std::alloc::Global;
use std::marker::Model;

/// A command line as a history keeps it: 1 to 200 bytes without an LF, of which the first isn't `#`. Contracts see
/// the list of its bytes.
#[derive(Debug, Drop)]
pub struct Line {
    text: Vec<u8>,
}

impl Model for Line {
    ghost use Rattle.std.specs.Prelude.{List, ℕ, IsTrue};
    ghost use Rattle.dali_line.specs.Line.{is_line};

    ghost Value = { List ℕ };

    ghost view = { λ a. a.text.items };

    ghost invariant = { λ a. IsTrue (is_line a.text.items) };
}

impl Line {
    /// The line of this text. Takes no memory.
    pub(crate) fn of(text: Text) -> Line
        requires { IsTrue (is_line text) }
        ensures { result ≡ text }
    {
        Line {
            text: text.into_vec(),
        }
    }

    /// The line of these bytes.
    pub fn copy(alloc: Global, bytes: &[u8]) -> Result<Line, OutOfMemory>
        requires { IsTrue (is_line bytes.now) }
        ensures { IfOk result (λ line. line ≡ bytes.now) }
    {
        Ok(Line {
            text: Vec::from_slice(alloc, bytes)?,
        })
    }

    /// The number of bytes, 1 to 200.
    pub fn len(&self) -> usize
        ensures { result ≡ length self.now }
    {
        self.text.len()
    }

    /// The byte at this place, counted from 0. `None` exactly where `at` isn't below the length.
    pub fn get(&self, at: usize) -> Option<&u8>
        ensures value { option_copied result ≡ slice_get self.now at }
        ensures within { OnSome result (at < length self.now) }
    {
        self.text.as_slice().get(at)
    }

    /// The bytes of the line.
    pub fn bytes(&self) -> &[u8]
        ensures bytes { result.now ≡ self.now }
        ensures line { IsTrue (is_line self.now) }
    {
        self.text.as_slice()
    }
}
