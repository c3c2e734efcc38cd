ghost use Rattle.std.specs.Prelude.{◌≡◌, ◌≢◌, ◌<◌, ◌++◌, [], ◌∷◌, pos, length, slice_get, option_copied, OnOk, OnErr, OnSome};
ghost use Rattle.dali_account.specs.Net.{IsNet, IsAfter};

use dali_base::{Name, OutOfMemory, Seq};
use std::alloc::Global;
use std::marker::Model;

/// A change of one balance: units of an asset that an account receives, or gives where the delta is negative.
#[derive(Clone, Copy, Debug, PartialEq, Eq)]
pub struct Move {
    pub account: Name,
    pub asset: Name,
    /// In units of the asset, centavos for `MXN`.
    pub delta: i64,
}

/// Moves in byte order of account, then of asset, each pair once and none of 0. Contracts see a plain list.
#[derive(Debug, Drop)]
pub struct Net {
    moves: Seq<Move>,
}

impl Model for Net {
    ghost use Rattle.std.specs.Prelude.{List};
    ghost use Rattle.dali_account.specs.declared.net.Move.{Move};
    ghost use Rattle.dali_account.specs.Net.{IsNet};

    ghost Value = { List Move };

    ghost view = { λ n. n.moves };

    ghost invariant = { λ n. IsNet n.moves };
}

impl Net {
    /// No moves. Takes no memory.
    pub fn new(alloc: Global) -> Net
        ensures { result ≡ [] }
    {
        Net {
            moves: Seq::new(alloc),
        }
    }

    /// Adds a move that stands after the last one and isn't of 0. At want of memory the net stays as it was.
    pub fn push(&mut self, item: Move) -> Result<(), OutOfMemory>
        requires after { IsAfter self.old item }
        requires change { item.delta ≢ pos 0 }
        ensures ok { OnOk result (self.new ≡ self.old ++ item ∷ []) }
        ensures err { OnErr result (self.new ≡ self.old) }
    {
        self.moves.push(item)?;
        Ok(())
    }

    /// The number of moves.
    pub fn len(&self) -> usize
        ensures len { result ≡ length self.now }
        ensures net { IsNet self.now }
    {
        // Looks at the moves first: what the type says of them is the clause `net`.
        let _moves = &self.moves;
        self.moves.len()
    }

    /// The moves as a slice.
    pub fn moves(&self) -> &[Move]
        ensures moves { result.now ≡ self.now }
        ensures net { IsNet self.now }
    {
        self.moves.as_slice()
    }

    /// The move at this place, counted from 0. `None` exactly where `at` isn't below the length.
    pub fn get(&self, at: usize) -> Option<&Move>
        ensures value { option_copied result ≡ slice_get self.now at }
        ensures within { OnSome result (at < length self.now) }
    {
        self.moves.get(at)
    }
}
