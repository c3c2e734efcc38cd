ghost use Rattle.std.specs.Prelude.{◌≡◌, ◌≤◌};
ghost use Rattle.dali_base.specs.Limits.{newest_edition};

use std::marker::Model;

/// An open journal: the place of its tail, the bytes left from there to the end of the device, and its edition. The
/// tail is a gate. Each call that takes a site has the condition that the site's size is the sum of tail and left.
#[derive(Debug, Drop)]
pub struct Journal {
    pub(crate) edition: u8,
    pub(crate) tail: u64,
    pub(crate) left: u64,
    // Whether the tail is known to be the closed gate.
    pub(crate) ended: bool,
}

impl Model for Journal {
    ghost use Rattle.std.specs.Prelude.{◌≤◌, ◌+◌, ◌<◌, ◌^◌};
    ghost use Rattle.dali_base.specs.Limits.{newest_edition};
    ghost use Rattle.dali_journal.specs.JournalAt.{Reached};

    ghost Value = { Reached };

    ghost view = { λ s. record { edition = s.edition; tail = s.tail; left = s.left; ended = s.ended } };

    ghost invariant = { λ s. (1 ≤ s.edition) × (s.edition ≤ newest_edition) × (16 ≤ s.tail) × (1 ≤ s.left) × (s.tail + s.left < 2 ^ 64) };
}

impl Journal {
    /// The journal's edition, from 1 to the newest.
    pub fn edition(&self) -> u8
        ensures value { result ≡ self.now.edition }
        ensures bound { (1 ≤ result) × (result ≤ newest_edition) }
    {
        self.edition
    }

    /// The place of its tail, counted from 0.
    pub fn tail(&self) -> u64
        ensures { result ≡ self.now.tail }
    {
        self.tail
    }

    /// The bytes from the tail, which is a gate, to the end of the device.
    pub fn left(&self) -> u64
        ensures value { result ≡ self.now.left }
        ensures some { 1 ≤ result }
    {
        self.left
    }
}
