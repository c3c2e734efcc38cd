ghost use Rattle.std.specs.Prelude.{◌≡◌, IfOk};

use crate::copy::copy_parts;
use crate::tree::Tree;
use dali_base::{OutOfMemory, Places, Seq};
use std::alloc::Global;

/// A part of a problem, with a bound on what any feasible set takes from it. When it fits a problem is defined in
/// `specs/Fits.antt`.
#[derive(Drop)]
pub struct Part {
    /// The places of the part, rising in a part that fits.
    pub members: Places,
    /// The bound, in centavos times rank: at most 16,384 * 10^15 in a part that fits.
    pub bound: u64,
    /// The tree that is claimed to prove the bound.
    pub tree: Tree,
}

/// A list of parts.
pub type Parts = Seq<Part>;

/// A set of places, and parts with bounds on what a set can be worth. When it fits a problem is defined in
/// `specs/Fits.antt`.
#[derive(Drop)]
pub struct Choice {
    /// The places of the set, rising in a choice that fits.
    pub places: Places,
    /// The parts, by rising first member in a choice that fits.
    pub parts: Parts,
}

impl Choice {
    /// An equal choice. Answers only want of memory but Ok.
    pub fn copy(&self, alloc: Global) -> Result<Choice, OutOfMemory>
        ensures { IfOk result (λ copied. copied ≡ self.now) }
    {
        Ok(Choice {
            places: self.places.copy(alloc)?,
            parts: copy_parts(alloc, self.parts.as_slice())?,
        })
    }
}
