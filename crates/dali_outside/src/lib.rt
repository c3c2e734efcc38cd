//! The outside: the traits over which everything above reads its input, writes its disk and prints, and the two
//! implementations in memory whose every failure is chosen in advance.
//!
//! The promise to the crates above: the disk model; that a call fails only where its count of faults rose; that a source
//! in memory fails exactly at the calls that it was told to fail at; and that a site in memory fails exactly at such calls,
//! beyond its rooms, and after its fuse. What a source and a site are is defined in `specs/Outside.antt`, what a stop
//! leaves in `specs/Stops.antt`, what those in memory are in `specs/Memory.antt`. The lemmas of `proofs/Moments.antt` and
//! `proofs/Images.antt` carry what every stop since some moment leaves over each call.
#![tactic(auto)]

mod fault;
mod mem_site;
mod mem_source;
mod site;
mod source;
mod step;
mod tape;

pub use fault::{Failed, Fault, Faults};
pub use mem_site::MemSite;
pub use mem_source::MemSource;
pub use site::Site;
pub use source::Source;

#[cfg(test)]
mod tests;
