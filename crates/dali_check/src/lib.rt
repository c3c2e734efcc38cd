//! The certificate checker: whether a part's tree proves its bound, and whether a choice may be booked.
//!
//! The promise to the crates above: each answer is exactly its definition in `specs/`; no feasible set of a part is worth
//! more than a bound that is found proved, and no feasible set at all more than the bounds of an allowed choice together.
//! Lines, places and parts are counted from 0, values and bounds are in centavos. The calls go down a tree by recursion,
//! at most 1,024 branches deep. They ask of a part or a choice that it is in range, as `specs/Range.antt` of `dali_tree`
//! says, which `fits` shows. Worked rows stand in the crate `dali_check_rows`.
#![tactic(auto)]

mod allowing;
mod apart;
pub mod laws;
mod leaning;
mod members;
mod proving;
mod reason;
mod reduced;
mod scratch;
mod standing;
mod totals;

pub use allowing::allowed;
pub use dali_fits::fits;
pub use leaning::lean;
pub use proving::proves;
pub use reason::NotAllowed;
pub use scratch::Scratch;
