//! Whether a choice fits a problem: its lists rise, and all that it names is in range.
//!
//! The promise to the crates above: `fits` and `choice_fits` answer exactly as `specs/Fits.antt` of `dali_tree` defines it,
//! of any choice, however deep its trees. Lines, places and parts are counted from 0, and bounds are in centavos.
#![tactic(auto)]

mod fitting;

pub use fitting::{choice_fits, fits};
