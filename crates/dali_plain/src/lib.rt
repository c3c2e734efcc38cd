//! A plain slow program beside the definitions: it goes through all sets of places of a clearing problem by masks, with
//! no sums kept and no rule used. `best_of` takes a problem of up to ten items.
//!
//! The promise to the crates above: each answer is its definition, and `best_of` is the greatest value of any feasible set.
//! A mask is a number whose bit j stands for place j. Lines and places are counted from 0, values are in centavos.
#![tactic(auto)]

mod masks;

pub use masks::{best_of, is_feasible_mask, places_of_mask, value_of_mask};
