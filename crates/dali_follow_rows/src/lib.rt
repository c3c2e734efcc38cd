//! Worked rows of followers over journals in memory: streams whose frames are lost, repeated, in another order, cut or changed.
//! There is nothing but tests here.
#![tactic(auto)]

#[cfg(test)]
mod rows;
#[cfg(test)]
mod stage;
