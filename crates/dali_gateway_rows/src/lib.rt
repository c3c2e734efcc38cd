//! Worked rows of the gateway: inputs and their merges, and inputs that are none. There is nothing but tests here.
#![tactic(auto)]

#[cfg(test)]
mod forms;
#[cfg(test)]
mod turns;
