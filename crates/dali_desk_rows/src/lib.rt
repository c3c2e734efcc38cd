//! Worked rows of a day over its journal: files and their replies, journals of given bytes, failures and stops. There is
//! nothing but tests here.
#![tactic(auto)]

#[cfg(test)]
mod chain;
#[cfg(test)]
mod counted;
#[cfg(test)]
mod days;
#[cfg(test)]
mod faults;
#[cfg(test)]
mod fused;
#[cfg(test)]
mod images;
#[cfg(test)]
mod journals;
#[cfg(test)]
mod stage;
#[cfg(test)]
mod stops;
#[cfg(test)]
mod tables;
