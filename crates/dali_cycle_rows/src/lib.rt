//! Worked rows of cycles in all editions: what is answered to the commands of small days that were worked out by hand, with
//! each printed block judged; a wide net; a long reply; and a cycle that wants memory. There is nothing but tests here.
#![tactic(auto)]

#[cfg(test)]
mod day;
#[cfg(test)]
mod large;
#[cfg(test)]
mod memory;
#[cfg(test)]
mod rows;
