//! Worked rows of recovery: a journal of five records, one of them a cycle's, of which one byte is changed, and what is
//! found of it beside a plain slow reader. There is nothing but tests here.
#![tactic(auto)]

#[cfg(test)]
mod bytes;
#[cfg(test)]
mod day;
#[cfg(test)]
mod journal;
#[cfg(test)]
mod reader;
#[cfg(test)]
mod rows;
