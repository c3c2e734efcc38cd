//! Worked rows of the machine in editions 2 to 4, and of its postings: what is answered to the commands of small days that
//! were worked out by hand. There is nothing but tests here.
#![tactic(auto)]

#[cfg(test)]
mod tests;
