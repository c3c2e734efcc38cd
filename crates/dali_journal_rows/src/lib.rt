//! Worked rows of the journal over sites in memory: its bytes, what each call answers, the calls of the device that each
//! makes, and what a stop leaves behind each number of them. There is nothing but tests here.
#![tactic(auto)]

#[cfg(test)]
mod rows;
