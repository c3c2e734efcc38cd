//! Worked rows of the guesses: what is found for small and large queues whose best answers are plain. There is nothing but
//! tests here.
#![tactic(auto)]

#[cfg(test)]
mod guesses;
#[cfg(test)]
mod queues;
