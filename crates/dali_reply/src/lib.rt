//! Replies: what is printed for a command.
//!
//! The promise to the crates above: a reply is exactly the text that is defined for the command's number and its
//! outcome (`specs/Reply.antt`), in one buffer, whatever was printed before.
#![tactic(auto)]

mod lines;
mod outcome;
mod words;

pub use outcome::reply;

#[cfg(test)]
mod tests;
