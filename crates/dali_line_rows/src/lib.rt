//! Worked rows of the reader of lines and of the grammar: files and their commands, lines and what they spell. There is
//! nothing but tests here.
#![tactic(auto)]

#[cfg(test)]
mod grammar;
#[cfg(test)]
mod reader;
