//! The commands of a day file: how its text is cut into commands, and the grammar of a command line.
//!
//! The promise to the crates above: `Lines` gives the commands of `specs/Commands.antt` one after the other, from a
//! source of any pieces, and a line is read as a command exactly where it is that command's one spelling
//! (`specs/Grammar.antt`).
#![tactic(auto)]

mod block;
mod command;
mod fields;
pub mod limits;
mod line;
mod line_end;
mod lines;
mod open_line;
mod pieces;
mod reading;
mod scan;
mod split;
mod verbs;
mod writing;

pub use command::{Command, Verb};
pub use dali_base::limits::{MOST_BUDGET, MOST_PRICE, MOST_QUANTITY, MOST_RANK};
pub use line::Line;
pub use line_end::LineEnd;
pub use lines::Lines;
pub use reading::read_line;
pub use writing::write_line;
