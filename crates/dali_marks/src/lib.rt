//! The law of marks: what is answered to each entry of a legal history is true, whatever made the history. OPTIMAL is
//! said of a best set alone, and UNFINISHED only where the branchings are exactly the budget, and too few for every set
//! of places.
//!
//! It is a law of the definitions. No limit of a state or of a problem is in it: numbers of any size are added as they
//! are, so all that a bound needs of a problem is that its items change only lines that it has (`specs/OwnLines.antt`),
//! which the problem of every cycle does. So it holds of a history that a journal spells as of one that a day has made,
//! before anything is read or run.
#![tactic(auto)]

mod laws;

pub use laws::marks_are_true;
