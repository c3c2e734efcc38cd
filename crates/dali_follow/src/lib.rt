//! Following: a journal is brought after the one that a stream of frames was shipped from, whatever was lost, repeated, put in
//! another order or cut on the way.
//!
//! The promise to the crates above: at every stop the device spells a legal history, which is what it spelled at the start after
//! some first whole frames of the stream (`specs/FollowPrefix.antt`); what was taken, printed and left when the run ended, and
//! why it ended so, is `specs/FollowRun.antt`; what follows where the stream was shipped from a primary is
//! `specs/Promises.antt`. Commands are counted from 1, places of the stream and of the journal from 0.
#![tactic(auto)]

mod adding;
mod end;
mod follow;
mod held;
mod taking;

pub use end::FollowEnd;
pub use follow::follow_stream;
