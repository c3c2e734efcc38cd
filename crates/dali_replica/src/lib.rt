//! Frames of a journal that is shipped to another machine: how an entry is put into one, and how they are read from a stream.
//!
//! The promise to the crates above: `ship_frame` gives the one frame of a command's entry (`specs/Frame.antt`), and `Frames`
//! gives the whole frames of a stream one after the other, from a source of any pieces (`specs/Reading.antt`). A length is
//! compared with the limit before memory is taken, and memory is taken for bytes that are there alone.
#![tactic(auto)]

mod frames;
mod head;
mod intake;
mod judged;
mod judging;
mod kept;
pub mod limits;
mod record;
mod refusal;
mod shipped;
mod shipping;

pub use frames::Frames;
pub use judged::Judged;
pub use judging::judge;
pub use refusal::FrameNo;
pub use shipped::Shipped;
pub use shipping::ship_frame;
