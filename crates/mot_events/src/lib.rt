//! What happened while a disk was played, or was made equal to a folder, as data.
//!
//! An event is made once, where what it says is known (`Event`), and is told to who `Tells` it on.
//! What is made of it, the line of a log, counts, and the status, reads no name and no text to find
//! out what happened.
#![tactic(auto)]

mod event;
mod inlet;
mod line_count;
mod listed;
mod tells;
mod words;

pub use event::{Event, LookEvent, LookResult, LookStep, Reply, Skip, Why};
pub use inlet::Inlet;
pub use line_count::LineCount;
pub use listed::is_listed;
pub use tells::Tells;
pub use words::Words;
