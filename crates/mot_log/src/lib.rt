//! What is made of what happened: a line of the log, with its level, and counts.
//!
//! Each is a function of the event. No name and no text has a part in its level, or in what it
//! counts as.
#![tactic(auto)]

mod counters;
mod log;
mod look;
mod status;
mod tally;
mod text;

pub use counters::Counters;
pub use log::EventLog;
pub use status::{Figures, write_status};
pub use tally::EventClass;
pub use text::add_look_line;
