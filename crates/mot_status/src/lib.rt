//! What is told of a disk while it is played: the events of its packets, its turns and its looks to
//! a log, and the status to a file, a text in the exposition format of Prometheus.
#![tactic(auto)]

mod clock;
mod figures;
mod reporter;
mod told;
mod turn;

pub use reporter::{Reporter, Telling};
pub use turn::TurnMeasurement;
