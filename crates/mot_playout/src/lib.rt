//! A server that keeps a carousel on a disk, and plays it.
#![tactic(auto)]

mod beginning;
mod bodies;
mod comparing;
mod headline;
mod life;
mod playing;
mod restarting;
mod running;
mod server;

pub use beginning::{Beginning, format_and_restart};
pub use headline::{Aftermath, run_and_restart};
pub use life::{FirstTurn, Life, first_turn, format_and_open, format_and_run};
pub use mot_repository::Refused;
pub use restarting::{Restarted, restart};
pub use running::{Attempt, RunEnd};
pub use server::Server;
