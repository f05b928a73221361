//! The command that makes a carousel equal to a folder, and what it would do, tried on a copy.
#![tactic(auto)]

mod copying;
mod syncing;
mod trying;

pub use syncing::{sync, sync_disk};
