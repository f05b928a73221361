//! A folder that lines come from while a disk is played: which files of it have lines, in which
//! order they are read, and when each of them is removed.
#![tactic(auto)]

mod finder;
mod folder;
mod line_file;
mod names;
mod notices;
mod said;
mod spool;

pub use folder::{LineFolder, LinePlace};
pub use spool::Spool;
