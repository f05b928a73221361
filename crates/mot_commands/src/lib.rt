//! The commands that serve, make, check and migrate a disk, those that print its carousel and its
//! sizes, those that list, put, withdraw and print single objects, and the one that tells whether a
//! disk on air sends packets, over any streams.
#![tactic(auto)]

mod asking;
mod changing;
mod checking;
mod formatting;
mod getting;
mod health;
mod listing;
mod migrating;
mod serving;
mod shown;
mod working;

pub use changing::{put, withdraw_file};
pub use formatting::format_file;
pub use health::tell_health;
pub use serving::serve_memory;
pub use working::work_on_file;
