//! A carousel kept on a disk: commands that survive a crash.
#![tactic(auto)]

mod by_start;
mod commit;
mod inventory;
mod opening;
mod prepared;
mod records;
mod repository;

pub use mot_carousel::{first_fit, longest_gap};
pub use mot_journal::format;
pub use opening::Refused;
pub use prepared::Prepared;
pub use repository::Repository;
