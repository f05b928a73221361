//! A folder of files, as what a carousel is to have.
#![tactic(auto)]

mod folder;
mod guard;
mod known;
mod listing;
mod looking;
mod names;
mod report;

pub use folder::Folder;
pub use guard::Guard;
pub use known::{Known, KnownFiles, StampedFile};
pub use looking::{Looks, look_at_folder};
pub use mot_suffixes::{FileType, FileTypes};
pub use report::Report;
