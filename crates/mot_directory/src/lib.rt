//! MOT headers and the carousel's directory as bytes (EN 301 234).
#![tactic(auto)]

mod directory;
mod header;

pub use directory::{MAX_DIRECTORY, directory_bytes, replaced_directory};
pub use header::{MAX_HEADER, header_bytes};
