//! Which files are objects, and what they are, by the suffixes of their names (TS 101 756, table
//! 17); which image type their first bytes say; and how a log shows a name.
#![tactic(auto)]

mod images;
mod showing;
mod types;

pub use images::{ImageType, OtherImage, other_image};
pub use showing::{is_control, next_shown};
pub use types::{FileType, FileTypes, RefusedLine};
