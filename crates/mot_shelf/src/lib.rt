//! A folder of files as a program sees it: clauses can say what was listed and read of it.
#![tactic(auto)]

mod path;
mod reader;
mod seen;

pub use path::LONGEST_PATH;
pub use reader::FolderReader;
pub use seen::{SeenFile, SeenFiles};
