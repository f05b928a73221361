//! A copy of a disk: the same carousel on a new disk of other sizes, and the command that makes it,
//! over any streams.
#![tactic(auto)]

mod command;
mod copying;
mod records;

pub use command::copy_file;
pub use copying::{NotCopied, copy};
pub use records::records_of_copy;
