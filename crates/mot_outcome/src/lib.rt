//! What a run of the program comes to, whatever its task is: the exit status, the refusal and what
//! it is about, the disk as it is left, and what is printed of them.
#![tactic(auto)]

mod exit;
mod printing;
mod range;
mod reason;
mod subject;
mod unfit;
mod used;

pub use exit::{Exit, explain, refuse};
pub use printing::{print_text, write_bytes, write_last, write_number};
pub use subject::{Subject, subject_of, tell};
pub use unfit::{clear_after, clear_unfit};
pub use used::{TaskCalls, TaskEnd, UsedDisk};
