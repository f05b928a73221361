//! The files of a system, by calls that are noted one by one, so that clauses can say which calls
//! were made and what follows from their answers.
#![tactic(auto)]

mod answers;
mod beside;
mod call_log;
mod host;
mod lasting;
mod listing;
mod reading;
mod stamping;
mod system;
mod table;
mod writing;

pub use beside::{hold, replace, take_place};
pub use call_log::CallLog;
pub use host::HostSystem;
pub use lasting::{make_last, sync_path};
pub use listing::{file_stamp, path_in};
pub use reading::{FileRead, ReadFailure, is_regular, is_same, read_file, read_stamped};
pub use system::{Event, Fault, FileStat, Handle, How, Kind, Part, Stamp, System, Time};
pub use table::Table;
pub use writing::write_all;
