//! Where packets and the status of a disk on air go, where lines come from, which suffixes a file
//! adds, and the one handle on the files of a command.
#![tactic(auto)]

mod beside;
mod copy;
mod fault;
mod host;
mod lines;
mod new_file;
mod packets;
mod status_file;
mod types;

pub use beside::{SUFFIX, folder_of, leads_to};
pub use copy::copy_unopened;
pub use fault::{Cause, LinesFault, NewDiskFault, PacketsFault, StartError, TypesFault};
pub use host::{Host, Machine};
pub use lines::{OtherFiles, line_folder};
pub use new_file::NewPlace;
pub use packets::{Destination, OUTPUT, OpenPackets, PacketWriter, Target, open_packets};
pub use status_file::StatusFile;
pub use types::file_types;
