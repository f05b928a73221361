//! The journal of a disk: its geometry, and records in the slots of two halves. A gate at the
//! beginning of each slot is opened last.
#![tactic(auto)]

mod decoding;
mod encoding;
mod formatting;
mod gates;
mod journal;
mod layout;
mod loading;
mod places;
mod reason;
mod record;
mod writing;

pub use encoding::slot_bytes;
pub use formatting::{format, format_from, make_disk, reads_magic};
pub use journal::{Journal, Loaded, load, load_with_reason};
pub use layout::Layout;
pub use mot_numbers::Geometry;
pub use places::area_start;
pub use reason::{Fault, FieldFault, HeadFault, ListFault, Reason, Size};
pub use record::{Action, Record};
