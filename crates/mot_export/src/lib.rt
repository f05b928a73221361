//! The commands that only read a disk: printing its carousel as lines, and telling its sizes; and
//! lines of JSON.
#![tactic(auto)]

mod exporting;
mod filling;
mod inspecting;
mod inspection;
mod json_line;
mod shown;
mod times;
mod words;

pub use exporting::export_disk;
pub use inspecting::inspect_disk;
pub use inspection::{Inspection, TurnTime, Waits};
pub use json_line::{JsonValue, add_json_line};
