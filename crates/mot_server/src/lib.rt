//! The product as one library: a server that keeps a carousel on a disk and plays it, the lines that
//! it is asked by, and the whole program in one call.
#![tactic(auto)]

mod program;
mod running;
mod telling;

pub use mot_journal::Layout;
pub use mot_numbers::Geometry;
pub use mot_playout::{Refused, Restarted, RunEnd, Server, restart};
pub use mot_session::{Line, ServeEnd, parse_line, serve};
pub use program::{run_program, run_program_on};
