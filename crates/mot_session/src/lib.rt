//! Lines come in, a server on a disk does what they ask, and replies go out.
#![tactic(auto)]

mod deciding;
mod law;
mod life;
mod serving;

pub use law::told_laws;
pub use life::{
    ServedLife, ServedLineOn, ServedOn, format_and_serve, serve_and_restart, serve_line_and_restart,
};
pub use mot_lines::{Line, SegmentBytes, parse_line};
pub use mot_numbers::Geometry;
pub use serving::{
    MAX_READS, READ_SIZE, ServeEnd, WriteFault, answer_reading, serve, serve_line, write_listing,
    write_whole,
};
