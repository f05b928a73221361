//! MSC data groups (EN 300 401, clause 5.3.3) with MOT segments (EN 301 234).
#![tactic(auto)]

mod group;
mod segment;

pub use group::{content_front, segment_count, write_group};
pub use segment::SegmentBytes;
