//! Checked numbers, the geometry and the refusals of the carousel server.
#![tactic(auto)]

mod geometry;
mod group_kind;
mod numbers;
mod packet_length;
mod refusal;

pub use geometry::{Geometry, MAX_DATA_AREA, MAX_OBJECTS};
pub use group_kind::GroupKind;
pub use numbers::{Address, MAX_ADDRESS, MAX_SEGMENT, MIN_SEGMENT, SegmentSize, TransportId};
pub use packet_length::PacketLength;
pub use refusal::Refusal;
