//! Packets of a packet-mode sub-channel (EN 300 401, clause 5.3.2).
#![tactic(auto)]

mod header;
mod outlet;
mod packet;

pub use outlet::Outlet;
pub use packet::{MAX_PACKET, Packet, cut_packet, cut_packet_into, packet_count};
