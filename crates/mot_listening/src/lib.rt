//! What a receiver has that begins to listen at any packet of a player, and how long it waits. The
//! clauses that cite it are of `mot_feed`, but for those of the laws here.
#![tactic(auto)]

mod law;
mod lengths;
mod turn;

pub use law::listening_laws;
pub use lengths::{GROUP_FRAME, frame_packets, packet_for};
pub use turn::{TurnSize, turn_size};
