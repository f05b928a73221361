//! Feeding a multiplexer: packets of a server's carousel as plain bytes, each in one write.
#![tactic(auto)]

mod feeding;
mod law;
mod manner;
mod sending;

pub use feeding::feed;
pub use law::feed_laws;
pub use manner::Manner;
pub use mot_packets::Outlet;
