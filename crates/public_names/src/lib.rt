//! The names that a user of the libraries has, each from the crate that hands it out: that they are
//! there is what this crate shows. Its tests are worked examples at these calls.
#![tactic(auto)]

pub use disk_store::{Disk, DiskFault, FileDisk, MemoryDisk};
pub use mot_base::{Address, GroupKind, PacketLength, Refusal, SegmentSize, TransportId, crc16};
pub use mot_carousel::{
    Body, Carousel, Change, Command, Content, Done, Mime, Name, Object, Period, free_id, plan,
};
pub use mot_directory::{directory_bytes, header_bytes};
pub use mot_groups::{segment_count, write_group};
pub use mot_journal::{Action, Geometry, Journal, Layout, Loaded, Record, format, load};
pub use mot_packets::{Packet, cut_packet, packet_count};
pub use mot_player::{Bodies, Played, Player, Turn};
pub use mot_repository::{
    Prepared, Refused, Repository, first_fit, format as format_of_repository,
};
pub use mot_server::{
    Geometry as GeometryOfServer, Layout as LayoutOfServer, Line, Refused as RefusedServer,
    Restarted, RunEnd, ServeEnd, Server, parse_line, restart, run_program, serve,
};

mod repetition;

pub use repetition::set_period;

#[cfg(test)]
mod commands;
#[cfg(test)]
mod crashes;
#[cfg(test)]
mod disks;
#[cfg(test)]
mod expecting;
#[cfg(test)]
mod groups;
#[cfg(test)]
mod journal;
#[cfg(test)]
mod playing;
#[cfg(test)]
mod program;
#[cfg(test)]
mod refused;
#[cfg(test)]
mod running;
#[cfg(test)]
mod serving;
