//! Sessions with a server, and what it answers.
use crate::disks::Server;
use mot_base::Refusal;
use mot_journal::Layout;
use mot_packets::Packet;
use mot_session::serve;
use std::alloc::Global;
use std::test::Fail;

// The calls of a server, of which the tests need no promise: so they are cheap to prove.

/// Plays a turn.
pub fn play_turn(alloc: Global, server: &mut Server) -> Result<Vec<Packet>, Refusal> {
    server.play_turn(alloc)
}

/// Whether no gate is open after a closed one.
pub fn is_clean(server: &mut Server) -> Result<bool, Refusal> {
    server.is_clean()
}

/// Migrates the server's disk.
pub fn migrate(alloc: Global, server: &mut Server) -> Result<bool, Refusal> {
    server.migrate(alloc)
}

/// Whether the server's disk is of layout 2.
pub fn is_of_layout_two(server: &Server) -> bool {
    server.layout() == Layout::Two
}

/// What the server answers to an input that ends.
pub fn answers(alloc: Global, server: &mut Server, input: &[u8]) -> Result<Vec<u8>, Fail> {
    let mut reader = input;
    let mut written = Vec::new(alloc);
    match serve(alloc, &mut reader, &mut written, server, 100_000).fault {
        None => Ok(written),
        Some(fault) => Err(Fail::new(fault)),
    }
}
