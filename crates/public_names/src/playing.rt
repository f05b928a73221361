//! Packets of a server.
use crate::commands::{put, put_with_mime};
use crate::disks::{OPENING, SHORT, Server, new_disk, new_server, open};
use crate::expecting::expect;
use crate::repetition::set_period;
use mot_base::Refusal;
use std::alloc::Global;
use std::test::Fail;

// What is seen of a packet: its first three bytes, and whether it ends a turn; or its refusal.
type Seen = Result<([u8; 3], bool), Refusal>;

fn next_seen(server: &mut Server) -> Seen {
    let played = server.next_packet()?;
    let packet = played.packet.as_slice();
    let [first, second, third, ..] = *packet else {
        return Err(Refusal::BadLine);
    };
    Ok(([first, second, third], played.ends_turn))
}

// The continuity index of the group that the packet begins, if it begins one.
fn group_index(packet: &[u8]) -> Option<u8> {
    match *packet {
        [header, _, _, _, second, ..] if header & 8 != 0 => Some(second >> 4),
        _ => None,
    }
}

/// Whether the next packet ends a turn, and the index of the group that it begins, or else 0.
pub fn next_turn_and_index(server: &mut Server) -> Result<(bool, u8), Refusal> {
    let played = server.next_packet()?;
    let index = group_index(played.packet.as_slice());
    Ok((played.ends_turn, index.unwrap_or(0)))
}

/// A server on a disk with an object of 70 bytes that was opened again: it plays turns of eight
/// packets.
pub fn server_of_eight(alloc: Global) -> Result<Server, Refusal> {
    let mut server = new_server(alloc, &SHORT)?;
    server.execute(alloc, &put(alloc, b"a", &[7; 70])?)?;
    open(alloc, server.into_disk())
}

#[test]
fn two_turns_of_eight_packets_are_the_same_groups(rt: HostRuntime) -> Result<(), Fail> {
    let mut server = server_of_eight(rt.alloc())?;
    for number in 1..=16 {
        let seen = next_turn_and_index(&mut server);
        expect(&rt, (number, seen), (number, Ok((number % 8 == 0, 0))));
    }
    Ok(())
}

// A server that has one object of five bytes, and of whose disk the first read of a body fails.
fn failing_server(alloc: Global) -> Result<Server, Refusal> {
    let mut disk = new_disk(alloc, &SHORT)?;
    disk.fail_at(OPENING + 5 + 1);
    let mut server = open(alloc, disk)?;
    server.execute(
        alloc,
        &put_with_mime(alloc, b"a", b"image/png", &[1, 2, 3, 4, 5])?,
    )?;
    Ok(server)
}

#[test]
fn a_failed_read_of_a_body_costs_one_request(rt: HostRuntime) -> Result<(), Fail> {
    let alloc = rt.alloc();
    let mut server = failing_server(alloc)?;
    let rows: [Seen; 5] = [
        Ok(([0x08, 1, 0x13], false)),
        Ok(([0x10, 1, 0x13], false)),
        Ok(([0x24, 1, 0x0C], false)),
        Err(Refusal::DeviceFault),
        Ok(([0x3C, 1, 0x10], true)),
    ];
    for seen in rows {
        expect(&rt, next_seen(&mut server), seen);
    }
    expect(&rt, server.execute(alloc, &set_period(1)?).is_ok(), true);
    Ok(())
}
