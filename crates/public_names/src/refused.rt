//! What holds whichever requests for memory are refused, and where none is:
//! `tests/test_refused_growth.py` refuses each in its turn.
use crate::commands::gaps;
use crate::disks::{Server, TIGHT, image_of, new_server, open};
use crate::expecting::expect;
use crate::playing::{next_turn_and_index, server_of_eight};
use disk_store::MemoryDisk;
use mot_base::Refusal;
use mot_server::{RunEnd, restart};
use std::alloc::Global;

/// Which of the commands are accepted.
const MARKS: [bool; 7] = [true, true, true, true, true, false, true];

// Whether a call may be refused so where memory is refused.
fn is_known(refusal: Refusal) -> bool {
    refusal == Refusal::OutOfMemory || refusal == Refusal::DeviceFault
}

// Whether these are the answers to a beginning of the commands, and a fault comes exactly where some
// are left.
fn is_beginning(end: &RunEnd) -> bool {
    let is_whole = end.done.len() == MARKS.len();
    match end.fault {
        Some(fault) => is_known(fault) && !is_whole && MARKS.starts_with(&end.done),
        None => is_whole && MARKS.starts_with(&end.done),
    }
}

// Runs the commands, unless memory is refused before. What came of them, and the disk.
fn ran(alloc: Global) -> Result<(RunEnd, MemoryDisk), Refusal> {
    let commands = gaps(alloc)?;
    let mut server = new_server(alloc, &TIGHT)?;
    let end = server.run(alloc, &commands);
    Ok((end, server.into_disk()))
}

// How many objects there are after so many of the commands.
fn objects_after(count: usize) -> Option<usize> {
    [0, 1, 2, 3, 2, 1, 1, 2].get(count).copied()
}

// How many objects a crash leaves, unless memory is refused.
fn objects_left(alloc: Global, disk: &MemoryDisk) -> Option<usize> {
    let Ok(image) = image_of(alloc, disk, &[]) else {
        return None;
    };
    match open(alloc, image) {
        Ok(server) => Some(server.carousel().objects.len()),
        Err(_) => None,
    }
}

// Whether what a crash leaves are the objects of the accepted commands, or, where the disk failed,
// of one more. Where memory is refused nothing is left to look at.
fn is_stored(alloc: Global, end: &RunEnd, disk: &MemoryDisk) -> bool {
    let found = objects_left(alloc, disk);
    let done = end.done.len();
    found.is_none()
        || found == objects_after(done)
        || (end.fault == Some(Refusal::DeviceFault)
            && found == objects_after(done.saturating_add(1)))
}

#[test]
fn a_refused_growth_ends_a_run(rt: HostRuntime) {
    if let Ok((end, disk)) = ran(rt.alloc()) {
        expect(&rt, is_beginning(&end), true);
        expect(&rt, is_stored(rt.alloc(), &end, &disk), true);
    }
}

// Whether a turn has so many packets, or was refused for memory.
fn is_turn(alloc: Global, server: &mut Server, count: usize) -> bool {
    match server.play_turn(alloc) {
        Ok(packets) => packets.len() == count,
        Err(refusal) => refusal == Refusal::OutOfMemory,
    }
}

// Whether forty packets in a row are made, which takes no memory.
fn plays_on(server: &mut Server) -> bool {
    for _ in 0..40 {
        if server.next_packet().is_err() {
            return false;
        }
    }
    true
}

// Whether the disk is opened and its turns played, or this is refused for memory and nothing lost.
fn is_restarted(alloc: Global, disk: MemoryDisk) -> bool {
    match restart(alloc, disk) {
        Ok(restarted) => {
            let mut server = restarted.server;
            is_turn(alloc, &mut server, restarted.packets.len()) && plays_on(&mut server)
        }
        Err(refused) => {
            let found = objects_left(alloc, &refused.disk);
            is_known(refused.refusal) && (found.is_none() || found == Some(2))
        }
    }
}

#[test]
fn a_refused_growth_refuses_a_restart(rt: HostRuntime) {
    if let Ok((end, disk)) = ran(rt.alloc())
        && end.fault.is_none()
    {
        expect(&rt, is_restarted(rt.alloc(), disk), true);
    }
}

// Two turns take no memory, and a call that plays a whole turn does.
#[test]
fn a_refused_growth_stops_no_packet(rt: HostRuntime) {
    if let Ok(mut server) = server_of_eight(rt.alloc()) {
        for number in 1..=16 {
            let seen = next_turn_and_index(&mut server);
            expect(&rt, (number, seen), (number, Ok((number % 8 == 0, 0))));
        }
        expect(&rt, is_turn(rt.alloc(), &mut server, 8), true);
    }
}
