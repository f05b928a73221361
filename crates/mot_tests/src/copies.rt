//! A copy of a disk on a larger one, made while each device call stops in its turn.
use crate::disks::{Server, THREE, blank_disk, copy_of, image_of, new_server, open};
use crate::expecting::expect;
use crate::receiver::received_turn;
use crate::serving::{answers, is_clean};
use disk_store::MemoryDisk;
use mot_base::Refusal;
use mot_copy_command::{NotCopied, copy};
use mot_journal::Geometry;
use mot_repository::Repository;
use std::alloc::Global;
use std::test::Fail;

/// More objects and data, other packets, the same segments.
const LARGER: Geometry = Geometry {
    objects: 5,
    area: 400,
    address: 9,
    packet: 48,
    ..THREE
};

/// Bodies that lie apart and in another order than their objects, an object with a version, and a
/// period.
const COMMANDS: &[u8] = b"put a 2 3 image/png 61626364\nput b 2 1 - 62\nput c 3 0 - 636363\n\
    replace a 2 3 - 6161616161\nwithdraw b\nperiod 7\n";

/// A command that comes after all others.
const FURTHER: &[u8] = b"put d 0 0 - 64\n";

/// The bytes that a crash gives in turn to what is loose.
const CHOICES: [&[u8]; 4] = [&[], &[0x00], &[0xA5], &[0x4D]];

/// How many device calls the copy makes of the new disk: a sync and a read, two bodies, the head,
/// the slots of two halves, and the magic between two syncs.
const CALLS: u8 = 2 + 2 + 1 + 2 * 7 + 3;

/// The old disk.
fn old_disk(alloc: Global) -> Result<MemoryDisk, Fail> {
    let mut server = new_server(alloc, &THREE)?;
    answers(alloc, &mut server, COMMANDS)?;
    Ok(server.into_disk())
}

/// What a server shows, which has to be clean: the replies to `list` and to a further command, and
/// what a receiver makes of the turns before and after it.
fn shown(alloc: Global, server: &mut Server) -> Result<Vec<u8>, Fail> {
    if is_clean(server) != Ok(true) {
        return Err(Fail::new("not clean"));
    }
    let mut shown = answers(alloc, server, b"list\n")?;
    shown.extend_from_slice(&received_turn(alloc, server)?.entities)?;
    shown.extend_from_slice(&answers(alloc, server, FURTHER)?)?;
    shown.extend_from_slice(&received_turn(alloc, server)?.entities)?;
    Ok(shown)
}

fn shown_of(alloc: Global, disk: MemoryDisk) -> Result<Vec<u8>, Fail> {
    let mut server = open(alloc, disk)?;
    shown(alloc, &mut server)
}

/// Copies onto this disk.
fn copied(
    alloc: Global,
    old: MemoryDisk,
    new: &mut MemoryDisk,
    geometry: &Geometry,
) -> Result<Result<(), NotCopied>, Fail> {
    match Repository::open(alloc, old) {
        Ok(mut repository) => Ok(copy(alloc, &mut repository, new, geometry, None)),
        Err(_) => Err(Fail::new("not opened")),
    }
}

/// Each image of the new disk has to show what the old one does, or is not formatted if the copy was
/// not done.
fn expect_images(
    alloc: Global,
    left: &MemoryDisk,
    is_done: bool,
    wanted: &[u8],
) -> Result<(), Fail> {
    for choices in CHOICES {
        match open(alloc, image_of(alloc, left, choices)?) {
            Ok(mut server) => {
                if shown(alloc, &mut server)?.as_slice() != wanted {
                    return Err(Fail::new("another carousel"));
                }
            }
            Err(Refusal::NotFormatted) if !is_done => {}
            Err(_) => return Err(Fail::new("another refusal")),
        }
    }
    Ok(())
}

/// Copies onto a larger disk that stops at this device call. Whether the copy was done.
fn stops_at(alloc: Global, old: &MemoryDisk, call: u8, wanted: &[u8]) -> Result<bool, Fail> {
    let mut new = blank_disk(alloc, &LARGER)?;
    new.stop_at(u64::from(call) + 1);
    let found = copied(alloc, copy_of(alloc, old)?, &mut new, &LARGER)?;
    let is_done = found == Ok(());
    if !is_done && found != Err(NotCopied::Refused(Refusal::DeviceFault)) {
        return Err(Fail::new("another refusal"));
    }
    expect_images(alloc, &new, is_done, wanted)?;
    Ok(is_done)
}

/// How many of so many stops leave the copy undone.
fn stops_before(alloc: Global, calls: u8) -> Result<u8, Fail> {
    let old = old_disk(alloc)?;
    let wanted = shown_of(alloc, copy_of(alloc, &old)?)?;
    let mut undone = 0;
    for call in 0..calls {
        if !stops_at(alloc, &old, call, &wanted)? {
            undone = call + 1;
        }
    }
    Ok(undone)
}

#[test]
fn each_stop_of_a_copy_leaves_nothing_or_the_copy(rt: HostRuntime) -> Result<(), Fail> {
    let undone = stops_before(rt.alloc(), CALLS + 3)?;
    expect(&rt, undone, CALLS);
    Ok(())
}
