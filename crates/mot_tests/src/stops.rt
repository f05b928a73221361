//! Device calls that fail, each in its turn, and crashes: what is opened of what they leave.
use crate::disks::{ONE, OPENING, Server, THREE, copy_of, image_of, new_disk, old_disk, open};
use crate::expecting::expect;
use crate::receiver::received_turn;
use crate::serving::{answers, is_clean, is_of_layout_two, migrate};
use disk_store::MemoryDisk;
use mot_base::Refusal;
use std::alloc::Global;
use std::test::Fail;

/// The bytes that a crash gives in turn to what is loose; where there are none, those of the last
/// sync.
const CHOICES: [&[u8]; 6] = [&[], &[0x00], &[0xFF], &[0xA5], &[0x01], &[0x77]];

/// More than any command makes.
const MOST_CALLS: u8 = 20;

/// A command that comes after all others.
const FURTHER: &[u8] = b"period 77\n";

const FAULT: &[u8] = b"refused 15 DeviceFault\n";

/// A line of each kind that a halted server refuses, and its replies.
const REFUSED: &[u8] = b"put b 2 3 - 00\nreplace a 2 3 - 00\nwithdraw a\nperiod 5\nlist\nnext 1\n\
    turn\n";

const REFUSALS: &[u8] = b"refused 16 Halted\nrefused 16 Halted\nrefused 16 Halted\n\
    refused 16 Halted\nrefused 16 Halted\nrefused 16 Halted\nrefused 16 Halted\n";

/// Migrates the disk, in place of a line.
const MIGRATE: &[u8] = b"migrate";

/// Commands that fill a half again and again, and a migration.
const PERIODS: [&[u8]; 13] = [
    b"put a 2 3 - 68656c6c6f\n",
    b"period 1\n",
    b"period 2\n",
    b"period 3\n",
    b"period 4\n",
    b"period 5\n",
    b"period 6\n",
    b"period 7\n",
    b"period 8\n",
    b"period 9\n",
    b"period 10\n",
    b"period 11\n",
    MIGRATE,
];

/// Commands with bodies of 100, 60 and 40 bytes, of which the data area holds three, and a
/// migration.
const BODIES: [&[u8]; 13] = [
    b"put a 2 3 image/png 10171e252c333a41484f565d646b727980878e959ca3aab1b8bfc6cdd4dbe2e9f0f7fe05\
    0c131a21282f363d444b525960676e757c838a91989fa6adb4bbc2c9d0d7dee5ecf3fa01080f161d242b323940474e\
    555c636a71787f868d949ba2a9b0b7bec5\n",
    b"put b 2 1 - 41484f565d646b727980878e959ca3aab1b8bfc6cdd4dbe2e9f0f7fe050c131a21282f363d444b52\
    5960676e757c838a91989fa6adb4bbc2c9d0d7dee5ecf3fa01080f161d242b323940474e555c636a71787f868d949b\
    a2a9b0b7bec5ccd3dae1e8eff6\n",
    b"put c 3 0 - 838a91989fa6adb4bbc2c9d0d7dee5ecf3fa01080f161d242b323940474e555c636a71787f868d94\
    9ba2a9b0b7bec5ccd3dae1e8eff6fd040b121920272e353c434a51585f666d747b828990979ea5acb3bac1c8cfd6dd\
    e4ebf2f900070e151c232a3138\n",
    b"withdraw a\n",
    b"replace b 2 3 image/jpeg 222930373e454c535a61686f767d848b9299a0a7aeb5bcc3cad1d8dfe6edf4fb020\
    910171e252c333a41484f565d646b727980878e959ca3aab1b8bf\n",
    b"withdraw c\n",
    b"put d 0 0 - 99a0a7aeb5bcc3cad1d8dfe6edf4fb020910171e252c333a41484f565d646b727980878e959ca3aa\
    b1b8bfc6cdd4dbe2e9f0f7fe050c131a21282f363d444b525960676e757c838a91989fa6adb4bbc2c9d0d7dee5ecf3\
    fa01080f161d242b323940474e\n",
    b"replace d 2 3 - 575e656c737a81888f969da4abb2b9c0c7ced5dce3eaf1f8ff060d141b222930373e454c535a\
    6168\n",
    b"period 9\n",
    b"withdraw b\n",
    b"put a 2 3 - c0c7ced5dce3eaf1f8ff060d141b222930373e454c535a61686f767d848b9299a0a7aeb5bcc3cad1\
    d8dfe6edf4fb020910171e252c333a41484f565d\n",
    b"period 12\n",
    MIGRATE,
];

/// Commands on a disk, and what a server shows of them that nothing disturbs.
#[derive(Drop)]
struct Session<'a> {
    disk: &'a MemoryDisk,
    commands: &'a [&'a [u8]],
    /// What it shows after none of the commands, after one, and so on.
    shown: Vec<Vec<u8>>,
    /// The same with `FURTHER` after them.
    further: Vec<Vec<u8>>,
}

impl<'a> Session<'a> {
    fn new(
        alloc: Global,
        disk: &'a MemoryDisk,
        commands: &'a [&'a [u8]],
    ) -> Result<Session<'a>, Fail> {
        Ok(Session {
            disk,
            commands,
            shown: shown_behind_each(alloc, disk, commands, b"")?,
            further: shown_behind_each(alloc, disk, commands, FURTHER)?,
        })
    }
}

/// What is shown after none of the commands and this line, after one and it, and so on.
fn shown_behind_each(
    alloc: Global,
    disk: &MemoryDisk,
    commands: &[&[u8]],
    line: &[u8],
) -> Result<Vec<Vec<u8>>, Fail> {
    let mut all = Vec::new(alloc);
    for count in 0..=commands.len() {
        let done = commands.get(..count).unwrap_or(commands);
        all.push(shown_behind(alloc, disk, done, line)?)?;
    }
    Ok(all)
}

/// A disk like this one that stops at this disk call after the opening.
fn stopping(alloc: Global, disk: &MemoryDisk, call: u8) -> Result<MemoryDisk, Fail> {
    let mut disk = copy_of(alloc, disk)?;
    disk.stop_at(OPENING + u64::from(call));
    Ok(disk)
}

/// A disk like this one of which this disk call after the opening fails.
fn failing(alloc: Global, disk: &MemoryDisk, call: u8) -> Result<MemoryDisk, Fail> {
    let mut disk = copy_of(alloc, disk)?;
    disk.fail_at(OPENING + u64::from(call));
    Ok(disk)
}

/// What a server shows, which has to be clean: the reply to `list`, and what a receiver makes of a
/// turn.
fn shown(alloc: Global, server: &mut Server) -> Result<Vec<u8>, Fail> {
    if is_clean(server) != Ok(true) {
        return Err(Fail::new("not clean"));
    }
    let mut shown = answers(alloc, server, b"list\n")?;
    let receiver = received_turn(alloc, server)?;
    shown.extend_from_slice(&receiver.entities)?;
    Ok(shown)
}

/// What a server shows on a disk like this one after these commands and this line.
fn shown_behind(
    alloc: Global,
    disk: &MemoryDisk,
    commands: &[&[u8]],
    line: &[u8],
) -> Result<Vec<u8>, Fail> {
    let mut server = open(alloc, copy_of(alloc, disk)?)?;
    shown_after(alloc, &mut server, commands, line)
}

fn shown_after(
    alloc: Global,
    server: &mut Server,
    commands: &[&[u8]],
    line: &[u8],
) -> Result<Vec<u8>, Fail> {
    expect_done(alloc, server, commands)?;
    answers(alloc, server, line)?;
    shown(alloc, server)
}

/// Each of these commands has to be done.
fn expect_done(alloc: Global, server: &mut Server, commands: &[&[u8]]) -> Result<(), Fail> {
    if done_before_fault(alloc, server, commands)? == commands.len() {
        Ok(())
    } else {
        Err(Fail::new("a command that is not done"))
    }
}

/// The answer to a command, or to a migration.
fn answer_to(alloc: Global, server: &mut Server, command: &[u8]) -> Result<Vec<u8>, Fail> {
    if command != MIGRATE {
        return answers(alloc, server, command);
    }
    match migrate(alloc, server) {
        Ok(true) if is_of_layout_two(server) => Ok(Vec::from_slice(alloc, b"done ")?),
        Err(Refusal::DeviceFault) => Ok(Vec::from_slice(alloc, FAULT)?),
        _ => Err(Fail::new("no migration")),
    }
}

/// How many of the commands are done before the first that meets a fault of the disk.
fn done_before_fault(
    alloc: Global,
    server: &mut Server,
    commands: &[&[u8]],
) -> Result<usize, Fail> {
    for (place, command) in commands.iter().enumerate() {
        let reply = answer_to(alloc, server, command)?;
        if reply.as_slice() == FAULT {
            return Ok(place);
        }
        if !reply.starts_with(b"done ") {
            return Err(Fail::new("another refusal"));
        }
    }
    Ok(commands.len())
}

/// A server that is halted has to refuse each line and call.
fn expect_refusals(alloc: Global, server: &mut Server) -> Result<(), Fail> {
    let calls = (is_clean(server), migrate(alloc, server));
    if answers(alloc, server, REFUSED)?.as_slice() == REFUSALS
        && calls == (Err(Refusal::Halted), Err(Refusal::Halted))
    {
        Ok(())
    } else {
        Err(Fail::new("a halted server that answers"))
    }
}

/// How many of the commands are done by a server, which has to be halted where one met a fault.
fn done_or_halted(alloc: Global, server: &mut Server, commands: &[&[u8]]) -> Result<usize, Fail> {
    let done = done_before_fault(alloc, server, commands)?;
    if done < commands.len() {
        expect_refusals(alloc, server)?;
    }
    Ok(done)
}

/// The same of a server on this disk, and the disk.
fn left_by_commands(
    alloc: Global,
    disk: MemoryDisk,
    commands: &[&[u8]],
) -> Result<(usize, MemoryDisk), Fail> {
    let mut server = open(alloc, disk)?;
    let done = done_or_halted(alloc, &mut server, commands)?;
    Ok((done, server.into_disk()))
}

/// What is shown of a disk that is opened.
fn shown_of(alloc: Global, disk: MemoryDisk) -> Result<Vec<u8>, Fail> {
    let mut server = open(alloc, disk)?;
    shown(alloc, &mut server)
}

/// The same, and what is shown after `FURTHER`.
fn shown_twice(alloc: Global, disk: MemoryDisk) -> Result<(Vec<u8>, Vec<u8>), Fail> {
    let mut server = open(alloc, disk)?;
    shown_around(alloc, &mut server)
}

fn shown_around(alloc: Global, server: &mut Server) -> Result<(Vec<u8>, Vec<u8>), Fail> {
    let before = shown(alloc, server)?;
    let after = shown_after(alloc, server, &[FURTHER], b"")?;
    Ok((before, after))
}

/// Whether this text has that place.
fn is_at(texts: &[Vec<u8>], place: usize, text: &[u8]) -> bool {
    match texts.get(place) {
        Some(other) => other.as_slice() == text,
        None => false,
    }
}

/// Whether the text of that place begins so.
fn begins_with(texts: &[Vec<u8>], place: usize, front: &[u8]) -> bool {
    match texts.get(place) {
        Some(other) => other.starts_with(front),
        None => false,
    }
}

/// Opens a disk that has to show what stands after so many commands or one more, and to take
/// `FURTHER`. What it shows before and after that.
fn expect_shown(
    alloc: Global,
    session: &Session,
    told: usize,
    disk: MemoryDisk,
) -> Result<(Vec<u8>, Vec<u8>), Fail> {
    let (before, after) = shown_twice(alloc, disk)?;
    let count = if is_at(&session.shown, told, &before) {
        told
    } else {
        told.saturating_add(1)
    };
    if is_at(&session.shown, count, &before) && is_at(&session.further, count, &after) {
        Ok((before, after))
    } else {
        Err(Fail::new("another carousel"))
    }
}

/// Stops `FURTHER` on a disk like this one at this device call; each crash has to leave what is
/// shown before it or after it. Whether it was done.
fn stops_further(
    alloc: Global,
    disk: &MemoryDisk,
    call: u8,
    before: &[u8],
    after: &[u8],
) -> Result<bool, Fail> {
    let (done, left) = left_by_commands(alloc, stopping(alloc, disk, call)?, &[FURTHER])?;
    for choices in CHOICES {
        let shown = shown_of(alloc, image_of(alloc, &left, choices)?)?;
        let is_after = shown.as_slice() == after;
        if !is_after && (done == 1 || shown.as_slice() != before) {
            return Err(Fail::new("neither before nor after"));
        }
    }
    Ok(done == 1)
}

/// Each image that a crash may leave of the disk has to be clean, to show what stands after so
/// many commands or one more, and to take `FURTHER`, also where each of its device calls stops.
fn expect_images(
    alloc: Global,
    session: &Session,
    told: usize,
    left: &MemoryDisk,
) -> Result<(), Fail> {
    for choices in CHOICES {
        let image = image_of(alloc, left, choices)?;
        let (before, after) = expect_shown(alloc, session, told, copy_of(alloc, &image)?)?;
        expect_stops_of_further(alloc, &image, &before, &after)?;
    }
    Ok(())
}

/// Each device call of `FURTHER` stops.
fn expect_stops_of_further(
    alloc: Global,
    image: &MemoryDisk,
    before: &[u8],
    after: &[u8],
) -> Result<(), Fail> {
    for call in 1..=MOST_CALLS {
        if stops_further(alloc, image, call, before, after)? {
            return Ok(());
        }
    }
    Err(Fail::new("a command without an end"))
}

/// The commands on a disk that stops at this device call, and each crash. How many were done.
fn done_at_stop(alloc: Global, session: &Session, call: u8) -> Result<usize, Fail> {
    let disk = stopping(alloc, session.disk, call)?;
    let (told, left) = left_by_commands(alloc, disk, session.commands)?;
    expect_images(alloc, session, told, &left)?;
    Ok(told)
}

/// The commands on a disk of which this device call fails, and that is opened again. How many were
/// done.
fn done_at_fault(alloc: Global, session: &Session, call: u8) -> Result<usize, Fail> {
    let disk = failing(alloc, session.disk, call)?;
    let (told, left) = left_by_commands(alloc, disk, session.commands)?;
    expect_shown(alloc, session, told, left)?;
    Ok(told)
}

/// Each of so many disk calls stops a command, or fails in one; the one after them does not.
fn expect_stops(alloc: Global, session: &Session, calls: u8) -> Result<(), Fail> {
    let all = session.commands.len();
    for call in 1..=calls {
        if done_at_stop(alloc, session, call)? == all
            || done_at_fault(alloc, session, call)? == all
        {
            return Err(Fail::new("a stop of no command"));
        }
    }
    if done_at_stop(alloc, session, calls.saturating_add(1))? == all {
        Ok(())
    } else {
        Err(Fail::new("more device calls"))
    }
}

#[test]
fn what_is_shown(rt: HostRuntime) -> Result<(), Fail> {
    let alloc = rt.alloc();
    let disk = new_disk(alloc, &ONE)?;
    let texts = shown_behind_each(alloc, &disk, without_migration(&PERIODS), b"")?;
    // The reply, the directory with its object's header, and the body.
    let first = b"carousel 0 3 3 1\nobject 2 0 2 3 5 a -\n\
        \x76\0\x03\0\0\0\x1C\0\x01\0\0\0\0\x40\0\0\
        \0\x02\0\0\0\x50\x06\x84\x03\xCC\x02\xF0a\x46\0\x74\0\x02hello";
    let rows = [
        (0, b"carousel 0 1 1 0\n".as_slice()),
        (1, first.as_slice()),
        (6, b"carousel 5 8 8 1\nobject 2 0 2 3 5 a -\n".as_slice()),
        (
            11,
            b"carousel 10 13 13 1\nobject 2 0 2 3 5 a -\n".as_slice(),
        ),
        (
            12,
            b"carousel 11 14 14 1\nobject 2 0 2 3 5 a -\n".as_slice(),
        ),
    ];
    for (place, text) in rows {
        expect(
            &rt,
            (place, begins_with(&texts, place, text)),
            (place, true),
        );
    }
    Ok(())
}

/// The commands without the migration.
fn without_migration<'a>(commands: &'a [&'a [u8]; 13]) -> &'a [&'a [u8]] {
    commands.get(..12).unwrap_or(commands)
}

/// Each of so many device calls of the commands stops, or fails, on this disk.
fn stops_on(
    alloc: Global,
    disk: Result<MemoryDisk, Refusal>,
    commands: &[&[u8]],
    calls: u8,
) -> Result<(), Fail> {
    let disk = disk?;
    let session = Session::new(alloc, &disk, commands)?;
    expect_stops(alloc, &session, calls)
}

#[test]
fn stops_on_layout_two(rt: HostRuntime) -> Result<(), Fail> {
    let disk = new_disk(rt.alloc(), &ONE);
    stops_on(rt.alloc(), disk, without_migration(&PERIODS), 79)
}

#[test]
fn stops_on_layout_one(rt: HostRuntime) -> Result<(), Fail> {
    let disk = old_disk(rt.alloc(), 1, 8);
    stops_on(rt.alloc(), disk, &PERIODS, 67 + 6)
}

#[test]
fn stops_with_bodies_on_layout_two(rt: HostRuntime) -> Result<(), Fail> {
    let disk = new_disk(rt.alloc(), &THREE);
    stops_on(rt.alloc(), disk, without_migration(&BODIES), 79)
}

#[test]
fn stops_with_bodies_on_layout_one(rt: HostRuntime) -> Result<(), Fail> {
    let disk = old_disk(rt.alloc(), 3, 300);
    stops_on(rt.alloc(), disk, &BODIES, 68 + 8)
}
