//! Crashes and faults on the way of a command, and what is opened of what they leave.
ghost use Rattle.std.specs.Prelude.{◌≤◌};

use crate::commands::{put, twelve};
use crate::disks::{ONE, OPENING, SHORT, Server, USUAL, image_of, new_disk, old_disk, open};
use crate::expecting::expect;
use crate::repetition::set_period;
use disk_store::MemoryDisk;
use mot_base::Refusal;
use mot_carousel::Command;
use mot_journal::Geometry;
use mot_server::restart;
use std::alloc::Global;
use std::test::Fail;

// An empty disk of layout 1 or of layout 2.
fn empty_disk(alloc: Global, geometry: &Geometry, is_old: bool) -> Result<MemoryDisk, Refusal> {
    match is_old {
        true => old_disk(alloc, geometry),
        false => new_disk(alloc, geometry),
    }
}

// Puts two objects, of which the second meets a fault of the disk. The disk.
fn left_by_two_puts(alloc: Global, disk: MemoryDisk) -> Result<MemoryDisk, Refusal> {
    let mut server = open(alloc, disk)?;
    server.execute(alloc, &put(alloc, b"a", b"abc")?)?;
    let second = server.execute(alloc, &put(alloc, b"b", b"xyz")?);
    let played = server.next_packet().is_ok();
    if second != Err(Refusal::DeviceFault) || played {
        return Err(Refusal::BadLine);
    }
    Ok(server.into_disk())
}

// How many objects are played of a disk that stopped at the gate of the second put, where a crash
// leaves this byte there.
fn objects_behind_gate(alloc: Global, is_old: bool, left: u8) -> Result<usize, Refusal> {
    let mut disk = empty_disk(alloc, &USUAL, is_old)?;
    disk.stop_at(OPENING + 5 + 4);
    let disk = left_by_two_puts(alloc, disk)?;
    match restart(alloc, image_of(alloc, &disk, &[left])?) {
        Ok(restarted) => Ok(restarted.server.carousel().objects.len()),
        Err(refused) => Err(refused.refusal),
    }
}

#[test]
fn a_gate_that_is_open_makes_the_record_count(rt: HostRuntime) {
    for is_old in [true, false] {
        for (left, count) in [(0x5A, 1), (0, 1), (0xA5, 2)] {
            let objects = objects_behind_gate(rt.alloc(), is_old, left);
            expect(&rt, (is_old, left, objects), (is_old, left, Ok(count)));
        }
    }
}

// Runs the twelve commands on a disk that stops. How many were done, and what ended them, and the
// disk.
fn ran_to_stop(
    alloc: Global,
    disk: MemoryDisk,
) -> Result<(usize, Option<Refusal>, MemoryDisk), Refusal> {
    let commands = twelve(alloc)?;
    let mut server = open(alloc, disk)?;
    let end = server.run(alloc, &commands);
    Ok((end.done.len(), end.fault, server.into_disk()))
}

// The directory's id, and whether the disk is clean.
fn shown(alloc: Global, disk: MemoryDisk) -> Result<(u16, bool), Refusal> {
    let mut server = open(alloc, disk)?;
    let is_clean = server.is_clean()?;
    Ok((server.carousel().directory.get(), is_clean))
}

// How many of the twelve commands were done before this device call stopped, and what is shown of
// what a crash leaves that writes another selector.
fn shown_behind_selector(
    alloc: Global,
    is_old: bool,
    call: u64,
) -> Result<(usize, u16, bool), Refusal>
    requires { call ≤ 100 }
{
    let mut disk = empty_disk(alloc, &ONE, is_old)?;
    disk.stop_at(OPENING + call);
    let (done, fault, disk) = ran_to_stop(alloc, disk)?;
    if fault != Some(Refusal::DeviceFault) {
        return Err(Refusal::BadLine);
    }
    let (directory, is_clean) = shown(alloc, image_of(alloc, &disk, &[0x77])?)?;
    Ok((done, directory, is_clean))
}

#[test]
fn a_selector_that_is_written_shows_the_other_half(rt: HostRuntime) {
    let alloc = rt.alloc();
    expect(
        &rt,
        shown_behind_selector(alloc, true, 33),
        Ok((6, 8, true)),
    );
    expect(
        &rt,
        shown_behind_selector(alloc, true, 62),
        Ok((11, 13, true)),
    );
    expect(
        &rt,
        shown_behind_selector(alloc, false, 14),
        Ok((2, 4, true)),
    );
    expect(
        &rt,
        shown_behind_selector(alloc, false, 28),
        Ok((4, 6, true)),
    );
}

// How many disk calls the first of the twelve commands make, after the opening.
fn calls_of(alloc: Global, is_old: bool, count: usize) -> Result<u64, Refusal> {
    let commands = twelve(alloc)?;
    let disk = empty_disk(alloc, &ONE, is_old)?;
    let before = disk.calls();
    let mut server = open(alloc, disk)?;
    let end = server.run(alloc, commands.get(..count).unwrap_or(&[]));
    if end.done.len() != count {
        return Err(Refusal::BadLine);
    }
    let calls = server.into_disk().calls();
    Ok(calls.saturating_sub(before).saturating_sub(OPENING))
}

#[test]
fn rewriting_costs_thirteen_calls_each_time(rt: HostRuntime) {
    let rows = [
        (true, 6, 25),
        (true, 7, 38),
        (true, 11, 54),
        (true, 12, 67),
        (false, 12, 79),
    ];
    for (is_old, count, calls) in rows {
        expect(
            &rt,
            (count, calls_of(rt.alloc(), is_old, count)),
            (count, Ok(calls)),
        );
    }
}

// What a server answers that met a fault: to a put that the fault comes in, to a period, and to a
// request for a packet.
type Halted = (Option<Refusal>, Option<Refusal>, Option<Refusal>);

// The refusal of a command.
fn refusal_of(alloc: Global, server: &mut Server, command: &Command) -> Option<Refusal> {
    match server.execute(alloc, command) {
        Ok(_) => None,
        Err(refusal) => Some(refusal),
    }
}

// The refusal of a request for a packet.
fn refusal_to_play(server: &mut Server) -> Option<Refusal> {
    match server.next_packet() {
        Ok(_) => None,
        Err(refusal) => Some(refusal),
    }
}

fn answers_of(alloc: Global, server: &mut Server) -> Result<Halted, Refusal> {
    let put = refusal_of(alloc, server, &put(alloc, b"a", b"abc")?);
    let period = refusal_of(alloc, server, &set_period(1)?);
    Ok((put, period, refusal_to_play(server)))
}

// The answers where this device call of the put fails, how many objects are shown then, and whether
// the disk is clean.
fn halted_at(alloc: Global, call: u64) -> Result<(Halted, usize, bool), Refusal>
    requires { call ≤ 100 }
{
    let mut disk = new_disk(alloc, &SHORT)?;
    disk.fail_at(OPENING + call);
    let mut server = open(alloc, disk)?;
    let answers = answers_of(alloc, &mut server)?;
    let mut server = open(alloc, server.into_disk())?;
    let is_clean = server.is_clean()?;
    Ok((answers, server.carousel().objects.len(), is_clean))
}

#[test]
fn a_fault_halts_the_server_and_leaves_what_was_before(rt: HostRuntime) {
    let halted = (
        Some(Refusal::DeviceFault),
        Some(Refusal::Halted),
        Some(Refusal::Halted),
    );
    expect(&rt, halted_at(rt.alloc(), 3), Ok((halted, 0, true)));
    expect(&rt, halted_at(rt.alloc(), 4), Ok((halted, 0, true)));
}

// A disk of layout 1 with six records.
fn six_records(alloc: Global) -> Result<MemoryDisk, Refusal> {
    let commands = twelve(alloc)?;
    let mut server = open(alloc, old_disk(alloc, &ONE)?)?;
    let end = server.run(alloc, commands.get(..6).unwrap_or(&[]));
    if end.done.len() != 6 {
        return Err(Refusal::BadLine);
    }
    Ok(server.into_disk())
}

// Migrates such a disk that stops at this device call. What came of it, and the disk.
fn migrated(
    alloc: Global,
    disk: &MemoryDisk,
    call: u64,
) -> Result<(Result<bool, Refusal>, MemoryDisk), Refusal>
    requires { call ≤ 100 }
{
    let mut disk = image_of(alloc, disk, &[])?;
    disk.stop_at(OPENING + call);
    let mut server = open(alloc, disk)?;
    let done = server.migrate(alloc);
    Ok((done, server.into_disk()))
}

#[test]
fn a_stop_in_a_migration_leaves_the_carousel(rt: HostRuntime) -> Result<(), Fail> {
    let alloc = rt.alloc();
    let disk = six_records(alloc)?;
    let choices: [&[u8]; 6] = [&[], &[0x00], &[0xFF], &[0xA5], &[0x01], &[0x77]];
    for call in 1..=7 {
        let (done, left) = migrated(alloc, &disk, call)?;
        expect(&rt, (call, done.is_ok()), (call, call == 7));
        for choice in choices {
            let image = image_of(alloc, &left, choice)?;
            expect(&rt, (call, shown(alloc, image)), (call, Ok((8, true))));
        }
    }
    Ok(())
}
