//! Rows of the disk in memory.
ghost use Rattle.std.specs.Prelude.{◌≡◌, ◌≤◌, IfOk};
ghost use Rattle.disk_store.specs.Memory.{memory_state};

use crate::expecting::expect;
use disk_model::{Disk, DiskFault};
use disk_store::MemoryDisk;
use std::alloc::Global;

// A function below that holds a disk has few ways out: at each, its end is proved again.

// What a read of the whole disk of 8 bytes gives.
fn bytes_of<D: Disk>(disk: &mut D) -> Result<[u8; 8], DiskFault>
    requires { 8 ≤ (D.state disk.old).len }
    ensures { (D.state disk.new).len ≡ (D.state disk.old).len }
{
    let mut bytes = [0; 8];
    disk.read(0, &mut bytes)?;
    Ok(bytes)
}

// How many calls a disk of 8 bytes has recorded before and after a read, and its bytes.
fn calls_around_a_read(disk: &mut MemoryDisk) -> Result<(u64, [u8; 8], u64), DiskFault> {
    if disk.len() != 8 {
        return Err(DiskFault);
    }
    let before = disk.calls();
    let bytes = bytes_of(disk)?;
    Ok((before, bytes, disk.calls()))
}

// No machine has this much memory.
#[test]
fn a_disk_too_large_is_none(rt: HostRuntime) {
    assert!(rt; MemoryDisk::new(rt.alloc(), u64::MAX).is_none());
}

// Bytes 10 to 17, synced, and then three loose bytes: at 2, 3 and 5.
fn loose_disk(alloc: Global) -> Result<MemoryDisk, DiskFault>
    ensures len { IfOk result (λ disk. (memory_state disk).len ≡ 8) }
{
    let mut disk = MemoryDisk::new(alloc, 8).ok_or(DiskFault)?;
    disk.write(0, &[10, 11, 12, 13, 14, 15, 16, 17])?;
    disk.sync()?;
    disk.write(2, &[1, 2])?;
    disk.write(5, &[3])?;
    Ok(disk)
}

// What a crash of a disk leaves: how many calls it has recorded, and its bytes; and the bytes that
// a crash of that leaves.
fn left_by_crashes(
    alloc: Global,
    disk: &MemoryDisk,
    choices: &[u8],
) -> Result<(u64, [u8; 8], [u8; 8]), DiskFault> {
    let mut left = disk.crash(alloc, choices).ok_or(DiskFault)?;
    let again = left_by_crash(alloc, &left, &[0x5A]);
    let (before, bytes, _) = calls_around_a_read(&mut left)?;
    Ok((before, bytes, again?))
}

// The bytes that a crash of a disk leaves.
fn left_by_crash(alloc: Global, disk: &MemoryDisk, choices: &[u8]) -> Result<[u8; 8], DiskFault> {
    let mut left = disk.crash(alloc, choices).ok_or(DiskFault)?;
    let (_, bytes, _) = calls_around_a_read(&mut left)?;
    Ok(bytes)
}

// What is left of the disk above, and of what is left; and what the disk itself holds then.
fn crashed(alloc: Global, choices: &[u8]) -> Result<(u64, [u8; 8], [u8; 8], [u8; 8]), DiskFault> {
    let mut disk = loose_disk(alloc)?;
    let left = left_by_crashes(alloc, &disk, choices);
    let bytes = bytes_of(&mut disk);
    let (calls, first, second) = left?;
    Ok((calls, first, second, bytes?))
}

#[test]
fn a_crash_leaves_the_choices_in_turn(rt: HostRuntime) {
    let rows: [(&[u8], [u8; 8]); 8] = [
        (&[], [10, 11, 12, 13, 14, 15, 16, 17]),
        (&[0x00], [10, 11, 0, 0, 14, 0, 16, 17]),
        (&[0xFF], [10, 11, 0xFF, 0xFF, 14, 0xFF, 16, 17]),
        (&[0xA5], [10, 11, 0xA5, 0xA5, 14, 0xA5, 16, 17]),
        (&[0x01], [10, 11, 1, 1, 14, 1, 16, 17]),
        (&[0x77], [10, 11, 0x77, 0x77, 14, 0x77, 16, 17]),
        (&[0xA5, 0x77], [10, 11, 0xA5, 0x77, 14, 0xA5, 16, 17]),
        (&[4, 5, 6, 7, 8], [10, 11, 4, 5, 14, 6, 16, 17]),
    ];
    // All that is left is synced, and the disk is as it was.
    let kept = [10, 11, 1, 2, 14, 3, 16, 17];
    for (choices, image) in rows {
        expect(
            &rt,
            crashed(rt.alloc(), choices),
            Ok((0, image, image, kept)),
        );
    }
}

// Where a growth is refused, as by `rt try --test --fail-alloc N`, what could not be recorded
// changes nothing, and a read takes no memory.
#[test]
fn a_refused_growth_changes_nothing(rt: HostRuntime) {
    if let Some(mut disk) = MemoryDisk::new(rt.alloc(), 8) {
        expect(&rt, are_told(rt.alloc(), &mut disk), true);
    }
}

// Whether a disk of 8 bytes reads as what was written with success, and a crash leaves what was
// synced with success: the record of calls grows at its first, which is a sync, and later at a
// write.
fn are_told(alloc: Global, disk: &mut MemoryDisk) -> bool
    requires len { (memory_state disk.old).len ≡ 8 }
{
    let (mut written, mut synced, mut are_told) = (0, 0, true);
    for number in 1..5 {
        if disk.sync().is_ok() {
            synced = written;
        }
        if disk.write(3, &[number]).is_ok() {
            written = number;
        }
        if disk.write(3, &[number + 100]).is_ok() {
            written = number + 100;
        }
        are_told &= byte_at_3(disk) == Ok(written) && is_left(alloc, disk, synced);
    }
    are_told
}

// The byte at 3.
fn byte_at_3(disk: &mut MemoryDisk) -> Result<u8, DiskFault>
    requires len { (memory_state disk.old).len ≡ 8 }
    ensures len { (memory_state disk.new).len ≡ (memory_state disk.old).len }
{
    let mut byte = [0];
    disk.read(3, &mut byte)?;
    Ok(byte[0])
}

// Whether a crash leaves this byte at 3, where there is memory for what it leaves.
fn is_left(alloc: Global, disk: &MemoryDisk, byte: u8) -> bool
    requires len { (memory_state disk.now).len ≡ 8 }
{
    match disk.crash(alloc, &[]) {
        Some(mut left) => byte_at_3(&mut left) == Ok(byte),
        None => true,
    }
}

// How many calls are recorded of a disk of 8 bytes with room for two: before them, and after them.
fn calls_with_room(alloc: Global) -> Result<(u64, u64), DiskFault> {
    let mut disk = MemoryDisk::new(alloc, 8).ok_or(DiskFault)?;
    let is_reserved = disk.reserve(2).is_ok();
    let before = disk.calls();
    let called = [disk.write(3, &[1]), disk.sync()];
    let behind = disk.calls();
    if is_reserved && called == [Ok(()); 2] {
        Ok((before, behind))
    } else {
        Err(DiskFault)
    }
}

#[test]
fn a_reserved_record_takes_the_calls(rt: HostRuntime) {
    expect(&rt, calls_with_room(rt.alloc()), Ok((0, 2)));
}
