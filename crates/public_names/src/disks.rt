//! Disks in memory, and servers on them.
use disk_store::{Disk, MemoryDisk};
use mot_base::Refusal;
use mot_journal::{Geometry, format};
use std::alloc::Global;

/// A server on a disk in memory.
pub type Server = mot_server::Server<MemoryDisk>;

/// Sizes for one object and a body of 8 bytes: 3 slots in a half of layout 2, 6 of layout 1.
pub const ONE: Geometry = Geometry {
    objects: 1,
    area: 8,
    segment: 64,
    address: 1,
    packet: 24,
};

/// The sizes of no option.
pub const USUAL: Geometry = Geometry {
    objects: 16,
    area: 65_536,
    segment: 1_024,
    address: 1,
    packet: 96,
};

/// The same with packets of 24 bytes.
pub const SHORT: Geometry = Geometry {
    packet: 24,
    ..USUAL
};

/// The same with 300 bytes for bodies.
pub const TIGHT: Geometry = Geometry { area: 300, ..SHORT };

/// How many device calls an opening makes: a sync and two reads.
pub const OPENING: u64 = 3;

/// A disk of this geometry that was just made.
pub fn new_disk(alloc: Global, geometry: &Geometry) -> Result<MemoryDisk, Refusal> {
    let mut disk = MemoryDisk::new(alloc, geometry.length()).ok_or(Refusal::OutOfMemory)?;
    format(&mut disk, geometry)?;
    Ok(disk)
}

/// An empty disk of layout 1 with these sizes: a head, and halves without records.
pub fn old_disk(alloc: Global, geometry: &Geometry) -> Result<MemoryDisk, Refusal> {
    let head = head_of(geometry);
    let mut disk = MemoryDisk::new(alloc, geometry.length()).ok_or(Refusal::OutOfMemory)?;
    if disk.len() < 28 {
        return Err(Refusal::DiskTooSmall);
    }
    disk.write(0, &head).or(Err(Refusal::DeviceFault))?;
    disk.sync().or(Err(Refusal::DeviceFault))?;
    Ok(disk)
}

/// The head of a disk with these sizes, whose first half is selected.
fn head_of(geometry: &Geometry) -> [u8; 28] {
    let [objects_high, objects] = geometry.objects.to_be_bytes();
    let [segment_high, segment] = geometry.segment.to_be_bytes();
    let [address_high, address] = geometry.address.to_be_bytes();
    let [packet_high, packet] = geometry.packet.to_be_bytes();
    let [highest, higher, high, low] = geometry.area.to_be_bytes();
    [
        0x4D,
        0x4F,
        0x54,
        0x43,
        0x41,
        0x52,
        0x30,
        0x31,
        0,
        0,
        0,
        0,
        0,
        0,
        0,
        0,
        objects_high,
        objects,
        segment_high,
        segment,
        address_high,
        address,
        packet_high,
        packet,
        highest,
        higher,
        high,
        low,
    ]
}

/// A disk that a crash may leave of this one.
pub fn image_of(alloc: Global, disk: &MemoryDisk, choices: &[u8]) -> Result<MemoryDisk, Refusal> {
    disk.crash(alloc, choices).ok_or(Refusal::OutOfMemory)
}

/// An open server, or why it was refused.
pub fn open(alloc: Global, disk: MemoryDisk) -> Result<Server, Refusal> {
    match Server::open(alloc, disk) {
        Ok(server) => Ok(server),
        Err(refused) => Err(refused.refusal),
    }
}

/// A server on a disk of this geometry that was just made.
pub fn new_server(alloc: Global, geometry: &Geometry) -> Result<Server, Refusal> {
    open(alloc, new_disk(alloc, geometry)?)
}
