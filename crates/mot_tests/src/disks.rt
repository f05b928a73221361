//! Disks in memory, and servers on them.
use disk_model::Disk;
use disk_store::MemoryDisk;
use mot_base::Refusal;
use mot_journal::{Geometry, format};
use std::alloc::Global;

/// A server on a disk in memory.
pub type Server = mot_playout::Server<MemoryDisk>;

/// Sizes for one object and a body of 8 bytes: 3 slots in a half of layout 2, 6 of layout 1.
pub const ONE: Geometry = Geometry {
    objects: 1,
    segment: 64,
    address: 1,
    packet: 24,
    area: 8,
};

/// Sizes for three objects and 300 bytes: 5 slots in a half of layout 2, 10 of layout 1.
pub const THREE: Geometry = Geometry {
    objects: 3,
    area: 300,
    ..ONE
};

/// How many device calls an opening makes: a sync and two reads.
pub const OPENING: u64 = 3;

/// A blank disk of this geometry's length.
pub fn blank_disk(alloc: Global, geometry: &Geometry) -> Result<MemoryDisk, Refusal> {
    MemoryDisk::new(alloc, geometry.length()).ok_or(Refusal::OutOfMemory)
}

/// A disk of this geometry that was just made.
pub fn new_disk(alloc: Global, geometry: &Geometry) -> Result<MemoryDisk, Refusal> {
    let mut disk = blank_disk(alloc, geometry)?;
    format(&mut disk, geometry)?;
    Ok(disk)
}

/// Writes these bytes, where the disk has the place.
pub fn write_at(disk: &mut MemoryDisk, at: u16, bytes: &[u8]) -> Result<(), Refusal> {
    let at = u64::from(at);
    if bytes.len() > 512 || at + bytes.len() as u64 > disk.len() {
        return Err(Refusal::DeviceFault);
    }
    disk.write(at, bytes).or(Err(Refusal::DeviceFault))
}

/// An empty disk of layout 1, with segments of 64 bytes and packets of 24: a head, and halves
/// without records.
pub fn old_disk(alloc: Global, objects: u8, area: u32) -> Result<MemoryDisk, Refusal> {
    let geometry = Geometry {
        objects: u16::from(objects),
        area,
        ..ONE
    };
    let [highest, higher, high, low] = area.to_be_bytes();
    let head = [
        0x4D, 0x4F, 0x54, 0x43, 0x41, 0x52, 0x30, 0x31, 0, 0, 0, 0, 0, 0, 0, 0, 0, objects, 0, 64,
        0, 1, 0, 24, highest, higher, high, low,
    ];
    let mut disk = blank_disk(alloc, &geometry)?;
    write_at(&mut disk, 0, &head)?;
    disk.sync().or(Err(Refusal::DeviceFault))?;
    Ok(disk)
}

/// A disk that a crash may leave of this one.
pub fn image_of(alloc: Global, disk: &MemoryDisk, choices: &[u8]) -> Result<MemoryDisk, Refusal> {
    disk.crash(alloc, choices).ok_or(Refusal::OutOfMemory)
}

/// A disk like this one, of which nothing is loose.
pub fn copy_of(alloc: Global, disk: &MemoryDisk) -> Result<MemoryDisk, Refusal> {
    image_of(alloc, disk, &[])
}

/// An open server, or why it was refused.
pub fn open(alloc: Global, disk: MemoryDisk) -> Result<Server, Refusal> {
    match Server::open(alloc, disk) {
        Ok(server) => Ok(server),
        Err(refused) => Err(refused.refusal),
    }
}

/// A server on a disk of this geometry that was just made.
pub fn new_server(alloc: Global, geometry: &Geometry) -> Result<Server, Refusal> {
    open(alloc, new_disk(alloc, geometry)?)
}
