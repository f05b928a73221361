//! Commands that are run in a row.
use crate::commands::gaps;
use crate::disks::{TIGHT, new_server};
use crate::expecting::expect;
use disk_store::{Disk, MemoryDisk};
use mot_base::Refusal;
use mot_server::RunEnd;
use std::alloc::Global;
use std::test::Fail;

// The data area of a disk.
fn data_area(disk: &mut MemoryDisk) -> Result<[u8; 300], Refusal> {
    let mut area = [0; 300];
    let place = TIGHT.length() - 300;
    if disk.len() < TIGHT.length() {
        return Err(Refusal::DiskTooSmall);
    }
    disk.read(place, &mut area).or(Err(Refusal::DeviceFault))?;
    Ok(area)
}

// Runs the commands. What came of them, and the data area.
fn ran(alloc: Global) -> Result<(RunEnd, [u8; 300]), Refusal> {
    let commands = gaps(alloc)?;
    let mut server = new_server(alloc, &TIGHT)?;
    let end = server.run(alloc, &commands);
    let mut disk = server.into_disk();
    Ok((end, data_area(&mut disk)?))
}

#[test]
fn a_body_takes_the_first_gap_that_holds_it(rt: HostRuntime) -> Result<(), Fail> {
    let (end, area) = ran(rt.alloc())?;
    let marks = [true, true, true, true, true, false, true];
    expect(&rt, end.done.as_slice() == marks.as_slice(), true);
    expect(&rt, end.fault, None);
    for (place, byte) in area.iter().copied().enumerate() {
        let wanted = [5, 2, 3].get(place / 100).copied();
        expect(&rt, (place, Some(byte)), (place, wanted));
    }
    Ok(())
}
