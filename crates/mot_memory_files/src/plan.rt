//! How often something changes or fails.

/// How often something changes or fails, by life. A number that says "one in this many" means never
/// if it is 0.
#[derive(Clone, Copy)]
pub struct Plan {
    /// Just before one call in this many, another program changes something.
    pub changes: u64,
    /// One change in this many is followed at once by another, in the same tick of the clock.
    pub doubles: u64,
    /// Nothing changes any more from the call of this number on. 0: there is none.
    pub until: u64,
    /// One call on files in this many fails, before it did anything.
    pub faults: u64,
    /// From the call of this number on each call on files fails. 0: never.
    pub outage: u64,
    /// So many calls long.
    pub outage_len: u64,
    /// One call on files in this many that changes something does it, and fails all the same.
    pub late: u64,
    /// One lock in this many is held by another program.
    pub busy: u64,
    /// One read of a file's bytes in this many is refused.
    pub read_faults: u64,
    /// One read of a folder's names in this many is refused.
    pub listing_faults: u64,
    /// The folder changes before one read of its names in this many, after it was opened.
    pub listing_changes: u64,
    /// One call on a disk in this many fails.
    pub disk_faults: u64,
    /// One read of a disk in this many fails.
    pub disk_read_faults: u64,
    /// One write of a disk in this many fails.
    pub disk_write_faults: u64,
    /// One sync of a disk in this many fails.
    pub disk_sync_faults: u64,
    /// The disks' call of this number fails, and the disks go on. 0: there is none.
    pub disk_fault_at: u64,
    /// A read or a write of a file moves at most this many bytes, and often fewer. 0: no limit.
    pub piece: u64,
    /// So many bytes may be written to files, and then there is no room.
    pub room: u64,
    /// How many nanoseconds pass from one call to the next.
    pub step: u64,
    /// The clock jumps, back or on, before one call in this many.
    pub jumps: u64,
    /// One file in this many that another program writes gets a time that is to come.
    pub future: u64,
    /// To how many nanoseconds a file's times are rounded down.
    pub grain: u64,
    /// The machine dies at the call of this number: files, disk and pipe at one moment. 0: never.
    pub stop: u64,
    /// The machine dies at the disks' call of this number. 0: never.
    pub disk_stop: u64,
    /// How many packets the pipe's reader takes before it goes away.
    pub packets: u64,
    /// It takes a part alone of one packet in this many.
    pub cuts: u64,
    /// Whether other programs write objects in place and in part, too.
    pub in_place: bool,
    /// Whether other programs take the permission to read a file, and give it again.
    pub permissions: bool,
    /// Whether the handle of a file without a name is refused as stale.
    pub stale: bool,
    /// Whether a write that fails may have written some of its bytes.
    pub torn: bool,
    /// Whether a sync says that nothing can be made to last there.
    pub unable: bool,
    /// Whether a new file gets the number that was given back last.
    pub numbers_again: bool,
}

impl Plan {
    /// Nothing changes and nothing fails.
    pub fn calm() -> Plan {
        Plan {
            changes: 0,
            doubles: 0,
            until: 0,
            faults: 0,
            outage: 0,
            outage_len: u64::MAX,
            late: 0,
            busy: 0,
            read_faults: 0,
            listing_faults: 0,
            listing_changes: 0,
            disk_faults: 0,
            disk_read_faults: 0,
            disk_write_faults: 0,
            disk_sync_faults: 0,
            disk_fault_at: 0,
            piece: 0,
            room: u64::MAX,
            step: 1_000,
            jumps: 0,
            future: 0,
            grain: 1,
            stop: 0,
            disk_stop: 0,
            packets: u64::MAX,
            cuts: 0,
            in_place: false,
            permissions: false,
            stale: false,
            torn: false,
            unable: false,
            numbers_again: true,
        }
    }
}
