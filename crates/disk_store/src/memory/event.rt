//! What a disk in memory records of its calls.
ghost use Rattle.std.specs.Prelude.{◌≡◌, ◌≤◌, ◌+◌, [], ◌∷◌, ◌++◌, length, OnOk, OnErr};
ghost use Rattle.std.specs.Vec.{vec_len, vec_capacity};
ghost use Rattle.disk_store.specs.Inner.Log.{HasWriteMore};
ghost use Rattle.disk_store.specs.Memory.{record_room};

use std::alloc::{AllocError, Global};

/// A call that changed the disk.
#[derive(Drop)]
pub enum Event {
    /// A write that succeeded.
    Wrote { at: usize, bytes: Vec<u8> },
    /// A write that failed: the old bytes are read, and a crash may leave any.
    Touched { at: usize, len: usize },
    /// A sync that succeeded.
    Synced,
}

/// Records a call that changed the disk.
pub fn record_call(log: &mut Vec<Event>, event: Event) -> Result<(), AllocError>
    ensures ok { OnOk result (log.new.items ≡ log.old.items ++ event ∷ []) }
    ensures err { OnErr result (log.new.items ≡ log.old.items) }
    ensures full { OnErr result (vec_capacity log.old ≤ vec_len log.old) }
    ensures grows { OnOk result (length log.new.items ≡ length log.old.items + 1) }
    ensures room { OnOk result (record_room log.old ≤ record_room log.new + 1) }
    ensures room_stays { OnErr result (record_room log.old ≤ record_room log.new) }
{
    log.push(event)?;
    Ok(())
}

/// Records a write of these bytes that succeeded.
pub fn record_write(
    alloc: Global,
    log: &mut Vec<Event>,
    at: usize,
    bytes: &[u8],
) -> Result<(), AllocError>
    ensures ok { OnOk result (HasWriteMore at bytes.now log.old.items log.new.items) }
    ensures err { OnErr result (log.new.items ≡ log.old.items) }
    ensures grows { OnOk result (length log.new.items ≡ length log.old.items + 1) }
    ensures room { OnOk result (record_room log.old ≤ record_room log.new + 1) }
    ensures room_stays { OnErr result (record_room log.old ≤ record_room log.new) }
{
    let copy = bytes.to_vec(alloc)?;
    record_call(log, Event::Wrote { at, bytes: copy })?;
    Ok(())
}
