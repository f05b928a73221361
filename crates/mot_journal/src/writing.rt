//! The writes of the journal, as runs of calls of the disk.
ghost use Rattle.std.specs.Prelude.{◌≡◌, ◌+◌, ◌*◌, ◌^◌, ◌<◌, ◌≤◌, ℕ, length, OnOk};
ghost use Rattle.disk_model.specs.Disk.{Keeps, Costs, Throughout, HasCause};
ghost use Rattle.mot_journal.specs.Slot.{slot_count, slot_size, AreSound};
ghost use Rattle.mot_journal.specs.Inner.Steps.{IsGated, LeavesWritten, HasCauseOf, ChangesWithin};
ghost use Rattle.mot_journal.specs.Inner.Steps.{HasSlots, Publishes};
ghost use Rattle.mot_numbers.specs.Geometry.{half_size, half_start as start_of_half, length_of};

use crate::encoding::put_slot_or_zeros;
use crate::places::half_start;
use crate::{Geometry, Layout, Record};
use arrayvec::ArrayVec;
use disk_model::{Disk, DiskFault};

/// Writes a slot without its gate, syncs, then its gate, and syncs.
pub fn write_slot<D: Disk>(disk: &mut D, place: u64, slot: &[u8]) -> Result<(), DiskFault>
    requires some { 0 < length slot.now }
    requires low { place < 2 ^ 62 }
    requires fits { place + length slot.now ≤ (D.state disk.old).len }
    ensures keeps { Keeps (D.state disk.old) (D.state disk.new) }
    ensures cause { HasCause (D.state disk.old).failures (D.state disk.new).failures result }
    ensures cost { Costs 4 (D.state disk.old) (D.state disk.new) result }
    ensures any_moment { (D.state disk.old).IsHonest
        → Throughout (D.state disk.old) (D.state disk.new)
        (IsGated place slot.now (D.state disk.old)) }
    ensures ok { (D.state disk.old).IsHonest
        → OnOk result (LeavesWritten place slot.now (D.state disk.old) (D.state disk.new)) }
{
    disk.write(place + 1, &slot[1..])?;
    publish(disk, place, &[slot[0]])
}

/// Where a slot of a half lies.
pub fn place_of_slot(geometry: &Geometry, half: u8, layout: Layout, number: usize) -> u64
    requires two_halves { half ≤ 1 }
    requires within { number < slot_count layout geometry.now }
    ensures value { result ≡ start_of_half geometry.now half + number * slot_size layout }
    ensures low { result < 2 ^ 62 }
{
    let start = half_start(geometry, half);
    match layout {
        Layout::One => start + number as u64 * 256,
        Layout::Two => start + number as u64 * 512,
    }
}

/// Writes the slots of these records into a half, and zeros into the others of its slots.
pub fn fill_half<D: Disk>(
    disk: &mut D,
    geometry: &Geometry,
    half: u8,
    layout: Layout,
    given: &[Record],
) -> Result<(), DiskFault>
    requires two_halves { half ≤ 1 }
    requires long_enough { length_of geometry.now ≤ (D.state disk.old).len }
    requires sound { AreSound geometry.now layout given.now }
    ensures keeps { Keeps (D.state disk.old) (D.state disk.new) }
    ensures cause { HasCauseOf (D.state disk.old) (D.state disk.new) result }
    ensures cost { Costs (slot_count layout geometry.now)
        (D.state disk.old) (D.state disk.new) result }
    ensures range { (D.state disk.old).IsHonest
        → ChangesWithin (start_of_half geometry.now half) (half_size geometry.now)
        (D.state disk.old) (D.state disk.new) }
    ensures slots { (D.state disk.old).IsHonest → OnOk result
        (HasSlots geometry.now half layout given.now (slot_count layout geometry.now)
        (D.state disk.new).bytes) }
{
    let mut slot = ArrayVec::new();
    for number in 0..layout.slot_count(geometry) {
        let place = place_of_slot(geometry, half, layout, number);
        put_slot_or_zeros(&mut slot, layout, given, number);
        disk.write(place, &slot)?;
    }
    Ok(())
}

/// Syncs, writes these bytes, syncs: what stands on the disk is made to count.
pub fn publish<D: Disk>(disk: &mut D, place: u64, bytes: &[u8]) -> Result<(), DiskFault>
    requires some { 0 < length bytes.now }
    requires fits { place + length bytes.now ≤ (D.state disk.old).len }
    ensures keeps { Keeps (D.state disk.old) (D.state disk.new) }
    ensures cause { HasCause (D.state disk.old).failures (D.state disk.new).failures result }
    ensures cost { Costs 3 (D.state disk.old) (D.state disk.new) result }
    ensures any_moment { (D.state disk.old).IsHonest
        → Publishes place (length bytes.now) (D.state disk.old) (D.state disk.new) }
    ensures ok { (D.state disk.old).IsHonest → OnOk result
        (LeavesWritten place bytes.now (D.state disk.old) (D.state disk.new)) }
{
    // What counts from then on has to be on the disk first: a torn part of it might.
    disk.sync()?;
    disk.write(place, bytes)?;
    disk.sync()
}
