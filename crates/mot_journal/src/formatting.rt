//! Making a new disk.
ghost use Rattle.std.specs.Prelude.{◌≡◌, ◌+◌, ◌-◌, ◌*◌, ◌≤◌, ◌<◌, ℕ, List, length, false, OnOk};
ghost use Rattle.std.specs.Prelude.{IfOk};
ghost use Rattle.arrayvec.specs.ArrayVec.{array_vec_len};
ghost use Rattle.disk_model.specs.Disk.{Keeps, OnlySyncs, Throughout, Costs, IsFirm, HasCause};
ghost use Rattle.mot_journal.specs.declared.layout.Layout.TheVariants.{Two};
ghost use Rattle.mot_journal.specs.Geometry.{has_magic};
ghost use Rattle.mot_journal.specs.Slot.{slot_count, AreSound};
ghost use Rattle.mot_journal.specs.Journal.{HasAreaOf, IsNewDisk, NoneOrFrom};
ghost use Rattle.mot_journal.specs.Making.{MakesWith, MakesDisk};
ghost use Rattle.mot_journal.specs.Inner.Steps.{ChangesWithin, HasCauseOf};
ghost use Rattle.mot_journal.specs.Inner.Format.{HasAllButMagic, behind_magic};
ghost use Rattle.mot_numbers.specs.Geometry.{IsValid, area_start, length_of};

use crate::writing::{fill_half, publish};
use crate::{Action, Geometry, Layout, Record};
use arrayvec::ArrayVec;
use disk_model::{Disk, DiskFault};
use mot_base::{array_append, array_append_number};
use mot_numbers::{Refusal, TransportId};
use mot_objects::Period;

/// What a formatted disk begins with.
pub const MAGIC: [u8; 8] = *b"MOTCAR01";

/// Makes a new disk of layout 2, with no object, whose directory has the transport id 1. It takes
/// no memory, and a disk that has the magic keeps its bytes. The magic is written last, so that a
/// crash leaves no magic or the new disk.
pub fn format<D: Disk>(disk: &mut D, geometry: &Geometry) -> Result<(), Refusal>
    ensures makes { MakesDisk geometry.now 1 (D.state disk.old) (D.state disk.new) result }
{
    format_from(disk, geometry, TransportId::FIRST)
}

/// The same, except that the directory has this transport id, after which the ids go on.
pub fn format_from<D: Disk>(
    disk: &mut D,
    geometry: &Geometry,
    directory: TransportId,
) -> Result<(), Refusal>
    ensures makes { MakesDisk geometry.now directory (D.state disk.old) (D.state disk.new) result }
{
    if !geometry.is_valid() {
        return Err(Refusal::BadGeometry);
    }
    if disk.len() < geometry.length() {
        return Err(Refusal::DiskTooSmall);
    }
    let Ok(is_formatted) = reads_magic(disk) else {
        return Err(Refusal::DeviceFault);
    };
    if is_formatted {
        return Err(Refusal::AlreadyFormatted);
    }
    let Ok(()) = make(disk, geometry, directory) else {
        return Err(Refusal::DeviceFault);
    };
    Ok(())
}

/// Syncs, and answers whether the disk has the magic.
pub fn reads_magic<D: Disk>(disk: &mut D) -> Result<bool, DiskFault>
    requires { 8 ≤ (D.state disk.old).len }
    ensures only_syncs { OnlySyncs (D.state disk.old) (D.state disk.new) }
    ensures cause { HasCause (D.state disk.old).failures (D.state disk.new).failures result }
    ensures cost { Costs 2 (D.state disk.old) (D.state disk.new) result }
    ensures synced { (D.state disk.new).IsHonest → OnOk result (IsFirm (D.state disk.new)) }
    ensures exact { (D.state disk.new).IsHonest
        → IfOk result (λ magic. magic ≡ has_magic (D.state disk.old).bytes) }
{
    disk.sync()?;
    let mut head = [0; 8];
    disk.read(0, &mut head)?;
    Ok(head == MAGIC)
}

/// Makes a disk with the record of a new one.
fn make<D: Disk>(disk: &mut D, geometry: &Geometry, directory: TransportId) -> Result<(), DiskFault>
    requires valid { IsValid geometry.now }
    requires long_enough { length_of geometry.now ≤ (D.state disk.old).len }
    ensures keeps { Keeps (D.state disk.old) (D.state disk.new) }
    ensures cause { HasCause (D.state disk.old).failures (D.state disk.new).failures result }
    ensures cost { Costs (2 * slot_count Two geometry.now + 4)
        (D.state disk.old) (D.state disk.new) result }
    ensures any_moment { (D.state disk.old).IsHonest
        → ((image : List ℕ) → (D.state disk.old).MayLeave image → has_magic image ≡ false)
        → Throughout (D.state disk.old) (D.state disk.new) (NoneOrFrom geometry.now directory) }
    ensures ok { (D.state disk.old).IsHonest → OnOk result ((image : List ℕ)
        → (D.state disk.new).MayLeave image → IsNewDisk geometry.now directory image) }
    ensures area { (D.state disk.old).IsHonest → Throughout (D.state disk.old) (D.state disk.new)
        (HasAreaOf geometry.now (D.state disk.old)) }
{
    let first = Record {
        period: Period::ZERO,
        directory,
        cursor: directory,
        action: Action::Nothing,
    };
    make_disk(disk, geometry, &[first])
}

/// Makes a disk of layout 2 with these records over what stands in its data area: all but the
/// magic, and then the magic between two syncs. It takes no memory, and does not look whether the
/// disk has the magic.
pub fn make_disk<D: Disk>(
    disk: &mut D,
    geometry: &Geometry,
    given: &[Record],
) -> Result<(), DiskFault>
    requires valid { IsValid geometry.now }
    requires long_enough { length_of geometry.now ≤ (D.state disk.old).len }
    requires some { 0 < length given.now }
    requires few { length given.now ≤ slot_count Two geometry.now }
    requires sound { AreSound geometry.now Two given.now }
    ensures keeps { Keeps (D.state disk.old) (D.state disk.new) }
    ensures cause { HasCause (D.state disk.old).failures (D.state disk.new).failures result }
    ensures cost { Costs (2 * slot_count Two geometry.now + 4)
        (D.state disk.old) (D.state disk.new) result }

    // At each moment a crash leaves no magic, or the disk that is made, over the data area that was
    // read before.
    ensures makes { (D.state disk.old).IsHonest
        → MakesWith geometry.now given.now (D.state disk.old) (D.state disk.new) result }
{
    fill(disk, geometry, given)?;
    publish(disk, 0, &MAGIC)
}

/// Writes all from the byte after the magic up to the data area.
fn fill<D: Disk>(disk: &mut D, geometry: &Geometry, given: &[Record]) -> Result<(), DiskFault>
    requires valid { IsValid geometry.now }
    requires long_enough { length_of geometry.now ≤ (D.state disk.old).len }
    requires sound { AreSound geometry.now Two given.now }
    ensures keeps { Keeps (D.state disk.old) (D.state disk.new) }
    ensures cause { HasCauseOf (D.state disk.old) (D.state disk.new) result }
    ensures cost { Costs (2 * slot_count Two geometry.now + 1)
        (D.state disk.old) (D.state disk.new) result }
    ensures range { (D.state disk.old).IsHonest → ChangesWithin 8 (area_start geometry.now - 8)
        (D.state disk.old) (D.state disk.new) }
    ensures made { (D.state disk.old).IsHonest
        → OnOk result (HasAllButMagic geometry.now given.now (D.state disk.new).bytes) }
{
    disk.write(8, &head_behind_magic(geometry))?;
    fill_half(disk, geometry, 0, Layout::Two, given)?;
    fill_half(disk, geometry, 1, Layout::Two, &[])
}

/// The 56 bytes between the magic and the halves: half 0, and the geometry. It takes no memory.
fn head_behind_magic(geometry: &Geometry) -> ArrayVec<u8, 56>
    ensures value { result.items ≡ behind_magic geometry.now }
    ensures len { array_vec_len result ≡ 56 }
{
    let mut head = ArrayVec::new();
    array_append(&mut head, &[0; 8]);
    array_append_number(&mut head, geometry.objects);
    array_append_number(&mut head, geometry.segment);
    array_append_number(&mut head, geometry.address);
    array_append_number(&mut head, geometry.packet);
    array_append(&mut head, &geometry.area.to_be_bytes());
    array_append(&mut head, &[0; 36]);
    head
}
