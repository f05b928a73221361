//! Making a copy: the bodies, then all but the magic, then the magic.
ghost use Rattle.std.specs.Prelude.{◌≡◌, ◌+◌, ◌<◌, ◌≤◌, ◌^◌, ℕ, List, length, take, drop, false, Ok};
ghost use Rattle.std.specs.Prelude.{OnOk, IfErr, IsOk};
ghost use Rattle.disk_model.specs.Disk.{Keeps, OnlyReads, Throughout};
ghost use Rattle.mot_copy_command.specs.Copied.{IsCopyOf, NoneOrCopyOf, MakesCopy, RefusesSizes};
ghost use Rattle.mot_copy_command.specs.Copied.{HasRestOf};
ghost use Rattle.mot_copy_command.specs.Inner.Steps.{ChangesOnly, IsFault};
ghost use Rattle.mot_copy_command.specs.Inner.Steps.{IsFilled, NoneOrFilled};
ghost use Rattle.mot_journal.specs.declared.layout.Layout.TheVariants.{Two};
ghost use Rattle.mot_journal.specs.Geometry.{has_magic};
ghost use Rattle.mot_journal.specs.Image.{Standing, area_of, catalogue_of};
ghost use Rattle.mot_journal.specs.Slot.{AreSound, slot_count};
ghost use Rattle.mot_numbers.specs.Geometry.{IsValid, area_start as start_of_area, length_of};
ghost use Rattle.mot_repository.specs.Copy.{bytes_in_row, bytes_of_extents};
ghost use Rattle.mot_repository.specs.OnDisk.{body_on, extent_at};
ghost use Rattle.mot_repository.specs.Repository.{HasStanding};

use crate::records::records_of_copy;
use disk_model::Disk;
use mot_journal::{Geometry, Record, area_start, make_disk, reads_magic};
use mot_numbers::{Refusal, TransportId};
use mot_repository::Repository;
use std::alloc::Global;

/// The most bytes of a body that are copied at once.
const PIECE: usize = 4_096;

/// Why no copy was made.
#[derive(Clone, Copy, Debug, PartialEq, Eq)]
pub enum NotCopied {
    /// The new disk can't have it (`BadGeometry`, `DiskTooSmall`, `TooManyObjects`, `NoRoom`), there
    /// is no memory (`OutOfMemory`), the new disk has the magic (`AlreadyFormatted`), or it failed
    /// (`DeviceFault`). Only after the last was anything written on it.
    Refused(Refusal),
    /// The old disk failed as a body was read.
    Unreadable,
}

/// Makes a new disk of this geometry, in layout 2, that stands for the same carousel as an open
/// repository: its bodies lie one after the other. New ids come after `after` if it is given, or else
/// after the old disk's last. With another segment size each object takes one, and then the
/// directory; else all objects keep theirs, and the directory takes one unless ids go on after its
/// own. The magic is written last, so that a crash leaves no magic or the copy. The old disk is only
/// read. It takes no memory for bodies.
pub fn copy<D: Disk, E: Disk>(
    alloc: Global,
    from: &mut Repository<D>,
    to: &mut E,
    geometry: &Geometry,
    after: Option<TransportId>,
) -> Result<(), NotCopied>
    ensures only_reads { OnlyReads (D.state from.old.disk) (D.state from.new.disk) }
    ensures view { from.new.view ≡ from.old.view }
    ensures makes { MakesCopy from.old.view geometry.now (D.state from.old.disk).failures
        (D.state from.new.disk).failures (E.state to.old) (E.state to.new) result }
    ensures sizes { RefusesSizes from.old.view geometry.now (E.state to.old).len result }

    // At each moment a crash leaves no magic, or the copy.
    ensures any_moment { (s : Standing) → HasStanding from.old.view s (D.state from.old.disk)
        → (D.state from.new.disk).IsHonest → (E.state to.new).IsHonest
        → ((image : List ℕ) → (E.state to.old).MayLeave image → has_magic image ≡ false)
        → Throughout (E.state to.old) (E.state to.new) (NoneOrCopyOf geometry.now after s) }

    // Once it is Ok, each crash leaves the copy.
    ensures ok { (s : Standing) → HasStanding from.old.view s (D.state from.old.disk)
        → (D.state from.new.disk).IsHonest → (E.state to.new).IsHonest
        → OnOk result ((image : List ℕ) → (E.state to.new).MayLeave image
        → IsCopyOf geometry.now after s image) }
{
    if !geometry.is_valid() {
        return Err(NotCopied::Refused(Refusal::BadGeometry));
    }
    if to.len() < geometry.length() {
        return Err(NotCopied::Refused(Refusal::DiskTooSmall));
    }
    match records_of_copy(from, alloc, geometry, after) {
        Ok(records) => copy_over(from, to, geometry, &records),
        Err(refusal) => Err(NotCopied::Refused(refusal)),
    }
}

/// Makes the disk with these records, if it has not the magic.
fn copy_over<D: Disk, E: Disk>(
    from: &mut Repository<D>,
    to: &mut E,
    geometry: &Geometry,
    records: &[Record],
) -> Result<(), NotCopied>
    requires valid { IsValid geometry.now }
    requires long_enough { length_of geometry.now ≤ (E.state to.old).len }
    requires some { 0 < length records.now }
    requires few { length records.now ≤ slot_count Two geometry.now }
    requires sound { AreSound geometry.now Two records.now }
    requires room { bytes_of_extents from.old.view.extents ≤ geometry.now.area }
    ensures only_reads { OnlyReads (D.state from.old.disk) (D.state from.new.disk) }
    ensures view { from.new.view ≡ from.old.view }
    ensures makes { MakesCopy from.old.view geometry.now (D.state from.old.disk).failures
        (D.state from.new.disk).failures (E.state to.old) (E.state to.new) result }
    ensures any_moment { (D.state from.new.disk).IsHonest → (E.state to.new).IsHonest
        → IsOk (catalogue_of geometry.now.objects records.now)
        → ((image : List ℕ) → (E.state to.old).MayLeave image → has_magic image ≡ false)
        → Throughout (E.state to.old) (E.state to.new) (NoneOrFilled geometry.now records.now
        (bytes_of_extents from.old.view.extents) (bytes_in_row from.old.view.journal.geometry
        from.old.view.extents (D.state from.old.disk).bytes)) }
    ensures ok { (D.state from.new.disk).IsHonest → (E.state to.new).IsHonest
        → IsOk (catalogue_of geometry.now.objects records.now)
        → OnOk result ((image : List ℕ) → (E.state to.new).MayLeave image
        → IsFilled geometry.now records.now (bytes_of_extents from.old.view.extents)
        (bytes_in_row from.old.view.journal.geometry from.old.view.extents
        (D.state from.old.disk).bytes) image) }
{
    let Ok(is_formatted) = reads_magic(to) else {
        return Err(NotCopied::Refused(Refusal::DeviceFault));
    };
    if is_formatted {
        return Err(NotCopied::Refused(Refusal::AlreadyFormatted));
    }
    fill(from, to, geometry, records)
}

/// Writes the bodies, and then makes the disk with these records.
fn fill<D: Disk, E: Disk>(
    from: &mut Repository<D>,
    to: &mut E,
    geometry: &Geometry,
    records: &[Record],
) -> Result<(), NotCopied>
    requires valid { IsValid geometry.now }
    requires long_enough { length_of geometry.now ≤ (E.state to.old).len }
    requires some { 0 < length records.now }
    requires few { length records.now ≤ slot_count Two geometry.now }
    requires sound { AreSound geometry.now Two records.now }
    requires room { bytes_of_extents from.old.view.extents ≤ geometry.now.area }
    ensures only_reads { OnlyReads (D.state from.old.disk) (D.state from.new.disk) }
    ensures view { from.new.view ≡ from.old.view }
    ensures keeps { Keeps (E.state to.old) (E.state to.new) }
    ensures fault { IfErr result (λ why. IsFault (D.state from.old.disk).failures
        (D.state from.new.disk).failures (E.state to.old).failures (E.state to.new).failures why) }
    ensures rest { (E.state to.old).IsHonest → Throughout (E.state to.old) (E.state to.new)
        (HasRestOf geometry.now (E.state to.old)) }
    ensures any_moment { (D.state from.new.disk).IsHonest → (E.state to.old).IsHonest
        → IsOk (catalogue_of geometry.now.objects records.now)
        → ((image : List ℕ) → (E.state to.old).MayLeave image → has_magic image ≡ false)
        → Throughout (E.state to.old) (E.state to.new) (NoneOrFilled geometry.now records.now
        (bytes_of_extents from.old.view.extents) (bytes_in_row from.old.view.journal.geometry
        from.old.view.extents (D.state from.old.disk).bytes)) }
    ensures ok { (D.state from.new.disk).IsHonest → (E.state to.old).IsHonest
        → IsOk (catalogue_of geometry.now.objects records.now)
        → OnOk result ((image : List ℕ) → (E.state to.new).MayLeave image
        → IsFilled geometry.now records.now (bytes_of_extents from.old.view.extents)
        (bytes_in_row from.old.view.journal.geometry from.old.view.extents
        (D.state from.old.disk).bytes) image) }
{
    write_bodies(from, to, geometry)?;
    let Ok(()) = make_disk(to, geometry, records) else {
        return Err(NotCopied::Refused(Refusal::DeviceFault));
    };
    Ok(())
}

/// Writes the bodies one after the other from the beginning of the data area.
fn write_bodies<D: Disk, E: Disk>(
    from: &mut Repository<D>,
    to: &mut E,
    geometry: &Geometry,
) -> Result<(), NotCopied>
    requires valid { IsValid geometry.now }
    requires long_enough { length_of geometry.now ≤ (E.state to.old).len }
    requires room { bytes_of_extents from.old.view.extents ≤ geometry.now.area }
    ensures only_reads { OnlyReads (D.state from.old.disk) (D.state from.new.disk) }
    ensures view { from.new.view ≡ from.old.view }
    ensures keeps { Keeps (E.state to.old) (E.state to.new) }
    ensures fault { IfErr result (λ why. IsFault (D.state from.old.disk).failures
        (D.state from.new.disk).failures (E.state to.old).failures (E.state to.new).failures why) }
    ensures range { (E.state to.old).IsHonest → ChangesOnly (start_of_area geometry.now)
        geometry.now.area (E.state to.old) (E.state to.new) }
    ensures written { (E.state to.old).IsHonest → (D.state from.new.disk).IsHonest → OnOk result
        (take (bytes_of_extents from.old.view.extents) (area_of geometry.now (E.state to.new).bytes)
        ≡ bytes_in_row from.old.view.journal.geometry from.old.view.extents
        (D.state from.old.disk).bytes) }
{
    let mut at = area_start(geometry);
    let count = from.body_count();
    for place in 0..count {
        let length = from.body_length(place);
        write_body(from, place, to, at)?;
        at += u64::from(length);
    }
    Ok(())
}

/// Writes the body at this place, 4,096 bytes at once, from this position on.
fn write_body<D: Disk, E: Disk>(
    from: &mut Repository<D>,
    place: usize,
    to: &mut E,
    at: u64,
) -> Result<(), NotCopied>
    requires place { place < length from.old.view.extents }
    requires low { at < 2 ^ 62 }
    requires fits { at + (extent_at from.old.view.extents place).1 ≤ (E.state to.old).len }
    ensures only_reads { OnlyReads (D.state from.old.disk) (D.state from.new.disk) }
    ensures view { from.new.view ≡ from.old.view }
    ensures keeps { Keeps (E.state to.old) (E.state to.new) }
    ensures fault { IfErr result (λ why. IsFault (D.state from.old.disk).failures
        (D.state from.new.disk).failures (E.state to.old).failures (E.state to.new).failures why) }
    ensures range { (E.state to.old).IsHonest → ChangesOnly at
        (extent_at from.old.view.extents place).1 (E.state to.old) (E.state to.new) }
    ensures written { (E.state to.old).IsHonest → (D.state from.new.disk).IsHonest → OnOk result
        (take (extent_at from.old.view.extents place).1 (drop at (E.state to.new).bytes)
        ≡ body_on from.old.view.journal.geometry from.old.view.extents place
        (D.state from.old.disk).bytes) }
{
    let size = from.body_length(place) as usize;
    let mut piece = [0u8; PIECE];
    let mut done = 0;
    while done < size {
        let count = PIECE.min(size - done);
        let part = &mut piece[..count];
        let Ok(()) = from.read_body(place, done, part) else {
            return Err(NotCopied::Unreadable);
        };
        let Ok(()) = to.write(at + done as u64, part) else {
            return Err(NotCopied::Refused(Refusal::DeviceFault));
        };
        done += count;
    }
    Ok(())
}
