//! The records of a copy: the same carousel for other sizes, its bodies one after the other.
ghost use Rattle.std.specs.Prelude.{◌≡◌, ◌<◌, ◌≤◌, ◌^◌, IfErr, IfOk, length, map, unwrap_or};
ghost use Rattle.mot_copy_command.specs.Inner.Steps.{bytes_of_bodies, ids_of};
ghost use Rattle.mot_journal.specs.declared.record.Action.TheVariants.{Set};
ghost use Rattle.mot_numbers.specs.declared.geometry.TheConstants.{MAX_OBJECTS};
ghost use Rattle.mot_objects.specs.declared.object.Object.{Object};
ghost use Rattle.mot_repository.specs.Copy.{AreOfCopy, IsId, IsNoCopy, packed_catalogue};
ghost use Rattle.mot_repository.specs.Records.{records_of_catalogue};

use disk_model::Disk;
use mot_carousel::new_ids;
use mot_journal::{Action, Geometry, Record};
use mot_numbers::{Refusal, TransportId};
use mot_objects::{Carousel, Object};
use mot_repository::Repository;
use std::alloc::{AllocError, Global};

/// The records of a new disk of this geometry for the same carousel, its bodies one after the
/// other from the beginning of the data area. New ids go on after `after`, or else after the cursor.
/// With another segment size each object takes one, and then the directory; else only the directory,
/// unless ids go on after its own. It does not call the disk.
///
/// The refusals are `TooManyObjects` and `NoRoom` if the geometry is too small, and
/// `OutOfMemory`.
pub fn records_of_copy<D: Disk>(
    from: &Repository<D>,
    alloc: Global,
    geometry: &Geometry,
    after: Option<TransportId>,
) -> Result<Vec<Record>, Refusal>
    ensures records { IfOk result
        (λ records. AreOfCopy from.now.view geometry.now after records.items) }
    ensures refused { IfErr result
        (λ refusal. IsNoCopy from.now.view geometry.now refusal) }
{
    // Each object has its body on the disk, and each copy is sound. (These lines are there for the
    // proof.)
    from.know_copies();
    let _paired = from.body_count();
    let carousel = from.carousel();
    if carousel.objects.len() > usize::from(geometry.objects) {
        return Err(Refusal::TooManyObjects);
    }
    if length_of_bodies(&carousel.objects) > u64::from(geometry.area) {
        return Err(Refusal::NoRoom);
    }
    let resized = geometry.segment != from.geometry().segment;
    let (ids, directory) = ids_of_copy(alloc, carousel, after, resized)?;
    let records = packed_records(alloc, carousel, &ids, directory)?;
    Ok(records)
}

/// The ids of the objects of a copy, and of its directory. New ones go on after `after`, or else after
/// the carousel's cursor. With another segment size all are new; else only the directory's, unless ids
/// go on after its own.
fn ids_of_copy(
    alloc: Global,
    carousel: &Carousel,
    after: Option<TransportId>,
    resized: bool,
) -> Result<(Vec<TransportId>, TransportId), AllocError>
    ensures objects { IfOk result (λ ids. ids.0.items ≡ (ids_of carousel.now after resized).0) }
    ensures directory { IfOk result (λ ids. ids.1 ≡ (ids_of carousel.now after resized).1) }
    ensures last { IsId (unwrap_or after carousel.now.cursor) }
{
    let last = after.unwrap_or(carousel.cursor);
    // The type keeps the range of an id. (The line is there for the proof.)
    last.get();
    if resized {
        return new_ids(alloc, carousel, carousel.objects.len(), last);
    }
    let ids = ids_of_objects(alloc, carousel)?;
    if last == carousel.directory {
        return Ok((ids, last));
    }
    let (_, directory) = new_ids(alloc, carousel, 0, last)?;
    Ok((ids, directory))
}

fn ids_of_objects(alloc: Global, carousel: &Carousel) -> Result<Vec<TransportId>, AllocError>
    ensures { IfOk result
        (λ ids. ids.items ≡ map (λ (o : Object). o.tid) carousel.now.objects.items) }
{
    carousel
        .objects
        .iter()
        .map(|object| object.tid)
        .collect(alloc)
}

/// How many bytes the bodies of these objects have.
pub(crate) fn length_of_bodies(objects: &[Object]) -> u64
    requires { length objects.now ≤ MAX_OBJECTS }
    ensures { result ≡ bytes_of_bodies objects.now }
{
    let mut sum = 0;
    for object in objects {
        sum += u64::from(object.length.get());
    }
    sum
}

/// The records that set each object, with these ids and with the bodies one after the other, or one
/// of kind nothing if there is no object.
fn packed_records(
    alloc: Global,
    carousel: &Carousel,
    ids: &[TransportId],
    directory: TransportId,
) -> Result<Vec<Record>, AllocError>
    requires bodies { bytes_of_bodies carousel.now.objects.items < 2 ^ 32 }
    requires ids { length ids.now ≡ length carousel.now.objects.items }
    ensures { IfOk result (λ records. records.items
        ≡ records_of_catalogue (packed_catalogue carousel.now (ids.now, directory))) }
{
    let mut records = Vec::with_capacity(alloc, carousel.objects.len() + 1)?;
    let mut start: u32 = 0;
    for (place, object) in carousel.objects.iter().enumerate() {
        let action = set_action(object, ids[place], start)?;
        records.push_reserved(record_of_copy(carousel, directory, action));
        start += object.length.get();
    }
    if records.is_empty() {
        records.push_reserved(record_of_copy(carousel, directory, Action::Nothing));
    }
    Ok(records)
}

/// The record of this action in a copy of the carousel whose directory has this id.
fn record_of_copy(carousel: &Carousel, directory: TransportId, action: Action) -> Record
    ensures { result ≡ record {
      period = carousel.now.period;
      directory = directory;
      cursor = directory;
      action = action;
    } }
{
    Record {
        period: carousel.period,
        directory,
        cursor: directory,
        action,
    }
}

/// What sets the object with this id, whose body begins at `start`.
fn set_action(object: &Object, tid: TransportId, start: u32) -> Result<Action, AllocError>
    ensures { let o = object.now in IfOk result (λ action.
        action ≡ Set tid o.version o.content start o.length o.name o.mime) }
{
    Ok(Action::Set {
        tid,
        version: object.version,
        content: object.content,
        start,
        length: object.length,
        name: object.name.clone()?,
        mime: object.mime.clone()?,
    })
}
