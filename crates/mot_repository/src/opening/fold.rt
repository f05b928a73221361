//! The records of a journal, folded into the carousel that is kept in memory.
ghost use Rattle.mot_numbers.specs.declared.geometry.TheConstants.{MAX_OBJECTS};
ghost use Rattle.std.specs.Prelude.{◌≡◌, ◌≤◌, ◌<◌, map, length, vec_len, vec_capacity, All, Ok};
ghost use Rattle.std.specs.Prelude.{Some, None, IfOk, IfErr, IfSome, MatchResult, OnOk, is_ok};
ghost use Rattle.std.specs.Prelude.{true, nat_eq, position, remove, []};
ghost use Rattle.std.specs.List.{list_any};
ghost use Rattle.mot_journal.specs.Catalogue.{new_catalogue, catalogue_after, objects_after};
ghost use Rattle.mot_journal.specs.Catalogue.{placed_without, is_consistent};
ghost use Rattle.mot_journal.specs.Faults.{HasActionFault, HasListFault};
ghost use Rattle.mot_journal.specs.Image.{catalogue_of};
ghost use Rattle.mot_journal.specs.Reason.{HasReason};
ghost use Rattle.mot_journal.specs.declared.reason.ListFault.TheVariants.{Missing};
ghost use Rattle.mot_objects.specs.Ids.{is_distinct};
ghost use Rattle.mot_objects.specs.Stands.{index_of};
ghost use Rattle.mot_objects.specs.declared.object.Object.{Object};
ghost use Rattle.mot_repository.specs.OnDisk.{ArePaired};
ghost use Rattle.mot_repository.specs.Inner.Extents.{catalogue_with, objects_in};
ghost use Rattle.mot_repository.specs.Inner.Bounds.{AreEndsWithin, AreIdsWithin, AreNamesFlagged};
ghost use Rattle.mot_repository.specs.Inner.Bounds.{AreWithin};
ghost use Rattle.mot_repository.specs.Inner.Fold.{HaveLengths, are_extents_apart, are_consistent};
ghost use Rattle.mot_repository.specs.Inner.Fold.{if_consistent, if_done, objects_set};
ghost use Rattle.mot_repository.specs.Inner.Fold.{IsFoldRefusal};
ghost use Rattle.mot_repository.specs.Inner.Prepared.{IsTyped};
ghost use Rattle.mot_repository.specs.Inner.Faults.{HasSettingFault, IsClash, IsFoldReason};
ghost use Rattle.mot_repository.specs.declared.opening.bounds.Bounds.{Bounds};

use super::bounds::Bounds;
use crate::by_start::sorted_by_start;
use crate::inventory::Inventory;
use crate::records::know_fields;
use mot_carousel::is_clear;
use mot_journal::{Action, Fault, ListFault, Reason, Record};
use mot_numbers::{Geometry, TransportId};
use mot_objects::{Carousel, Name, Object, Period};
use std::alloc::{AllocError, Global};
use std::mem::replace;

/// A carousel without its bodies, and for each object where its body begins, and its length.
#[derive(Drop)]
struct Folded {
    carousel: Carousel,
    extents: Vec<(u32, u32)>,
    ghost paired: { ArePaired carousel extents.items },
}

/// The carousel that these records of a disk of this geometry stand for; `Damaged` with the number
/// of the first that makes a fault of the list, and that fault; and `OutOfMemory`.
pub(crate) fn inventory_of(
    alloc: Global,
    geometry: &Geometry,
    records: Vec<Record>,
) -> Result<Inventory, Fault>
    requires few { geometry.now.objects ≤ MAX_OBJECTS }
    requires numbered { vec_len records ≤ 65536 }
    ensures folded { IfOk result (λ i. catalogue_of geometry.now.objects records.items
        ≡ Ok (catalogue_with i.carousel i.extents.items)) }
    ensures typed { IfOk result (λ _. All IsTyped records.items) }
    ensures refused { IfErr result
        (λ fault. IsFoldRefusal geometry.now.objects records.items fault.refusal) }
    ensures reason { IfErr result (λ fault. HasReason fault.refusal fault.reason) }
    ensures so { IfErr result (λ fault. IfSome fault.reason
        (IsFoldReason geometry.now.objects records.items)) }
{
    let folded = fold_records(alloc, geometry, records)?;
    let by_start = sorted_by_start(alloc, &folded.extents)?;
    let Folded { carousel, extents } = folded;
    Ok(Inventory {
        carousel,
        extents,
        by_start,
    })
}

/// The records, one after the other. It is not sorted yet where their bodies lie.
fn fold_records(alloc: Global, geometry: &Geometry, records: Vec<Record>) -> Result<Folded, Fault>
    requires few { geometry.now.objects ≤ MAX_OBJECTS }
    requires numbered { vec_len records ≤ 65536 }
    ensures folded { IfOk result (λ f. catalogue_of geometry.now.objects records.items
        ≡ Ok (catalogue_with f.carousel f.extents.items)) }
    ensures typed { IfOk result (λ _. All IsTyped records.items) }
    ensures refused { IfErr result
        (λ fault. IsFoldRefusal geometry.now.objects records.items fault.refusal) }
    ensures reason { IfErr result (λ fault. HasReason fault.refusal fault.reason) }
    ensures so { IfErr result (λ fault. IfSome fault.reason
        (IsFoldReason geometry.now.objects records.items)) }
{
    let limit = geometry.objects;
    let mut folded = nothing_folded(alloc, limit)?;
    let mut bounds = Bounds::of_none();
    let mut slot: usize = 0;
    for entry in records {
        know_fields(&entry);
        match folded_after(folded, &mut bounds, limit, entry) {
            Ok(next) => folded = next,
            Err(fault) => {
                let slot = slot as u16;
                return Err(Fault::of(Reason::List { slot, fault }));
            }
        }
        slot += 1;
    }
    Ok(folded)
}

/// No objects, with room for so many.
fn nothing_folded(alloc: Global, limit: u16) -> Result<Folded, AllocError>
    ensures new { IfOk result (λ i. catalogue_with i.carousel i.extents.items ≡ new_catalogue) }
    ensures no_object { IfOk result (λ i. i.carousel.objects.items ≡ []) }
    ensures no_extent { IfOk result (λ i. i.extents.items ≡ []) }
    ensures room { IfOk result (λ i. limit ≤ vec_capacity i.carousel.objects) }
    ensures room_of_extents { IfOk result (λ i. limit ≤ vec_capacity i.extents) }
{
    let objects = Vec::with_capacity(alloc, usize::from(limit))?;
    let extents = Vec::with_capacity(alloc, usize::from(limit))?;
    Ok(Folded {
        carousel: Carousel {
            period: Period::ZERO,
            directory: TransportId::FIRST,
            cursor: TransportId::FIRST,
            objects,
        },
        extents,
    })
}

/// What is folded with one record more, or the fault of the list that it makes. It is consistent
/// before, so only what the record brings is compared with what stands.
fn folded_after(
    folded: Folded,
    bounds: &mut Bounds,
    limit: u16,
    entry: Record,
) -> Result<Folded, ListFault>
    requires bounded { AreWithin bounds.old folded.carousel.objects.items
        folded.extents.items }
    requires few { limit ≤ MAX_OBJECTS }
    requires room { limit ≤ vec_capacity folded.carousel.objects }
    requires room_of_extents { limit ≤ vec_capacity folded.extents }
    requires consistent { is_consistent
        (catalogue_with folded.carousel folded.extents.items) ≡ true }
    ensures after { let after = catalogue_after limit
        (catalogue_with folded.carousel folded.extents.items) entry in
        MatchResult result
        (λ next. after ≡ Some (catalogue_with next.carousel next.extents.items))
        (λ fault. after ≡ None) }
    ensures fault { IfErr result (HasListFault limit
        (catalogue_with folded.carousel folded.extents.items) entry) }
    ensures room { IfOk result (λ next. limit ≤ vec_capacity next.carousel.objects) }
    ensures room_of_extents { IfOk result (λ next. limit ≤ vec_capacity next.extents) }
    ensures bounded { IfOk result (λ next. AreWithin bounds.new next.carousel.objects.items
        next.extents.items) }
{
    let mut objects = folded.carousel.objects;
    let mut extents = folded.extents;
    apply(&mut objects, &mut extents, bounds, limit, entry.action)?;
    if is_id_used(&objects, bounds.greatest_id, entry.directory) {
        let id = entry.directory.get();
        return Err(ListFault::DirectoryId { id });
    }
    Ok(Folded {
        carousel: Carousel {
            period: entry.period,
            directory: entry.directory,
            cursor: entry.cursor,
            objects,
        },
        extents,
    })
}

/// Does an action to the objects and their extents. It makes a fault if there are too many for a
/// new one, if no object has the id that is to go, or if another has its id or meets its body.
fn apply(
    objects: &mut Vec<Object>,
    extents: &mut Vec<(u32, u32)>,
    bounds: &mut Bounds,
    limit: u16,
    action: Action,
) -> Result<(), ListFault>
    requires bounded { AreWithin bounds.old objects.old.items extents.old.items }
    requires few { limit ≤ MAX_OBJECTS }
    requires paired { HaveLengths objects.old.items extents.old.items }
    requires listed { vec_len objects.old ≤ MAX_OBJECTS }
    requires room { limit ≤ vec_capacity objects.old }
    requires room_of_extents { limit ≤ vec_capacity extents.old }
    requires consistent { are_consistent (objects_in objects.old.items extents.old.items) ≡ true }
    ensures applied { if_done (is_ok result) (objects_in objects.new.items extents.new.items)
        ≡ if_consistent
        (objects_after limit (objects_in objects.old.items extents.old.items) action) }
    ensures fault { IfErr result (HasActionFault limit
        (objects_in objects.old.items extents.old.items) action) }
    ensures paired { HaveLengths objects.new.items extents.new.items }
    ensures listed { vec_len objects.new ≤ MAX_OBJECTS }
    ensures room { vec_capacity objects.new ≡ vec_capacity objects.old }
    ensures room_of_extents { vec_capacity extents.new ≡ vec_capacity extents.old }
    ensures bounded { OnOk result (AreWithin bounds.new objects.new.items extents.new.items) }
{
    match action {
        Action::Nothing => Ok(()),
        Action::Set {
            tid,
            version,
            content,
            start,
            length,
            name,
            mime,
        } => {
            let object = Object {
                name,
                content,
                mime,
                version,
                tid,
                length,
            };
            set_object(objects, extents, bounds, limit, object, start)
        }
        Action::Remove { tid } => remove_object(objects, extents, tid),
    }
}

/// Puts an object in the place of the one of its name, or after the others. It makes a fault if
/// there are as many as may be, or if another has its id or a body that meets its own.
fn set_object(
    objects: &mut Vec<Object>,
    extents: &mut Vec<(u32, u32)>,
    bounds: &mut Bounds,
    limit: u16,
    object: Object,
    start: u32,
) -> Result<(), ListFault>
    requires bounded { AreWithin bounds.old objects.old.items extents.old.items }
    requires few { limit ≤ MAX_OBJECTS }
    requires paired { HaveLengths objects.old.items extents.old.items }
    requires listed { vec_len objects.old ≤ MAX_OBJECTS }
    requires room { limit ≤ vec_capacity objects.old }
    requires room_of_extents { limit ≤ vec_capacity extents.old }
    requires consistent { are_consistent (objects_in objects.old.items extents.old.items) ≡ true }
    ensures done { if_done (is_ok result) (objects_in objects.new.items extents.new.items)
        ≡ if_consistent (objects_set limit (record { object = object; start = start })
        (objects_in objects.old.items extents.old.items)) }
    ensures fault { IfErr result (HasSettingFault limit
        (record { object = object; start = start })
        (objects_in objects.old.items extents.old.items)) }
    ensures paired { HaveLengths objects.new.items extents.new.items }
    ensures listed { vec_len objects.new ≤ MAX_OBJECTS }
    ensures room { vec_capacity objects.new ≡ vec_capacity objects.old }
    ensures room_of_extents { vec_capacity extents.new ≡ vec_capacity extents.old }
    ensures bounded { OnOk result (AreWithin bounds.new objects.new.items extents.new.items) }
{
    let extent = (start, object.length.get());
    let id = object.tid.get();
    if let Some(place) = place_of_name(objects, bounds, &object.name) {
        drop(replace(&mut objects[place], object));
        extents[place] = extent;
        return stands_apart(objects, extents, bounds, place, id);
    }
    let place = objects.len();
    if place >= usize::from(limit) {
        drop(object);
        return Err(ListFault::TooMany { limit });
    }
    objects.push_reserved(object);
    extents.push_reserved(extent);
    stands_apart(objects, extents, bounds, place, id)
}

/// Whether the object at this place, of this id, has an id of its own and a body that meets no
/// other. The others are consistent, and then all are; the bounds are of the others before, and then
/// of all.
fn stands_apart(
    objects: &[Object],
    extents: &[(u32, u32)],
    bounds: &mut Bounds,
    place: usize,
    id: u16,
) -> Result<(), ListFault>
    requires bounded { AreWithin bounds.old (remove objects.now place)
        (remove extents.now place) }
    requires within { place < length objects.now }
    requires paired { HaveLengths objects.now extents.now }
    requires others { are_consistent
        (objects_in (remove objects.now place) (remove extents.now place)) ≡ true }
    ensures consistent { is_ok result ≡ are_consistent (objects_in objects.now extents.now) }
    ensures bounded { OnOk result (AreWithin bounds.new objects.now extents.now) }
    ensures fault { IfErr result (IsClash id objects.now extents.now) }
{
    if !are_ids_distinct(objects, place, bounds.greatest_id) {
        return Err(ListFault::SameId { id });
    }
    if !are_apart(extents, place, bounds.greatest_end) {
        return Err(ListFault::Meets { id });
    }
    bounds.widen(&objects[place], extents[place]);
    Ok(())
}

/// Whether all ids differ, if all but the one at this place do and are not above `greatest`.
fn are_ids_distinct(objects: &[Object], place: usize, greatest: u16) -> bool
    requires bounded { AreIdsWithin greatest (remove objects.now place) }
    requires within { place < length objects.now }
    requires others { is_distinct (map (λ (o : Object). o.tid) (remove objects.now place)) ≡ true }
    ensures { result ≡ is_distinct (map (λ (o : Object). o.tid) objects.now) }
{
    let object = &objects[place];
    if object.tid.get() > greatest {
        return true;
    }
    if has_id(&objects[..place], object.tid) {
        return false;
    }
    !has_id(&objects[place + 1..], object.tid)
}

/// Whether no two extents meet, if none do without the one at this place and none ends after
/// `greatest`.
fn are_apart(extents: &[(u32, u32)], place: usize, greatest: u64) -> bool
    requires bounded { AreEndsWithin greatest (remove extents.now place) }
    requires within { place < length extents.now }
    requires others { are_extents_apart (remove extents.now place) ≡ true }
    ensures { result ≡ are_extents_apart extents.now }
{
    let (start, size) = extents[place];
    let start = u64::from(start);
    if start >= greatest {
        return true;
    }
    is_clear(&extents[..place], start, size) && is_clear(&extents[place + 1..], start, size)
}

/// Removes the object of this id; that there is none is a fault.
fn remove_object(
    objects: &mut Vec<Object>,
    extents: &mut Vec<(u32, u32)>,
    tid: TransportId,
) -> Result<(), ListFault>
    requires paired { HaveLengths objects.old.items extents.old.items }
    requires listed { vec_len objects.old ≤ MAX_OBJECTS }
    ensures fault { IfErr result (λ fault. fault ≡ Missing tid) }
    ensures done { if_done (is_ok result) (objects_in objects.new.items extents.new.items)
        ≡ placed_without tid (objects_in objects.old.items extents.old.items) }
    ensures paired { HaveLengths objects.new.items extents.new.items }
    ensures listed { vec_len objects.new ≤ MAX_OBJECTS }
    ensures room { vec_capacity objects.new ≡ vec_capacity objects.old }
    ensures room_of_extents { vec_capacity extents.new ≡ vec_capacity extents.old }
    ensures bounded { (bounds : Bounds) → AreWithin bounds objects.old.items extents.old.items
        → AreWithin bounds objects.new.items extents.new.items }
{
    let Some(place) = place_of_id(objects, tid) else {
        return Err(ListFault::Missing { id: tid.get() });
    };
    drop(objects.remove(place));
    extents.remove(place);
    Ok(())
}

/// Where the object of this name stands.
fn place_of_name(objects: &[Object], bounds: &Bounds, name: &Name) -> Option<usize>
    requires { AreNamesFlagged bounds.now.names objects.now }
    ensures place { result ≡ index_of name.now objects.now }
    ensures within { IfSome result (λ place. place < length objects.now) }
{
    if !bounds.has_flag(name) {
        return None;
    }
    let name = name.as_bytes();
    objects
        .iter()
        .position(|object| object.name.as_bytes() == name)
}

/// Where the object of this id stands.
fn place_of_id(objects: &[Object], tid: TransportId) -> Option<usize>
    ensures place { result ≡ position (λ (o : Object). nat_eq o.tid tid) objects.now }
    ensures within { IfSome result (λ place. place < length objects.now) }
{
    objects.iter().position(|object| object.tid == tid)
}

/// Whether one of these objects has this id, if none has one above `greatest`.
fn is_id_used(objects: &[Object], greatest: u16, tid: TransportId) -> bool
    requires { AreIdsWithin greatest objects.now }
    ensures { result ≡ list_any (λ (o : Object). nat_eq tid o.tid) objects.now }
{
    if tid.get() > greatest {
        return false;
    }
    has_id(objects, tid)
}

/// Whether one of these objects has this id.
fn has_id(objects: &[Object], tid: TransportId) -> bool
    ensures { result ≡ list_any (λ (o : Object). nat_eq tid o.tid) objects.now }
{
    objects.iter().any(|object| tid == object.tid)
}
