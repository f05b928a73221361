//! The records of an inventory, and of a change.
ghost use Rattle.std.specs.Prelude.{◌≡◌, IfOk};
ghost use Rattle.mot_journal.specs.declared.record.Action.TheVariants.{Set};
ghost use Rattle.mot_repository.specs.Inner.Extents.{catalogue_with};
ghost use Rattle.mot_repository.specs.Inner.Prepared.{IsTyped, kept_action, kept_record};
ghost use Rattle.mot_repository.specs.Records.{records_of_catalogue};

use crate::inventory::Inventory;
use mot_journal::{Action, Record};
use mot_objects::{BodyLength, Carousel, Command, Object};
use std::alloc::{AllocError, Global};

/// The records that a full half is rewritten to: one that sets each object, or one of kind nothing
/// if there is no object.
pub(crate) fn records_of(alloc: Global, inventory: &Inventory) -> Result<Vec<Record>, AllocError>
    ensures { let kept = catalogue_with inventory.now.carousel inventory.now.extents.items in
        IfOk result (λ records. records.items ≡ records_of_catalogue kept) }
{
    let carousel = &inventory.carousel;
    let mut records = Vec::with_capacity(alloc, carousel.objects.len() + 1)?;
    for (place, object) in carousel.objects.iter().enumerate() {
        let action = set_action(object, inventory.extents[place].0, object.length)?;
        records.push_reserved(record_with(carousel, action));
    }
    if records.is_empty() {
        records.push_reserved(record_with(carousel, Action::Nothing));
    }
    Ok(records)
}

/// The record of the command that made `next` of `old`, whose body, if it brings one, begins at
/// `start`.
pub(crate) fn record_of_change(
    old: &Carousel,
    next: &Carousel,
    command: &Command,
    start: u32,
) -> Result<Record, AllocError>
    ensures made { IfOk result (λ made. made ≡ kept_record old.now next.now command.now start) }
    ensures typed { IfOk result IsTyped }
{
    let action = action_of_change(old, next, command, start)?;
    let made = record_with(next, action);
    know_fields(&made);
    Ok(made)
}

/// What the command did to an object.
fn action_of_change(
    old: &Carousel,
    next: &Carousel,
    command: &Command,
    start: u32,
) -> Result<Action, AllocError>
    ensures { IfOk result (λ made. made ≡ kept_action old.now next.now command.now start) }
{
    match command {
        Command::Put { name, body, .. } | Command::Replace { name, body, .. } => {
            match next.place_of(name) {
                Some(place) => set_action(&next.objects[place], start, body.length()),
                None => Ok(Action::Nothing),
            }
        }
        Command::Withdraw { name } => match old.place_of(name) {
            Some(place) => Ok(Action::Remove {
                tid: old.objects[place].tid,
            }),
            None => Ok(Action::Nothing),
        },
        Command::Period(_) => Ok(Action::Nothing),
    }
}

/// What the types of the fields keep of a record. It is there for the proof, and does nothing when
/// it runs.
pub(crate) fn know_fields(made: &Record)
    ensures { IsTyped made.now }
{
    made.directory.get();
    made.cursor.get();
    match &made.action {
        Action::Nothing => {}
        Action::Remove { tid } => {
            tid.get();
        }
        Action::Set {
            tid,
            content,
            length,
            name,
            mime,
            ..
        } => {
            tid.get();
            content.content_type();
            content.subtype();
            length.get();
            name.as_bytes();
            if let Some(mime) = mime {
                mime.as_bytes();
            }
        }
    }
}

/// What sets the object, whose body of this length begins at `start`.
pub(crate) fn set_action(
    object: &Object,
    start: u32,
    length: BodyLength,
) -> Result<Action, AllocError>
    ensures { let o = object.now in IfOk result (λ action.
        action ≡ Set o.tid o.version o.content start length o.name o.mime) }
{
    Ok(Action::Set {
        tid: object.tid,
        version: object.version,
        content: object.content,
        start,
        length,
        name: object.name.clone()?,
        mime: object.mime.clone()?,
    })
}

/// The record of this action that leaves the carousel's numbers.
fn record_with(carousel: &Carousel, action: Action) -> Record
    ensures { result ≡ record {
      period = carousel.now.period;
      directory = carousel.now.directory;
      cursor = carousel.now.cursor;
      action = action;
    } }
{
    Record {
        period: carousel.period,
        directory: carousel.directory,
        cursor: carousel.cursor,
        action,
    }
}
