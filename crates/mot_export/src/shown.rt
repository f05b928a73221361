//! The figures of a disk, as JSON and for people.
ghost use Rattle.std.specs.Prelude.{◌≡◌, ◌∷◌, ◌++◌, ◌≤◌, ◌<◌, IfOk, flat_map};
ghost use Rattle.mot_export.specs.Inspecting.{IsShown, disk_members, filled_json};
ghost use Rattle.mot_export.specs.Inspecting.{inspection_json, segment_size, time_json};
ghost use Rattle.mot_export.specs.Json.{maybe_count, members_of, value_token};

use crate::inspection::{Inspection, TurnTime};
use crate::json_line::{JsonValue, add_json_line};
use crate::words::write_words;
use mot_cli::Form;
use mot_numbers::{MAX_SEGMENT, MIN_SEGMENT};
use std::alloc::{AllocError, Global};

/// The text of an inspection.
pub(crate) fn text_of(alloc: Global, form: Form, told: &Inspection) -> Result<Vec<u8>, AllocError>
    ensures { IfOk result (λ text. IsShown form told.now text.items) }
{
    let mut text = Vec::new(alloc);
    match form {
        Form::Json => add_json(text, told),
        Form::Words => match write_words(&mut text, told) {
            Ok(()) => Ok(text),
            Err(_) => Err(AllocError),
        },
    }
}

/// Adds an inspection as JSON: a line for the disk, one for each length of packets, and one for each
/// rate.
fn add_json(text: Vec<u8>, told: &Inspection) -> Result<Vec<u8>, AllocError>
    ensures { IfOk result
        (λ added. added.items ≡ text.items ++ inspection_json told.now) }
{
    let text = add_json_line(text, &disk_members(told))?;
    let size = usize::from(told.geometry.segment);
    let text = add_filled(text, size, 19)?;
    let text = add_filled(text, size, 43)?;
    let text = add_filled(text, size, 67)?;
    let text = add_filled(text, size, 91)?;
    add_times(text, &told.times)
}

/// The numbers of a disk, and their names in JSON.
pub(crate) fn disk_members(told: &Inspection) -> [(&'static str, JsonValue<'static>); 16]
    ensures { members_of result ≡ disk_members told.now }
{
    let (geometry, waits) = (&told.geometry, &told.waits);
    let objects = usize::from(geometry.objects).saturating_sub(told.objects);
    let bytes = u64::from(geometry.area).saturating_sub(told.bytes);
    let slots = told.slots.saturating_sub(told.records);
    [
        ("address", JsonValue::Count(u64::from(geometry.address))),
        ("packet", JsonValue::Count(u64::from(geometry.packet))),
        ("segment", JsonValue::Count(u64::from(geometry.segment))),
        ("objects_used", JsonValue::Count(told.objects as u64)),
        ("objects_free", JsonValue::Count(objects as u64)),
        ("data_used", JsonValue::Count(told.bytes)),
        ("data_free", JsonValue::Count(bytes)),
        ("gap", JsonValue::Count(u64::from(told.gap))),
        ("slots_used", JsonValue::Count(told.records as u64)),
        ("slots_free", JsonValue::Count(slots as u64)),
        ("turn_packets", JsonValue::Count(told.turn.packets)),
        ("turn_bytes", JsonValue::Count(told.turn.bytes)),
        ("group", JsonValue::Count(waits.group)),
        ("directory", JsonValue::Count(waits.directory)),
        ("heard_directory", JsonValue::Count(waits.heard_directory)),
        ("heard_carousel", JsonValue::Count(waits.heard_carousel)),
    ]
}

/// Adds the line of packets with so many data bytes: the longest segment no longer than this one
/// whose group fills them, and the shortest that is longer, if a disk may have these.
fn add_filled(text: Vec<u8>, size: usize, room: usize) -> Result<Vec<u8>, AllocError>
    requires short { size ≤ 65535 }
    requires some { (0 < room) × (room ≤ 91) }
    ensures { IfOk result (λ added. added.items ≡ text.items ++ filled_json size room) }
{
    let full = (size + 11) / room * room;
    let members = [
        ("packets", JsonValue::Count(room as u64 + 5)),
        ("shorter", segment_size(full.saturating_sub(11))),
        ("longer", segment_size((full + room).saturating_sub(11))),
    ];
    add_json_line(text, &members)
}

/// A size of segments, if a disk may have it.
fn segment_size(size: usize) -> JsonValue<'static>
    ensures { value_token result ≡ maybe_count (segment_size size) }
{
    if size < usize::from(MIN_SEGMENT) || size > usize::from(MAX_SEGMENT) {
        JsonValue::Absent
    } else {
        JsonValue::Count(size as u64)
    }
}

/// Adds a line for each rate.
fn add_times(text: Vec<u8>, times: &[TurnTime]) -> Result<Vec<u8>, AllocError>
    ensures { IfOk result
        (λ added. added.items ≡ text.items ++ flat_map time_json times.now) }
{
    let mut text = text;
    for time in times {
        text = add_time(text, time)?;
    }
    Ok(text)
}

/// Adds the line of a rate.
fn add_time(text: Vec<u8>, time: &TurnTime) -> Result<Vec<u8>, AllocError>
    ensures { IfOk result (λ added. added.items ≡ text.items ++ time_json time.now) }
{
    let members = [
        ("rate", JsonValue::Count(u64::from(time.rate))),
        ("milliseconds_24", JsonValue::maybe(time.in_24)),
        ("milliseconds_48", JsonValue::maybe(time.in_48)),
        ("milliseconds_72", JsonValue::maybe(time.in_72)),
        ("milliseconds_96", JsonValue::maybe(time.in_96)),
    ];
    add_json_line(text, &members)
}
