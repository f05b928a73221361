//! The record of a slot, as it is read.
ghost use Rattle.std.specs.Prelude.{◌≡◌, ◌+◌, ◌-◌, ◌^◌, ◌<◌, ◌≤◌, length, drop, Some, IfErr, IfOk, IsTrue};
ghost use Rattle.mot_journal.specs.Faults.{IsOfKind};
ghost use Rattle.mot_journal.specs.Geometry.{number_at};
ghost use Rattle.mot_journal.specs.Slot.{slot_size, read_slot, longest_name};
ghost use Rattle.mot_journal.specs.Inner.Reading.{sound_action_of, if_sound, set_in_slot};
ghost use Rattle.mot_journal.specs.Inner.Reading.{name_from, mime_from};
ghost use Rattle.mot_journal.specs.Inner.Unread.{HasTexts, BreaksSlot};
ghost use Rattle.mot_objects.specs.declared.mime.TheConstants.{MAX_MIME};

use crate::{Action, FieldFault, Geometry, Layout, Record};
use byteorder::{BigEndian, ByteOrder};
use mot_numbers::TransportId;
use mot_objects::{BodyLength, Content, MAX_MIME, Mime, Name, Period};
use std::alloc::{AllocError, Global};

/// Why an open slot is not read.
#[derive(Clone, Copy)]
pub enum SlotFault {
    /// A growth of memory was refused.
    OutOfMemory,
    /// This field breaks the format.
    Field(FieldFault),
}

impl From<AllocError> for SlotFault {
    ghost use Rattle.std.specs.Prelude.{◌≡◌};
    ghost use Rattle.mot_journal.specs.declared.decoding.SlotFault.TheVariants.{OutOfMemory};

    ghost from_gives = { λ _ fault. fault ≡ OutOfMemory };

    fn from(_: AllocError) -> Self {
        SlotFault::OutOfMemory
    }
}

/// The record of an open slot, or its first field with a fault. If its MIME type is the `last` one,
/// it shares its bytes, and takes no memory for them.
pub(crate) fn read_record(
    alloc: Global,
    geometry: &Geometry,
    layout: Layout,
    slot: &[u8],
    last: Option<&Mime>,
) -> Result<Record, SlotFault>
    requires { length slot.now ≡ slot_size layout }
    ensures read { IfOk result (λ entry. read_slot geometry.now layout slot.now ≡ Some entry) }
    ensures fault { IfErr result
        (BreaksSlot (read_slot geometry.now layout slot.now) geometry.now layout slot.now) }
{
    let Some(directory) = TransportId::new(number(slot, 5, 2) as u16) else {
        return Err(SlotFault::Field(FieldFault::Directory));
    };
    let Some(cursor) = TransportId::new(number(slot, 7, 2) as u16) else {
        return Err(SlotFault::Field(FieldFault::Last));
    };
    let period = Period::new(number(slot, 2, 3)).unwrap();
    let action = read_action(alloc, geometry, layout, slot, last)?;
    Ok(Record {
        period,
        directory,
        cursor,
        action,
    })
}

/// The number in so many bytes from a place on, the highest first.
pub(crate) fn number(bytes: &[u8], at: usize, width: usize) -> u32
    requires within { at + width ≤ length bytes.now }
    requires some { 1 ≤ width }
    requires narrow { width ≤ 4 }
    ensures value { result ≡ number_at at width bytes.now }
    ensures fits { result < 256 ^ width }
{
    BigEndian::read_uint(&bytes[at..at + width], width) as u32
}

/// The action of a slot, or its first field with a fault.
fn read_action(
    alloc: Global,
    geometry: &Geometry,
    layout: Layout,
    slot: &[u8],
    last: Option<&Mime>,
) -> Result<Action, SlotFault>
    requires { length slot.now ≡ slot_size layout }
    ensures read { IfOk result
        (λ action. sound_action_of geometry.now layout slot.now ≡ Some action) }
    ensures fault { IfErr result
        (BreaksSlot (sound_action_of geometry.now layout slot.now) geometry.now layout slot.now) }
{
    let kind = number(slot, 1, 1) as u8;
    match kind.saturating_sub(layout.kind_base()) {
        1 => Ok(Action::Nothing),
        2 => read_set(alloc, geometry, layout, slot, last),
        3 => match TransportId::new(number(slot, 9, 2) as u16) {
            Some(tid) => Ok(Action::Remove { tid }),
            None => Err(SlotFault::Field(FieldFault::Object)),
        },
        _ => Err(SlotFault::Field(FieldFault::Kind { layout, kind })),
    }
}

/// The action of a slot that sets an object, or its first field with a fault.
fn read_set(
    alloc: Global,
    geometry: &Geometry,
    layout: Layout,
    slot: &[u8],
    last: Option<&Mime>,
) -> Result<Action, SlotFault>
    requires long { length slot.now ≡ slot_size layout }
    requires sets { IsOfKind layout 2 slot.now }
    ensures read { IfOk result
        (λ action. if_sound geometry.now layout (set_in_slot slot.now) ≡ Some action) }
    ensures fault { IfErr result (BreaksSlot (if_sound geometry.now layout (set_in_slot slot.now))
        geometry.now layout slot.now) }
{
    let Some(tid) = TransportId::new(number(slot, 9, 2) as u16) else {
        return Err(SlotFault::Field(FieldFault::Object));
    };
    let version = number(slot, 11, 1) as u8;
    let content_type = number(slot, 12, 1) as u8;
    let subtype = number(slot, 13, 2) as u16;
    let Ok(content) = Content::new(content_type, subtype) else {
        return Err(SlotFault::Field(FieldFault::Content {
            content_type,
            subtype,
        }));
    };
    let start = number(slot, 15, 4);
    let size = number(slot, 19, 4);
    let Some(length) = BodyLength::new(size) else {
        return Err(SlotFault::Field(FieldFault::Length { length: size }));
    };
    let end = u64::from(start) + u64::from(size);
    let area = geometry.area;
    if end > u64::from(area) {
        return Err(SlotFault::Field(FieldFault::Extent { end, area }));
    }
    let (name, mime) = read_texts(alloc, geometry, layout, slot, last)?;
    Ok(Action::Set {
        tid,
        version,
        content,
        start,
        length,
        name,
        mime,
    })
}

/// The texts of a slot that sets an object, or the first with a fault.
fn read_texts(
    alloc: Global,
    geometry: &Geometry,
    layout: Layout,
    slot: &[u8],
    last: Option<&Mime>,
) -> Result<(Name, Option<Mime>), SlotFault>
    requires long { length slot.now ≡ slot_size layout }
    requires sets { IsOfKind layout 2 slot.now }
    ensures read { IfOk result (HasTexts layout slot.now) }
    ensures fault { IfErr result (BreaksSlot (if_sound geometry.now layout (set_in_slot slot.now))
        geometry.now layout slot.now) }
{
    let length = number(slot, 23, 1) as u8;
    let size = usize::from(length);
    if size > layout.longest_name() {
        return Err(SlotFault::Field(FieldFault::Name { length }));
    }
    let end = 24 + size;
    let Some(name) = read_name(alloc, layout, &slot[24..end])? else {
        return Err(SlotFault::Field(FieldFault::Name { length }));
    };
    let rest = &slot[end..];
    let Some(mime) = read_mime(alloc, rest, last)? else {
        let length = number(rest, 0, 1) as u8;
        return Err(SlotFault::Field(FieldFault::Mime { length }));
    };
    Ok((name, mime))
}

/// These bytes as a name; `None` if they break its rule.
fn read_name(alloc: Global, layout: Layout, bytes: &[u8]) -> Result<Option<Name>, AllocError>
    ensures { IfOk result (λ name. name ≡ name_from (longest_name layout) bytes.now) }
{
    if bytes.len() > layout.longest_name() {
        return Ok(None);
    }
    match Name::new(bytes.to_vec(alloc)?) {
        Ok(name) => Ok(Some(name)),
        Err(_) => Ok(None),
    }
}

/// Whether both are the same bytes. (They are few: the library's comparison takes three times the
/// instructions.)
fn are_same(one: &[u8], other: &[u8]) -> bool
    ensures { IsTrue result → one.now ≡ other.now }
{
    if one.len() != other.len() {
        return false;
    }
    for at in 0..one.len() {
        if one[at] != other[at] {
            return false;
        }
    }
    true
}

/// The MIME type whose length is the first byte, or that there is none; `None` if it breaks its
/// rule.
fn read_mime(
    alloc: Global,
    bytes: &[u8],
    last: Option<&Mime>,
) -> Result<Option<Option<Mime>>, AllocError>
    requires { 1 + MAX_MIME < length bytes.now }
    ensures { IfOk result (λ mime. mime ≡ mime_from bytes.now) }
{
    let size = bytes[0] as usize;
    if size == 0 {
        return Ok(Some(None));
    }
    if size > MAX_MIME {
        return Ok(None);
    }
    let text = &bytes[1..1 + size];
    if let Some(last) = last
        && are_same(last.as_bytes(), text)
    {
        return Ok(Some(Some(last.clone()?)));
    }
    match Mime::new(text.to_vec(alloc)?) {
        Ok(mime) => Ok(Some(Some(mime))),
        Err(_) => Ok(None),
    }
}
