//! The slot of a record, as it is written.
ghost use Rattle.std.specs.Prelude.{◌≡◌, ◌+◌, ◌-◌, ◌^◌, ◌<◌, ◌≤◌, ◌++◌, length, replicate, true};
ghost use Rattle.std.specs.Prelude.{slice_get, Some};
ghost use Rattle.std.specs.Int.{bytes_high_first};
ghost use Rattle.arrayvec.specs.ArrayVec.{array_vec_len};
ghost use Rattle.mot_journal.specs.Slot.{slot_size, bytes_of_slot, read_slot, is_sound};
ghost use Rattle.mot_journal.specs.Slot.{action_kind, action_bytes, mime_bytes, AreSound};
ghost use Rattle.mot_journal.specs.Inner.Steps.{FitsAction, slot_from, IsReadable};
ghost use Rattle.mot_numbers.specs.declared.geometry.Geometry.{Geometry as Sizes};

use crate::{Action, Layout, Record};
use arrayvec::ArrayVec;
use byteorder::{BigEndian, ByteOrder};
use mot_base::{array_append, array_append_number};
use mot_objects::Mime;

/// The value of an open gate; any other is closed.
pub const OPEN: u8 = 0xA5;

/// The slot of a record in this layout, with an open gate. It takes no memory.
pub fn slot_bytes(layout: Layout, entry: &Record) -> ArrayVec<u8, 512>
    ensures written { result.items ≡ bytes_of_slot layout entry.now }
    ensures reads { (g : Sizes) → is_sound g layout entry.now ≡ true
        → read_slot g layout result.items ≡ Some entry.now }
    ensures size { (g : Sizes) → is_sound g layout entry.now ≡ true
        → length result.items ≡ slot_size layout }
{
    let mut slot = ArrayVec::new();
    put_slot(&mut slot, layout, entry);
    slot
}

/// Makes the room hold the slot of a record in this layout, with an open gate.
fn put_slot(slot: &mut ArrayVec<u8, 512>, layout: Layout, entry: &Record)
    ensures written { slot.new.items ≡ bytes_of_slot layout entry.now }
    ensures reads { (g : Sizes) → is_sound g layout entry.now ≡ true
        → read_slot g layout slot.new.items ≡ Some entry.now }
    ensures size { (g : Sizes) → is_sound g layout entry.now ≡ true
        → length slot.new.items ≡ slot_size layout }
{
    *slot = ArrayVec::new();
    slot.push(OPEN);
    slot.push(layout.kind_base() + kind(&entry.action));
    put_number(slot, entry.period.get(), 3);
    array_append_number(slot, entry.directory.get());
    array_append_number(slot, entry.cursor.get());
    put_action(slot, &entry.action);
    fill(slot, layout.slot_size());
}

/// Makes the room hold the slot of the record of this number; zeros if there is no such record. One
/// room serves all slots of a half, since to make a new one fills it.
pub fn put_slot_or_zeros(
    slot: &mut ArrayVec<u8, 512>,
    layout: Layout,
    given: &[Record],
    number: usize,
)
    ensures value { slot.new.items ≡ slot_from layout (slice_get given.now number) }
    ensures reads { (g : Sizes) → AreSound g layout given.now
        → IsReadable g layout (slice_get given.now number) }
    ensures size { (g : Sizes) → AreSound g layout given.now
        → length slot.new.items ≡ slot_size layout }
{
    match given.get(number) {
        Some(entry) => put_slot(slot, layout, entry),
        None => {
            *slot = ArrayVec::new();
            fill(slot, layout.slot_size());
        }
    }
}

/// The kind of an action in layout 1.
fn kind(action: &Action) -> u8
    ensures value { result ≡ action_kind action.now }
    ensures few { result ≤ 3 }
{
    match action {
        Action::Nothing => 1,
        Action::Set { .. } => 2,
        Action::Remove { .. } => 3,
    }
}

/// Appends a number in so many bytes, the highest first.
fn put_number(slot: &mut ArrayVec<u8, 512>, number: u32, width: usize)
    requires some { 1 ≤ width }
    requires narrow { width ≤ 4 }
    requires fits { number < 256 ^ width }
    requires room { array_vec_len slot.old + width ≤ 512 }
    ensures written { slot.new.items ≡ slot.old.items ++ bytes_high_first width number }
    ensures len { array_vec_len slot.new ≡ array_vec_len slot.old + width }
{
    let mut bytes = [0; 4];
    BigEndian::write_uint(&mut bytes, u64::from(number), width);
    array_append(slot, &bytes[..width]);
}

/// Appends the bytes of the action, which come after its kind and the numbers of the carousel.
fn put_action(slot: &mut ArrayVec<u8, 512>, action: &Action)
    requires { array_vec_len slot.old ≤ 100 }
    ensures written { slot.new.items ≡ slot.old.items ++ action_bytes action.now }
    ensures fits { FitsAction action.now }
    ensures len { array_vec_len slot.new ≤ 512 }
{
    match action {
        Action::Nothing => {}
        Action::Remove { tid } => array_append_number(slot, tid.get()),
        Action::Set {
            tid,
            version,
            content,
            start,
            length,
            name,
            mime,
        } => {
            array_append_number(slot, tid.get());
            array_append(slot, &[*version, content.content_type()]);
            array_append_number(slot, content.subtype());
            put_number(slot, *start, 4);
            put_number(slot, length.get(), 4);
            slot.push(name.as_bytes().len() as u8);
            array_append(slot, name.as_bytes());
            put_mime(slot, mime);
        }
    }
}

/// Appends the length of the MIME type, 0 for none, and its text.
fn put_mime(slot: &mut ArrayVec<u8, 512>, mime: &Option<Mime>)
    requires { array_vec_len slot.old ≤ 400 }
    ensures written { slot.new.items ≡ slot.old.items ++ mime_bytes mime.now }
    ensures len { array_vec_len slot.new ≤ array_vec_len slot.old + 65 }
{
    match mime {
        None => slot.push(0),
        Some(mime) => {
            slot.push(mime.as_bytes().len() as u8);
            array_append(slot, mime.as_bytes());
        }
    }
}

/// Appends zeros up to this length.
fn fill(slot: &mut ArrayVec<u8, 512>, size: usize)
    requires { size ≤ 512 }
    ensures { slot.new.items ≡ slot.old.items ++ replicate (size - array_vec_len slot.old) 0 }
{
    let rest = size.saturating_sub(slot.len());
    array_append(slot, &[0; 512][..rest]);
}
