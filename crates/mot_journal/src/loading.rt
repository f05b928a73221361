//! The records of a half, as they are read.
ghost use Rattle.std.specs.Prelude.{◌≡◌, ◌<◌, ◌≤◌, ◌+◌, ◌*◌, ◌++◌, ℕ, List, length, take, drop};
ghost use Rattle.std.specs.Prelude.{true, false, Some, IfOk, IfErr, IfSome, All};
ghost use Rattle.mot_journal.specs.Geometry.{geometry_of};
ghost use Rattle.mot_journal.specs.Slot.{is_sound, slot_size, slot_count, layout_of};
ghost use Rattle.mot_journal.specs.Inner.Reading.{HalfHas, IsHalfRefusal, IsNoHead, HasRangeFault};
ghost use Rattle.mot_journal.specs.Inner.Reading.{IsSlotReason};
ghost use Rattle.mot_journal.specs.Reason.{HasReason};
ghost use Rattle.mot_numbers.specs.Geometry.{half_size, is_valid as valid};
ghost use Rattle.mot_numbers.specs.declared.geometry.TheConstants.{MAX_OBJECTS};

use crate::decoding::{SlotFault, number, read_record};
use crate::encoding::OPEN;
use crate::formatting::MAGIC;
use crate::{Action, Fault, Geometry, HeadFault, Layout, Reason, Record, Size};
use mot_numbers::{MAX_ADDRESS, MAX_OBJECTS, MAX_SEGMENT, MIN_SEGMENT, Refusal};
use mot_objects::Mime;
use std::alloc::Global;

/// The geometry that the first 64 bytes of a disk of this length give, or why they give none.
pub(crate) fn geometry_of_head(head: &[u8], len: u64) -> Result<Geometry, HeadFault>
    requires { length head.now ≡ 64 }
    ensures read { IfOk result (λ geometry. (rest : List ℕ) → 64 + length rest ≡ len
        → Some geometry ≡ geometry_of (head.now ++ rest)) }
    ensures fault { IfErr result (λ fault. (rest : List ℕ) → 64 + length rest ≡ len
        → IsNoHead (head.now ++ rest) fault) }
{
    let geometry = Geometry {
        objects: number(head, 16, 2) as u16,
        segment: number(head, 18, 2) as u16,
        address: number(head, 20, 2) as u16,
        packet: number(head, 22, 2) as u16,
        area: number(head, 24, 4),
    };
    if head[..8] != MAGIC[..] {
        return Err(HeadFault::Foreign);
    }
    if !is_valid(&geometry) {
        return Err(out_of_range(&geometry));
    }
    let asked = geometry.length();
    if asked > len {
        return Err(HeadFault::Cut { len, asked });
    }
    Ok(geometry)
}

/// The first number of a geometry that is out of its range.
fn out_of_range(geometry: &Geometry) -> HeadFault
    requires { valid geometry.now ≡ false }
    ensures { HasRangeFault geometry.now result }
{
    let g = *geometry;
    let (size, number) = if g.objects < 1 || g.objects > MAX_OBJECTS {
        (Size::Objects, u32::from(g.objects))
    } else if g.segment < MIN_SEGMENT || g.segment > MAX_SEGMENT {
        (Size::Segment, u32::from(g.segment))
    } else if g.address < 1 || g.address > MAX_ADDRESS {
        (Size::Address, u32::from(g.address))
    } else if !matches!(g.packet, 24 | 48 | 72 | 96) {
        (Size::Packet, u32::from(g.packet))
    } else {
        (Size::Data, g.area)
    };
    HeadFault::OutOfRange { size, number }
}

/// Whether each number of a geometry is in its range.
fn is_valid(geometry: &Geometry) -> bool
    ensures { result ≡ valid geometry.now }
{
    geometry.is_valid()
}

/// The layout of a half.
pub(crate) fn layout_of_half(half: &[u8]) -> Layout
    requires { 2 ≤ length half.now }
    ensures { result ≡ layout_of half.now }
{
    if half[0] == OPEN && half[1] >= 17 && half[1] <= 19 {
        Layout::Two
    } else {
        Layout::One
    }
}

/// A slot of a half.
fn slot_at<'a>(geometry: &Geometry, layout: Layout, half: &'a [u8], place: usize) -> &'a [u8]
    requires whole { length half.now ≡ half_size geometry.now }
    requires within { place < slot_count layout geometry.now }
    ensures value { result.now ≡
        take (slot_size layout) (drop (place * slot_size layout) half.now) }
    ensures len { length result.now ≡ slot_size layout }
{
    match layout {
        Layout::One => &half[place * 256..place * 256 + 256],
        Layout::Two => &half[place * 512..place * 512 + 512],
    }
}

/// The MIME type of the last record, if it has one.
fn last_mime(records: &[Record]) -> Option<&Mime> {
    match &records.last()?.action {
        Action::Set { mime, .. } => mime.as_ref(),
        _ => None,
    }
}

/// The records of a half up to its first closed gate, or its first slot that breaks the format.
pub(crate) fn records_of_half(
    alloc: Global,
    geometry: &Geometry,
    layout: Layout,
    half: &[u8],
) -> Result<Vec<Record>, Fault>
    requires few { geometry.now.objects ≤ MAX_OBJECTS }
    requires whole { length half.now ≡ half_size geometry.now }
    requires layout { layout ≡ layout_of half.now }
    ensures ok { IfOk result (λ records. HalfHas geometry.now layout half.now records.items) }
    ensures sound { IfOk result
        (λ records. All (λ r. is_sound geometry.now layout r ≡ true) records.items) }
    ensures few { IfOk result
        (λ records. length records.items ≤ slot_count layout geometry.now) }
    ensures refused { IfErr result (λ fault. IsHalfRefusal geometry.now half.now fault.refusal) }
    ensures reason { IfErr result (λ fault. HasReason fault.refusal fault.reason) }
    ensures so { IfErr result (λ fault. IfSome fault.reason (IsSlotReason geometry.now half.now)) }
{
    let count = layout.slot_count(geometry);
    let mut records = Vec::with_capacity(alloc, count)?;
    for place in 0..count {
        let slot = slot_at(geometry, layout, half, place);
        if slot[0] != OPEN {
            return Ok(records);
        }
        match read_record(alloc, geometry, layout, slot, last_mime(&records)) {
            Ok(entry) => records.push_reserved(entry),
            Err(SlotFault::Field(fault)) => {
                let slot = place as u16;
                return Err(Fault::of(Reason::Field { slot, fault }));
            }
            Err(SlotFault::OutOfMemory) => return Err(Fault::plain(Refusal::OutOfMemory)),
        }
    }
    Ok(records)
}
