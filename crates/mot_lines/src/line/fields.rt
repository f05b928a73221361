//! The words of a line, one by one.
ghost use Rattle.std.specs.Prelude.{◌≡◌, ◌⊎◌, Ok, IsErr, IfErr, IfOk};
ghost use Rattle.hex.specs.Hex.{decode_of};
ghost use Rattle.mot_lines.specs.Fields.{kind_in, number_to, segment_in, name_in, content_in};
ghost use Rattle.mot_lines.specs.Fields.{mime_in, body_in, period_in, number_of_word};
ghost use Rattle.mot_lines.specs.Inner.{OrOutOfMemory};
ghost use Rattle.mot_numbers.specs.declared.refusal.Refusal.TheVariants.{BadBody, OutOfMemory};

use super::MAX_PACKETS;
use super::words::{is_word, parse_number};
use crate::SegmentBytes;
use hex::FromHexError;
use mot_numbers::{GroupKind, Refusal, TransportId};
use mot_objects::{Body, Content, Mime, Name, Period};
use std::alloc::Global;

/// TYPE, or `BadType`.
pub(super) fn parse_kind(word: &[u8]) -> Result<GroupKind, Refusal>
    ensures { result ≡ kind_in (number_of_word word.now) }
{
    match parse_number(word) {
        Some(4) => Ok(GroupKind::Body),
        Some(6) => Ok(GroupKind::Directory),
        _ => Err(Refusal::BadType),
    }
}

/// TID, or `BadNumber`.
pub(super) fn parse_tid(word: &[u8]) -> Result<TransportId, Refusal>
    ensures { result ≡ number_to 65535 (number_of_word word.now) }
{
    let Some(number) = parse_number(word) else {
        return Err(Refusal::BadNumber);
    };
    let Ok(number) = u16::try_from(number) else {
        return Err(Refusal::BadNumber);
    };
    match TransportId::new(number) {
        Some(tid) => Ok(tid),
        None => Err(Refusal::BadNumber),
    }
}

/// HEX, or `BadBody`, `EmptyBody` or `BodyTooLong`; or `OutOfMemory`.
pub(super) fn parse_segment(alloc: Global, word: &[u8]) -> Result<SegmentBytes, Refusal>
    ensures { OrOutOfMemory result (segment_in (decode_of word.now)) }
{
    let bytes = decode(alloc, word)?;
    SegmentBytes::new(bytes)
}

/// NAME, or `BadName`; or `OutOfMemory`.
pub(super) fn parse_name(alloc: Global, word: &[u8]) -> Result<Name, Refusal>
    ensures { OrOutOfMemory result (name_in word.now) }
{
    let bytes = Vec::from_slice(alloc, word)?;
    Name::new(bytes)
}

/// The content of an object, by the words TYPE, 0 to 63, and SUBTYPE, 0 to 511; `BadType` if one is
/// not a number of 1 to 10 digits in its range.
pub fn parse_content(kind: &[u8], subtype: &[u8]) -> Result<Content, Refusal>
    ensures { result ≡ content_in (number_of_word kind.now) (number_of_word subtype.now) }
{
    let Some(kind) = parse_number(kind) else {
        return Err(Refusal::BadType);
    };
    let Some(subtype) = parse_number(subtype) else {
        return Err(Refusal::BadType);
    };
    let (Ok(kind), Ok(subtype)) = (u8::try_from(kind), u16::try_from(subtype)) else {
        return Err(Refusal::BadType);
    };
    Content::new(kind, subtype)
}

/// MIME, or `BadMime`; or `OutOfMemory`. `-` stands for no MIME type.
pub(super) fn parse_mime(alloc: Global, word: &[u8]) -> Result<Option<Mime>, Refusal>
    ensures { OrOutOfMemory result (mime_in word.now) }
{
    if is_word(word, b"-") {
        return Ok(None);
    }
    let bytes = Vec::from_slice(alloc, word)?;
    let mime = Mime::new(bytes)?;
    Ok(Some(mime))
}

/// HEX, or `BadBody`, `EmptyBody` or `BodyTooLong`; or `OutOfMemory`.
pub(super) fn parse_body(alloc: Global, word: &[u8]) -> Result<Body, Refusal>
    ensures { OrOutOfMemory result (body_in (decode_of word.now)) }
{
    let bytes = decode(alloc, word)?;
    Body::new(bytes)
}

/// N of a period, or `BadNumber`.
pub(super) fn parse_period(word: &[u8]) -> Result<Period, Refusal>
    ensures { result ≡ period_in (number_of_word word.now) }
{
    let Some(number) = parse_number(word) else {
        return Err(Refusal::BadNumber);
    };
    let Ok(number) = u32::try_from(number) else {
        return Err(Refusal::BadNumber);
    };
    Period::new(number)
}

/// N of a `next` line, or `BadNumber`.
pub(super) fn parse_count(word: &[u8]) -> Result<u32, Refusal>
    ensures { result ≡ number_to MAX_PACKETS (number_of_word word.now) }
{
    let Some(number) = parse_number(word) else {
        return Err(Refusal::BadNumber);
    };
    if number == 0 || number > u64::from(MAX_PACKETS) {
        return Err(Refusal::BadNumber);
    }
    Ok(number as u32)
}

/// The bytes that a word writes in pairs of hex digits, or `BadBody`; or `OutOfMemory`.
fn decode(alloc: Global, word: &[u8]) -> Result<Vec<u8>, Refusal>
    ensures read { IfOk result (λ bytes. decode_of word.now ≡ Ok bytes.items) }
    ensures refused { IfErr result (λ refusal.
        (refusal ≡ OutOfMemory) ⊎ ((refusal ≡ BadBody) × IsErr (decode_of word.now))) }
{
    match hex::decode(alloc, word) {
        Ok(bytes) => Ok(bytes),
        Err(FromHexError::OutOfMemory) => Err(Refusal::OutOfMemory),
        Err(_) => Err(Refusal::BadBody),
    }
}
