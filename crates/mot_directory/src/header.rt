//! The bytes of an object's header.
ghost use Rattle.std.specs.Prelude.{◌≡◌, ℕ, ◌+◌, ◌^◌, ◌<◌, ◌≤◌, List, ◌∷◌, ◌++◌, length, take, map};
ghost use Rattle.std.specs.Prelude.{flat_map, vec_len, vec_capacity, option_to_list, All, Some};
ghost use Rattle.std.specs.Prelude.{IfOk, IfErr, OnOk};
ghost use Rattle.mot_directory.specs.Entries.{IsShortMime, description_in, header_of};
ghost use Rattle.mot_directory.specs.Entries.{parameters_with, text_parameter};
ghost use Rattle.mot_directory.specs.Header.{HeaderFields, IsHeader, bytes_of_header};
ghost use Rattle.mot_directory.specs.Header.{bytes_of_core, header_size_in, read_header};
ghost use Rattle.mot_directory.specs.Parameter.{bytes_of_parameter};
ghost use Rattle.mot_directory.specs.Inner.{header_beside};
ghost use Rattle.mot_directory.specs.Directory.{header_size, mime_size, text_size};
ghost use Rattle.mot_numbers.specs.Reading.{AreBytes};
ghost use Rattle.mot_numbers.specs.declared.refusal.Refusal.TheVariants.{OutOfMemory};
ghost use Rattle.mot_objects.specs.Carousel as whole;
ghost use Rattle.mot_objects.specs.Stands.{object_of};

use byteorder::{BigEndian, ByteOrder};
use mot_base::{append, append_number};
use mot_numbers::Refusal;
use mot_objects::{MAX_BODY, MAX_NAME, MAX_SUBTYPE, MAX_TYPE, Mime, Name, Object};
use std::alloc::Global;

/// ContentName's id (EN 301 234).
const CONTENT_NAME: u8 = 0x0C;

/// MimeType's id.
const MIME_TYPE: u8 = 0x10;

/// VersionNumber's id.
const VERSION_NUMBER: u8 = 0x06;

/// The form of a parameter with one byte of data, in the two bits above the id.
const ONE_BYTE: u8 = 0x40;

/// The form of a parameter whose data stands after its length.
const WITH_LENGTH: u8 = 0xC0;

/// The most bytes of data that a length of 7 bits counts.
const LONGEST_SHORT: usize = 127;

/// The extension bit, which stands before a length of 15 bits.
const EXTENSION: u16 = 0x8000;

/// The character set in ContentName's data: UTF-8.
const UTF_8: u8 = 0xF0;

/// The most bytes of a header.
pub const MAX_HEADER: usize = 334;

/// The MOT header of an object (EN 301 234): the header core, and as its extension ContentName,
/// MimeType if the object has one, and VersionNumber. It holds the length of the body alone. It has
/// 13 to 334 bytes, and its room is taken once. The only refusal is `OutOfMemory`.
pub fn header_bytes(alloc: Global, object: &Object) -> Result<Vec<u8>, Refusal>
    // Whatever the body, it reads as the object's header, and each length fits its field.
    ensures reads { IfOk result (λ bytes. (body : List ℕ) → length body ≡ object.now.length
        → read_header bytes.items ≡ Some (header_of (object_of object.now body))) }
    ensures written { IfOk result (λ bytes. (body : List ℕ) → length body ≡ object.now.length
        → bytes.items ≡ bytes_of_header (header_of (object_of object.now body))) }
    ensures fits { OnOk result ((body : List ℕ) → length body ≡ object.now.length
        → IsHeader (header_of (object_of object.now body))) }
    ensures bytes { IfOk result (λ bytes. AreBytes bytes.items) }
    ensures size { IfOk result (λ bytes. vec_len bytes ≡ header_size object.now) }
    ensures refused { IfErr result (λ refusal. refusal ≡ OutOfMemory) }

    // Each header whose lengths fit reads back, and is cut off by its HeaderSize whatever follows.
    ensures reads_back { (h : HeaderFields) → IsHeader h
        → read_header (bytes_of_header h) ≡ Some h }
    ensures cut { (h : HeaderFields) (rest : List ℕ) → IsHeader h
        → let bytes = bytes_of_header h ++ rest in
        take (header_size_in bytes) bytes ≡ bytes_of_header h }

    // The parameters describe the object.
    ensures described { (o : whole.Object)
        → description_in (parameters_with o.name o.mime o.version)
        ≡ Some (o.name, o.mime, o.version) }
{
    let mut out = Vec::with_capacity(alloc, header_size(object))?;
    append_header(&mut out, object);
    Ok(out)
}

/// How many bytes the header has.
pub fn header_size(object: &Object) -> usize
    ensures size { result ≡ header_size object.now }
    ensures longest { result ≤ MAX_HEADER }
{
    let name = text_size(1 + object.name.as_bytes().len());
    let mime = match &object.mime {
        Some(mime) => text_size(mime.as_bytes().len()),
        None => 0,
    };
    7 + name + mime + 2
}

/// Adds the header, for which there is room.
pub fn append_header(out: &mut Vec<u8>, object: &Object)
    requires { vec_len out.old + header_size object.now ≤ vec_capacity out.old }
    ensures items { out.new.items ≡ out.old.items ++ bytes_of_header (header_beside object.now) }
    ensures len { vec_len out.new ≡ vec_len out.old + header_size object.now }
    ensures capacity { vec_capacity out.new ≡ vec_capacity out.old }
    ensures fits { IsHeader (header_beside object.now) }
    ensures bytes { AreBytes out.new.items }
{
    append_core(out, object, header_size(object));
    append_name(out, &object.name);
    append_mime(out, &object.mime);
    append(out, &[ONE_BYTE | VERSION_NUMBER, object.version]);
}

/// Adds the header core of a header of so many bytes.
fn append_core(out: &mut Vec<u8>, object: &Object, size: usize)
    requires size { size < 2 ^ 13 }
    requires room { vec_len out.old + 7 ≤ vec_capacity out.old }
    ensures items { out.new.items
        ≡ out.old.items ++ bytes_of_core object.now.length size object.now.content }
    ensures len { vec_len out.new ≡ vec_len out.old + 7 }
    ensures capacity { vec_capacity out.new ≡ vec_capacity out.old }
    ensures body { object.now.length ≤ MAX_BODY }
    ensures content_type { object.now.content.content_type ≤ MAX_TYPE }
    ensures subtype { object.now.content.subtype ≤ MAX_SUBTYPE }
{
    let content = object.content;
    let sizes = u64::from(object.length.get()) << 13 | size as u64;
    let fields = (sizes << 6 | u64::from(content.content_type())) << 9
        | u64::from(content.subtype());
    let mut bytes = [0; 7];
    BigEndian::write_uint(&mut bytes, fields, 7);
    append(out, &bytes);
}

/// Adds ContentName.
fn append_name(out: &mut Vec<u8>, name: &Name)
    requires { vec_len out.old + text_size (1 + length name.now) ≤ vec_capacity out.old }
    ensures items { out.new.items
        ≡ out.old.items ++ bytes_of_parameter (text_parameter 12 (240 ∷ name.now)) }
    ensures len { vec_len out.new ≡ vec_len out.old + text_size (1 + length name.now) }
    ensures capacity { vec_capacity out.new ≡ vec_capacity out.old }
    ensures short { length name.now ≤ MAX_NAME }
{
    let name = name.as_bytes();
    append_length(out, CONTENT_NAME, 1 + name.len());
    append(out, &[UTF_8]);
    append_text(out, name);
}

/// Adds MimeType, if there is one.
fn append_mime(out: &mut Vec<u8>, mime: &Option<Mime>)
    requires { vec_len out.old + mime_size mime.now ≤ vec_capacity out.old }
    ensures items { let texts = map (text_parameter 16) (option_to_list mime.now) in
        out.new.items ≡ out.old.items ++ flat_map bytes_of_parameter texts }
    ensures len { vec_len out.new ≡ vec_len out.old + mime_size mime.now }
    ensures capacity { vec_capacity out.new ≡ vec_capacity out.old }
    ensures short { IsShortMime mime.now }
{
    if let Some(mime) = mime {
        let mime = mime.as_bytes();
        append_length(out, MIME_TYPE, mime.len());
        append_text(out, mime);
    }
}

/// Adds the beginning of a parameter, before so many bytes of data. As a call it would keep the
/// vector that all of the directory is added to in memory.
#[inline(always)]
fn append_length(out: &mut Vec<u8>, id: u8, len: usize)
    requires id { id < 2 ^ 6 }
    requires len { len < 2 ^ 15 }
    requires room { vec_len out.old + text_size len ≤ vec_capacity out.old + len }
    ensures items { (text : List ℕ) → length text ≡ len
        → out.new.items ++ text ≡ out.old.items ++ bytes_of_parameter (text_parameter id text) }
    ensures len { vec_len out.new + len ≡ vec_len out.old + text_size len }
    ensures capacity { vec_capacity out.new ≡ vec_capacity out.old }
{
    append(out, &[WITH_LENGTH | id]);
    if len <= LONGEST_SHORT {
        append(out, &[len as u8]);
    } else {
        append_number(out, EXTENSION | len as u16);
    }
}

/// Adds a text, for which there is room, eight bytes at a time.
#[inline(always)]
fn append_text(out: &mut Vec<u8>, text: &[u8])
    requires { vec_len out.old + length text.now ≤ vec_capacity out.old }
    ensures items { out.new.items ≡ out.old.items ++ text.now }
    ensures len { vec_len out.new ≡ vec_len out.old + length text.now }
    ensures capacity { vec_capacity out.new ≡ vec_capacity out.old }
{
    let mut rest = text;
    while let [a, b, c, d, e, f, g, h, others @ ..] = rest {
        append(out, &[*a, *b, *c, *d, *e, *f, *g, *h]);
        rest = others;
    }
    append_below_eight(out, rest);
}

/// Adds fewer than eight bytes.
#[inline(always)]
fn append_below_eight(out: &mut Vec<u8>, text: &[u8])
    requires few { length text.now < 8 }
    requires room { vec_len out.old + length text.now ≤ vec_capacity out.old }
    ensures items { out.new.items ≡ out.old.items ++ text.now }
    ensures len { vec_len out.new ≡ vec_len out.old + length text.now }
    ensures capacity { vec_capacity out.new ≡ vec_capacity out.old }
{
    match text {
        [a, b, c, d, others @ ..] => {
            append(out, &[*a, *b, *c, *d]);
            append_below_four(out, others);
        }
        _ => append_below_four(out, text),
    }
}

/// Adds fewer than four bytes.
#[inline(always)]
fn append_below_four(out: &mut Vec<u8>, text: &[u8])
    requires few { length text.now < 4 }
    requires room { vec_len out.old + length text.now ≤ vec_capacity out.old }
    ensures items { out.new.items ≡ out.old.items ++ text.now }
    ensures len { vec_len out.new ≡ vec_len out.old + length text.now }
    ensures capacity { vec_capacity out.new ≡ vec_capacity out.old }
{
    match text {
        [a, b, c] => append(out, &[*a, *b, *c]),
        [a, b] => append(out, &[*a, *b]),
        [a] => append(out, &[*a]),
        _ => {}
    }
}

/// How many bytes a parameter of so many bytes of data has.
fn text_size(len: usize) -> usize
    requires { len < 2 ^ 15 }
    ensures { result ≡ text_size len }
{
    if len <= LONGEST_SHORT {
        2 + len
    } else {
        3 + len
    }
}
