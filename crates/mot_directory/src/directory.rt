//! The bytes of a carousel's directory.
ghost use Rattle.std.specs.Prelude.{◌≡◌, ℕ, ◌+◌, ◌*◌, ◌^◌, ◌<◌, ◌≤◌, List, ◌++◌, length, map, vec_len, sum_by};
ghost use Rattle.std.specs.Prelude.{vec_capacity, All, Some, IfOk, IfErr, OnOk};
ghost use Rattle.std.specs.Int.{to_be_bytes, bytes_high_first, w32};
ghost use Rattle.mot_directory.specs.Directory.{DirectoryFields, IsDirectory, IsEntry};
ghost use Rattle.mot_directory.specs.Directory.{bytes_of_directory, bytes_of_entry};
ghost use Rattle.mot_directory.specs.Directory.{bytes_of_directory_header, read_directory};
ghost use Rattle.mot_directory.specs.Directory.{directory_size, entry_size};
ghost use Rattle.mot_directory.specs.Entries.{HasAnother, HasDirectory, description_in, directory_of};
ghost use Rattle.mot_directory.specs.Entries.{entries_of, parameters_with};
ghost use Rattle.mot_directory.specs.Inner.{entry_beside};
ghost use Rattle.mot_numbers.specs.Reading.{AreBytes};
ghost use Rattle.mot_numbers.specs.declared.geometry.TheConstants.{MAX_OBJECTS};
ghost use Rattle.mot_numbers.specs.declared.refusal.Refusal.TheVariants.{OutOfMemory};
ghost use Rattle.mot_objects.specs.Carousel as whole;
ghost use Rattle.mot_objects.specs.Stands.{AreBodiesOf, carousel_of};

use crate::header::{append_header, header_size};
use byteorder::{BigEndian, ByteOrder};
use mot_base::{append, append_number};
use mot_numbers::{MAX_SEGMENT, Refusal, SegmentSize};
use mot_objects::{Carousel, MAX_PERIOD, Object};
use std::alloc::Global;

/// The most bytes of a directory: its header, and 250 entries of a transport id and the longest
/// header.
pub const MAX_DIRECTORY: usize = 84_013;

/// The carousel's directory (EN 301 234), uncompressed and with no directory extension: the
/// directory header, and each object's transport id and header, in the objects' order. It holds the
/// lengths of the bodies alone. It has 13 to 84,013 bytes, and its room is taken once. The only
/// refusal is `OutOfMemory`.
pub fn directory_bytes(
    alloc: Global,
    carousel: &Carousel,
    segment_size: SegmentSize,
) -> Result<Vec<u8>, Refusal>
    // Whatever the bodies, it reads as the period, the segment size and the objects' entries, and
    // each length fits its field.
    ensures reads { IfOk result (λ bytes. (bodies : List (List ℕ)) → AreBodiesOf carousel.now bodies
        → read_directory bytes.items ≡ Some (record {
          period = carousel.now.period;
          segment_size = segment_size;
          entries = entries_of (carousel_of carousel.now bodies);
        })) }
    ensures written { IfOk result (λ bytes. (bodies : List (List ℕ))
        → AreBodiesOf carousel.now bodies → bytes.items
        ≡ bytes_of_directory (directory_of (carousel_of carousel.now bodies) segment_size)) }
    ensures fits { OnOk result ((bodies : List (List ℕ)) → AreBodiesOf carousel.now bodies
        → IsDirectory (directory_of (carousel_of carousel.now bodies) segment_size)) }
    ensures bytes { IfOk result (λ bytes. AreBytes bytes.items) }
    ensures size { IfOk result (λ bytes. vec_len bytes ≡ directory_size carousel.now) }
    ensures longest { directory_size carousel.now ≤ MAX_DIRECTORY }
    ensures refused { IfErr result (λ refusal. refusal ≡ OutOfMemory) }

    // Each directory whose lengths fit reads back, its parameters describe the objects, and each
    // carousel within the limits has one.
    ensures reads_back { (d : DirectoryFields) → IsDirectory d
        → read_directory (bytes_of_directory d) ≡ Some d }
    ensures described { (o : whole.Object)
        → description_in (parameters_with o.name o.mime o.version)
        ≡ Some (o.name, o.mime, o.version) }
    ensures carousels { (c : whole.Carousel) (size : ℕ) → HasDirectory c size
        → read_directory (bytes_of_directory (directory_of c size)) ≡ Some (directory_of c size) }
{
    let size = directory_size(carousel);
    let mut out = Vec::with_capacity(alloc, size)?;
    append_directory_header(&mut out, size, carousel, segment_size);
    for object in &carousel.objects {
        append_entry(&mut out, object);
    }
    Ok(out)
}

/// The directory of a carousel, as `directory_bytes` gives it, if `last` is one with the same entries
/// but for that of the object at this place: those of the others are copied. The only refusal is
/// `OutOfMemory`.
pub fn replaced_directory(
    alloc: Global,
    last: &[u8],
    carousel: &Carousel,
    place: usize,
    segment_size: SegmentSize,
) -> Result<Vec<u8>, Refusal>
    requires within { place < vec_len carousel.now.objects }
    requires last { (bodies : List (List ℕ)) × AreBodiesOf carousel.now bodies
        × HasAnother last.now (carousel_of carousel.now bodies) place }

    // What `directory_bytes` promises of it is so.
    ensures reads { IfOk result (λ bytes. (bodies : List (List ℕ)) → AreBodiesOf carousel.now bodies
        → read_directory bytes.items ≡ Some (record {
          period = carousel.now.period;
          segment_size = segment_size;
          entries = entries_of (carousel_of carousel.now bodies);
        })) }
    ensures written { IfOk result (λ bytes. (bodies : List (List ℕ))
        → AreBodiesOf carousel.now bodies → bytes.items
        ≡ bytes_of_directory (directory_of (carousel_of carousel.now bodies) segment_size)) }
    ensures size { IfOk result (λ bytes. vec_len bytes ≡ directory_size carousel.now) }
    ensures longest { IfOk result (λ bytes. vec_len bytes ≤ MAX_DIRECTORY) }
    ensures refused { IfErr result (λ refusal. refusal ≡ OutOfMemory) }
{
    let object = &carousel.objects[place];
    let front = entries_size(&carousel.objects[..place]);
    let back = entries_size(&carousel.objects[place + 1..]);
    let size = 13 + front + 2 + header_size(object) + back;
    let mut out = Vec::with_capacity(alloc, size)?;
    append_directory_header(&mut out, size, carousel, segment_size);
    append(&mut out, &last[13..13 + front]);
    append_entry(&mut out, object);
    append(&mut out, &last[last.len() - back..]);
    Ok(out)
}

/// How many bytes the directory has.
fn directory_size(carousel: &Carousel) -> usize
    ensures size { result ≡ directory_size carousel.now }
    ensures longest { result ≤ MAX_DIRECTORY }
{
    13 + entries_size(&carousel.objects)
}

/// How many bytes the entries of these objects have.
fn entries_size(objects: &[Object]) -> usize
    requires { length objects.now ≤ MAX_OBJECTS }
    ensures size { result ≡ sum_by entry_size objects.now }
    ensures longest { result ≤ 336 * length objects.now }
    ensures fits { All IsEntry (map entry_beside objects.now) }
{
    let mut size = 0;
    for object in objects {
        know_entry(object);
        size += 2 + header_size(object);
    }
    size
}

/// What the types of its fields keep of an object's entry. It is there for the proof, and does
/// nothing when it runs.
fn know_entry(object: &Object)
    ensures { IsEntry (entry_beside object.now) }
{
    object.tid.get();
    object.content.content_type();
    object.content.subtype();
    object.length.get();
    object.name.as_bytes();
    if let Some(mime) = &object.mime {
        mime.as_bytes();
    }
}

/// Adds the header of a directory of so many bytes.
fn append_directory_header(
    out: &mut Vec<u8>,
    size: usize,
    carousel: &Carousel,
    segment_size: SegmentSize,
)
    requires size { size < 2 ^ 30 }
    requires room { vec_len out.old + 13 ≤ vec_capacity out.old }
    ensures items { let count = vec_len carousel.now.objects in out.new.items ≡ out.old.items
        ++ bytes_of_directory_header size count carousel.now.period segment_size }
    ensures len { vec_len out.new ≡ vec_len out.old + 13 }
    ensures capacity { vec_capacity out.new ≡ vec_capacity out.old }
    ensures period { carousel.now.period ≤ MAX_PERIOD }
    ensures segment_size { segment_size ≤ MAX_SEGMENT }
    ensures bytes { AreBytes out.new.items }
{
    append(out, &bytes_of_size(size as u32));
    append_number(out, carousel.objects.len() as u16);
    append(out, &bytes_of_period(carousel.period.get()));
    append_number(out, segment_size.get());
    append_number(out, 0);
}

fn bytes_of_size(size: u32) -> [u8; 4]
    ensures { result ≡ to_be_bytes w32 size }
{
    let mut bytes = [0; 4];
    BigEndian::write_u32(&mut bytes, size);
    bytes
}

fn bytes_of_period(period: u32) -> [u8; 3]
    requires { period < 2 ^ 24 }
    ensures { result ≡ bytes_high_first 3 period }
{
    let mut bytes = [0; 3];
    BigEndian::write_u24(&mut bytes, period);
    bytes
}

/// Adds an object's entry: its transport id and its header.
fn append_entry(out: &mut Vec<u8>, object: &Object)
    requires { vec_len out.old + entry_size object.now ≤ vec_capacity out.old }
    ensures items { out.new.items ≡ out.old.items ++ bytes_of_entry (entry_beside object.now) }
    ensures len { vec_len out.new ≡ vec_len out.old + entry_size object.now }
    ensures capacity { vec_capacity out.new ≡ vec_capacity out.old }
    ensures fits { IsEntry (entry_beside object.now) }
    ensures bytes { AreBytes out.new.items }
{
    append_number(out, object.tid.get());
    append_header(out, object);
}
