//! The lines of replies, and of an export.
ghost use Rattle.std.specs.Prelude.{◌≡◌, ℕ, ◌+◌, ◌*◌, ◌≤◌, List, Option, ◌++◌, length};
ghost use Rattle.arrayvec.specs.ArrayVec.{array_vec_len};
ghost use Rattle.hex.specs.Hex.{encode_lower};
ghost use Rattle.mot_lines.specs.Export.{front_words, period_line};
ghost use Rattle.mot_lines.specs.Listing.{numbers_line, mime_word};
ghost use Rattle.mot_lines.specs.Listing.{object_line_beside};
ghost use Rattle.mot_lines.specs.Text.{field, taken_words, done_line, played_line};
ghost use Rattle.mot_lines.specs.Text.{refusal_line};

use arrayvec::ArrayVec;
use itoa::Buffer;
use mot_base::array_append;
use mot_numbers::{Refusal, TransportId};
use mot_objects::{Carousel, Done, Mime, Object, Period};
use mot_packets::{MAX_PACKET, Packet};

/// Room for a line of a reply.
pub const LINE_ROOM: usize = 400;

/// One line of a reply, with its end: the longest shows an object.
pub type TextLine = ArrayVec<u8, LINE_ROOM>;

/// Room for the line of a packet: two words and its end, and two digits for each byte.
pub const PACKET_LINE_ROOM: usize = 204;

/// The line of a packet, with its end.
pub type PacketLine = ArrayVec<u8, PACKET_LINE_ROOM>;

/// Places for the digits of the longest packet.
const NO_DIGITS: [u8; 2 * MAX_PACKET] = [0; 2 * MAX_PACKET];

/// Makes the line that of a packet, with ` end` after a packet that was played and ends a turn.
// In place, since a line that is answered is copied.
pub fn set_packet_text(text: &mut PacketLine, packet: &Packet, ends_turn: bool)
    ensures { text.new.items ≡ played_line packet.now.items ends_turn }
{
    text.clear();
    array_append(text, b"packet ");
    append_digits(text, packet.as_slice());
    if ends_turn {
        array_append(text, b" end");
    }
    array_append(text, b"\n");
}

/// Adds two small digits for each byte, for which there is room.
fn append_digits(text: &mut PacketLine, bytes: &[u8])
    requires short { length bytes.now ≤ MAX_PACKET }
    requires room { array_vec_len text.old + 2 * length bytes.now ≤ PACKET_LINE_ROOM }
    ensures items { text.new.items ≡ text.old.items ++ encode_lower bytes.now }
    ensures len { array_vec_len text.new ≡ array_vec_len text.old + 2 * length bytes.now }
{
    let front = text.len();
    array_append(text, &NO_DIGITS[..2 * bytes.len()]);
    hex::encode_to_slice(bytes, &mut text.as_mut_slice()[front..]).unwrap();
}

/// A refusal's line.
pub fn refusal_text(refusal: Refusal) -> TextLine
    ensures { result.items ≡ refusal_line refusal }
{
    let mut buffer = Buffer::new();
    let mut text = TextLine::new();
    array_append(&mut text, b"refused ");
    array_append(&mut text, buffer.format(refusal.number()).as_bytes());
    text.push(b' ');
    array_append(&mut text, refusal.name().as_bytes());
    text.push(b'\n');
    text
}

/// The line of an accepted command.
pub fn done_text(done: Done) -> TextLine
    ensures { result.items ≡ done_line done }
{
    let mut buffer = Buffer::new();
    let mut text = TextLine::new();
    array_append(&mut text, b"done ");
    append_taken(&mut text, done.object);
    array_append(&mut text, b"directory ");
    array_append(&mut text, buffer.format(done.directory.get()).as_bytes());
    text.push(b'\n');
    text
}

/// The first line of a list.
pub fn carousel_text(carousel: &Carousel) -> TextLine
    ensures { result.items ≡ numbers_line carousel.now.period carousel.now.directory
        carousel.now.cursor (length carousel.now.objects.items) }
{
    let mut buffer = Buffer::new();
    let mut text = TextLine::new();
    array_append(&mut text, b"carousel ");
    append_field(&mut text, carousel.period.get());
    append_field(&mut text, u32::from(carousel.directory.get()));
    append_field(&mut text, u32::from(carousel.cursor.get()));
    array_append(&mut text, buffer.format(carousel.objects.len()).as_bytes());
    text.push(b'\n');
    text
}

/// An object's line.
// As a call it would be copied, with all of its room.
#[inline(always)]
pub fn object_text(object: &Object) -> TextLine
    ensures { result.items ≡ object_line_beside object.now }
{
    let mut text = TextLine::new();
    array_append(&mut text, b"object ");
    append_field(&mut text, u32::from(object.tid.get()));
    append_field(&mut text, u32::from(object.version));
    append_field(&mut text, u32::from(object.content.content_type()));
    append_field(&mut text, u32::from(object.content.subtype()));
    append_field(&mut text, object.length.get());
    array_append(&mut text, object.name.as_bytes());
    text.push(b' ');
    append_mime(&mut text, &object.mime);
    text.push(b'\n');
    text
}

/// The words of the line that puts an object, up to its body.
pub fn put_text(object: &Object) -> TextLine
    ensures { result.items ≡ front_words object.now.name object.now.content object.now.mime }
{
    let mut text = TextLine::new();
    array_append(&mut text, b"put ");
    array_append(&mut text, object.name.as_bytes());
    text.push(b' ');
    append_field(&mut text, u32::from(object.content.content_type()));
    append_field(&mut text, u32::from(object.content.subtype()));
    append_mime(&mut text, &object.mime);
    text.push(b' ');
    text
}

/// The line that sets a period; none if it is 0.
pub fn period_text(period: Period) -> TextLine
    ensures { result.items ≡ period_line period }
{
    let mut buffer = Buffer::new();
    let mut text = TextLine::new();
    if period.get() != 0 {
        array_append(&mut text, b"period ");
        array_append(&mut text, buffer.format(period.get()).as_bytes());
        text.push(b'\n');
    }
    text
}

/// The id that an object took, if one did.
fn append_taken(text: &mut TextLine, object: Option<TransportId>)
    requires { array_vec_len text.old + 18 ≤ LINE_ROOM }
    ensures items { text.new.items ≡ text.old.items ++ taken_words object }
    ensures len { array_vec_len text.new ≤ array_vec_len text.old + 18 }
{
    if let Some(object) = object {
        array_append(text, b"object ");
        append_field(text, u32::from(object.get()));
    }
}

/// A number, and the space after it.
fn append_field(text: &mut TextLine, number: u32)
    requires { array_vec_len text.old + 11 ≤ LINE_ROOM }
    ensures items { text.new.items ≡ text.old.items ++ field number }
    ensures len { array_vec_len text.new ≤ array_vec_len text.old + 11 }
{
    let mut buffer = Buffer::new();
    array_append(text, buffer.format(number).as_bytes());
    text.push(b' ');
}

/// The MIME type, or `-` for none.
fn append_mime(text: &mut TextLine, mime: &Option<Mime>)
    requires { array_vec_len text.old + 64 ≤ LINE_ROOM }
    ensures items { text.new.items ≡ text.old.items ++ mime_word mime.now }
    ensures len { array_vec_len text.new ≤ array_vec_len text.old + 64 }
{
    match mime {
        Some(mime) => array_append(text, mime.as_bytes()),
        None => text.push(b'-'),
    }
}
