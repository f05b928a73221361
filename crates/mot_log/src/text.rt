//! The text of an event.
ghost use Rattle.std.specs.Prelude.{◌≡◌, ◌++◌, OnOk, map, codes};
ghost use Rattle.std.specs.Fmt.{decimal};
ghost use Rattle.mot_log.specs.Text.{ascii_byte, shown_name, step_words, done_words, look_line};
ghost use Rattle.mot_log.specs.Text.{result_text, note_words, image_word, image_words};
ghost use Rattle.mot_log.specs.Text.{reason_words, refusal_words, refused_words, why_words};
ghost use Rattle.mot_lines.specs.Text.{taken_words};
ghost use Rattle.mot_suffixes.specs.Shown.{shown};

use itoa::Buffer;
use mot_events::{Event, LookEvent, LookResult, LookStep, Reply, Why};
use mot_lines::Verb;
use mot_numbers::{Refusal, TransportId};
use mot_objects::{Done, MAX_BODY};
use mot_suffixes::{ImageType, OtherImage, next_shown};
use std::alloc::AllocError;
use std::str::from_utf8;

/// Adds the text of an event, without a level and without an end.
pub(crate) fn add_text(text: &mut Vec<u8>, event: &Event<'_>) -> Result<(), AllocError> {
    match event {
        Event::Look(look) => add_result(text, look),
        Event::Looked => Ok(()),
        Event::LookTook(folder, seconds) => {
            add_around(text, "look ", folder, " took ")?;
            add_count(text, "", *seconds, " s")
        }
        Event::LinesRefused(name, refusal, why) => {
            add_around(text, "lines ", name, " ")?;
            add_refused(text, *refusal, why)
        }
        Event::LinesReadable(folder) => add_around(text, "lines ", folder, " readable"),
        Event::Answered(file, number, verb, subject, reply) => {
            add_around(text, "lines ", file, ":")?;
            add_count(text, "", *number, " ")?;
            add_request(text, *verb, subject)?;
            add_reply(text, reply)
        }
        Event::Began(version, disk, objects, packets) => {
            add(text, "play: motcar ")?;
            add(text, version)?;
            add_around(text, ", ", disk, ", ")?;
            add_sizes(text, *objects, *packets)
        }
        Event::Ended(turns, packets) => {
            add_count(text, "play: ended, ", *turns, " turns, ")?;
            add_count(text, "", *packets, " packets")
        }
        Event::Stopped(refusal) => {
            add(text, "motcar: ")?;
            add_refusal(text, *refusal)
        }
        Event::StatusRefused(path, reason) => {
            add_around(text, "status ", path, " refused ")?;
            add_refusal(text, Refusal::WriteFault)?;
            add_around(text, ": ", reason, "")
        }
        Event::StatusWritten(path) => add_around(text, "status ", path, " written"),
    }
}

/// Adds the line of what a look met, with its end.
pub fn add_look_line(text: &mut Vec<u8>, look: &LookEvent) -> Result<(), AllocError>
    ensures { OnOk result (text.new.items ≡ text.old.items ++ look_line look.now) }
{
    add_result(text, look)?;
    add(text, "\n")
}

/// Adds what a look met of a name.
fn add_result(text: &mut Vec<u8>, look: &LookEvent) -> Result<(), AllocError>
    ensures { OnOk result (text.new.items
        ≡ text.old.items ++ result_text look.now.name look.now.outcome) }
{
    let name = look.name.as_bytes();
    match &look.outcome {
        LookResult::Done(step, done) => {
            add_step(text, *step, name)?;
            add_done(text, *done)
        }
        LookResult::Refused(step, refusal, why) => {
            add_step(text, *step, name)?;
            add_refused(text, *refusal, why)
        }
        LookResult::Young => add_around(text, "read ", name, " too young, next look"),
        LookResult::Changed => add_around(text, "read ", name, " changed, next look"),
        LookResult::Skipped(skip) => {
            add_around(text, "skip ", name, " ")?;
            add(text, skip.word())
        }
        LookResult::Going(unknown, all) => {
            add_around(text, "note ", name, " ")?;
            add_part(text, *unknown, *all, " objects go")
        }
        LookResult::Gap(gap) => {
            add_around(text, "note ", name, " ")?;
            add_count(text, "", u64::from(*gap), " bytes in the longest gap")
        }
        LookResult::Waiting(most, files) => {
            add_around(text, "note ", name, " ")?;
            add_count(text, "", *most, " objects at most, ")?;
            add_count(text, "", *files, " files wait")
        }
        LookResult::Kept => add_around(text, "look ", name, " empty, kept"),
        LookResult::KeptMost(going, all) => {
            add_around(text, "look ", name, " ")?;
            add_part(text, *going, *all, " objects would go, kept")
        }
        LookResult::Listed => add_around(text, "look ", name, " listed"),
        LookResult::OtherImage(other) => {
            add_around(text, "note ", name, " ")?;
            add_images(text, *other)
        }
    }
}

/// Adds so many of so many, and a text.
fn add_part(text: &mut Vec<u8>, part: u64, all: u64, back: &str) -> Result<(), AllocError>
    ensures { OnOk result (text.new.items
        ≡ text.old.items ++ (decimal part ++ codes " of " ++ decimal all ++ back.now)) }
{
    add_count(text, "", part, " of ")?;
    add_count(text, "", all, back)
}

/// Adds which image type an object is by its suffix, and which by its first bytes.
fn add_images(text: &mut Vec<u8>, other: OtherImage) -> Result<(), AllocError>
    ensures { OnOk result (text.new.items ≡ text.old.items ++ image_words other) }
{
    add_image(text, Some(other.by_suffix))?;
    add(text, " by its suffix, ")?;
    add_image(text, other.by_bytes)?;
    add(text, " by its bytes")
}

/// Adds the word for an image type, if it is known.
fn add_image(text: &mut Vec<u8>, image: Option<ImageType>) -> Result<(), AllocError>
    ensures { OnOk result (text.new.items ≡ text.old.items ++ image_word image) }
{
    match image {
        Some(ImageType::Gif) => add(text, "GIF"),
        Some(ImageType::Jpeg) => add(text, "JPEG"),
        Some(ImageType::Bmp) => add(text, "BMP"),
        Some(ImageType::Png) => add(text, "PNG"),
        None => add(text, "unknown"),
    }
}

/// Adds the first word of a line, if it is a command, and what it is about, if that is said.
fn add_request(text: &mut Vec<u8>, verb: Option<Verb>, subject: &[u8]) -> Result<(), AllocError> {
    if let Some(verb) = verb {
        add(text, verb.word())?;
        add(text, " ")?;
    }
    if subject.is_empty() {
        return Ok(());
    }
    add_around(text, "", subject, " ")
}

/// Adds a line of a reply.
fn add_reply(text: &mut Vec<u8>, reply: &Reply<'_>) -> Result<(), AllocError> {
    match reply {
        Reply::Done(done) => add_done(text, *done),
        Reply::Refused(refusal, why) => add_refused(text, *refusal, why),
        Reply::Shown(line) => add_name(text, line),
    }
}

/// Adds how many objects a disk has, and how many packets a turn, or that there was no memory to
/// count them.
fn add_sizes(text: &mut Vec<u8>, objects: u64, packets: Option<u64>) -> Result<(), AllocError> {
    add_count(text, "", objects, " objects, ")?;
    match packets {
        Some(packets) => add_count(text, "", packets, " packets a turn"),
        None => {
            add(text, "a turn not measured: ")?;
            add_refusal(text, Refusal::OutOfMemory)
        }
    }
}

/// Adds what was done to a name.
fn add_step(text: &mut Vec<u8>, step: LookStep, name: &[u8]) -> Result<(), AllocError>
    ensures { OnOk result (text.new.items ≡ text.old.items ++ step_words step name.now) }
{
    add(text, step.word())?;
    add_around(text, " ", name, " ")
}

/// Adds the ids that a command took.
fn add_done(text: &mut Vec<u8>, done: Done) -> Result<(), AllocError>
    ensures { OnOk result (text.new.items ≡ text.old.items ++ done_words done) }
{
    add(text, "done ")?;
    add_taken(text, done.object)?;
    add(text, "directory ")?;
    add_number(text, u64::from(done.directory.get()))
}

/// Adds the id that an object took, if one did.
fn add_taken(text: &mut Vec<u8>, object: Option<TransportId>) -> Result<(), AllocError>
    ensures { OnOk result (text.new.items ≡ text.old.items ++ taken_words object) }
{
    let Some(object) = object else {
        return Ok(());
    };
    add(text, "object ")?;
    add_number(text, u64::from(object.get()))?;
    add(text, " ")
}

/// Adds a refusal, and why.
fn add_refused(text: &mut Vec<u8>, refusal: Refusal, why: &Why) -> Result<(), AllocError>
    ensures { OnOk result (text.new.items ≡ text.old.items ++ refused_words refusal why.now) }
{
    add(text, "refused ")?;
    add_reason(text, refusal, why)
}

/// Adds the number of a refusal, its name, and why.
pub(crate) fn add_reason(text: &mut Vec<u8>, refusal: Refusal, why: &Why) -> Result<(), AllocError>
    ensures { OnOk result (text.new.items ≡ text.old.items ++ reason_words refusal why.now) }
{
    add_refusal(text, refusal)?;
    add_why(text, why)
}

/// Adds the number of a refusal and its name.
pub(crate) fn add_refusal(text: &mut Vec<u8>, refusal: Refusal) -> Result<(), AllocError>
    ensures { OnOk result (text.new.items ≡ text.old.items ++ refusal_words refusal) }
{
    add_number(text, u64::from(refusal.number()))?;
    text.push(b' ')?;
    add(text, refusal.name())
}

/// Adds why.
fn add_why(text: &mut Vec<u8>, why: &Why) -> Result<(), AllocError>
    ensures { OnOk result (text.new.items ≡ text.old.items ++ why_words why.now) }
{
    match why {
        Why::Unsaid => Ok(()),
        Why::Bytes(count) => add_count(text, ": ", *count, " bytes"),
        Why::TooLong(count) => {
            add_count(text, ": ", *count, " bytes, at most ")?;
            add_number(text, u64::from(MAX_BODY))
        }
        Why::Space => add(text, ": a space"),
        Why::Control => add(text, ": a control character"),
        Why::Names(count) => add_count(text, ": more than ", *count, " names have a suffix"),
        Why::Objects(count) => add_count(text, ": ", *count, " at most"),
        Why::NoCommand => add(text, ": its first word is no command"),
        Why::NotUtf8 => add(text, ": not UTF-8"),
        Why::NotRegular => add(text, ": not a regular file"),
        Why::Return => add(text, ": a carriage return"),
        Why::NotHere => add(text, ": not while a disk is played"),
        Why::WordCount(count, asked) => {
            add_count(text, ": ", *count, " words, ")?;
            add_count(text, "", *asked, " asked for")
        }
        Why::Words(words) => add_around(text, ": ", words.as_bytes(), ""),
    }
}

/// Adds a number between two texts.
fn add_count(text: &mut Vec<u8>, front: &str, count: u64, back: &str) -> Result<(), AllocError>
    ensures { OnOk result (text.new.items
        ≡ text.old.items ++ (front.now ++ decimal count ++ back.now)) }
{
    add(text, front)?;
    add_number(text, count)?;
    add(text, back)
}

/// Adds a name between two texts.
fn add_around(text: &mut Vec<u8>, front: &str, name: &[u8], back: &str) -> Result<(), AllocError>
    ensures { OnOk result (text.new.items
        ≡ text.old.items ++ (front.now ++ shown_name name.now ++ back.now)) }
{
    add(text, front)?;
    add_name(text, name)?;
    add(text, back)
}

/// Adds a name, which may have any bytes, as a line shows it.
pub(crate) fn add_name(text: &mut Vec<u8>, name: &[u8]) -> Result<(), AllocError>
    ensures { OnOk result (text.new.items ≡ text.old.items ++ shown_name name.now) }
{
    match from_utf8(name) {
        Ok(_) => add_shown(text, name),
        Err(_) => add_ascii(text, name),
    }
}

/// Adds a name that is UTF-8.
fn add_shown(text: &mut Vec<u8>, name: &[u8]) -> Result<(), AllocError>
    ensures { OnOk result (text.new.items ≡ text.old.items ++ shown name.now) }
{
    let mut rest = name;
    while let Some((byte, others)) = next_shown(rest) {
        text.push(byte)?;
        rest = others;
    }
    Ok(())
}

/// Adds a name that is not.
fn add_ascii(text: &mut Vec<u8>, name: &[u8]) -> Result<(), AllocError>
    ensures { OnOk result (text.new.items ≡ text.old.items ++ map ascii_byte name.now) }
{
    for byte in name {
        text.push(ascii_byte(*byte))?;
    }
    Ok(())
}

/// A byte of a name that is not UTF-8.
fn ascii_byte(byte: u8) -> u8
    ensures { result ≡ ascii_byte byte }
{
    if byte >= b' ' && byte < 0x7F {
        return byte;
    }
    b'?'
}

/// Adds a number.
pub(crate) fn add_number(text: &mut Vec<u8>, number: u64) -> Result<(), AllocError>
    ensures { OnOk result (text.new.items ≡ text.old.items ++ decimal number) }
{
    let mut buffer = Buffer::new();
    add(text, buffer.format(number))
}

/// Adds a text.
pub(crate) fn add(text: &mut Vec<u8>, more: &str) -> Result<(), AllocError>
    ensures { OnOk result (text.new.items ≡ text.old.items ++ more.now) }
{
    text.extend_from_slice(more.as_bytes())
}
