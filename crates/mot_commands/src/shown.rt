//! What is shown of a carousel: lines of words, or of JSON.
ghost use Rattle.std.specs.Prelude.{◌≡◌, ◌++◌, IfOk, flat_map};
ghost use Rattle.mot_commands.specs.Inner.Shown.{carousel_json_beside, object_json_beside};
ghost use Rattle.mot_commands.specs.Inner.Shown.{shown_beside};
ghost use Rattle.mot_commands.specs.Json.{mime_token};
ghost use Rattle.mot_export.specs.Json.{value_token};

use mot_cli::Form;
use mot_export::{JsonValue, add_json_line};
use mot_objects::{Carousel, Mime, Object};
use mot_session::write_listing;
use std::alloc::{AllocError, Global};

/// What is shown of a carousel: its numbers, and then its objects, a line each.
pub(crate) fn text_in(alloc: Global, carousel: &Carousel, form: Form) -> Result<Vec<u8>, AllocError>
    ensures { IfOk result (λ text. text.items ≡ shown_beside form carousel.now) }
{
    match form {
        Form::Words => {
            let mut text = Vec::new(alloc);
            match write_listing(&mut text, carousel) {
                Ok(()) => Ok(text),
                Err(_) => Err(AllocError),
            }
        }
        Form::Json => carousel_json(alloc, carousel),
    }
}

/// As JSON.
fn carousel_json(alloc: Global, carousel: &Carousel) -> Result<Vec<u8>, AllocError>
    ensures { IfOk result (λ text. text.items ≡ carousel_json_beside carousel.now) }
{
    let directory = carousel.directory.get();
    let numbers = [
        ("period", JsonValue::Count(u64::from(carousel.period.get()))),
        ("directory", JsonValue::Count(u64::from(directory))),
        ("cursor", JsonValue::Count(u64::from(carousel.cursor.get()))),
        ("objects", JsonValue::Count(carousel.objects.len() as u64)),
    ];
    let text = add_json_line(Vec::new(alloc), &numbers)?;
    add_objects(text, &carousel.objects)
}

/// Adds the lines of objects.
fn add_objects(text: Vec<u8>, objects: &[Object]) -> Result<Vec<u8>, AllocError>
    ensures { IfOk result
        (λ added. added.items ≡ text.items ++ flat_map object_json_beside objects.now) }
{
    let mut text = text;
    for object in objects {
        text = add_object(text, object)?;
    }
    Ok(text)
}

/// Adds the line of an object.
fn add_object(text: Vec<u8>, object: &Object) -> Result<Vec<u8>, AllocError>
    ensures { IfOk result
        (λ added. added.items ≡ text.items ++ object_json_beside object.now) }
{
    let content = object.content;
    let members = [
        ("tid", JsonValue::Count(u64::from(object.tid.get()))),
        ("version", JsonValue::Count(u64::from(object.version))),
        ("type", JsonValue::Count(u64::from(content.content_type()))),
        ("subtype", JsonValue::Count(u64::from(content.subtype()))),
        ("length", JsonValue::Count(u64::from(object.length.get()))),
        ("name", JsonValue::of_bytes(object.name.as_bytes())),
        ("mime", mime_value(&object.mime)),
    ];
    add_json_line(text, &members)
}

/// A MIME type, if there is one.
fn mime_value(mime: &Option<Mime>) -> JsonValue<'_>
    ensures { value_token result ≡ mime_token mime.now }
{
    match mime {
        Some(mime) => JsonValue::of_bytes(mime.as_bytes()),
        None => JsonValue::Absent,
    }
}
