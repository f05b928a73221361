//! Calls on objects that the program does not make: they answer where there is memory.
use crate::expecting::expect;
use mot_base::{Refusal, TransportId};
use mot_directory::header_bytes;
use mot_objects::{Body, BodyLength, Content, Name, Object};
use std::alloc::Global;

/// Whether a copy of a body has the bytes of what was copied.
fn is_copied(alloc: Global, bytes: &[u8]) -> Result<bool, Refusal> {
    let body = Body::new(Vec::from_slice(alloc, bytes)?)?;
    let copy = body.clone()?;
    Ok(copy.as_bytes() == bytes)
}

/// How long the header of an object of this name is, which has no MIME type.
fn length_of_header(alloc: Global, name: &[u8]) -> Result<usize, Refusal> {
    let name = Name::new(Vec::from_slice(alloc, name)?)?;
    let object = Object {
        name,
        content: Content::new(2, 3)?,
        mime: None,
        version: 0,
        tid: TransportId::FIRST,
        length: BodyLength::new(5).ok_or(Refusal::EmptyBody)?,
    };
    Ok(header_bytes(alloc, &object)?.len())
}

// The header core of 7 bytes, the name after 3, and the version in 2.
#[test]
fn calls_answer(rt: HostRuntime) {
    expect(&rt, is_copied(rt.alloc(), b"hello"), Ok(true));
    expect(&rt, length_of_header(rt.alloc(), b"a"), Ok(13));
}
