//! Commands.
use crate::repetition::set_period;
use mot_base::Refusal;
use mot_carousel::{Body, Command, Content, Mime, Name};
use std::alloc::Global;

fn name_of(alloc: Global, text: &[u8]) -> Result<Name, Refusal> {
    Name::new(Vec::from_slice(alloc, text)?)
}

/// Adds an object of this name, a JPEG image, with this body.
pub fn put(alloc: Global, name: &[u8], body: &[u8]) -> Result<Command, Refusal> {
    Ok(Command::Put {
        name: name_of(alloc, name)?,
        content: Content::new(2, 1)?,
        mime: None,
        body: Body::new(Vec::from_slice(alloc, body)?)?,
    })
}

/// Adds an object of this name, a PNG image of this MIME type, with this body.
pub fn put_with_mime(
    alloc: Global,
    name: &[u8],
    mime: &[u8],
    body: &[u8],
) -> Result<Command, Refusal> {
    Ok(Command::Put {
        name: name_of(alloc, name)?,
        content: Content::new(2, 3)?,
        mime: Some(Mime::new(Vec::from_slice(alloc, mime)?)?),
        body: Body::new(Vec::from_slice(alloc, body)?)?,
    })
}

/// Takes the object of this name away.
pub fn withdraw(alloc: Global, name: &[u8]) -> Result<Command, Refusal> {
    Ok(Command::Withdraw {
        name: name_of(alloc, name)?,
    })
}

/// Adds an object, and then sets the period again and again: twelve commands.
pub fn twelve(alloc: Global) -> Result<Vec<Command>, Refusal> {
    let mut all = Vec::new(alloc);
    all.push(put(alloc, b"a", b"abc")?)?;
    for number in 1..12 {
        all.push(set_period(number)?)?;
    }
    Ok(all)
}

/// Three bodies of 100 bytes, of which the first and the last are withdrawn; then one of 150 bytes
/// and one of 100.
pub fn gaps(alloc: Global) -> Result<Vec<Command>, Refusal> {
    let mut all = Vec::new(alloc);
    all.push(put(alloc, b"a", &[1; 100])?)?;
    all.push(put(alloc, b"b", &[2; 100])?)?;
    all.push(put(alloc, b"c", &[3; 100])?)?;
    all.push(withdraw(alloc, b"a")?)?;
    all.push(withdraw(alloc, b"c")?)?;
    all.push(put(alloc, b"d", &[4; 150])?)?;
    all.push(put(alloc, b"e", &[5; 100])?)?;
    Ok(all)
}
