//! An object of the carousel, without its body.
ghost use Rattle.std.specs.Prelude.{◌≡◌};

use crate::{BodyLength, Content, Mime, Name};
use mot_numbers::TransportId;
use std::alloc::AllocError;

/// An object of the carousel. Its body stands beside it, in whatever keeps the bodies.
#[derive(Drop)]
pub struct Object {
    /// Its ContentName.
    pub name: Name,
    /// Its content type and subtype.
    pub content: Content,
    /// Its MimeType, if it has one.
    pub mime: Option<Mime>,
    /// Its VersionNumber: how often it was replaced, modulo 256.
    pub version: u8,
    /// The transport id of its body.
    pub tid: TransportId,
    /// The length of its body.
    pub length: BodyLength,
}

impl Clone for Object {
    ghost is_clone = { λ old new. new ≡ old };

    fn clone(&self) -> Result<Self, AllocError> {
        Ok(Object {
            name: self.name.clone()?,
            content: self.content,
            mime: match &self.mime {
                Some(mime) => Some(mime.clone()?),
                None => None,
            },
            version: self.version,
            tid: self.tid,
            length: self.length,
        })
    }
}
