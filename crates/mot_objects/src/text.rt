//! The bytes of a name or a MIME type, which its copies share.
ghost use Rattle.std.specs.Prelude.{◌≡◌};
ghost use Rattle.mot_objects.specs.Name.{text_bytes};

use std::alloc::AllocError;
use std::rc::Rc;

/// Bytes that don't change: those of a text that was just made stand alone; its copies stand
/// together, so that a copy of a copy takes no memory.
#[derive(Drop)]
pub(crate) enum Text {
    Alone(Vec<u8>),
    Together(Rc<Vec<u8>>),
}

impl Text {
    /// The bytes.
    pub(crate) fn as_bytes(&self) -> &[u8]
        ensures value { result.now ≡ text_bytes self.now }
    {
        match self {
            Text::Alone(bytes) => bytes,
            Text::Together(bytes) => bytes,
        }
    }
}

impl Clone for Text {
    ghost is_clone = { λ old new. text_bytes new ≡ text_bytes old };

    #[inline(always)]
    fn clone(&self) -> Result<Self, AllocError> {
        match self {
            Text::Alone(bytes) => {
                let alloc = *bytes.allocator();
                let copy = Vec::from_slice(alloc, bytes)?;
                Ok(Text::Together(Rc::new(alloc, copy)?))
            }
            Text::Together(bytes) => Ok(Text::Together(bytes.clone()?)),
        }
    }
}
