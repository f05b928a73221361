//! The MIME type of an object.
ghost use Rattle.std.specs.Prelude.{◌≡◌, ◌↔◌, ℕ, List, IsOk, IfOk, IfErr, IsTrue};
ghost use Rattle.mot_numbers.specs.declared.refusal.Refusal.TheVariants.{BadMime};
ghost use Rattle.mot_objects.specs.Name.{IsMime, text_bytes};

use crate::text::Text;
use mot_numbers::Refusal;
use std::alloc::AllocError;
use std::marker::Model;

/// The most bytes of a MIME type (own profile).
pub const MAX_MIME: usize = 64;

/// The MIME type of an object's body (EN 301 234): 1 to 64 bytes 0x21 to 0x7E, and not `-` alone,
/// which stands for none in a line.
#[derive(Drop)]
pub struct Mime {
    text: Text,
}

impl Model for Mime {
    ghost Value = { List ℕ };

    ghost view = { λ mime. text_bytes mime.text };

    ghost invariant = { λ mime. IsMime (text_bytes mime.text) };
}

impl Mime {
    /// The MIME type of these bytes; `BadMime` if they break its rule.
    pub fn new(bytes: Vec<u8>) -> Result<Self, Refusal>
        ensures valid { IsOk result ↔ IsMime bytes.items }
        ensures value { IfOk result (λ mime. mime ≡ bytes.items) }
        ensures refused { IfErr result (λ refusal. refusal ≡ BadMime) }
    {
        if !is_mime(&bytes) {
            return Err(Refusal::BadMime);
        }
        let text = Text::Alone(bytes);
        Ok(Mime { text })
    }

    /// The MIME type's bytes.
    pub fn as_bytes(&self) -> &[u8]
        ensures value { result.now ≡ self.now }
        ensures rule { IsMime self.now }
    {
        self.text.as_bytes()
    }
}

impl Clone for Mime {
    ghost is_clone = { λ old new. new ≡ old };

    #[inline(always)]
    fn clone(&self) -> Result<Self, AllocError> {
        let text = self.text.clone()?;
        Ok(Mime { text })
    }
}

/// Whether these bytes keep the rule of a MIME type.
fn is_mime(bytes: &[u8]) -> bool
    ensures { IsTrue result ↔ IsMime bytes.now }
{
    !bytes.is_empty()
        && bytes.len() <= MAX_MIME
        && bytes.iter().all(|byte| *byte > 0x20 && *byte < 0x7F)
        && bytes != b"-".as_slice()
}
