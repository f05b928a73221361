//! The name of an object.
ghost use Rattle.std.specs.Prelude.{◌≡◌, ◌↔◌, ℕ, List, IsOk, IfOk, IfErr, IsTrue};
ghost use Rattle.mot_numbers.specs.declared.refusal.Refusal.TheVariants.{BadName};
ghost use Rattle.mot_objects.specs.Name.{IsName, sum_of, text_bytes};

use crate::text::Text;
use mot_numbers::Refusal;
use std::alloc::AllocError;
use std::marker::Model;
use std::str::from_utf8;

/// The most bytes of a name (own profile).
pub const MAX_NAME: usize = 255;

/// The name of an object, as its ContentName gives it (EN 301 234): 1 to 255 bytes of UTF-8 with no
/// byte up to 0x20 and no 0x7F, so that a line's words can hold it.
#[derive(Drop)]
pub struct Name {
    text: Text,
    sum: u32,
    ghost summed: { sum ≡ sum_of (text_bytes text) },
}

impl Model for Name {
    ghost Value = { List ℕ };

    ghost view = { λ name. text_bytes name.text };

    ghost invariant = { λ name. IsName (text_bytes name.text) };
}

impl Name {
    /// The name of these bytes; `BadName` if they break its rule.
    pub fn new(bytes: Vec<u8>) -> Result<Self, Refusal>
        ensures valid { IsOk result ↔ IsName bytes.items }
        ensures value { IfOk result (λ name. name ≡ bytes.items) }
        ensures refused { IfErr result (λ refusal. refusal ≡ BadName) }
    {
        if !is_name(&bytes) {
            return Err(Refusal::BadName);
        }
        let sum = sum_of(&bytes);
        let text = Text::Alone(bytes);
        Ok(Name { text, sum })
    }

    /// The name's bytes.
    pub fn as_bytes(&self) -> &[u8]
        ensures value { result.now ≡ self.now }
        ensures rule { IsName self.now }
    {
        self.text.as_bytes()
    }

    /// A sum of its bytes, of 32 bits, which was reckoned when it was made: names of different sums are
    /// different.
    pub fn sum(&self) -> u32
        ensures { result ≡ sum_of self.now }
    {
        self.sum
    }
}

impl Clone for Name {
    ghost is_clone = { λ old new. new ≡ old };

    #[inline(always)]
    fn clone(&self) -> Result<Self, AllocError> {
        let text = self.text.clone()?;
        let sum = self.sum;
        Ok(Name { text, sum })
    }
}

impl PartialEq for Name {
    ghost use Rattle.std.specs.Prelude.{bytes_eq};
    ghost use Rattle.std.specs.Cmp.Rules.{comparing};
    ghost use Rattle.std.proofs.Common.{rules};

    ghost eq = { bytes_eq };

    ghost laws = { Prim.search (comparing, rules) };

    #[inline(always)]
    fn eq(&self, other: &Name) -> bool {
        self.sum == other.sum && self.as_bytes() == other.as_bytes()
    }
}

/// A sum in which each byte counts by its place.
fn sum_of(bytes: &[u8]) -> u32
    ensures { result ≡ sum_of bytes.now }
{
    let mut sum: u32 = 0;
    for byte in bytes {
        sum = sum.wrapping_mul(31).wrapping_add(u32::from(*byte));
    }
    sum
}

/// Whether these bytes keep the rule of a name.
fn is_name(bytes: &[u8]) -> bool
    ensures { IsTrue result ↔ IsName bytes.now }
{
    !bytes.is_empty()
        && bytes.len() <= MAX_NAME
        && bytes.iter().all(|byte| *byte > 0x20 && *byte != 0x7F)
        && from_utf8(bytes).is_ok()
}
