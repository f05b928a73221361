//! The type of an object's content.
ghost use Rattle.std.specs.Prelude.{◌≡◌, ◌↔◌, ◌≤◌, IsOk, IfOk, IfErr};
ghost use Rattle.mot_numbers.specs.declared.refusal.Refusal.TheVariants.{BadType};
ghost use Rattle.mot_objects.specs.Name.{ContentNumbers};
ghost use Rattle.mot_objects.specs.declared.content.TheConstants.{MAX_SUBTYPE, MAX_TYPE};

use mot_numbers::Refusal;
use std::marker::Model;

/// The greatest content type: its field has 6 bits.
pub const MAX_TYPE: u8 = 63;

/// The greatest content subtype: its field has 9 bits.
pub const MAX_SUBTYPE: u16 = 511;

/// What an object is: its content type, 0 to 63, and subtype, 0 to 511 (TS 101 756), in the fields
/// of the header core (EN 301 234). Which numbers mean what is the caller's concern.
#[derive(Clone, Copy, Debug, PartialEq, Eq)]
pub struct Content {
    content_type: u8,
    subtype: u16,
}

impl Model for Content {
    ghost Value = { ContentNumbers };

    ghost view = { λ content. record {
      content_type = content.content_type;
      subtype = content.subtype;
    } };

    ghost invariant = { λ content. (content.content_type ≤ MAX_TYPE)
        × (content.subtype ≤ MAX_SUBTYPE) };

    ghost inverse = { λ numbers. record {
      content_type = numbers.content_type;
      subtype = numbers.subtype;
    } };
}

impl Content {
    /// The content of these numbers; `BadType` if one is out of range.
    pub fn new(content_type: u8, subtype: u16) -> Result<Self, Refusal>
        ensures valid { IsOk result ↔ ((content_type ≤ MAX_TYPE) × (subtype ≤ MAX_SUBTYPE)) }
        ensures value { IfOk result (λ content.
            content ≡ record { content_type = content_type; subtype = subtype }) }
        ensures refused { IfErr result (λ refusal. refusal ≡ BadType) }
    {
        if content_type <= MAX_TYPE && subtype <= MAX_SUBTYPE {
            Ok(Content {
                content_type,
                subtype,
            })
        } else {
            Err(Refusal::BadType)
        }
    }

    /// The content type, 0 to 63.
    pub fn content_type(self) -> u8
        ensures value { result ≡ self.content_type }
        ensures range { self.content_type ≤ MAX_TYPE }
    {
        self.content_type
    }

    /// The content subtype, 0 to 511.
    pub fn subtype(self) -> u16
        ensures value { result ≡ self.subtype }
        ensures range { self.subtype ≤ MAX_SUBTYPE }
    {
        self.subtype
    }
}
