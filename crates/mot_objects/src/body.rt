//! The body of an object.
ghost use Rattle.std.specs.Prelude.{◌≡◌, ◌↔◌, ℕ, ◌<◌, ◌≤◌, List, [], length, IsOk, IsErrOf, IfOk};
ghost use Rattle.std.specs.Prelude.{IsSome, IfSome};
ghost use Rattle.mot_numbers.specs.declared.refusal.Refusal.TheVariants.{EmptyBody, BodyTooLong};
ghost use Rattle.mot_objects.specs.declared.body.TheConstants.{MAX_BODY};

use mot_numbers::Refusal;
use std::alloc::AllocError;
use std::marker::Model;

/// The most bytes of a body (own profile).
pub const MAX_BODY: u32 = 262_144;

/// The length of an object's body in bytes, 1 to 262,144.
#[derive(Clone, Copy, Debug, PartialEq, Eq)]
pub struct BodyLength {
    number: u32,
}

impl Model for BodyLength {
    ghost Value = { ℕ };

    ghost view = { λ size. size.number };

    ghost invariant = { λ size. (1 ≤ size.number) × (size.number ≤ MAX_BODY) };

    ghost inverse = { λ n. record { number = n } };
}

impl BodyLength {
    /// The length of so many bytes; `None` outside 1 to 262,144.
    pub fn new(number: u32) -> Option<Self>
        ensures valid { IsSome result ↔ ((1 ≤ number) × (number ≤ MAX_BODY)) }
        ensures value { IfSome result (λ size. size ≡ number) }
    {
        if number >= 1 && number <= MAX_BODY {
            Some(BodyLength { number })
        } else {
            None
        }
    }

    /// The length in bytes, 1 to 262,144.
    pub fn get(self) -> u32
        ensures value { result ≡ self }
        ensures range { (1 ≤ self) × (self ≤ MAX_BODY) }
    {
        self.number
    }
}

/// The body of an object: 1 to 262,144 bytes.
#[derive(Drop)]
pub struct Body {
    bytes: Vec<u8>,
}

impl Model for Body {
    ghost Value = { List ℕ };

    ghost view = { λ body. body.bytes.items };

    ghost invariant = { λ body. (1 ≤ length body.bytes.items)
        × (length body.bytes.items ≤ MAX_BODY) };
}

impl Body {
    /// The body of these bytes; `EmptyBody` for none, `BodyTooLong` for more than 262,144.
    pub fn new(bytes: Vec<u8>) -> Result<Self, Refusal>
        ensures valid { IsOk result ↔ ((1 ≤ length bytes.items) × (length bytes.items ≤ MAX_BODY)) }
        ensures value { IfOk result (λ body. body ≡ bytes.items) }
        ensures empty { IsErrOf result EmptyBody ↔ (bytes.items ≡ []) }
        ensures too_long { IsErrOf result BodyTooLong ↔ (MAX_BODY < length bytes.items) }
    {
        if bytes.is_empty() {
            return Err(Refusal::EmptyBody);
        }
        if bytes.len() > MAX_BODY as usize {
            return Err(Refusal::BodyTooLong);
        }
        Ok(Body { bytes })
    }

    /// The body's bytes.
    pub fn as_bytes(&self) -> &[u8]
        ensures value { result.now ≡ self.now }
        ensures range { (1 ≤ length self.now) × (length self.now ≤ MAX_BODY) }
    {
        &self.bytes
    }

    /// How many bytes it has.
    pub fn length(&self) -> BodyLength
        ensures { result ≡ length self.now }
    {
        BodyLength {
            number: self.bytes.len() as u32,
        }
    }
}

impl Clone for Body {
    ghost is_clone = { λ old new. new ≡ old };

    fn clone(&self) -> Result<Self, AllocError> {
        let bytes = Vec::from_slice(*self.bytes.allocator(), self.as_bytes())?;
        Ok(Body { bytes })
    }
}
