//! Numbers with ranges of their own.
ghost use Rattle.std.specs.Prelude.{◌≡◌, ℕ, ◌≤◌, ◌↔◌, IsSome, IfSome};
ghost use Rattle.mot_numbers.specs.declared.numbers.TheConstants.{MAX_ADDRESS, MAX_SEGMENT};
ghost use Rattle.mot_numbers.specs.declared.numbers.TheConstants.{MIN_SEGMENT};

use std::marker::Model;

/// The transport id of an object or of a directory, 1 to 65,535 (EN 301 234). Id 0 is never used.
#[derive(Clone, Copy, Debug, PartialEq, Eq)]
pub struct TransportId {
    number: u16,
}

impl Model for TransportId {
    ghost Value = { ℕ };

    ghost view = { λ id. id.number };

    ghost invariant = { λ id. 1 ≤ id.number };

    ghost inverse = { λ n. record { number = n } };
}

impl TransportId {
    /// The least id, which the directory of a new carousel has.
    pub const FIRST: TransportId = TransportId { number: 1 };

    /// The id of this number; `None` for 0.
    pub fn new(number: u16) -> Option<Self>
        ensures valid { IsSome result ↔ (1 ≤ number) }
        ensures value { IfSome result (λ id. id ≡ number) }
    {
        if number >= 1 {
            Some(TransportId { number })
        } else {
            None
        }
    }

    /// The id's number, 1 to 65,535.
    pub fn get(self) -> u16
        ensures value { result ≡ self }
        ensures range { (1 ≤ self) × (self ≤ 65535) }
    {
        self.number
    }
}

/// The greatest address.
pub const MAX_ADDRESS: u16 = 1_023;

/// The address of a packet-mode component within its sub-channel, 1 to 1,023 (EN 300 401, clause
/// 5.3.2). Address 0 is kept for padding packets.
#[derive(Clone, Copy, Debug, PartialEq, Eq)]
pub struct Address {
    number: u16,
}

impl Model for Address {
    ghost Value = { ℕ };

    ghost view = { λ address. address.number };

    ghost invariant = { λ address. (1 ≤ address.number) × (address.number ≤ MAX_ADDRESS) };

    ghost inverse = { λ n. record { number = n } };
}

impl Address {
    /// The address of this number; `None` outside 1 to 1,023.
    pub fn new(number: u16) -> Option<Self>
        ensures valid { IsSome result ↔ ((1 ≤ number) × (number ≤ MAX_ADDRESS)) }
        ensures value { IfSome result (λ address. address ≡ number) }
    {
        if number >= 1 && number <= MAX_ADDRESS {
            Some(Address { number })
        } else {
            None
        }
    }

    /// The address's number, 1 to 1,023.
    pub fn get(self) -> u16
        ensures value { result ≡ self }
        ensures range { (1 ≤ self) × (self ≤ MAX_ADDRESS) }
    {
        self.number
    }
}

/// The least size of segments (own profile).
pub const MIN_SEGMENT: u16 = 64;

/// The most bytes of a segment: a data group's data field has at most 8,191 (EN 300 401, clause
/// 5.3.3), and the segmentation header takes 2 of them (EN 301 234).
pub const MAX_SEGMENT: u16 = 8_189;

/// The size of an entity's segments in bytes, 64 to 8,189: each has it but the last, which may be
/// shorter.
#[derive(Clone, Copy, Debug, PartialEq, Eq)]
pub struct SegmentSize {
    number: u16,
}

impl Model for SegmentSize {
    ghost Value = { ℕ };

    ghost view = { λ size. size.number };

    ghost invariant = { λ size. (MIN_SEGMENT ≤ size.number) × (size.number ≤ MAX_SEGMENT) };

    ghost inverse = { λ n. record { number = n } };
}

impl SegmentSize {
    /// The size of so many bytes; `None` outside 64 to 8,189.
    pub fn new(number: u16) -> Option<Self>
        ensures valid { IsSome result ↔ ((MIN_SEGMENT ≤ number) × (number ≤ MAX_SEGMENT)) }
        ensures value { IfSome result (λ size. size ≡ number) }
    {
        if number >= MIN_SEGMENT && number <= MAX_SEGMENT {
            Some(SegmentSize { number })
        } else {
            None
        }
    }

    /// The size in bytes, 64 to 8,189.
    pub fn get(self) -> u16
        ensures value { result ≡ self }
        ensures range { (MIN_SEGMENT ≤ self) × (self ≤ MAX_SEGMENT) }
    {
        self.number
    }
}
