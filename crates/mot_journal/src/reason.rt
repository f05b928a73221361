//! Why a disk is not opened, or not formatted: what its bytes say.
use crate::Layout;
use mot_numbers::{Geometry, Refusal};
use std::alloc::AllocError;
use thiserror::Error;

/// Why a disk is not opened, or not formatted.
#[derive(Clone, Copy, Debug, Error)]
pub enum Reason {
    /// Its first bytes are not those of a disk: `NotFormatted`.
    #[error("{0}")]
    Head(HeadFault),
    /// A field of this slot breaks the format: `Damaged`.
    #[error("slot {slot}: {fault}")]
    Field { slot: u16, fault: FieldFault },
    /// The record of this slot makes a fault of the list: `Damaged`.
    #[error("slot {slot}: {fault}")]
    List { slot: u16, fault: ListFault },
    /// It is to be formatted, and has the magic: `AlreadyFormatted`.
    #[error("it is a motcar disk already")]
    Formatted,
    /// It is to be formatted, and has fewer bytes than the geometry asks for: `DiskTooSmall`.
    #[error("{len} bytes, and the geometry asks for {asked}")]
    Small { len: u64, asked: u64 },
}

/// Why the first bytes of a disk give no geometry.
#[derive(Clone, Copy, Debug, Error)]
pub enum HeadFault {
    /// It has fewer bytes than a head.
    #[error("no motcar disk: {len} bytes, and the head alone has 64")]
    Short { len: u64 },
    /// It does not begin with the magic.
    #[error("no motcar disk: it does not begin with MOTCAR01")]
    Foreign,
    /// This number is out of its range.
    #[error("its head has {} {number}", .size.option())]
    OutOfRange { size: Size, number: u32 },
    /// It has fewer bytes than its geometry asks for.
    #[error("cut short: {len} of {asked} bytes")]
    Cut { len: u64, asked: u64 },
}

/// A number of the geometry.
#[derive(Clone, Copy, Debug)]
pub enum Size {
    Objects,
    Segment,
    Address,
    Packet,
    Data,
}

impl Size {
    /// The option that gives it.
    pub fn option(self) -> &'static str {
        match self {
            Size::Objects => "objects",
            Size::Segment => "segment",
            Size::Address => "address",
            Size::Packet => "packet",
            Size::Data => "data",
        }
    }
}

/// What is wrong with a slot's fields.
#[derive(Clone, Copy, Debug, Error)]
pub enum FieldFault {
    /// The directory has no transport id.
    #[error("the directory has transport id 0")]
    Directory,
    /// No transport id was taken last.
    #[error("the transport id that was taken last is 0")]
    Last,
    /// The layout has no such kind of record.
    #[error("kind {kind}: {}", .layout.kinds())]
    Kind { layout: Layout, kind: u8 },
    /// The object has no transport id.
    #[error("the object has transport id 0")]
    Object,
    /// A type or subtype out of its range.
    #[error("content type {content_type}, subtype {subtype}: at most 63 and 511")]
    Content { content_type: u8, subtype: u16 },
    /// A body of no bytes, or of too many.
    #[error("a body of {length} bytes: 1 to 262144")]
    Length { length: u32 },
    /// The body ends after the data area.
    #[error("its body ends at {end}, the data area at {area}")]
    Extent { end: u64, area: u32 },
    /// The name of so many bytes breaks its rule.
    #[error("its name of {length} bytes breaks the rule of names")]
    Name { length: u8 },
    /// The MIME type of so many bytes breaks its rule.
    #[error("its MIME type of {length} bytes breaks the rule of MIME types")]
    Mime { length: u8 },
}

/// What is wrong with a record, after those before it.
#[derive(Clone, Copy, Debug, Error)]
pub enum ListFault {
    /// It removes an object that is not there.
    #[error("it removes transport id {id}, which no object has")]
    Missing { id: u16 },
    /// It sets one object more than the disk is for.
    #[error("it sets one object more than {limit}")]
    TooMany { limit: u16 },
    /// Its object has the transport id of another one.
    #[error("transport id {id} is that of another object, too")]
    SameId { id: u16 },
    /// The directory has the transport id of an object.
    #[error("the directory's transport id {id} is that of an object")]
    DirectoryId { id: u16 },
    /// The body of its object, of this transport id, meets that of another one.
    #[error("the body of transport id {id} meets that of another object")]
    Meets { id: u16 },
}

/// A refusal of a disk, and why, if the bytes of the disk are the reason.
#[derive(Clone, Copy)]
pub struct Fault {
    /// `OutOfMemory`, `DeviceFault`, `NotFormatted` or `Damaged`.
    pub refusal: Refusal,
    /// The reason of the last two.
    pub reason: Option<Reason>,
}

impl Fault {
    ghost use Rattle.std.specs.Prelude.{◌≡◌, Some, None};
    ghost use Rattle.mot_journal.specs.Reason.{refusal_of};

    /// That of a disk whose bytes are the reason.
    pub fn of(reason: Reason) -> Fault
        ensures { result ≡ record { refusal = refusal_of reason; reason = Some reason } }
    {
        Fault {
            refusal: reason.refusal(),
            reason: Some(reason),
        }
    }

    /// That of memory that was refused, or of a disk that failed: its bytes are not the reason.
    pub fn plain(refusal: Refusal) -> Fault
        ensures { result ≡ record { refusal = refusal; reason = None } }
    {
        Fault {
            refusal,
            reason: None,
        }
    }
}

impl From<AllocError> for Fault {
    ghost use Rattle.std.specs.Prelude.{◌≡◌, None};
    ghost use Rattle.mot_numbers.specs.declared.refusal.Refusal.TheVariants.{OutOfMemory};
    ghost use Rattle.mot_journal.specs.declared.reason.Fault.{Fault};

    ghost from_gives = { λ _ (fault : Fault).
        fault ≡ record { refusal = OutOfMemory; reason = None } };

    fn from(_: AllocError) -> Self {
        Fault::plain(Refusal::OutOfMemory)
    }
}

impl Reason {
    ghost use Rattle.std.specs.Prelude.{◌≡◌, ◌<◌, IfSome, IsSome};
    ghost use Rattle.mot_numbers.specs.Geometry.{length_of};
    ghost use Rattle.mot_numbers.specs.declared.refusal.Refusal.TheVariants.{AlreadyFormatted};
    ghost use Rattle.mot_numbers.specs.declared.refusal.Refusal.TheVariants.{DiskTooSmall};
    ghost use Rattle.mot_journal.specs.Reason.{refusal_of, IsFormattingReason};

    /// The refusal that it is the reason of.
    pub fn refusal(self) -> Refusal
        ensures { result ≡ refusal_of self }
    {
        match self {
            Reason::Head(_) => Refusal::NotFormatted,
            Reason::Field { slot, .. } | Reason::List { slot, .. } => Refusal::Damaged(slot),
            Reason::Formatted => Refusal::AlreadyFormatted,
            Reason::Small { .. } => Refusal::DiskTooSmall,
        }
    }

    /// Why formatting a disk of so many bytes with this geometry was refused.
    pub fn of_formatting(refusal: Refusal, len: u64, geometry: &Geometry) -> Option<Reason>
        ensures so { IfSome result (λ reason. (refusal ≡ refusal_of reason)
            × IsFormattingReason len geometry.now reason) }

        // It is found.
        ensures formatted { refusal ≡ AlreadyFormatted → IsSome result }
        ensures small { refusal ≡ DiskTooSmall → len < length_of geometry.now → IsSome result }
    {
        let asked = geometry.length();
        match refusal {
            Refusal::AlreadyFormatted => Some(Reason::Formatted),
            Refusal::DiskTooSmall if len < asked => Some(Reason::Small { len, asked }),
            _ => None,
        }
    }
}
