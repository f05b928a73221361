//! Why something is refused.
ghost use Rattle.std.specs.Prelude.{◌≡◌};

use std::alloc::{AllocError, AllocFailed};
use thiserror::Error;

/// Why a request was not accepted. Number 13 is not used. It prints as its number and its name and,
/// if a slot is damaged, that slot's number.
#[derive(Clone, Copy, Debug, PartialEq, Eq, Error)]
pub enum Refusal {
    /// The line has an unknown first word, a wrong count of words, or more than 530,000 bytes.
    #[error("1 BadLine")]
    BadLine,
    /// The name breaks its rule: 1 to 255 bytes of UTF-8 with no byte up to 0x20 and no 0x7F.
    #[error("2 BadName")]
    BadName,
    /// A type or subtype is no number in its range.
    #[error("3 BadType")]
    BadType,
    /// The MIME text breaks its rule: 1 to 64 bytes 0x21 to 0x7E, and not `-` alone.
    #[error("4 BadMime")]
    BadMime,
    /// A body has an odd number of digits, or a byte that is no hexadecimal digit.
    #[error("5 BadBody")]
    BadBody,
    /// A body has no bytes.
    #[error("6 EmptyBody")]
    EmptyBody,
    /// A body is above its limit.
    #[error("7 BodyTooLong")]
    BodyTooLong,
    /// Any other number is not one, or is out of its range.
    #[error("8 BadNumber")]
    BadNumber,
    /// A put of a name that is there.
    #[error("9 NameTaken")]
    NameTaken,
    /// A replace or withdraw of a name that is not there.
    #[error("10 NoSuchName")]
    NoSuchName,
    /// A put when the greatest number of objects is there.
    #[error("11 TooManyObjects")]
    TooManyObjects,
    /// No gap of the data area holds the body.
    #[error("12 NoRoom")]
    NoRoom,
    /// A growth of memory was refused.
    #[error("14 OutOfMemory")]
    OutOfMemory,
    /// The disk failed in this call.
    #[error("15 DeviceFault")]
    DeviceFault,
    /// An earlier command ended in a disk fault, and the disk was not opened again.
    #[error("16 Halted")]
    Halted,
    /// The disk has no magic, a geometry out of range, or less length than its geometry asks.
    #[error("17 NotFormatted")]
    NotFormatted,
    /// The disk that was to be formatted has the magic.
    #[error("18 AlreadyFormatted")]
    AlreadyFormatted,
    /// The disk that was to be formatted is shorter than the geometry asks.
    #[error("19 DiskTooSmall")]
    DiskTooSmall,
    /// The open slot of this number breaks the disk's format.
    #[error("20 Damaged {0}")]
    Damaged(u16),
    /// A number of the geometry is out of its range.
    #[error("21 BadGeometry")]
    BadGeometry,
    /// The reader failed, or its bound of reads was reached.
    #[error("22 ReadFault")]
    ReadFault,
    /// The writer failed.
    #[error("23 WriteFault")]
    WriteFault,
}

impl Refusal {
    ghost use Rattle.mot_numbers.specs.Refusal.{number_of, name_of};

    /// Its number, 1 to 23, as replies show it.
    pub fn number(self) -> u8
        ensures { result ≡ number_of self }
    {
        match self {
            Refusal::BadLine => 1,
            Refusal::BadName => 2,
            Refusal::BadType => 3,
            Refusal::BadMime => 4,
            Refusal::BadBody => 5,
            Refusal::EmptyBody => 6,
            Refusal::BodyTooLong => 7,
            Refusal::BadNumber => 8,
            Refusal::NameTaken => 9,
            Refusal::NoSuchName => 10,
            Refusal::TooManyObjects => 11,
            Refusal::NoRoom => 12,
            Refusal::OutOfMemory => 14,
            Refusal::DeviceFault => 15,
            Refusal::Halted => 16,
            Refusal::NotFormatted => 17,
            Refusal::AlreadyFormatted => 18,
            Refusal::DiskTooSmall => 19,
            Refusal::Damaged(_) => 20,
            Refusal::BadGeometry => 21,
            Refusal::ReadFault => 22,
            Refusal::WriteFault => 23,
        }
    }

    /// Its name, as replies show it.
    pub fn name(self) -> &'static str
        ensures { result.now ≡ name_of self }
    {
        match self {
            Refusal::BadLine => "BadLine",
            Refusal::BadName => "BadName",
            Refusal::BadType => "BadType",
            Refusal::BadMime => "BadMime",
            Refusal::BadBody => "BadBody",
            Refusal::EmptyBody => "EmptyBody",
            Refusal::BodyTooLong => "BodyTooLong",
            Refusal::BadNumber => "BadNumber",
            Refusal::NameTaken => "NameTaken",
            Refusal::NoSuchName => "NoSuchName",
            Refusal::TooManyObjects => "TooManyObjects",
            Refusal::NoRoom => "NoRoom",
            Refusal::OutOfMemory => "OutOfMemory",
            Refusal::DeviceFault => "DeviceFault",
            Refusal::Halted => "Halted",
            Refusal::NotFormatted => "NotFormatted",
            Refusal::AlreadyFormatted => "AlreadyFormatted",
            Refusal::DiskTooSmall => "DiskTooSmall",
            Refusal::Damaged(_) => "Damaged",
            Refusal::BadGeometry => "BadGeometry",
            Refusal::ReadFault => "ReadFault",
            Refusal::WriteFault => "WriteFault",
        }
    }
}

impl From<AllocError> for Refusal {
    ghost use Rattle.mot_numbers.specs.declared.refusal.Refusal.TheVariants.{OutOfMemory};

    ghost from_gives = { λ _ refusal. refusal ≡ OutOfMemory };

    fn from(_: AllocError) -> Self {
        Refusal::OutOfMemory
    }
}

impl<T: Drop> From<AllocFailed<T>> for Refusal {
    ghost use Rattle.mot_numbers.specs.declared.refusal.Refusal.TheVariants.{OutOfMemory};

    ghost from_gives = { λ _ refusal. refusal ≡ OutOfMemory };

    fn from(_: AllocFailed<T>) -> Self {
        Refusal::OutOfMemory
    }
}
