//! What the answers of the system's calls mean.
ghost use Rattle.std.specs.Prelude.{◌≡◌, ◌≤◌, IfOk, IsErr, MatchResult, Ok, length};

use crate::system::{Fault, FileStat, Kind, Time};
use std::fs::{Metadata, TryLockError};
use std::io::{self, ErrorKind};
use std::os::unix::fs::{FileTypeExt, MetadataExt};
use std::path::PathBuf;
use std::time::{SystemTime, UNIX_EPOCH};

/// The second with which 1970 begins.
const EPOCH: u128 = 1 << 63;

/// What the system said of a call.
#[inline(always)]
pub(crate) fn told<A>(answer: io::Result<A>) -> Result<A, Fault>
    ensures { MatchResult answer (λ value. result ≡ Ok value) (λ _. IsErr result) }
{
    match answer {
        Ok(value) => Ok(value),
        Err(error) => Err(fault(error)),
    }
}

/// Why a call was refused.
fn fault(error: io::Error) -> Fault {
    match error.kind() {
        ErrorKind::NotFound => Fault::Absent(error),
        _ => Fault::System(error),
    }
}

/// Why a write was refused: its error, made anew of the system's number, or of its kind if it has
/// none. So a write that is taken has no room of an error to move.
#[inline(never)]
pub(crate) fn unwritten(code: Option<i32>, kind: ErrorKind) -> Fault {
    fault(match code {
        Some(code) => io::Error::from_raw_os_error(code),
        None => io::Error::from(kind),
    })
}

/// The error of a call on a handle that stands for nothing.
pub(crate) fn closed() -> io::Error {
    io::Error::from(ErrorKind::InvalidInput)
}

/// What the system said of a lock. That another has it is no error of the system.
pub(crate) fn locked(answer: Result<(), TryLockError>) -> Result<(), Fault> {
    match answer {
        Ok(()) => Ok(()),
        Err(TryLockError::WouldBlock) => Err(Fault::Busy),
        Err(TryLockError::Error(error)) => Err(fault(error)),
    }
}

/// What the system said of a file.
pub(crate) fn seen(answer: io::Result<Metadata>) -> Result<FileStat, Fault> {
    let found = told(answer)?;
    Ok(FileStat {
        kind: kind(&found),
        device: found.dev(),
        number: found.ino(),
        len: found.len(),
        written: time(found.mtime(), found.mtime_nsec()),
        changed: time(found.ctime(), found.ctime_nsec()),
        block: block(&found),
    })
}

/// What it is.
fn kind(found: &Metadata) -> Kind {
    match found.file_type() {
        it if it.is_file() => Kind::File,
        it if it.is_dir() => Kind::Folder,
        it if it.is_symlink() => Kind::Link,
        it if it.is_fifo() => Kind::Pipe,
        _ => Kind::Special,
    }
}

/// The number of the block device that it stands for.
fn block(found: &Metadata) -> Option<u64> {
    let is_block = found.file_type().is_block_device();
    is_block.then_some(found.rdev())
}

/// The time of day, if it is known.
pub(crate) fn time_of_day(answer: io::Result<SystemTime>) -> Option<Time> {
    let since = answer.ok()?.duration_since(UNIX_EPOCH).ok()?;
    Some(Time {
        nanos: EPOCH * 1_000_000_000 + since.as_nanos(),
    })
}

/// The moment so many seconds and nanoseconds after the beginning of 1970.
fn time(seconds: i64, nanos: i64) -> Time {
    let seconds = (EPOCH as i128 + seconds as i128) as u128;
    Time {
        nanos: seconds * 1_000_000_000 + nanos.unsigned_abs() as u128,
    }
}

/// Copies all of the path of a path without links into the room, if it fits.
pub(crate) fn real_path(answer: io::Result<PathBuf>, room: &mut [u8]) -> io::Result<usize>
    ensures { IfOk result (λ count. count ≤ length room.new) }
{
    let whole = answer?;
    let bytes = whole.as_path().as_str().as_bytes();
    let count = bytes.len();
    if count > room.len() {
        return Err(io::Error::from(ErrorKind::InvalidFilename));
    }
    room[..count].copy_from_slice(bytes);
    Ok(count)
}
