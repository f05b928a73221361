//! Reading the first bytes of what a path names.
#![tactic(auto, using(crate::proofs::Looks::looks_on, crate::proofs::Looks::looks_one, crate::proofs::Looks::looks_none))]

ghost use Rattle.std.specs.Prelude.{◌≡◌, true, IfErr, IfOk};
ghost use Rattle.mot_devices.specs.Inner.{IsFirst, IsMore, IsFailed, IsRefusedRead, IsUnreadFor};
ghost use Rattle.mot_devices.specs.declared.reading.NotRead.TheVariants.{NoMemory};
ghost use Rattle.std.specs.IoError.{error_kind};
ghost use Rattle.std.specs.declared.io.ErrorKind.TheVariants.{OutOfMemory};
ghost use Rattle.mot_devices.specs.Looking.{OnlyLooks, WasRead};
ghost use Rattle.mot_files.specs.Looking.{reads_only};

use mot_files::{Fault, Handle, How, System};
use std::alloc::{AllocError, Global};
use std::io::{self, ErrorKind};

/// How many bytes are read at once.
const PIECE: usize = 4_096;

/// The first bytes of something.
#[derive(Drop)]
pub(crate) struct First {
    /// The bytes.
    pub(crate) bytes: Vec<u8>,
    /// Whether there are no others.
    pub(crate) is_whole: bool,
}

/// Why the first bytes of something were not read.
#[derive(Clone, Copy)]
pub(crate) enum NotRead {
    /// The system refused a call.
    Refused(Fault),
    /// There was no memory for them.
    NoMemory,
}

impl NotRead {
    /// The same as the system tells it.
    pub(crate) fn error(self) -> io::Error
        ensures { self ≡ NoMemory → error_kind result ≡ OutOfMemory }
    {
        match self {
            NotRead::Refused(fault) => fault.error(),
            NotRead::NoMemory => io::Error::from(ErrorKind::OutOfMemory),
        }
    }
}

/// The first bytes of what the path names: all of them, or at least so many.
pub(crate) fn read_first<S: System>(
    system: &mut S,
    alloc: Global,
    path: &str,
    how: How,
    most: usize,
) -> Result<First, NotRead>
    requires { reads_only how ≡ true }
    ensures looks { OnlyLooks (S.calls system.old) (S.calls system.new) }
    ensures read { IfOk result (λ first. WasRead path.now how most first.is_whole first.bytes.items
        (S.calls system.old) (S.calls system.new)) }
    ensures unread { IfErr result (λ why. IsUnreadFor path.now how why (S.calls system.old)
        (S.calls system.new)) }
{
    let handle = match system.open(path, how) {
        Ok(handle) => handle,
        Err(fault) => return Err(NotRead::Refused(fault)),
    };
    let first = read_open(system, alloc, handle, most);
    system.close(handle);
    first
}

/// The first bytes of what is open.
fn read_open<S: System>(
    system: &mut S,
    alloc: Global,
    handle: Handle,
    most: usize,
) -> Result<First, NotRead>
    ensures looks { OnlyLooks (S.calls system.old) (S.calls system.new) }
    ensures read { IfOk result (λ first. IsFirst handle most first.is_whole first.bytes.items
        (S.calls system.old) (S.calls system.new)) }
    ensures failed { IfErr result (λ why. IsFailed handle why (S.calls system.old)
        (S.calls system.new)) }
{
    let mut bytes = Vec::new(alloc);
    while bytes.len() < most {
        let count = read_more(system, handle, &mut bytes)?;
        if count == 0 {
            return Ok(First {
                bytes,
                is_whole: true,
            });
        }
    }
    Ok(First {
        bytes,
        is_whole: false,
    })
}

/// Adds the next bytes, and answers how many they are.
fn read_more<S: System>(
    system: &mut S,
    handle: Handle,
    bytes: &mut Vec<u8>,
) -> Result<usize, NotRead>
    ensures looks { OnlyLooks (S.calls system.old) (S.calls system.new) }
    ensures more { IfOk result (λ count. IsMore handle count bytes.old.items bytes.new.items
        (S.calls system.old) (S.calls system.new)) }
    ensures failed { IfErr result (λ why. IsRefusedRead handle why (S.calls system.old)
        (S.calls system.new)) }
{
    let mut piece = [0; PIECE];
    let count = match system.read(handle, &mut piece) {
        Ok(count) => count,
        Err(fault) => return Err(NotRead::Refused(fault)),
    };
    match bytes.extend_from_slice(&piece[..count]) {
        Ok(()) => Ok(count),
        Err(AllocError) => Err(NotRead::NoMemory),
    }
}
