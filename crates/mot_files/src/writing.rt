//! Writing all bytes of a text.
ghost use Rattle.mot_files.specs.Writing.{Writes};

use crate::system::{Fault, Handle, System};
use std::io::{self, ErrorKind};

/// Writes all these bytes, in as many writes as it takes.
pub fn write_all<S: System>(system: &mut S, handle: Handle, bytes: &[u8]) -> Result<(), Fault>
    ensures { Writes handle result (S.calls system.new) bytes.now (S.calls system.old) }
{
    let mut rest = bytes;
    while !rest.is_empty() {
        match system.write(handle, rest)? {
            0 => return Err(Fault::System(io::Error::from(ErrorKind::WriteZero))),
            count => rest = &rest[count..],
        }
    }
    Ok(())
}
