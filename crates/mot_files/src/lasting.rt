//! Making what a folder has last, so that a power cut takes nothing of it back.
ghost use Rattle.mot_files.specs.Lasting.{IsUnlessUnable, MakesLast, SyncsPath};

use crate::reading::{ReadFailure, is_regular};
use crate::system::{Fault, How, System};
use std::io::ErrorKind;

/// Makes the regular file at the path last, and then the names of its folder. So after a power cut
/// the folder has under this name what it has now, or what came to it later.
pub fn make_last<S: System>(system: &mut S, path: &str, folder: &str) -> Result<(), ReadFailure>
    ensures { MakesLast path.now folder.now result (S.calls system.old) (S.calls system.new) }
{
    let named = system.look(path)?;
    // What is none is not opened: a pipe would wait for its writer.
    if !is_regular(&named) {
        return Err(ReadFailure::Changed);
    }
    sync_path(system, path)?;
    sync_path(system, folder)?;
    Ok(())
}

/// Makes last what stands at the path: the bytes of a file, or the names of a folder. A file system
/// that can make nothing last is let pass: it can be read alone, or loses all of it anyway.
pub fn sync_path<S: System>(system: &mut S, path: &str) -> Result<(), Fault>
    ensures { SyncsPath path.now result (S.calls system.old) (S.calls system.new) }
{
    let handle = system.open(path, How::Read)?;
    let answer = system.sync(handle);
    system.close(handle);
    unless_unable(answer)
}

/// What the system said of a sync, but for that nothing there can be made to last.
fn unless_unable(answer: Result<(), Fault>) -> Result<(), Fault>
    ensures { IsUnlessUnable answer result }
{
    match answer {
        Err(Fault::System(error)) if error.kind() == ErrorKind::InvalidInput => Ok(()),
        _ => answer,
    }
}
