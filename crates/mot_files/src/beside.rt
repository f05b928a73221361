//! A file that is written beside the one whose place it takes once it is whole.
ghost use Rattle.mot_files.specs.Placing.{Holds, Places, Replaces};

use crate::reading::is_same;
use crate::system::{Fault, Handle, How, System};
use crate::writing::write_all;

/// Takes the lock of the file, and looks that its path still names it: else another program went on
/// between.
pub fn hold<S: System>(system: &mut S, handle: Handle, beside: &str) -> Result<(), Fault>
    ensures { Holds handle beside.now result (S.calls system.old) (S.calls system.new) }
{
    system.lock(handle)?;
    let named = system.look(beside)?;
    let held = system.look_at(handle)?;
    if is_same(&held, &named) {
        Ok(())
    } else {
        Err(Fault::Busy)
    }
}

/// Makes the file last, and then its name: at each moment the name is that of the old file, or of
/// the new one, whole.
pub fn take_place<S: System>(
    system: &mut S,
    handle: Handle,
    beside: &str,
    path: &str,
    folder: &str,
) -> Result<(), Fault>
    ensures { Places handle beside.now path.now folder.now result (S.calls system.old)
        (S.calls system.new) }
{
    system.sync(handle)?;
    system.rename(beside, path)?;
    let inside = system.open(folder, How::Read)?;
    let answer = system.sync(inside);
    system.close(inside);
    answer
}

/// Writes the text beside the file, and gives it the file's name once it is whole: so each reader sees
/// the old text or the new one. Nothing is synced, so after a power cut the file may be empty or gone.
/// A file that could not be finished is taken away.
pub fn replace<S: System>(
    system: &mut S,
    beside: &str,
    path: &str,
    text: &[u8],
) -> Result<(), Fault>
    ensures { Replaces beside.now path.now text.now result (S.calls system.old)
        (S.calls system.new) }
{
    let handle = system.open(beside, How::New)?;
    let written = write_all(system, handle, text);
    system.close(handle);
    if let Err(fault) = written {
        let _ = system.remove(beside);
        return Err(fault);
    }
    if let Err(fault) = system.rename(beside, path) {
        let _ = system.remove(beside);
        return Err(fault);
    }
    Ok(())
}
