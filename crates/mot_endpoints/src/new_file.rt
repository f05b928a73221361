//! A file that is written beside the one whose place it takes once it is whole.
ghost use Rattle.std.specs.Prelude.{◌≡◌};
ghost use Rattle.mot_endpoints.specs.Placing.{Begins, Clears, Finds, RemovesUnused, TakesAway};
ghost use Rattle.mot_endpoints.specs.Placing.{unless_absent};

use crate::beside::leads_to;
use crate::fault::PacketsFault;
use mot_files::{Fault, Handle, How, System, hold, is_regular, is_same};

/// The paths of a new file.
#[derive(Drop)]
pub struct NewPlace<'a> {
    /// The path whose place it takes.
    pub path: &'a str,
    /// The path that it has until then.
    pub beside: String,
}

/// Makes the file, in the place of one that a killed run left. No other program of ours writes it.
pub(crate) fn begin<S: System>(
    system: &mut S,
    beside: &str,
    disk: &str,
) -> Result<Handle, PacketsFault>
    ensures { Begins beside.now disk.now result (S.calls system.old) (S.calls system.new) }
{
    clear(system, beside, disk)?;
    let handle = system.open(beside, How::New)?;
    match hold(system, handle, beside) {
        Ok(()) => Ok(handle),
        Err(fault) => {
            take_away(system, handle, beside);
            system.close(handle);
            Err(PacketsFault::from(fault))
        }
    }
}

/// Takes the file away again, if its path still names it.
pub(crate) fn take_away<S: System>(system: &mut S, handle: Handle, beside: &str)
    ensures { TakesAway handle beside.now (S.calls system.old) (S.calls system.new) }
{
    let named = match system.look(beside) {
        Ok(named) => named,
        Err(_) => return,
    };
    let held = match system.look_at(handle) {
        Ok(held) => held,
        Err(_) => return,
    };
    if is_same(&held, &named) {
        let _ = system.remove(beside);
    }
}

/// Takes away what a run left at the path that was killed. A link and what is no regular file stay,
/// and so do the disk and what another program writes.
pub(crate) fn clear<S: System>(system: &mut S, beside: &str, disk: &str) -> Result<(), PacketsFault>
    ensures { Clears beside.now disk.now result (S.calls system.old) (S.calls system.new) }
{
    match find(system, beside, disk) {
        Ok(true) => remove_unused(system, beside),
        Ok(false) => Ok(()),
        Err(fault) => Err(fault),
    }
}

/// Whether a regular file stands at the path. A link and what is no regular file are refused, and
/// so is the disk.
pub(crate) fn find<S: System>(system: &mut S, path: &str, disk: &str) -> Result<bool, PacketsFault>
    ensures { Finds path.now disk.now result (S.calls system.old) (S.calls system.new) }
{
    let named = match system.look(path) {
        Ok(named) => named,
        Err(fault) => return unless_absent(fault, false),
    };
    if !is_regular(&named) {
        return Err(PacketsFault::NoFile);
    }
    if leads_to(system, disk, &named) {
        return Err(PacketsFault::IsDisk);
    }
    Ok(true)
}

/// The answer if nothing is there, and any other fault is handed on.
pub(crate) fn unless_absent<T: Copy>(fault: Fault, answer: T) -> Result<T, PacketsFault>
    ensures { result ≡ unless_absent answer fault }
{
    match fault {
        Fault::Absent(_) => Ok(answer),
        _ => Err(PacketsFault::from(fault)),
    }
}

/// Removes the file of the path, if no other program of ours writes it.
fn remove_unused<S: System>(system: &mut S, path: &str) -> Result<(), PacketsFault>
    ensures { RemovesUnused path.now result (S.calls system.old) (S.calls system.new) }
{
    let handle = system.open(path, How::Read)?;
    if let Err(fault) = system.lock(handle) {
        system.close(handle);
        return Err(PacketsFault::from(fault));
    }
    let answer = system.remove(path);
    system.close(handle);
    Ok(answer?)
}
