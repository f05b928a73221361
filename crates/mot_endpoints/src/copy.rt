//! A disk that is looked at while another program has it, or where it can only be read.
ghost use Rattle.std.specs.Prelude.{◌≡◌, IfSome, true};
ghost use Rattle.disk_store.specs.File.{ram_state};
ghost use Rattle.mot_endpoints.specs.Opened.{IsReadAlike, TriesRead, TriesReads};
ghost use Rattle.mot_endpoints.specs.declared.copy.TheConstants.{MOST_COPIED};
ghost use Rattle.mot_files.specs.Reading.{IsRead};

use disk_store::{Disk, OpenFault, RamDisk};
use mot_files::{System, read_file};
use std::alloc::Global;
use std::io::ErrorKind;

/// The most bytes of a file that is copied into memory.
pub const MOST_COPIED: u64 = 67_108_864;

/// A copy in memory of the disk of the regular file at the path, which was not opened for this
/// reason: another program has it, or it can't be written. Its bytes are those that two reads gave,
/// so none was written between them. Only a command that `looks` gets one, since its changes would
/// be lost.
pub fn copy_unopened<S: System>(
    system: &mut S,
    alloc: Global,
    path: &str,
    fault: OpenFault,
    looks: bool,
) -> Option<RamDisk>
    ensures looks { IfSome result (λ copy. looks ≡ true) }
    ensures alike { IfSome result (λ copy. IsReadAlike path.now (ram_state copy).bytes
        (S.calls system.old) (S.calls system.new)) }
    ensures tried { TriesReads looks path.now (S.calls system.old) (S.calls system.new) }
{
    if looks && may_be_read(fault) {
        copy_file(system, alloc, path)
    } else {
        None
    }
}

/// Whether a disk that was not opened for this reason may be read all the same.
fn may_be_read(fault: OpenFault) -> bool {
    match fault {
        OpenFault::InUse => true,
        OpenFault::System(error) | OpenFault::Beside(error) => match error.kind() {
            ErrorKind::PermissionDenied | ErrorKind::ReadOnlyFilesystem => true,
            _ => false,
        },
        _ => false,
    }
}

/// Reads the file twice.
fn copy_file<S: System>(system: &mut S, alloc: Global, path: &str) -> Option<RamDisk>
    ensures alike { IfSome result (λ copy. IsReadAlike path.now (ram_state copy).bytes
        (S.calls system.old) (S.calls system.new)) }
    ensures tried { TriesReads true path.now (S.calls system.old) (S.calls system.new) }
{
    let bytes = read_once(system, alloc, path)?;
    let again = read_once(system, alloc, path)?;
    if bytes.as_slice() == again.as_slice() {
        disk_of(alloc, &bytes)
    } else {
        None
    }
}

/// The bytes of the file, if it can be read and is not too long.
fn read_once<S: System>(system: &mut S, alloc: Global, path: &str) -> Option<Vec<u8>>
    ensures given { IfSome result (λ bytes. IsRead path.now MOST_COPIED true bytes.items
        (S.calls system.old) (S.calls system.new)) }
    ensures tried { TriesRead path.now (S.calls system.old) (S.calls system.new) }
{
    match read_file(system, alloc, path, MOST_COPIED, true) {
        Ok(bytes) => Some(bytes),
        Err(_) => None,
    }
}

/// A disk in memory of these bytes, if there is memory for it.
fn disk_of(alloc: Global, bytes: &[u8]) -> Option<RamDisk>
    ensures { IfSome result (λ copy. (ram_state copy).bytes ≡ bytes.now) }
{
    let mut copy = RamDisk::new(alloc, bytes.len() as u64)?;
    // Calls of a disk in memory do not fail.
    let _ = copy.write(0, bytes);
    let _ = copy.sync();
    Some(copy)
}
