//! What the names of files beside others are, and whether a path leads to one file.
ghost use Rattle.std.specs.Prelude.{◌≡◌};
ghost use Rattle.std.specs.Path.{path_file_name};
ghost use Rattle.mot_endpoints.specs.Names.{IsOfDisk, folder_of, is_store_name};
ghost use Rattle.mot_endpoints.specs.Placing.{LeadsTo};
ghost use Rattle.mot_devices.specs.Beside.{is_store_end};

use mot_files::{FileStat, System};
use std::path::Path;

/// The end of the name of the file that is written.
pub const SUFFIX: &str = ".new";

/// The path of the folder in which a file of this path stands.
pub fn folder_of(path: &str) -> &str
    ensures { result.now ≡ folder_of path.now }
{
    match Path::new(path).parent() {
        Some(folder) if folder.as_str() != "" => folder.as_str(),
        _ => ".",
    }
}

/// Whether the path names a file that the disk's store may have beside the disk, there or not: with
/// such a file the disk would not be opened again.
pub(crate) fn is_of_disk<S: System>(system: &mut S, path: &str, disk: &str) -> bool
    ensures { IsOfDisk path.now disk.now result (S.calls system.old) (S.calls system.new) }
{
    if !is_store_name(path, disk) {
        return false;
    }
    match system.follow(folder_of(path)) {
        Ok(folder) => leads_to(system, folder_of(disk), &folder),
        Err(_) => false,
    }
}

/// Whether the name of the file is that of the disk, with one of the ends behind it.
fn is_store_name(path: &str, disk: &str) -> bool
    ensures { result ≡ is_store_name (path_file_name path.now) (path_file_name disk.now) }
{
    match (Path::new(path).file_name(), Path::new(disk).file_name()) {
        (Some(name), Some(disk)) => match name.as_bytes().strip_prefix(disk.as_bytes()) {
            Some(end) => is_store_end(end),
            None => false,
        },
        _ => false,
    }
}

/// Whether it is one of the ends.
fn is_store_end(end: &[u8]) -> bool
    ensures { result ≡ is_store_end end.now }
{
    end == b"-journal".as_slice() || end == b"-wal".as_slice() || end == b"-shm".as_slice()
}

/// Whether the path leads to the file that was seen.
pub fn leads_to<S: System>(system: &mut S, path: &str, seen: &FileStat) -> bool
    ensures { LeadsTo path.now seen.now result (S.calls system.old) (S.calls system.new) }
{
    match system.follow(path) {
        Ok(found) => found.device == seen.device && found.number == seen.number,
        Err(_) => false,
    }
}
