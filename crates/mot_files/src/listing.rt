//! What the names of a folder stand for.
ghost use Rattle.std.specs.Prelude.{◌≡◌, ◌∷◌, ◌++◌, [], IfOk, Result, string_bytes};
ghost use Rattle.mot_files.specs.Call.{looked};
ghost use Rattle.mot_files.specs.Listing.{file_of, path_in};
ghost use Rattle.mot_files.specs.declared.system.Fault.{Fault};
ghost use Rattle.mot_files.specs.declared.system.FileStat.{FileStat};

use crate::system::{Fault, Kind, Stamp, System};
use std::alloc::{AllocError, Global};

/// The stamp of the regular file that the path names. A link is none, and nothing is none.
pub fn file_stamp<S: System>(system: &mut S, path: &str) -> Result<Option<Stamp>, Fault>
    ensures { (answer : Result FileStat Fault) × (S.calls system.new
        ≡ S.calls system.old ++ looked path.now answer ∷ []) × (result ≡ file_of answer) }
{
    match system.look(path) {
        Ok(named) if matches!(named.kind, Kind::File) => Ok(Some(Stamp::of(&named))),
        Ok(_) | Err(Fault::Absent(_)) => Ok(None),
        Err(fault) => Err(fault),
    }
}

/// The path of a file of this name in a folder.
pub fn path_in(alloc: Global, folder: &str, name: &str) -> Result<String, AllocError>
    ensures { IfOk result (λ path. string_bytes path ≡ path_in folder.now name.now) }
{
    let mut path = String::from_str(alloc, folder)?;
    path.push_str("/")?;
    path.push_str(name)?;
    Ok(path)
}
