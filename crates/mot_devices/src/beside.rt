//! Whether a path is that of a file that the store of a disk may have beside the disk.
#![tactic(auto, using(crate::proofs::Looks::looks_one, crate::proofs::Looks::looks_none))]

ghost use Rattle.std.specs.Prelude.{◌≡◌, ◌↔◌, ℕ, List, MatchOption, false, true};
ghost use Rattle.mot_devices.specs.Beside.{HasStoreEnd, IsApart, IsFileOfDisk};
ghost use Rattle.mot_devices.specs.Looking.{OnlyLooks};
ghost use Rattle.mot_files.specs.declared.system.Kind.TheVariants.{Folder};

use mot_files::{Kind, System};

/// Whether the path is that of a disk with an end by which the store of that disk names files of its
/// own, and something stands at the disk's path that may be one. With such a file the disk would not
/// be opened again.
pub(crate) fn is_file_of_disk<S: System>(system: &mut S, path: &str) -> bool
    ensures looks { OnlyLooks (S.calls system.old) (S.calls system.new) }
    ensures is { result ≡ true → IsFileOfDisk path.now (S.calls system.old) (S.calls system.new) }
    ensures apart { result ≡ false → IsApart path.now (S.calls system.old) (S.calls system.new) }
{
    let Some(disk) = disk_of(path) else {
        return false;
    };
    match system.look(disk) {
        Ok(seen) => may_be_disk(seen.kind),
        Err(_) => false,
    }
}

/// The path without the end, if it has one.
fn disk_of(path: &str) -> Option<&str>
    ensures { MatchOption result ((disk : List ℕ) → ¬ (HasStoreEnd path.now disk))
        (λ disk. HasStoreEnd path.now disk.now) }
{
    if let Some(disk) = path.strip_suffix("-journal") {
        return Some(disk);
    }
    if let Some(disk) = path.strip_suffix("-wal") {
        return Some(disk);
    }
    path.strip_suffix("-shm")
}

/// Whether what is of this kind may be a disk, or lead to one.
fn may_be_disk(kind: Kind) -> bool
    ensures { (result ≡ false) ↔ (kind ≡ Folder) }
{
    !matches!(kind, Kind::Folder)
}
