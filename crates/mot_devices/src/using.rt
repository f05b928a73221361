//! Whether what a path names is a block device in use.
#![tactic(auto, using(crate::proofs::Looks::looks_on, crate::proofs::Looks::looks_one, crate::proofs::Looks::looks_none))]

ghost use Rattle.std.specs.Prelude.{◌≡◌, IfErr, IfNone, IfSome, None, OnOk};
ghost use Rattle.mot_devices.specs.Inner.{IsIdle};
ghost use Rattle.mot_devices.specs.Looking.{OnlyLooks};
ghost use Rattle.mot_devices.specs.Uses.{BeginsWith, IsBusy, IsFree, IsFreeDevice, IsFreeThere};
ghost use Rattle.mot_devices.specs.Uses.{IsMounted, IsSigned, IsUsed, IsUsedDevice, IsUsedThere};
ghost use Rattle.mot_devices.specs.Uses.{MountsAt};
ghost use Rattle.mot_devices.specs.declared.device_use.DeviceUse.TheVariants.{Unseen};
ghost use Rattle.std.specs.IoError.{error_kind};
ghost use Rattle.std.specs.declared.io.Error.{Error};
ghost use Rattle.std.specs.declared.io.ErrorKind.TheVariants.{OutOfMemory};

use crate::beside::is_file_of_disk;
use crate::device_use::DeviceUse;
use crate::mounts::find_mount;
use crate::number::Numbers;
use crate::reading::{NotRead, read_first};
use crate::short_name::ShortName;
use crate::signature::signature_of;
use crate::tables::{holder_of, is_swap, numbers_of};
use mot_files::{Fault, How, System};
use std::alloc::{AllocError, Global};
use std::io::{self, ErrorKind};

/// The most bytes of the table of what is mounted.
pub const MOST: usize = 1 << 26;

/// How many first bytes of a device have all signatures.
pub const HEAD: usize = 65_608;

/// What uses the block device that the path names; `None` if it is free, or if the path names none.
/// Nothing is changed by this. A device is free if neither it nor a partition of it is mounted or a
/// swap, no other device stands on it, and it has no signature. Its partitions, the swaps and what
/// stands on it are known as far as the system lets their tables be read. A path is in use, too, that
/// is the name of a file of a disk.
pub fn use_of<S: System>(system: &mut S, alloc: Global, path: &str) -> Option<DeviceUse>
    ensures looks { OnlyLooks (S.calls system.old) (S.calls system.new) }
    ensures free { IfNone result (IsFree path.now (S.calls system.old) (S.calls system.new)) }
    ensures used { IfSome result (λ found. IsUsed path.now found (S.calls system.old)
        (S.calls system.new)) }
{
    if is_file_of_disk(system, path) {
        return Some(DeviceUse::OfDisk);
    }
    use_there(system, alloc, path)
}

/// What uses the block device that the path names.
fn use_there<S: System>(system: &mut S, alloc: Global, path: &str) -> Option<DeviceUse>
    ensures looks { OnlyLooks (S.calls system.old) (S.calls system.new) }
    ensures free { IfNone result (IsFreeThere path.now (S.calls system.old)
        (S.calls system.new)) }
    ensures used { IfSome result (λ found. IsUsedThere path.now found (S.calls system.old)
        (S.calls system.new)) }
{
    let seen = match system.follow(path) {
        Ok(seen) => seen,
        Err(Fault::Absent(_)) => return None,
        Err(Fault::Busy) => return Some(DeviceUse::Unseen(Fault::Busy.error())),
        Err(Fault::System(error)) => return Some(DeviceUse::Unseen(error)),
    };
    let Some(number) = seen.block else {
        return None;
    };
    match look_at_device(system, alloc, path, number) {
        Ok(()) => None,
        Err(found) => Some(found),
    }
}

/// Finds what uses the block device of this number, which the path names.
fn look_at_device<S: System>(
    system: &mut S,
    alloc: Global,
    path: &str,
    number: u64,
) -> Result<(), DeviceUse>
    ensures looks { OnlyLooks (S.calls system.old) (S.calls system.new) }
    ensures free { OnOk result (IsFreeDevice path.now number (S.calls system.old)
        (S.calls system.new)) }
    ensures used { IfErr result (λ found. IsUsedDevice path.now number found (S.calls system.old)
        (S.calls system.new)) }
{
    let Ok(numbers) = numbers_of(system, alloc, number) else {
        return Err(no_memory());
    };
    refuse_mounted(system, alloc, &numbers)?;
    refuse_held(system, alloc, &numbers, number)?;
    refuse_signature(system, alloc, path)
}

/// Why nothing was found without memory.
fn no_memory() -> DeviceUse
    ensures { (error : Error) × (result ≡ Unseen error) × (error_kind error ≡ OutOfMemory) }
{
    DeviceUse::Unseen(NotRead::NoMemory.error())
}

/// Refuses devices that are mounted.
fn refuse_mounted<S: System>(
    system: &mut S,
    alloc: Global,
    numbers: &Numbers,
) -> Result<(), DeviceUse>
    ensures looks { OnlyLooks (S.calls system.old) (S.calls system.new) }
    ensures free { OnOk result (MountsAt numbers.now.own.items numbers.now.others.items None
        (S.calls system.old) (S.calls system.new)) }
    ensures used { IfErr result (λ found. IsMounted numbers.now.own.items numbers.now.others.items
        found (S.calls system.old) (S.calls system.new)) }
{
    let mounts = match read_first(system, alloc, "/proc/self/mountinfo", How::Read, MOST) {
        Ok(mounts) => mounts,
        Err(why) => return Err(DeviceUse::Unknown(why.error())),
    };
    if !mounts.is_whole {
        return Err(DeviceUse::Unknown(io::Error::from(ErrorKind::FileTooLarge)));
    }
    match find_mount(numbers, &mounts.bytes) {
        Some(place) => Err(DeviceUse::MountedAt(ShortName::of(place))),
        None => Ok(()),
    }
}

/// Refuses devices that are swaps, and one that another device stands on.
fn refuse_held<S: System>(
    system: &mut S,
    alloc: Global,
    numbers: &Numbers,
    number: u64,
) -> Result<(), DeviceUse>
    ensures looks { OnlyLooks (S.calls system.old) (S.calls system.new) }
    ensures free { OnOk result (IsIdle numbers.now.own.items numbers.now.others.items number
        (S.calls system.old) (S.calls system.new)) }
    ensures used { IfErr result (λ found. IsBusy numbers.now.own.items numbers.now.others.items
        number found (S.calls system.old) (S.calls system.new)) }
{
    match is_swap(system, alloc, numbers) {
        Ok(false) => {}
        Ok(true) => return Err(DeviceUse::Swap),
        Err(AllocError) => return Err(no_memory()),
    }
    match holder_of(system, alloc, number) {
        Ok(None) => Ok(()),
        Ok(Some(device)) => Err(DeviceUse::HeldBy(device)),
        Err(AllocError) => Err(no_memory()),
    }
}

/// Refuses a device whose first bytes have a signature.
fn refuse_signature<S: System>(system: &mut S, alloc: Global, path: &str) -> Result<(), DeviceUse>
    ensures looks { OnlyLooks (S.calls system.old) (S.calls system.new) }
    ensures free { OnOk result (BeginsWith path.now None (S.calls system.old)
        (S.calls system.new)) }
    ensures used { IfErr result (λ found. IsSigned path.now found (S.calls system.old)
        (S.calls system.new)) }
{
    let head = match read_first(system, alloc, path, How::Read, HEAD) {
        Ok(head) => head,
        Err(why) => return Err(DeviceUse::Unseen(why.error())),
    };
    match signature_of(&head.bytes) {
        Some(signature) => Err(DeviceUse::HasSignature(signature)),
        None => Ok(()),
    }
}
