//! What a refusal is about: the file that was not opened, made or written, or the option whose
//! number is out of its range. It is printed, and nothing is decided by it.
ghost use Rattle.std.specs.Prelude.{◌≡◌, ◌⊎◌, codes};
ghost use Rattle.std.specs.declared.io.ErrorKind.TheVariants.{QuotaExceeded, StorageFull};

use crate::range::number_out_of_range;
use crate::reason::InWords;
use clap::ArgMatches;
use disk_store::OpenFault;
use mot_devices::DeviceUse;
use mot_endpoints::{Cause, NewDiskFault, OUTPUT, SUFFIX};
use mot_journal::Reason;
use mot_numbers::Refusal;
use std::io::{ErrorKind, Write};

/// What a refusal is about.
#[derive(Clone, Copy)]
pub enum Subject<'a> {
    /// What the refusal itself says.
    Nothing,
    /// The disk at this path, for this reason.
    Disk {
        /// The path.
        path: &'a str,
        /// The reason.
        reason: Reason,
    },
    /// The file at this path, for this cause.
    File {
        /// The path.
        path: &'a str,
        /// The cause.
        cause: Cause,
    },
    /// The number that was given to an option, and those that it takes.
    Number {
        /// The option.
        option: &'static str,
        /// The number.
        number: &'a str,
        /// Those that it takes, in words.
        range: &'static str,
    },
}

/// What this refusal of a command with these words is about. Of a disk the reason is told by the path
/// that this word names.
pub fn subject_of<'a>(
    refusal: Refusal,
    words: &ArgMatches<'a>,
    cause: Option<Cause>,
    word: &str,
    reason: Option<Reason>,
) -> Subject<'a> {
    if let (Some(path), Some(reason)) = (words.get_str(word), reason) {
        return Subject::Disk { path, reason };
    }
    match cause {
        // It is told if no refusal ended the task.
        Some(Cause::Folder(_)) => Subject::Nothing,
        Some(cause) => match words.get_str(word_of_cause(cause)) {
            Some(path) => Subject::File { path, cause },
            None => Subject::Nothing,
        },
        None if refusal == Refusal::BadGeometry || refusal == Refusal::BadNumber => {
            number_out_of_range(words)
        }
        None => Subject::Nothing,
    }
}

/// The word that names what the cause is about.
fn word_of_cause(cause: Cause) -> &'static str {
    match cause {
        Cause::Disk(_) | Cause::Device(_) => "DISK",
        Cause::NewDisk(_) => "NEW",
        Cause::Types(_) => "types",
        Cause::Folder(_) => "folder",
        Cause::Lines(_) => "lines",
        Cause::Packets(_) | Cause::NewFile(_) => "PACKETS",
    }
}

/// Prints what a refusal is about, if there is more to say, in a line that begins with a level.
pub fn tell<E: Write>(errors: &mut E, level: &str, subject: Subject<'_>) {
    match subject {
        Subject::Nothing => {}
        Subject::Disk { path, reason } => {
            let reason = InWords(reason);
            let _ = writeln!(errors, "{level}motcar: {path}: {reason}");
        }
        Subject::File { path, cause } => {
            let (name, suffix) = shown(path, cause);
            let hint = hint_of(cause);
            let again = again(path, cause);
            let _ = writeln!(
                errors,
                "{level}motcar: {name}{suffix}: {cause}{hint}{again}"
            );
        }
        Subject::Number {
            option,
            number,
            range,
        } => {
            let _ = writeln!(errors, "{level}motcar: --{option} {number}: {range}");
        }
    }
}

/// The name that a file is shown by, and what is added to it.
fn shown(path: &str, cause: Cause) -> (&str, &'static str) {
    match cause {
        Cause::Packets(_) if path == OUTPUT => ("standard output", ""),
        Cause::NewFile(_) => (path, SUFFIX),
        Cause::Disk(fault) | Cause::NewDisk(NewDiskFault::Disk(fault)) => {
            (path, suffix_beside(fault))
        }
        _ => (path, ""),
    }
}

/// What is added to a disk's path for the file beside it that stood in the way of its opening: a
/// journal; or an empty file that could not be opened or made. Other errors may be the disk's own.
fn suffix_beside(fault: OpenFault) -> &'static str {
    match fault {
        OpenFault::Beside(error) => match error.kind() {
            ErrorKind::AlreadyExists if error.raw_os_error().is_none() => "-journal",
            ErrorKind::Unsupported
            | ErrorKind::PermissionDenied
            | ErrorKind::ReadOnlyFilesystem
            | ErrorKind::StorageFull
            | ErrorKind::QuotaExceeded => "-wal",
            _ => "",
        },
        _ => "",
    }
}

/// What to do about what was not done.
fn hint_of(cause: Cause) -> &'static str {
    match cause {
        Cause::Disk(fault) => hint_of_fault(fault),
        Cause::Device(found) => hint_of_use(found),
        Cause::NewDisk(fault) => hint_of_new(fault),
        _ => "",
    }
}

/// What to do about a copy that was not made.
fn hint_of_new(fault: NewDiskFault) -> &'static str {
    match fault {
        NewDiskFault::Disk(OpenFault::InUse) => {
            "; if it is the old disk itself, choose another name; else end that program first"
        }
        NewDiskFault::Disk(fault) => hint_of_fault(fault),
        NewDiskFault::Device(found) => hint_of_use(found),
        NewDiskFault::Objects { .. } => "; give more as --objects",
        NewDiskFault::Bodies { .. } => "; give more as --data",
    }
}

/// What to do about a disk that was not opened or made.
fn hint_of_fault(fault: OpenFault) -> &'static str {
    match fault {
        OpenFault::Beside(error) if error.raw_os_error().is_none() => "; move it away",
        OpenFault::System(error) | OpenFault::Beside(error) => hint_of_kind(error.kind()),
        OpenFault::InUse => {
            "; if that plays it, its folder or its lines change it; else end it first"
        }
        OpenFault::NoDisk => "; check the path",
        OpenFault::SecondName => "; remove the other name",
    }
}

/// What to do about a disk for which the system gave a reason of this kind.
fn hint_of_kind(kind: ErrorKind) -> &'static str
    ensures room { (kind ≡ StorageFull) ⊎ (kind ≡ QuotaExceeded) → result.now ≡ codes "; make room" }
{
    match kind {
        ErrorKind::NotFound | ErrorKind::NotADirectory | ErrorKind::IsADirectory => {
            "; check the path"
        }
        ErrorKind::PermissionDenied => "; motcar has to read and write it",
        ErrorKind::ReadOnlyFilesystem => "; the disk has to be written",
        ErrorKind::StorageFull | ErrorKind::QuotaExceeded => "; make room",
        ErrorKind::ResourceBusy => "; another program has it: end that",
        ErrorKind::Unsupported => "; it has to be a regular file of one name: move it away",
        ErrorKind::AlreadyExists => "; move it away",
        _ => "",
    }
}

/// What to do about a device in use.
fn hint_of_use(found: DeviceUse) -> &'static str {
    match found {
        DeviceUse::MountedAt(_) => "; unmount it first",
        DeviceUse::Swap => "; end that by swapoff first",
        DeviceUse::HeldBy(_) => "; end that device first",
        DeviceUse::HasSignature(_) => "; if nobody needs it, clear it: wipefs -a ",
        DeviceUse::Unknown(_) => "; mount /proc",
        DeviceUse::Unseen(_) => "",
        DeviceUse::OfDisk => "; choose another name",
    }
}

/// The path again, if what to do ends with it.
fn again(path: &str, cause: Cause) -> &str {
    match cause {
        Cause::Device(DeviceUse::HasSignature(_))
        | Cause::NewDisk(NewDiskFault::Device(DeviceUse::HasSignature(_))) => path,
        _ => "",
    }
}
