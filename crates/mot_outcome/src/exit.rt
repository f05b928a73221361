//! How a run of the program ends, and what it prints of that.
ghost use Rattle.std.specs.Prelude.{ℕ, ◌≡◌, ◌≢◌, ◌⊎◌, [], List, None, Some, codes, if◌then◌else◌, true};
ghost use Rattle.std.specs.Io.KnownBytes.{Keeps};
ghost use Rattle.clap.specs.Words.{kind_of};
ghost use Rattle.mot_numbers.specs.declared.refusal.Refusal.TheVariants.{OutOfMemory};
ghost use Rattle.mot_outcome.specs.Outcome.{Prints, status_of};
ghost use Rattle.mot_outcome.specs.declared.used.UsedDisk.TheVariants.{Untouched};

use crate::printing::write_last;
use crate::subject::{Subject, tell};
use crate::used::UsedDisk;
use clap::Error;
use clap::error::ErrorKind;
use disk_store::Start;
use mot_numbers::Refusal;
use std::alloc::Global;
use std::io::Write;

/// How a run of the program ended.
#[derive(Drop)]
pub struct Exit<S: Start> {
    /// The exit status: 0 if the task was done or help was asked for, 1 after a refusal that is no
    /// line's reply, 2 after a fault of the words.
    pub status: u8,
    /// The refusal of status 1. It has none if files of a folder were refused, or the folder was
    /// not listed or has no object: the log says which.
    pub refusal: Option<Refusal>,
    /// The disk that was worked on, as it stands.
    pub disk: UsedDisk<S>,
}

impl<S: Start> Exit<S> {
    /// The end of a run that no refusal ended.
    pub fn unrefused(status: u8, disk: UsedDisk<S>) -> Self
        ensures { result ≡ record { status = status; refusal = None; disk = disk } }
    {
        Exit {
            status,
            refusal: None,
            disk,
        }
    }
}

/// Prints what is wrong with the words, or the help that they ask for.
pub fn explain<S: Start, W: Write, E: Write>(
    alloc: Global,
    writer: &mut W,
    errors: &mut E,
    error: &Error,
    start: S,
) -> Exit<S>
    ensures untouched { result.disk ≡ Untouched start }
    ensures told { ((result.status ≡ 1) × (result.refusal ≡ Some OutOfMemory)
        × Keeps (W.contents writer.old) (W.contents writer.new))
        ⊎ ((result.status ≡ 2) × (result.refusal ≡ None)
        × (kind_of error.now ≢ ErrorKind.DisplayHelp) × (kind_of error.now ≢ ErrorKind.OutOfMemory)
        × Keeps (W.contents writer.old) (W.contents writer.new))
        ⊎ ((result.status ≡ status_of true result.refusal)
        × (kind_of error.now ≡ ErrorKind.DisplayHelp) × (text : List ℕ)
        × Prints result.refusal text (W.contents writer.old) (W.contents writer.new)) }
{
    let kind = error.kind();
    let disk = UsedDisk::Untouched(start);
    if kind == ErrorKind::OutOfMemory {
        return refuse(errors, false, Refusal::OutOfMemory, Subject::Nothing, disk);
    }
    if kind != ErrorKind::DisplayHelp {
        let _ = write!(errors, "{error}");
        return Exit::unrefused(2, disk);
    }
    let Ok(help) = error.to_string(alloc) else {
        return refuse(errors, false, Refusal::OutOfMemory, Subject::Nothing, disk);
    };
    match write_last(writer, help.as_bytes()) {
        Ok(()) => Exit::unrefused(0, disk),
        Err(fault) => refuse(errors, false, fault, Subject::Nothing, disk),
    }
}

/// Ends a run by a refusal that is no line's reply, and prints it, and on a second line what it is
/// about. Where lines of a log have levels, both begin with theirs.
pub fn refuse<S: Start, E: Write>(
    errors: &mut E,
    levels: bool,
    refusal: Refusal,
    subject: Subject<'_>,
    disk: UsedDisk<S>,
) -> Exit<S>
    ensures { result ≡ record { status = 1; refusal = Some refusal; disk = disk } }
{
    let level = level_of(levels);
    let _ = writeln!(errors, "{level}motcar: {refusal}");
    tell(errors, level, subject);
    Exit {
        status: 1,
        refusal: Some(refusal),
        disk,
    }
}

/// What a line about the end of the program begins with.
fn level_of(levels: bool) -> &'static str
    ensures { result.now ≡ (if levels then codes "<3>" else []) }
{
    if levels { "<3>" } else { "" }
}
