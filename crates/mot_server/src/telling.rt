//! What is told of a run on standard error.
ghost use Rattle.std.specs.Prelude.{◌≡◌, None, IsSome, false};
ghost use Rattle.std.specs.Result.{result_unwrap_or};
ghost use Rattle.mot_numbers.specs.declared.refusal.Refusal.TheVariants.{DeviceFault};
ghost use Rattle.mot_outcome.specs.Outcome.{fault_in, status_of};
ghost use Rattle.mot_outcome.specs.declared.used.UsedDisk.TheVariants.{Untouched};
ghost use Rattle.mot_playout.specs.Attempts.{fault_of};
ghost use Rattle.mot_server.specs.Inner.{TellsWhy};

use clap::ArgMatches;
use disk_store::{OpenFault, Start};
use mot_cli::{NoTask, has_levels};
use mot_endpoints::Cause;
use mot_numbers::Refusal;
use mot_outcome::{Exit, TaskEnd, UsedDisk, refuse, subject_of, tell};
use std::io::Write;

/// Prints why words ask for no task: the option is missing of which another one says more, or a
/// number is out of its range.
pub(crate) fn tell_no_task<B: Start, E: Write>(
    errors: &mut E,
    why: NoTask,
    words: &ArgMatches<'_>,
    start: B,
) -> Exit<B>
    ensures untouched { result.disk ≡ Untouched start }
    ensures told { TellsWhy why result }
{
    let disk = UsedDisk::Untouched(start);
    match why {
        NoTask::Lacks(option) => {
            tell_missing(errors, option);
            Exit::unrefused(2, disk)
        }
        NoTask::OutOfRange(refusal) => {
            let subject = subject_of(refusal, words, None, "DISK", None);
            refuse(errors, has_levels(words), refusal, subject, disk)
        }
    }
}

/// Prints that an option is missing, as the parser prints it of a word.
fn tell_missing<E: Write>(errors: &mut E, option: &str) {
    let fault = "error: the following required arguments were not provided:";
    let _ = writeln!(
        errors,
        "{fault}\n  {option}\n\nFor more information, try '--help'."
    );
}

/// Prints what a task came to, if it is not done whole, and ends the run so.
pub(crate) fn conclude<B: Start, E: Write>(
    errors: &mut E,
    words: &ArgMatches<'_>,
    finished: TaskEnd<B, bool>,
) -> Exit<B>
    ensures { result ≡ record {
      status = status_of (result_unwrap_or finished.result false) (fault_of finished.result);
      refusal = fault_of finished.result;
      disk = finished.disk;
    } }
{
    let (disk, cause) = (finished.disk, finished.cause);
    match finished.result {
        Ok(true) => {
            tell_disk(errors, words, disk.fault());
            Exit::unrefused(0, disk)
        }
        Ok(false) => {
            tell_folder(errors, words, cause);
            Exit::unrefused(1, disk)
        }
        Err(refusal) => {
            let cause = cause_of(refusal, cause, &disk);
            let subject = subject_of(refusal, words, cause, disk.word(), finished.reason);
            refuse(errors, has_levels(words), refusal, subject, disk)
        }
    }
}

/// Why a task was refused: of a disk that failed the first call that did so, if nothing else is
/// known.
fn cause_of<B: Start>(refusal: Refusal, cause: Option<Cause>, disk: &UsedDisk<B>) -> Option<Cause>
    ensures kept { IsSome cause → result ≡ cause }
    ensures told { cause ≡ None → refusal ≡ DeviceFault → result ≡ fault_in disk.now }
{
    match cause {
        None if refusal == Refusal::DeviceFault => disk.fault(),
        _ => cause,
    }
}

/// Prints why the disk that these words name failed, though the task went on to its end.
fn tell_disk<E: Write>(errors: &mut E, words: &ArgMatches<'_>, cause: Option<Cause>) {
    if cause.is_some() {
        let subject = subject_of(Refusal::DeviceFault, words, cause, "DISK", None);
        tell(errors, "", subject);
    }
}

/// Prints why the folder that these words name was not opened, if that is the cause.
fn tell_folder<E: Write>(errors: &mut E, words: &ArgMatches<'_>, cause: Option<Cause>) {
    let Some(path) = words.get_str("DIR").or(words.get_str("folder")) else {
        return;
    };
    if let Some(Cause::Folder(error)) = cause {
        let fault = OpenFault::System(error);
        let _ = writeln!(errors, "motcar: {path}: {fault}");
    }
}
