//! What the words of the command line ask for.
ghost use Rattle.std.specs.Prelude.{◌≡◌, IfErr, IfOk, codes};
ghost use Rattle.clap.specs.Words.{found_of, rows_of};
ghost use Rattle.mot_cli.specs.Task.{IsTask, IsWhy, IsWork, form_in};
ghost use Rattle.mot_cli.specs.declared.task.Task.{Task};
ghost use Rattle.mot_cli.specs.Inner.{Finds};

use crate::by_hand::{put_of, withdraw_of};
use crate::copying::{CopyTask, copy_of};
use crate::given::{is_set, word_of};
use crate::health::{HealthTask, health_of};
use crate::options::{directory_of, geometry_of};
use crate::playing::{PlayTask, SyncTask, play_of, rate_of, sync_of};
use crate::whole::{is_whole, missing_option};
use clap::ArgMatches;
use mot_numbers::{Geometry, Refusal, TransportId};

/// What the program is to do.
#[derive(Clone, Copy)]
pub enum Task<'m, 'a> {
    /// Serve a carousel in memory.
    Memory(Geometry),
    /// Make a disk of the file at this path.
    Format {
        /// The file's path.
        path: &'a str,
        /// The sizes of the disk.
        geometry: Geometry,
        /// The transport id of the new directory, after which all later ones are taken.
        directory: TransportId,
    },
    /// Make a copy of a disk.
    Copy(CopyTask<'a>),
    /// Play a disk.
    Play(PlayTask<'a>),
    /// Make the carousel of a disk equal to a folder, or print what that would do.
    Sync(SyncTask<'a>),
    /// Tell whether a disk on air is well.
    Health(HealthTask<'a>),
    /// Put files, or replace the objects of their names.
    PutFiles {
        /// The path of the disk's file.
        disk: &'a str,
        /// The paths of the files.
        files: &'m [&'a str],
        /// The path of the file that adds suffixes, if one is given.
        types: Option<&'a str>,
    },
    /// Withdraw objects.
    WithdrawNames {
        /// The path of the disk's file.
        disk: &'a str,
        /// The names of the objects.
        names: &'m [&'a str],
    },
    /// Open a disk, and use it alone.
    OnDisk {
        /// The path of the disk's file.
        disk: &'a str,
        /// What is done with it.
        work: DiskTask<'a>,
    },
}

/// How something is printed.
#[derive(Clone, Copy)]
pub enum Form {
    /// As lines of words.
    Words,
    /// As JSON, each line one object.
    Json,
}

/// What the program is to do with a disk.
#[derive(Clone, Copy)]
pub enum DiskTask<'a> {
    /// Serve it.
    Serve,
    /// Tell what it keeps.
    Check(Form),
    /// Rewrite it into layout 2.
    Migrate,
    /// Print its objects.
    ListObjects(Form),
    /// Print the body of the object of this name.
    GetBody(&'a str),
    /// Print its carousel.
    Export,
    /// Print its sizes, with its turn timed at this rate in kbit/s; if none is given, at the usual
    /// ones.
    Inspect(Option<u32>, Form),
}

/// Why words ask for no task.
#[derive(Clone, Copy)]
pub enum NoTask {
    /// An option is given without this one, of which it says more.
    Lacks(&'static str),
    /// A number is out of its range: `BadGeometry` of the sizes of a disk, else `BadNumber`.
    OutOfRange(Refusal),
}

/// The task of a command and the words after it. There is none if a number does not fit its field,
/// no sub-channel has the rate, or an option is given without the one of which it says more.
pub fn task_of<'m, 'a>(name: &str, words: &'m ArgMatches<'a>) -> Result<Task<'m, 'a>, NoTask>
    ensures some { IfOk result (IsTask name.now (rows_of (found_of words.now))) }
    ensures none { IfErr result (λ why. (task : Task)
        → IsTask name.now (rows_of (found_of words.now)) task → ⊥) }
    ensures why { IfErr result (IsWhy name.now (rows_of (found_of words.now))) }
{
    match asked_of(name, words) {
        Some(task) => Ok(task),
        None => Err(why_none(name, words)),
    }
}

/// Why words that ask for no task ask for none.
fn why_none(name: &str, words: &ArgMatches<'_>) -> NoTask
    ensures { IsWhy name.now (rows_of (found_of words.now)) result }
{
    if name == "play" && !is_whole(words) {
        return NoTask::Lacks(missing_option(words));
    }
    if name == "memory" || name == "format" || name == "copy" {
        return NoTask::OutOfRange(Refusal::BadGeometry);
    }
    NoTask::OutOfRange(Refusal::BadNumber)
}

/// The task of a command and the words after it, if they ask for one.
#[tactic(auto, using(crate::proofs::Unasked::memory_needs))]
fn asked_of<'m, 'a>(name: &str, words: &'m ArgMatches<'a>) -> Option<Task<'m, 'a>>
    ensures { Finds (IsTask name.now (rows_of (found_of words.now))) result }
{
    match name {
        "memory" => Some(Task::Memory(geometry_of(words)?)),
        "health" => health_of(words),
        "format" => format_of(words),
        "copy" => copy_of(words),
        "play" => play_of(words),
        "sync" => sync_of(words),
        "put" => put_of(words),
        "withdraw" => withdraw_of(words),
        _ => Some(Task::OnDisk {
            disk: word_of(words, "DISK")?,
            work: work_of(name, words)?,
        }),
    }
}

/// What the command of this name, and the words after it, ask to be done with a disk.
fn work_of<'a>(name: &str, words: &ArgMatches<'a>) -> Option<DiskTask<'a>>
    ensures { Finds (IsWork name.now (rows_of (found_of words.now))) result }
{
    match name {
        "serve" => Some(DiskTask::Serve),
        "check" => Some(DiskTask::Check(form_of(words))),
        "migrate" => Some(DiskTask::Migrate),
        "list" => Some(DiskTask::ListObjects(form_of(words))),
        "get" => Some(DiskTask::GetBody(word_of(words, "NAME")?)),
        "export" => Some(DiskTask::Export),
        "inspect" => Some(DiskTask::Inspect(rate_of(words)?, form_of(words))),
        _ => None,
    }
}

/// How a command prints what it is asked for.
pub(crate) fn form_of(words: &ArgMatches<'_>) -> Form
    ensures { result ≡ form_in (rows_of (found_of words.now)) }
{
    if is_set(words, "json") {
        Form::Json
    } else {
        Form::Words
    }
}

/// The task of the command `format`.
fn format_of<'m, 'a>(words: &'m ArgMatches<'a>) -> Option<Task<'m, 'a>>
    ensures { Finds (IsTask (codes "format") (rows_of (found_of words.now))) result }
{
    Some(Task::Format {
        path: word_of(words, "DISK")?,
        geometry: geometry_of(words)?,
        directory: directory_of(words)?,
    })
}
