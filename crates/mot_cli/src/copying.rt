//! What the command `copy` is asked for.
ghost use Rattle.std.specs.Prelude.{codes};
ghost use Rattle.clap.specs.Words.{found_of, rows_of};
ghost use Rattle.mot_cli.specs.Task.{IsTask};
ghost use Rattle.mot_cli.specs.Inner.{Finds};

use crate::given::word_of;
use crate::options::{Options, last_id_of, options_of};
use crate::task::Task;
use clap::ArgMatches;
use mot_numbers::TransportId;

/// A copy of a disk that is asked for.
#[derive(Clone, Copy)]
pub struct CopyTask<'a> {
    /// The path of the disk's file.
    pub disk: &'a str,
    /// The path of the copy's file.
    pub new: &'a str,
    /// The sizes of the copy; for those that are not given it has the disk's.
    pub sizes: Options,
    /// The transport id after which the copy's ids go on, if one is given.
    pub after: Option<TransportId>,
}

/// The task of the command `copy`.
#[tactic(auto, using(crate::proofs::Unasked::copy_needs))]
pub(crate) fn copy_of<'m, 'a>(words: &'m ArgMatches<'a>) -> Option<Task<'m, 'a>>
    ensures { Finds (IsTask (codes "copy") (rows_of (found_of words.now))) result }
{
    Some(Task::Copy(CopyTask {
        disk: word_of(words, "DISK")?,
        new: word_of(words, "NEW")?,
        sizes: options_of(words)?,
        after: last_id_of(words)?,
    }))
}
