//! What the commands are asked for that put and withdraw single objects.
ghost use Rattle.std.specs.Prelude.{codes};
ghost use Rattle.clap.specs.Words.{found_of, rows_of};
ghost use Rattle.mot_cli.specs.Task.{IsTask};
ghost use Rattle.mot_cli.specs.Inner.{Finds};

use crate::given::{word_of, words_of};
use crate::task::Task;
use clap::ArgMatches;

/// The task of the command `put`.
pub(crate) fn put_of<'m, 'a>(words: &'m ArgMatches<'a>) -> Option<Task<'m, 'a>>
    ensures { Finds (IsTask (codes "put") (rows_of (found_of words.now))) result }
{
    Some(Task::PutFiles {
        disk: word_of(words, "DISK")?,
        files: words_of(words, "FILE")?,
        types: word_of(words, "types"),
    })
}

/// The task of the command `withdraw`.
pub(crate) fn withdraw_of<'m, 'a>(words: &'m ArgMatches<'a>) -> Option<Task<'m, 'a>>
    ensures { Finds (IsTask (codes "withdraw") (rows_of (found_of words.now))) result }
{
    Some(Task::WithdrawNames {
        disk: word_of(words, "DISK")?,
        names: words_of(words, "NAME")?,
    })
}
