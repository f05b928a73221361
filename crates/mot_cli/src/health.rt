//! What the command is asked for that tells whether a disk on air is well.
ghost use Rattle.std.specs.Prelude.{◌≡◌, codes};
ghost use Rattle.clap.specs.Words.{found_of, rows_of};
ghost use Rattle.mot_cli.specs.Task.{GiveAge, IsTask};
ghost use Rattle.mot_cli.specs.Inner.{Finds};

use crate::given::{number_of, word_of};
use crate::task::{Form, Task, form_of};
use clap::ArgMatches;

/// The status of a disk on air.
#[derive(Clone, Copy)]
pub struct HealthTask<'a> {
    /// The path of its file.
    pub status: &'a str,
    /// How many seconds ago it was written at most; 120, if no number is given.
    pub max_age: Option<u32>,
    /// How the answer is printed.
    pub form: Form,
}

/// The task of the command `health`.
pub(crate) fn health_of<'m, 'a>(words: &'m ArgMatches<'a>) -> Option<Task<'m, 'a>>
    ensures { Finds (IsTask (codes "health") (rows_of (found_of words.now))) result }
{
    Some(Task::Health(HealthTask {
        status: word_of(words, "STATUS")?,
        max_age: age_of(words)?,
        form: form_of(words),
    }))
}

/// The age in seconds that is given, if one is; `None` if it is not 1 to 86,400.
fn age_of(words: &ArgMatches<'_>) -> Option<Option<u32>>
    ensures { Finds (GiveAge (rows_of (found_of words.now))) result }
{
    match number_of(words, "max-age")? {
        Some(age) if age < 1 || age > 86_400 => None,
        age => Some(age),
    }
}
