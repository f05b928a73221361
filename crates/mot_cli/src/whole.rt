//! Options that are given with another one.
ghost use Rattle.std.specs.Prelude.{◌≡◌};
ghost use Rattle.clap.specs.Words.{found_of, rows_of};
ghost use Rattle.mot_cli.specs.Given.{flag_goes_with, goes_with, is_whole};

use crate::given::{is_set, word_of};
use clap::ArgMatches;

/// Whether each option is given with the other of which it says more: `--every` with `--lines`, and
/// `--types`, `--look`, `--allow-empty`, `--keep-most` and `--at-once` with `--folder`.
pub(crate) fn is_whole(words: &ArgMatches<'_>) -> bool
    ensures { result ≡ is_whole (rows_of (found_of words.now)) }
{
    goes_with(words, "every", "lines")
        && goes_with(words, "types", "folder")
        && goes_with(words, "look", "folder")
        && flag_goes_with(words, "allow-empty", "folder")
        && flag_goes_with(words, "keep-most", "folder")
        && flag_goes_with(words, "at-once", "folder")
}

/// Whether a flag is given with an option, or is not given.
fn flag_goes_with(words: &ArgMatches<'_>, name: &str, other: &str) -> bool
    ensures { result ≡ flag_goes_with (rows_of (found_of words.now)) name.now other.now }
{
    !is_set(words, name) || word_of(words, other).is_some()
}

/// Whether an option is given with another one, or is not given.
fn goes_with(words: &ArgMatches<'_>, name: &str, other: &str) -> bool
    ensures { result ≡ goes_with (rows_of (found_of words.now)) name.now other.now }
{
    word_of(words, name).is_none() || word_of(words, other).is_some()
}

/// The option that is missing among words that are not whole, as help shows it.
pub(crate) fn missing_option(words: &ArgMatches<'_>) -> &'static str {
    if !goes_with(words, "every", "lines") {
        "--lines <DIR>"
    } else {
        "--folder <DIR>"
    }
}
