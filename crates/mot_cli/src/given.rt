//! The words and numbers that were given.
ghost use Rattle.std.specs.Prelude.{◌≡◌, codes, option_map};
ghost use Rattle.std.specs.Borrow.{Bor};
ghost use Rattle.clap.specs.Words.{Text, first_of, found_of, rows_of};
ghost use Rattle.mot_cli.specs.Given.{IsGiven, NameWords, is_set};
ghost use Rattle.mot_cli.specs.Inner.{Finds};

use clap::ArgMatches;

/// The word that was given for this one, or the word of this option, if there is one.
#[tactic(auto, using(crate::proofs::Values::first_found))]
pub(crate) fn word_of<'a>(words: &ArgMatches<'a>, name: &str) -> Option<&'a str>
    ensures { option_map (λ (word : Bor Text). word.now) result
        ≡ first_of name.now (rows_of (found_of words.now)) }
{
    words.get_str(name)
}

/// The words that were given for this one.
#[tactic(auto, using(crate::proofs::Values::all_found))]
pub(crate) fn words_of<'m, 'a>(words: &'m ArgMatches<'a>, name: &str) -> Option<&'m [&'a str]>
    ensures { Finds (λ given. NameWords (rows_of (found_of words.now)) name.now given.now) result }
{
    words.get_strs(name)
}

/// The number of an option, if it was given; `None` if it is not a number.
#[tactic(auto, using(crate::proofs::Values::first_found))]
pub(crate) fn number_of(words: &ArgMatches<'_>, name: &str) -> Option<Option<u32>>
    ensures { Finds (IsGiven (first_of name.now (rows_of (found_of words.now)))) result }
{
    match words.get_str(name) {
        Some(text) => Some(Some(text.parse::<u32>().ok()?)),
        None => Some(None),
    }
}

/// Whether a flag was given.
#[tactic(auto, using(crate::proofs::Values::first_found))]
pub(crate) fn is_set(words: &ArgMatches<'_>, name: &str) -> bool
    ensures { result ≡ is_set (rows_of (found_of words.now)) name.now }
{
    words.get_str(name) == Some("true")
}

/// Whether lines of the log are to begin with their level.
pub fn has_levels(words: &ArgMatches<'_>) -> bool
    ensures { result ≡ is_set (rows_of (found_of words.now)) (codes "levels") }
{
    is_set(words, "levels")
}
