//! What a line asks for, as the log tells it.
use mot_lines::{Verb, cut_word};

/// The most bytes of a subject that are told.
const SUBJECT: usize = 255;

/// How many bytes of a letter may come after its first one.
const WITHIN: usize = 3;

/// The command of a line, if it is one, and what it is about: nothing, if that is not told.
pub(crate) fn command_of(line: &[u8]) -> (Option<Verb>, &[u8]) {
    let (word, rest) = cut_word(line);
    let verb = Verb::of(word);
    (verb, subject_of(verb, rest))
}

/// What the command is about, of the words after it.
fn subject_of(verb: Option<Verb>, rest: Option<&[u8]>) -> &[u8] {
    match (verb, rest) {
        (Some(verb), Some(rest)) if verb.has_subject() => front_of(cut_word(rest).0),
        _ => b"",
    }
}

/// The first bytes of a word, 255 at most, and of a text so many that no letter of it is cut.
fn front_of(word: &[u8]) -> &[u8] {
    if word.len() <= SUBJECT {
        return word;
    }
    let mut end = SUBJECT;
    while end > SUBJECT - WITHIN && is_within(word[end]) {
        end -= 1;
    }
    &word[..end]
}

/// Whether a letter of a text does not begin with this byte, but goes on with it.
fn is_within(byte: u8) -> bool {
    byte >= 0x80 && byte < 0xC0
}
