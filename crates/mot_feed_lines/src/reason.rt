//! Why a line is refused, beside the number of the refusal.
use mot_events::Why;
use mot_lines::{Line, Verb, cut_word};
use mot_numbers::Refusal;

/// The refusal of a line that asks for nothing here: it was refused as it was read, or it asks for
/// packets, which are those that are played.
pub(crate) fn refusal_of(request: &Result<Line, Refusal>) -> Option<Refusal> {
    match request {
        Err(refusal) => Some(*refusal),
        Ok(Line::Next(_) | Line::Turn) => Some(Refusal::BadLine),
        Ok(_) => None,
    }
}

/// Why it is refused, as far as the line shows it.
pub(crate) fn why_of(request: &Result<Line, Refusal>, line: &[u8]) -> Why {
    match request {
        Ok(_) => Why::NotHere,
        Err(_) => why_in(line),
    }
}

/// Why a line is wrong: a carriage return at its end belongs to its last word.
fn why_in(line: &[u8]) -> Why {
    if ends_with_return(line) {
        return Why::Return;
    }
    let (word, _) = cut_word(line);
    let Some(verb) = Verb::of(word) else {
        return Why::NoCommand;
    };
    let (count, wanted) = (word_count(line), verb.word_count());
    if count == wanted {
        Why::Unsaid
    } else {
        Why::WordCount(count, wanted)
    }
}

/// How many words a line has: one more than spaces.
fn word_count(line: &[u8]) -> u64 {
    (space_count(line) as u64).saturating_add(1)
}

/// How many spaces a line has.
fn space_count(line: &[u8]) -> usize {
    line.iter().filter(|byte| **byte == b' ').count()
}

/// Whether the last byte is a carriage return.
fn ends_with_return(line: &[u8]) -> bool {
    if line.is_empty() {
        return false;
    }
    line[line.len() - 1] == b'\r'
}
