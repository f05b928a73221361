//! A line of the input, read.
ghost use Rattle.std.specs.Prelude.{◌≡◌};
ghost use Rattle.mot_lines.specs.Line.{raw_of, withdraw_of, period_of, alone_of, asked_by, next_of};
ghost use Rattle.mot_lines.specs.Line.{line_of, IsParsed};
ghost use Rattle.mot_lines.specs.Inner.{OrOutOfMemory};
ghost use Rattle.mot_lines.specs.Fields.{words_after};

mod description;
mod fields;
mod verb;
mod words;

use crate::SegmentBytes;
use description::parse_description;
pub use fields::parse_content;
use fields::{parse_count, parse_kind, parse_name, parse_period, parse_segment, parse_tid};
use mot_numbers::{GroupKind, Refusal, TransportId};
use mot_objects::Command;
use std::alloc::Global;
pub use verb::Verb;
use words::{one_word, three_words};
pub use words::{cut_word, four_words};

/// The longest line, in bytes without its end.
pub const MAX_LINE: usize = 530_000;

/// The most packets that one `next` line asks for.
pub const MAX_PACKETS: u32 = 100_000;

/// What a line asks for.
#[derive(Drop)]
pub enum Line {
    /// A command: `put NAME TYPE SUBTYPE MIME HEX`, `replace` with the same words, `withdraw NAME`
    /// or `period N`.
    Command(Command),
    /// The content of the carousel: `list`.
    List,
    /// One data group of one segment, and the packets that carry it: `raw TYPE TID HEX`.
    Raw {
        /// TYPE: 4 for a body, 6 for a directory.
        kind: GroupKind,
        /// TID: the transport id of the segment's object, 1 to 65,535.
        tid: TransportId,
        /// HEX: the bytes of the one segment.
        body: SegmentBytes,
    },
    /// So many packets of the carousel's turns, 1 to 100,000: `next N`.
    Next(u32),
    /// The packets up to the first that ends a turn: `turn`.
    Turn,
}

/// The request of a line, given without its end. `BadLine`: an unknown first word, a wrong count of
/// words, or more than 530,000 bytes. Then the first wrong word gives the refusal: `BadName`,
/// `BadType`, `BadMime`, `BadNumber`, or for the body `BadBody`, `EmptyBody` or `BodyTooLong`.
/// `OutOfMemory` if there is no room for a name, a MIME type or the body; a list, a `next` and a
/// `turn` line are never refused as out of memory.
pub fn parse_line(alloc: Global, line: &[u8]) -> Result<Line, Refusal>
    ensures { IsParsed result (line_of line.now) }
{
    if line.len() > MAX_LINE {
        return Err(Refusal::BadLine);
    }
    let (first, rest) = cut_word(line);
    parse_request(alloc, Verb::of(first), rest)
}

/// What a line asks for, by its first word and those after it.
fn parse_request(alloc: Global, verb: Option<Verb>, words: Option<&[u8]>) -> Result<Line, Refusal>
    ensures { IsParsed result (asked_by verb (words_after words.entry)) }
{
    match verb {
        Some(Verb::Raw) => parse_raw(alloc, words),
        Some(Verb::Put) => Ok(Line::Command(parse_description(alloc, words)?.into_put())),
        Some(Verb::Replace) => Ok(Line::Command(parse_description(alloc, words)?.into_replace())),
        Some(Verb::Withdraw) => parse_withdraw(alloc, words),
        Some(Verb::Period) => parse_set_period(words),
        Some(Verb::List) => parse_list(words),
        Some(Verb::Next) => parse_next(words),
        Some(Verb::Turn) => parse_turn(words),
        None => Err(Refusal::BadLine),
    }
}

/// What a `withdraw` line asks for, by its words after the first.
fn parse_withdraw(alloc: Global, words: Option<&[u8]>) -> Result<Line, Refusal>
    ensures { OrOutOfMemory result (withdraw_of (words_after words.entry)) }
{
    let Some(name) = one_word(words) else {
        return Err(Refusal::BadLine);
    };
    let name = parse_name(alloc, name)?;
    Ok(Line::Command(Command::Withdraw { name }))
}

/// What a `period` line asks for, by its words after the first.
fn parse_set_period(words: Option<&[u8]>) -> Result<Line, Refusal>
    ensures { result ≡ period_of (words_after words.entry) }
{
    let Some(number) = one_word(words) else {
        return Err(Refusal::BadLine);
    };
    let period = parse_period(number)?;
    Ok(Line::Command(Command::Period(period)))
}

/// What a `list` line asks for, by its words after the first.
fn parse_list(words: Option<&[u8]>) -> Result<Line, Refusal>
    ensures { result ≡ alone_of Line.List (words_after words.entry) }
{
    match words {
        None => Ok(Line::List),
        Some(_) => Err(Refusal::BadLine),
    }
}

/// What a `next` line asks for, by its words after the first.
fn parse_next(words: Option<&[u8]>) -> Result<Line, Refusal>
    ensures { result ≡ next_of (words_after words.entry) }
{
    let Some(number) = one_word(words) else {
        return Err(Refusal::BadLine);
    };
    let count = parse_count(number)?;
    Ok(Line::Next(count))
}

/// What a `turn` line asks for, by its words after the first.
fn parse_turn(words: Option<&[u8]>) -> Result<Line, Refusal>
    ensures { result ≡ alone_of Line.Turn (words_after words.entry) }
{
    match words {
        None => Ok(Line::Turn),
        Some(_) => Err(Refusal::BadLine),
    }
}

/// What a `raw` line asks for, by its words after the first.
fn parse_raw(alloc: Global, words: Option<&[u8]>) -> Result<Line, Refusal>
    ensures { OrOutOfMemory result (raw_of (words_after words.entry)) }
{
    let Some((kind, tid, hex)) = three_words(words) else {
        return Err(Refusal::BadLine);
    };
    let kind = parse_kind(kind)?;
    let tid = parse_tid(tid)?;
    let body = parse_segment(alloc, hex)?;
    Ok(Line::Raw { kind, tid, body })
}
