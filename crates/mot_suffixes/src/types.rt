//! The meaning of a file's suffix.
ghost use Rattle.std.specs.Prelude.{◌≡◌, ◌++◌, ◌⊎◌, [], true, List, Some, None, Ok, IfErr, IfNone};
ghost use Rattle.std.specs.Prelude.{IfOk, IfSome, IsNone};
ghost use Rattle.mot_numbers.specs.declared.refusal.Refusal.TheVariants.{BadMime, BadName};
ghost use Rattle.mot_numbers.specs.declared.refusal.Refusal.TheVariants.{OutOfMemory};
ghost use Rattle.mot_suffixes.specs.Inner.{AddsLine, MayRefuse, RefusesLine};
ghost use Rattle.mot_suffixes.specs.Types.{IsTypesRefusal, StopsAtLine, SuffixType, is_hidden};
ghost use Rattle.mot_suffixes.specs.Types.{known_types, last_of_suffix, refusal_in, says_nothing};
ghost use Rattle.mot_suffixes.specs.Types.{some_mime_in, suffix_in, suffix_of, type_in};
ghost use Rattle.mot_suffixes.specs.Types.{type_mime_in, type_of_name, types_in};

use memchr::memrchr;
use mot_lines::{cut_at_line_end, four_words, parse_content};
use mot_numbers::Refusal;
use mot_objects::{Content, Mime};
use std::alloc::{AllocError, Global};
use std::marker::Model;

/// The known suffixes (TS 101 756, table 17).
const KNOWN: &str = "\
txt 1 0 text/plain
html 1 2 text/html
htm 1 2 text/html
xml 0 1 text/xml
gif 2 0 image/gif
jpg 2 1 image/jpeg
jpeg 2 1 image/jpeg
bmp 2 2 image/bmp
png 2 3 image/png
";

/// The type of the files of a suffix.
#[derive(Drop)]
pub struct FileType {
    /// The suffix, without its dot.
    suffix: Vec<u8>,
    /// The content type and the subtype.
    pub content: Content,
    /// The MIME type, if they have one.
    pub mime: Option<Mime>,
}

impl Model for FileType {
    ghost Value = { SuffixType };

    ghost view = { λ it. record {
      suffix = it.suffix.items;
      content = it.content;
      mime = it.mime;
    } };
}

/// The line of a text at which adding its types stopped.
#[derive(Clone, Copy)]
pub struct RefusedLine {
    /// Which one it is, from 1 on.
    pub number: usize,
    /// What its words are refused with; or `OutOfMemory`.
    pub refusal: Refusal,
}

/// The suffixes of the files that are objects.
#[derive(Drop)]
pub struct FileTypes {
    types: Vec<FileType>,
}

impl Model for FileTypes {
    ghost Value = { List SuffixType };

    ghost view = { λ known. known.types.items };
}

impl FileTypes {
    /// The known ones.
    pub fn new(alloc: Global) -> Result<FileTypes, AllocError>
        ensures known { IfOk result (λ types. types ≡ known_types) }
    {
        let mut types = FileTypes {
            types: Vec::new(alloc),
        };
        // Their lines are right: nothing but memory can be wanted.
        let Ok(()) = types.add(alloc, KNOWN.as_bytes()) else {
            return Err(AllocError);
        };
        Ok(types)
    }

    /// Adds those of the lines of a text, each `SUFFIX TYPE SUBTYPE MIME` with single spaces; an
    /// empty line and one that begins with `#` are ignored. A later line of one suffix replaces an
    /// earlier one. A line is refused as its words are, and the lines before it stay.
    pub fn add(&mut self, alloc: Global, text: &[u8]) -> Result<(), RefusedLine>
        ensures right { IfOk result (λ _. refusal_in text.now ≡ None) }
        ensures added { IfOk result (λ _. self.new ≡ self.old ++ types_in text.now) }
        ensures stays { IfErr result (λ at. StopsAtLine self.old self.new text.now
            at.number at.refusal) }
        ensures refused { IfErr result (λ at. IsTypesRefusal at.refusal) }
    {
        let mut rest = text;
        let mut number = 1;
        while let Some((line, others)) = cut_at_line_end(rest) {
            self.add_numbered(alloc, number, line)?;
            rest = others;
            number += 1;
        }
        self.add_numbered(alloc, number, rest)
    }

    /// Adds what the line of this number says, if it says something.
    fn add_numbered(&mut self, alloc: Global, number: usize, line: &[u8]) -> Result<(), RefusedLine>
        ensures added { IfOk result (λ _. AddsLine self.old self.new line.now) }
        ensures stays { IfErr result (λ at. (at.number ≡ number)
            × RefusesLine self.old self.new line.now at.refusal) }
        ensures refused { IfErr result (λ at. IsTypesRefusal at.refusal) }
    {
        match self.add_line(alloc, line) {
            Ok(()) => Ok(()),
            Err(refusal) => Err(RefusedLine { number, refusal }),
        }
    }

    /// Adds what a line says, if it says something.
    fn add_line(&mut self, alloc: Global, line: &[u8]) -> Result<(), Refusal>
        ensures added { IfOk result (λ _. AddsLine self.old self.new line.now) }
        ensures stays { IfErr result (RefusesLine self.old self.new line.now) }
        ensures refused { IfErr result IsTypesRefusal }
    {
        if is_silent(line) {
            return Ok(());
        }
        let file_type = type_of_line(alloc, line)?;
        self.types.push(file_type)?;
        Ok(())
    }

    /// The type of the suffix of the file's name, whatever the case of its letters: the last of the
    /// types of that suffix; `None` if there is no such type, or if the name begins with a dot.
    pub fn of_name(&self, name: &[u8]) -> Option<&FileType>
        ensures found { IfSome result (λ it. type_of_name self.now name.now ≡ Some it.now) }
        ensures none { IfNone result (type_of_name self.now name.now ≡ None) }
        ensures hidden { is_hidden name.now ≡ true → IsNone result }
    {
        let suffix = find_suffix(name)?;
        find_last(&self.types, suffix)
    }
}

/// The part after the last dot of a name; `None` if there is no dot, or if the name begins with
/// one.
fn find_suffix(name: &[u8]) -> Option<&[u8]>
    ensures found { IfSome result (λ suffix. suffix_of name.now ≡ Some suffix.now) }
    ensures none { IfNone result (suffix_of name.now ≡ None) }
{
    if begins_with_dot(name) {
        return None;
    }
    let place = memrchr(b'.', name)?;
    Some(&name[place + 1..])
}

/// Whether the name begins with a dot.
fn begins_with_dot(name: &[u8]) -> bool
    ensures { result ≡ is_hidden name.now }
{
    !name.is_empty() && name[0] == b'.'
}

/// The last of the types whose suffix it is, whatever the case of its letters.
fn find_last<'a>(types: &'a [FileType], suffix: &[u8]) -> Option<&'a FileType>
    ensures found { IfSome result (λ it. last_of_suffix suffix.now types.now ≡ Some it.now) }
    ensures none { IfNone result (last_of_suffix suffix.now types.now ≡ None) }
{
    let mut rest = types;
    while let [others @ .., last] = rest {
        if last.suffix.eq_ignore_ascii_case(suffix) {
            return Some(last);
        }
        rest = others;
    }
    None
}

/// Whether a line says nothing.
fn is_silent(line: &[u8]) -> bool
    ensures { result ≡ says_nothing line.now }
{
    line.is_empty() || line[0] == b'#'
}

/// What a line says.
fn type_of_line(alloc: Global, line: &[u8]) -> Result<FileType, Refusal>
    ensures said { IfOk result (λ it. type_in line.now ≡ Ok it) }
    ensures why { IfErr result (MayRefuse (type_in line.now)) }
    ensures refused { IfErr result IsTypesRefusal }
{
    let Some((suffix, content_type, subtype, mime)) = four_words(line) else {
        return Err(Refusal::BadLine);
    };
    let suffix = suffix_of_word(alloc, suffix)?;
    let content = parse_content(content_type, subtype)?;
    let mime = mime_of_word(alloc, mime)?;
    Ok(FileType {
        suffix,
        content,
        mime,
    })
}

/// The suffix that a word is, or `BadName`; or `OutOfMemory`.
fn suffix_of_word(alloc: Global, word: &[u8]) -> Result<Vec<u8>, Refusal>
    ensures taken { IfOk result (λ suffix. suffix_in word.now ≡ Ok suffix.items) }
    ensures why { IfErr result (MayRefuse (suffix_in word.now)) }
    ensures refused { IfErr result (λ r. (r ≡ BadName) ⊎ (r ≡ OutOfMemory)) }
{
    if word.is_empty() || word.contains(&b'.') {
        return Err(Refusal::BadName);
    }
    Ok(Vec::from_slice(alloc, word)?)
}

/// The MIME type that a word is, with `-` for none, or `BadMime`; or `OutOfMemory`.
fn mime_of_word(alloc: Global, word: &[u8]) -> Result<Option<Mime>, Refusal>
    ensures taken { IfOk result (λ mime. type_mime_in word.now ≡ Ok mime) }
    ensures why { IfErr result (MayRefuse (type_mime_in word.now)) }
    ensures refused { IfErr result (λ r. (r ≡ BadMime) ⊎ (r ≡ OutOfMemory)) }
{
    if word == b"-".as_slice() {
        return Ok(None);
    }
    match some_mime_of_word(alloc, word) {
        Ok(mime) => Ok(Some(mime)),
        Err(refusal) => Err(refusal),
    }
}

/// The MIME type that a word is, or `BadMime`; or `OutOfMemory`.
fn some_mime_of_word(alloc: Global, word: &[u8]) -> Result<Mime, Refusal>
    ensures taken { IfOk result (λ mime. some_mime_in word.now ≡ Ok mime) }
    ensures why { IfErr result (MayRefuse (some_mime_in word.now)) }
    ensures refused { IfErr result (λ r. (r ≡ BadMime) ⊎ (r ≡ OutOfMemory)) }
{
    let bytes = Vec::from_slice(alloc, word)?;
    Mime::new(bytes)
}
