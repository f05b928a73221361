//! The names of files of lines, in the order in which they are taken.
ghost use Rattle.std.specs.Prelude.{◌≡◌, ◌≢◌, ◌≤◌, ◌↔◌, All, IsTrue, MatchResult, codes};
ghost use Rattle.std.specs.Str.{str_eq_ignore_ascii_case};
ghost use Rattle.mot_line_folder.specs.LineFiles.{IsOfLines, IsPlain};

use mot_events::Why;
use std::alloc::{AllocError, Global};
use std::str::from_utf8;

/// How the name of a file of lines ends, whatever the case of its letters.
const ENDING: &[u8] = b".lines";

/// The most names that are kept of a folder at a time.
const MOST: usize = 64;

/// The first names of a folder, by their bytes, after those that were given. Once all of the folder
/// were given it begins again with the first.
#[derive(Drop)]
pub(crate) struct Names {
    alloc: Global,
    /// Those that come next, the last of them first.
    waiting: Vec<Vec<u8>>,
    /// The name after which they come.
    behind: Option<Vec<u8>>,
    /// Whether there are more than are kept.
    has_more: bool,
    /// Whether all of the folder were given.
    pub(crate) is_through: bool,
}

impl Names {
    /// No name.
    pub(crate) fn new(alloc: Global) -> Names {
        Names {
            alloc,
            waiting: Vec::new(alloc),
            behind: None,
            has_more: false,
            is_through: false,
        }
    }

    /// Whether none is left, so that the folder is to be read.
    pub(crate) fn is_empty(&self) -> bool {
        self.waiting.is_empty()
    }

    /// Leaves none, and begins again with the first.
    pub(crate) fn clear(&mut self) {
        self.waiting.clear();
        self.behind = None;
        self.has_more = false;
    }

    /// Keeps those of these names, each ended by a zero byte, that are names of files of lines.
    pub(crate) fn keep_all(&mut self, bytes: &[u8]) -> Result<(), AllocError> {
        let mut rest = bytes;
        while let Some(end) = rest.iter().position(|byte| *byte == 0) {
            if is_of_lines(&rest[..end]) {
                self.keep(&rest[..end])?;
            }
            rest = &rest[end + 1..];
        }
        Ok(())
    }

    /// Keeps the name, if it is among the first ones behind those that were given.
    fn keep(&mut self, name: &[u8]) -> Result<(), AllocError> {
        if let Some(behind) = &self.behind
            && name <= behind.as_slice()
        {
            return Ok(());
        }
        if self.waiting.len() >= MOST {
            self.has_more = true;
            if name >= self.waiting[0].as_slice() {
                return Ok(());
            }
            self.waiting.remove(0);
        }
        let place = self
            .waiting
            .partition_point(|other| other.as_slice() >= name);
        let name = Vec::from_slice(self.alloc, name)?;
        self.waiting.insert(place, name)?;
        Ok(())
    }

    /// All names of the folder were given, if none is left.
    pub(crate) fn end(&mut self) {
        if self.waiting.is_empty() {
            self.behind = None;
            self.is_through = true;
        }
    }

    /// The next name. Behind the last that waits come those for which there was no room.
    pub(crate) fn next(&mut self) -> Result<Option<Vec<u8>>, AllocError> {
        let Some(name) = self.waiting.pop() else {
            return Ok(None);
        };
        if self.has_more && self.waiting.is_empty() {
            self.behind = Some(Vec::from_slice(self.alloc, &name)?);
            self.has_more = false;
        } else {
            self.end();
        }
        Ok(Some(name))
    }
}

/// Whether a file of this name is one of lines: it ends in `.lines`, and does not begin with a dot,
/// so that it can be written under such a name and then renamed.
pub(crate) fn is_of_lines(name: &[u8]) -> bool
    ensures { IsTrue result ↔ IsOfLines name.now }
{
    if name.len() < ENDING.len() || name[0] == b'.' {
        return false;
    }
    is_ending(name.split_at(name.len() - ENDING.len()).1)
}

/// Whether it is the ending of files of lines.
fn is_ending(bytes: &[u8]) -> bool
    ensures { result ≡ str_eq_ignore_ascii_case bytes.now (codes ".lines") }
{
    bytes.eq_ignore_ascii_case(ENDING)
}

/// The name as a text that would stand in one line of the log; or why it is none.
pub(crate) fn plain_text(name: &[u8]) -> Result<&str, Why>
    ensures { MatchResult result (λ text. (text.now ≡ name.now) × IsPlain name.now)
        (λ _. ¬ (IsPlain name.now)) }
{
    match from_utf8(name) {
        Ok(text) if is_plain(name) => Ok(text),
        Ok(_) => Err(Why::Control),
        Err(_) => Err(Why::NotUtf8),
    }
}

/// Whether none of the bytes is a control character.
fn is_plain(name: &[u8]) -> bool
    ensures { IsTrue result ↔ All (λ byte. (32 ≤ byte) × (byte ≢ 127)) name.now }
{
    name.iter().all(|byte| *byte >= b' ' && *byte != 0x7F)
}
