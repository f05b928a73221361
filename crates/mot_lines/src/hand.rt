//! The line in hand, of which a part was read.
ghost use Rattle.std.specs.Prelude.{◌≡◌, ℕ, ◌↔◌, ◌++◌, List, [], IfOk, IsTrue};

use crate::MAX_LINE;
use std::alloc::{AllocError, Global};
use std::marker::Model;

/// How many first bytes are kept of a line: one more than the longest line has, so that these are
/// refused if the line is.
const KEPT: usize = MAX_LINE + 1;

/// The line that is being read, with room for what is kept of it.
#[derive(Drop)]
pub struct Hand {
    bytes: Vec<u8>,
}

impl Model for Hand {
    ghost use Rattle.std.specs.Prelude.{ℕ, ◌≤◌, ◌+◌, List, vec_len, vec_capacity};
    ghost use Rattle.mot_lines.specs.declared.line.TheConstants.{MAX_LINE};

    ghost Value = { List ℕ };

    ghost view = { λ hand. hand.bytes.items };

    ghost invariant = { λ hand. (MAX_LINE + 1 ≤ vec_capacity hand.bytes)
        × (vec_len hand.bytes ≤ MAX_LINE + 1) };
}

impl Hand {
    ghost use Rattle.mot_lines.specs.Lines.{bytes_in_hand};
    ghost use Rattle.mot_lines.specs.Line.{line_of};

    /// An empty line. It takes the memory for the longest one.
    pub fn new(alloc: Global) -> Result<Self, AllocError>
        ensures { IfOk result (λ hand. hand ≡ bytes_in_hand []) }
    {
        let bytes = Vec::with_capacity(alloc, KEPT)?;
        Ok(Hand { bytes })
    }

    /// Adds these bytes to the line. It takes no memory: of a line above the longest its first
    /// 530,001 bytes are kept.
    pub fn add(&mut self, bytes: &[u8])
        ensures { (line : List ℕ) → self.old ≡ bytes_in_hand line
            → self.new ≡ bytes_in_hand (line ++ bytes.now) }
    {
        let count = bytes.len().min(KEPT - self.bytes.len());
        self.bytes.extend_from_slice(&bytes[..count]).unwrap();
    }

    /// Begins the next line.
    pub fn clear(&mut self)
        ensures { self.new ≡ bytes_in_hand [] }
    {
        self.bytes.clear();
    }

    /// Whether nothing of the line has come.
    pub fn is_empty(&self) -> bool
        ensures { (line : List ℕ) → self.now ≡ bytes_in_hand line → (IsTrue result ↔ (line ≡ [])) }
    {
        self.bytes.is_empty()
    }

    /// The kept bytes of the line. They ask for the same as the whole line does.
    pub fn as_slice(&self) -> &[u8]
        ensures bytes { result.now ≡ self.now }
        ensures asks { (line : List ℕ) → self.now ≡ bytes_in_hand line
            → line_of result.now ≡ line_of line }
    {
        self.bytes.as_slice()
    }
}
