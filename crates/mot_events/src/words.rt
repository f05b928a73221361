//! Bytes that are kept.
ghost use Rattle.std.specs.Prelude.{◌≡◌, List, ℕ};

use std::marker::Model;

/// Bytes that are kept: a name, a path, or the system's words.
#[derive(Drop)]
pub struct Words {
    bytes: Vec<u8>,
}

impl Model for Words {
    ghost Value = { List ℕ };

    ghost view = { λ words. words.bytes.items };
}

impl PartialEq for Words {
    ghost use Rattle.std.specs.Prelude.{bytes_eq};
    ghost use Rattle.std.specs.Cmp.Rules.{comparing};
    ghost use Rattle.std.proofs.Common.{rules};

    ghost eq = { bytes_eq };

    ghost laws = { Prim.search (comparing, rules) };

    fn eq(&self, other: &Words) -> bool {
        self.as_bytes() == other.as_bytes()
    }
}

impl Words {
    /// These bytes.
    pub fn new(bytes: Vec<u8>) -> Words
        ensures { result ≡ bytes.items }
    {
        Words { bytes }
    }

    /// The bytes.
    pub fn as_bytes(&self) -> &[u8]
        ensures { result.now ≡ self.now }
    {
        self.bytes.as_slice()
    }
}
