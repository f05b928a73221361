//! The types of data groups.
ghost use Rattle.std.specs.Prelude.{◌≡◌};

/// What an MSC data group carries a segment of, as its type says (EN 300 401, clause 5.3.3;
/// EN 301 234).
#[derive(Clone, Copy, Debug, PartialEq, Eq)]
pub enum GroupKind {
    /// An object's body, unscrambled.
    Body,
    /// The carousel's directory, uncompressed.
    Directory,
}

impl GroupKind {
    ghost use Rattle.mot_numbers.specs.PacketLength.{kind_number};

    /// The data group type: 4 for a body, 6 for a directory.
    pub fn number(self) -> u8
        ensures { result ≡ kind_number self }
    {
        match self {
            GroupKind::Body => 4,
            GroupKind::Directory => 6,
        }
    }
}
