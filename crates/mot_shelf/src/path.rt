//! The path of a name in a folder, in room that is taken once: so no call fails for want of memory.
ghost use Rattle.std.specs.Prelude.{◌≡◌, ◌≢◌, ◌<◌, ℕ, IsUtf8, MatchResult, true, false, length};
ghost use Rattle.mot_files.specs.Listing.{path_in};
ghost use Rattle.mot_files.specs.declared.reading.ReadFailure.TheVariants.{TooLong, Young};
ghost use Rattle.mot_shelf.specs.Inner.{IsWithoutPath};

use arrayvec::ArrayString;
use mot_files::{Fault, ReadFailure};
use std::io::{self, ErrorKind};
use std::str::from_utf8;

/// How many bytes the longest path has that a system takes.
pub const LONGEST_PATH: usize = 4_095;

/// Room for a path.
pub(crate) type PathRoom = ArrayString<LONGEST_PATH>;

/// Why a name in a folder has no path.
#[derive(Clone, Copy)]
pub(crate) enum NoPath {
    /// The name is no text.
    NoText,
    /// The path is longer than any that a system takes.
    TooLong,
}

impl NoPath {
    /// What the system would say.
    pub(crate) fn error(self) -> io::Error {
        io::Error::from(ErrorKind::InvalidFilename)
    }

    /// Why a file of the name is not read.
    pub(crate) fn unread(self) -> ReadFailure
        ensures young { result ≢ Young }
        ensures long { (count : ℕ) → result ≢ TooLong count }
    {
        match self {
            NoPath::NoText => ReadFailure::Changed,
            NoPath::TooLong => ReadFailure::System(Fault::System(self.error())),
        }
    }
}

/// Makes it the path of this name in the folder.
pub(crate) fn set_path(room: &mut PathRoom, folder: &str, name: &[u8]) -> Result<(), NoPath>
    ensures { MatchResult result
        (λ _. IsUtf8 name.now × (room.new.bytes ≡ path_in folder.now name.now))
        (λ why. IsWithoutPath folder.now name.now why) }
{
    let Ok(name) = from_utf8(name) else {
        return Err(NoPath::NoText);
    };
    if join(room, folder, name) {
        Ok(())
    } else {
        Err(NoPath::TooLong)
    }
}

/// Makes it the folder's path, a slash and the name, if it has room for them.
fn join(room: &mut PathRoom, folder: &str, name: &str) -> bool
    ensures joined { result ≡ true → room.new.bytes ≡ path_in folder.now name.now }
    ensures long { result ≡ false → LONGEST_PATH < length (path_in folder.now name.now) }
{
    room.clear();
    let Ok(()) = room.try_push_str(folder) else {
        return false;
    };
    let Ok(()) = room.try_push_str("/") else {
        return false;
    };
    let Ok(()) = room.try_push_str(name) else {
        return false;
    };
    true
}
