//! A name that is told, as long as it is short.
ghost use Rattle.std.specs.Prelude.{◌≡◌, ◌≤◌, length, min, take};
ghost use Rattle.mot_devices.specs.declared.short_name.TheConstants.{LONGEST};

use std::fmt::{self, Display, Formatter};
use std::str::from_utf8;

/// The most bytes of a name that are kept.
pub const LONGEST: usize = 255;

/// The first bytes of a name.
#[derive(Clone, Copy, Debug)]
pub struct ShortName {
    bytes: [u8; LONGEST],
    len: usize,
    ghost fits: { len ≤ 255 },
}

impl ShortName {
    ghost use Rattle.mot_devices.specs.Tables.{short_bytes};

    /// Of a name of these bytes.
    pub fn of(name: &[u8]) -> ShortName
        ensures { short_bytes result ≡ take LONGEST name.now }
    {
        let mut bytes = [0; LONGEST];
        let len = copy(name, &mut bytes);
        ShortName { bytes, len }
    }
}

/// Copies as many first bytes of a name as the room has, and answers how many.
fn copy(name: &[u8], room: &mut [u8]) -> usize
    ensures len { result ≡ min (length room.old) (length name.now) }
    ensures room { length room.new ≡ length room.old }
    ensures bytes { take result room.new ≡ take result name.now }
{
    let len = room.len().min(name.len());
    room[..len].copy_from_slice(&name[..len]);
    len
}

impl Display for ShortName {
    fn fmt<W: fmt::Write>(&self, f: &mut Formatter<W>) -> fmt::Result {
        match from_utf8(&self.bytes[..self.len]) {
            Ok(name) => f.pad(name),
            Err(_) => f.pad("a name that is no text"),
        }
    }
}
