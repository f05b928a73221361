//! Why a file is not opened or made as a disk.
ghost use Rattle.std.specs.Prelude.{◌≡◌};

use crate::DiskFault;
use std::fmt::{self, Display, Formatter, Write};
use std::io::{self, ErrorKind};

/// Why a file was not opened or made as a disk.
#[derive(Clone, Copy, Debug)]
pub enum OpenFault {
    /// The system refused a call, for this reason.
    System(io::Error),
    /// The system refused what an opening does by the empty file beside it, for this reason.
    Beside(io::Error),
    /// Another opening of the file lives, in this program or another one.
    InUse,
    /// It is neither a regular file nor a block device.
    NoDisk,
    /// The file has a second name.
    SecondName,
}

/// In the system's words, without its number for them.
impl Display for OpenFault {
    fn fmt<W: fmt::Write>(&self, f: &mut Formatter<W>) -> fmt::Result {
        match self {
            OpenFault::System(error) => write_reason(error, f),
            OpenFault::Beside(error) => write_reason_beside(error, f),
            OpenFault::InUse => f.pad("in use by another program"),
            OpenFault::NoDisk => f.pad("neither a regular file nor a block device"),
            OpenFault::SecondName => f.pad("the file has a second name (a hard link)"),
        }
    }
}

/// What the opening of the file beside a disk answers has no number of the system if it is that
/// opening's own answer.
fn write_reason_beside<W: fmt::Write>(error: &io::Error, f: &mut Formatter<W>) -> fmt::Result {
    match error.kind() {
        ErrorKind::AlreadyExists if error.raw_os_error().is_none() => f.pad("a file is there"),
        ErrorKind::Unsupported if error.raw_os_error().is_none() => {
            f.pad("not a regular file of one name")
        }
        _ => write_reason(error, f),
    }
}

fn write_reason<W: fmt::Write>(error: &io::Error, f: &mut Formatter<W>) -> fmt::Result {
    let mut words = Words {
        bytes: [0; MOST_WORDS],
        len: 0,
    };
    write!(words, "{error}")?;
    f.pad(words.without_number())
}

/// The longest text of an error that is kept whole.
const MOST_WORDS: usize = 256;

/// The first bytes of a text.
#[derive(Drop)]
struct Words {
    bytes: [u8; MOST_WORDS],
    len: usize,
}

impl Words {
    /// The text, without the number that ends the words of the system.
    fn without_number(&self) -> &str {
        let end = self.len.min(MOST_WORDS);
        let text = str::from_utf8(&self.bytes[..end]).unwrap_or("");
        text.split_once(" (os error ")
            .map_or(text, |(words, _)| words)
    }
}

impl Write for Words {
    fn write_str(&mut self, text: &str) -> fmt::Result {
        for byte in text.as_bytes() {
            if self.len < MOST_WORDS {
                self.bytes[self.len] = *byte;
                self.len += 1;
            }
        }
        Ok(())
    }
}

impl From<io::Error> for OpenFault {
    fn from(error: io::Error) -> OpenFault {
        OpenFault::System(error)
    }
}

impl From<OpenFault> for DiskFault {
    fn from(_fault: OpenFault) -> DiskFault {
        DiskFault
    }
}
