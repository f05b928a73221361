//! Which program this is.

use std::env::current_exe;
use std::fs::read_to_string;
use std::io::{self, Write};

/// The version, as it is printed.
const VERSION: &str = "motcar 0.3.0\n";

/// Where an installation notes the version, the commit and the toolchain that proved it: from the
/// folder of the program on.
const NOTE: &str = "../share/motcar/VERSION";

/// Prints the version, and below it the note of the installation about this version. No constant of
/// the program could have the note, since it is known once the program was proved and built.
pub(crate) fn print_version<W: Write>(rt: &HostRuntime, writer: &mut W) -> io::Result<()> {
    match read_note(rt) {
        Ok(note) if note.as_str().starts_with(VERSION) => print(writer, note.as_str()),
        _ => print(writer, VERSION),
    }
}

/// Prints a text, and flushes the writer.
fn print<W: Write>(writer: &mut W, text: &str) -> io::Result<()> {
    writer.write_all(text.as_bytes())?;
    writer.flush()
}

/// The note that stands beside the program.
fn read_note(rt: &HostRuntime) -> io::Result<String> {
    let mut path = current_exe(rt)?;
    path.pop();
    let path = path.join(rt.alloc(), NOTE)?;
    read_to_string(rt, path.as_str())
}
