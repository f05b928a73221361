//! What a program asks of a system about its files.
ghost use Rattle.std.specs.Prelude.{◌≡◌, ◌≤◌, List, [], ◌∷◌, ◌++◌, IfOk, length};
ghost use Rattle.mot_files.specs.Call.{Call, closed, followed, locked, looked, looked_at, opened};
ghost use Rattle.mot_files.specs.Call.{peeked, read, removed, renamed, resolved, synced, told_time};
ghost use Rattle.mot_files.specs.Call.{told_terminal, wrote};
ghost use Rattle.mot_files.specs.Stamping.{stamp_of};

use crate::call_log::CallLog;
use std::io::{self, ErrorKind};

/// The number of what is open. It means what the system says that handed it out.
#[derive(Clone, Copy, PartialEq, Eq)]
pub struct Handle {
    /// Its place among what is open.
    pub slot: u64,
}

/// What a name or a handle stands for.
#[derive(Clone, Copy, PartialEq, Eq)]
pub enum Kind {
    /// A regular file.
    File,
    /// A folder.
    Folder,
    /// A symbolic link.
    Link,
    /// A named pipe.
    Pipe,
    /// Anything else: a socket or a device.
    Special,
}

/// A moment, in nanoseconds since one long ago.
#[derive(Clone, Copy, PartialEq, Eq)]
pub struct Time {
    /// How many.
    pub nanos: u128,
}

/// What the system says of a file.
#[derive(Clone, Copy)]
pub struct FileStat {
    /// What it is.
    pub kind: Kind,
    /// The device that it stands on.
    pub device: u64,
    /// Its number there.
    pub number: u64,
    /// How many bytes it has.
    pub len: u64,
    /// When its bytes were changed last.
    pub written: Time,
    /// When anything of it was changed last.
    pub changed: Time,
    /// The number of the block device that it stands for, if it stands for one.
    pub block: Option<u64>,
}

/// What tells a file from every other one, and from itself once it was changed. That a file with the
/// stamp that it had has the bytes that it had is believed of the system, and not proved:
/// docs/DISK_MODEL.md says where it is wrong.
#[derive(Clone, Copy, PartialEq, Eq)]
pub struct Stamp {
    /// The device that it stands on.
    pub device: u64,
    /// Its number there.
    pub number: u64,
    /// How many bytes it has.
    pub len: u64,
    /// When its bytes were changed last.
    pub written: Time,
    /// When anything of it was changed last.
    pub changed: Time,
}

impl Stamp {
    /// That of the file of which the system says this.
    pub fn of(seen: &FileStat) -> Stamp
        ensures { result ≡ stamp_of seen.now }
    {
        Stamp {
            device: seen.device,
            number: seen.number,
            len: seen.len,
            written: seen.written,
            changed: seen.changed,
        }
    }
}

/// Why a call was refused.
#[derive(Clone, Copy)]
pub enum Fault {
    /// Nothing stands at the path, which the system said so.
    Absent(io::Error),
    /// Another program holds the lock.
    Busy,
    /// For another reason.
    System(io::Error),
}

impl Fault {
    /// What the system said.
    pub fn error(self) -> io::Error {
        match self {
            Fault::Absent(error) | Fault::System(error) => error,
            Fault::Busy => io::Error::from(ErrorKind::WouldBlock),
        }
    }
}

/// How a path is opened.
#[derive(Clone, Copy)]
pub enum How {
    /// What is there, to be read.
    Read,
    /// A file that was not there, to be read and written.
    New,
    /// A pipe or a device that is there, to be read and written: so its opening waits for no other
    /// program.
    Stream,
    /// A folder, whose names are read.
    Folder,
    /// Standard output, whatever the path is.
    Output,
}

/// What a part of a command has a system of its own for.
#[derive(Clone, Copy)]
pub enum Part {
    /// The folder of objects.
    Folder,
    /// The folder of lines.
    Lines,
    /// What takes the packets.
    Packets,
    /// The file of the status.
    Status,
}

/// A call and its answer. Its bytes, and the path or the paths, stand beside it.
#[derive(Clone, Copy)]
pub enum Event {
    /// What a path names; a link is not followed.
    Looked(Result<FileStat, Fault>),
    /// What a path names, or what a link there leads to.
    Followed(Result<FileStat, Fault>),
    /// The path without links of what a path names: so many bytes, which come first.
    Resolved(Result<usize, Fault>),
    /// A path was opened.
    Opened(How, Result<Handle, Fault>),
    /// What a handle stands for.
    LookedAt(Handle, Result<FileStat, Fault>),
    /// So many bytes were read of it.
    Read(Handle, Result<usize, Fault>),
    /// So many of its first bytes were asked for, and so many came; what is read next stays.
    Peeked(Handle, usize, Result<usize, Fault>),
    /// These bytes were to be written to it, and so many were.
    Wrote(Handle, Result<usize, Fault>),
    /// Whether it is a terminal.
    IsTerminal(Handle, bool),
    /// Its lock was taken, which shows other programs that it is written.
    Locked(Handle, Result<(), Fault>),
    /// It was made to last.
    Synced(Handle, Result<(), Fault>),
    /// It was closed.
    Closed(Handle),
    /// A path took the place of another.
    Renamed(Result<(), Fault>),
    /// A path was removed.
    Removed(Result<(), Fault>),
    /// The time of day.
    Told(Option<Time>),
    /// A path was opened as a disk, whose calls are in its own log; whether it was.
    OpenedDisk(bool),
    /// A new file was made at a path as a disk; whether it was.
    MadeDisk(bool),
    /// For this part a path was given to a system of its own, which has its own log.
    Apart(Part),
}

/// A system of files. Each call is noted, with its answer.
pub trait System {
    // The calls so far, the first of them first.
    ghost calls: { Self → List Call };

    /// What the path names. A link is not followed.
    fn look(&mut self, path: &str) -> Result<FileStat, Fault>
        ensures { calls self.new ≡ calls self.old ++ looked path.now result ∷ [] };

    /// What the path names, or what a link there leads to.
    fn follow(&mut self, path: &str) -> Result<FileStat, Fault>
        ensures { calls self.new ≡ calls self.old ++ followed path.now result ∷ [] };

    /// The path from the topmost folder, without links, of what the path names; how many bytes it
    /// has.
    fn resolve(&mut self, path: &str, room: &mut [u8]) -> Result<usize, Fault>
        ensures fits { IfOk result (λ count. count ≤ length room.new) }
        ensures noted { calls self.new ≡ calls self.old ++ resolved path.now room.new result ∷ [] };

    /// Opens what the path names.
    fn open(&mut self, path: &str, how: How) -> Result<Handle, Fault>
        ensures { calls self.new ≡ calls self.old ++ opened path.now how result ∷ [] };

    /// What the handle stands for.
    fn look_at(&mut self, handle: Handle) -> Result<FileStat, Fault>
        ensures { calls self.new ≡ calls self.old ++ looked_at handle result ∷ [] };

    /// The next bytes, or names, each ended by a zero byte; how many bytes they are.
    fn read(&mut self, handle: Handle, room: &mut [u8]) -> Result<usize, Fault>
        ensures fits { IfOk result (λ count. count ≤ length room.new) }
        ensures noted { calls self.new ≡ calls self.old ++ read handle room.new result ∷ [] };

    /// Its first bytes, and how many they are. What is read next stays the same.
    fn peek(&mut self, handle: Handle, room: &mut [u8]) -> Result<usize, Fault>
        ensures fits { IfOk result (λ count. count ≤ length room.new) }
        ensures noted { calls self.new
            ≡ calls self.old ++ peeked handle (length room.old) room.new result ∷ [] };

    /// Writes these bytes, or the first of them, in one write; how many it took.
    fn write(&mut self, handle: Handle, bytes: &[u8]) -> Result<usize, Fault>
        ensures fits { IfOk result (λ count. count ≤ length bytes.now) }
        ensures noted { calls self.new ≡ calls self.old ++ wrote handle bytes.now result ∷ [] };

    /// Whether it is a terminal.
    fn is_terminal(&mut self, handle: Handle) -> bool
        ensures { calls self.new ≡ calls self.old ++ told_terminal handle result ∷ [] };

    /// Takes its lock: `Busy` if another program has it.
    fn lock(&mut self, handle: Handle) -> Result<(), Fault>
        ensures { calls self.new ≡ calls self.old ++ locked handle result ∷ [] };

    /// Makes it last: its bytes, or the names of a folder.
    fn sync(&mut self, handle: Handle) -> Result<(), Fault>
        ensures { calls self.new ≡ calls self.old ++ synced handle result ∷ [] };

    /// The first path takes the place of the second.
    fn rename(&mut self, from: &str, to: &str) -> Result<(), Fault>
        ensures { calls self.new ≡ calls self.old ++ renamed from.now to.now result ∷ [] };

    /// Removes the file of this path.
    fn remove(&mut self, path: &str) -> Result<(), Fault>
        ensures { calls self.new ≡ calls self.old ++ removed path.now result ∷ [] };

    /// Closes it.
    fn close(&mut self, handle: Handle)
        ensures { calls self.new ≡ calls self.old ++ closed handle ∷ [] };

    /// The time of day, if it is known.
    fn now(&mut self) -> Option<Time>
        ensures { calls self.new ≡ calls self.old ++ told_time result ∷ [] };

    /// Takes these calls into the log after its own. They were made elsewhere, for the same command.
    fn take_in(&mut self, more: CallLog)
        ensures { calls self.new ≡ calls self.old ++ more.all };

    /// The calls so far, as a list that only clauses read. No more are made.
    fn into_calls(self) -> CallLog
        ensures { result.all ≡ calls self };
}
