//! The calls that the machine takes, and with which numbers of the system each may fail.

/// A call on the machine.
#[derive(Clone, Copy, PartialEq, Eq)]
pub enum Call {
    /// What a path names.
    Look,
    /// What a path names, or what a link there leads to.
    Follow,
    /// The path without links.
    Resolve,
    /// A path is opened.
    Open,
    /// A file is made.
    OpenNew,
    /// A folder is opened, whose names are read.
    OpenNames,
    /// What a handle stands for.
    LookAt,
    /// The next bytes.
    Read,
    /// The next names.
    ReadNames,
    /// The first bytes.
    Peek,
    /// Bytes are written to a file or to standard output.
    Write,
    /// Bytes are written to a pipe.
    Send,
    /// Whether it is a terminal.
    IsTerminal,
    /// The lock of a file is taken.
    Lock,
    /// A file or a folder is made to last.
    Sync,
    /// A path takes the place of another.
    Rename,
    /// A path is removed.
    Remove,
    /// A handle is closed.
    Close,
    /// The time of day.
    Now,
    /// A path is opened as a disk.
    OpenDisk,
    /// A file is made as a disk.
    MakeDisk,
    /// The lock of a disk is taken.
    LockDisk,
    /// What the system keeps of a disk is dropped.
    DropCached,
    /// The names of the folder of a disk are made to last.
    SyncFolderOf,
    /// The path of a disk without links.
    RealPath,
    /// What the path of a disk names.
    FactsAt,
    /// The file of a disk is removed.
    RemoveDisk,
    /// What an open disk is, or its length.
    DiskFacts,
    /// Bytes of a disk are read.
    DiskRead,
    /// Bytes of a disk are written.
    DiskWrite,
    /// A disk is made to last.
    DiskSync,
}

/// The calls.
pub const CALLS: &[Call] = &[
    Call::Look,
    Call::Follow,
    Call::Resolve,
    Call::Open,
    Call::OpenNew,
    Call::OpenNames,
    Call::LookAt,
    Call::Read,
    Call::ReadNames,
    Call::Peek,
    Call::Write,
    Call::Send,
    Call::IsTerminal,
    Call::Lock,
    Call::Sync,
    Call::Rename,
    Call::Remove,
    Call::Close,
    Call::Now,
    Call::OpenDisk,
    Call::MakeDisk,
    Call::LockDisk,
    Call::DropCached,
    Call::SyncFolderOf,
    Call::RealPath,
    Call::FactsAt,
    Call::RemoveDisk,
    Call::DiskFacts,
    Call::DiskRead,
    Call::DiskWrite,
    Call::DiskSync,
];

/// No permission.
pub(crate) const ACCESS: i32 = 13;
/// The lock is held.
pub(crate) const AGAIN: i32 = 11;
/// In use.
const BUSY: i32 = 16;
/// Above the user's share of the room.
const QUOTA: i32 = 122;
/// A signal came.
const INTERRUPTED: i32 = 4;
/// The device failed.
pub(crate) const INPUT_OUTPUT: i32 = 5;
/// A folder is no file.
pub(crate) const IS_FOLDER: i32 = 21;
/// Nothing can be made to last there.
pub(crate) const INVALID: i32 = 22;
/// Too many open files of the program.
const MANY_FILES: i32 = 24;
/// No memory.
pub(crate) const MEMORY: i32 = 12;
/// No room on the device.
pub(crate) const ROOM: i32 = 28;
/// It can be read alone.
const READ_ONLY: i32 = 30;
/// Links that lead in a circle.
const LINKS: i32 = 40;
/// The reader of the pipe is gone.
pub(crate) const PIPE: i32 = 32;
/// The handle's file is gone.
pub(crate) const STALE: i32 = 116;

impl Call {
    /// Its name.
    pub fn name(self) -> &'static str {
        match self {
            Call::Look => "look",
            Call::Follow => "follow",
            Call::Resolve => "resolve",
            Call::Open => "open",
            Call::OpenNew => "open new",
            Call::OpenNames => "open names",
            Call::LookAt => "look_at",
            Call::Read => "read",
            Call::ReadNames => "read names",
            Call::Peek => "peek",
            Call::Write => "write",
            Call::Send => "send",
            Call::IsTerminal => "is_terminal",
            Call::Lock => "lock",
            Call::Sync => "sync",
            _ => self.further_name(),
        }
    }

    fn further_name(self) -> &'static str {
        match self {
            Call::Rename => "rename",
            Call::Remove => "remove",
            Call::Close => "close",
            Call::Now => "now",
            Call::OpenDisk => "open disk",
            Call::MakeDisk => "make disk",
            Call::LockDisk => "lock disk",
            Call::DropCached => "drop cached",
            Call::SyncFolderOf => "sync folder of",
            Call::RealPath => "real path",
            Call::FactsAt => "facts at",
            Call::RemoveDisk => "remove disk",
            Call::DiskFacts => "disk facts",
            Call::DiskRead => "disk read",
            Call::DiskWrite => "disk write",
            _ => "disk sync",
        }
    }

    /// Whether it is one on an open disk.
    pub fn is_of_disk(self) -> bool {
        match self {
            Call::DiskFacts | Call::DiskRead | Call::DiskWrite | Call::DiskSync => true,
            _ => false,
        }
    }

    /// The numbers of the system with which it may fail. That what is there was gone is none of them.
    pub(crate) fn codes(self) -> &'static [i32] {
        match self {
            Call::Look | Call::FactsAt => &[ACCESS, INPUT_OUTPUT, MEMORY, STALE],
            Call::Follow | Call::Resolve | Call::RealPath => &[ACCESS, INPUT_OUTPUT, MEMORY, LINKS],
            Call::Open | Call::OpenNames | Call::OpenDisk => {
                &[ACCESS, INPUT_OUTPUT, MEMORY, INTERRUPTED, MANY_FILES, STALE]
            }
            Call::OpenNew | Call::MakeDisk => &[ACCESS, ROOM, MEMORY, READ_ONLY, QUOTA, MANY_FILES],
            Call::LookAt => &[INPUT_OUTPUT, STALE],
            Call::Read | Call::ReadNames | Call::Peek => &[
                INPUT_OUTPUT,
                INTERRUPTED,
                STALE,
                MEMORY,
            ],
            Call::Write => &[ROOM, INPUT_OUTPUT, INTERRUPTED, QUOTA, STALE],
            Call::Send => &[PIPE, INTERRUPTED, MEMORY],
            Call::Lock | Call::LockDisk => &[INTERRUPTED, MEMORY],
            Call::Sync | Call::SyncFolderOf => &[INPUT_OUTPUT, ROOM, QUOTA],
            Call::Rename | Call::Remove | Call::RemoveDisk => {
                &[ACCESS, INPUT_OUTPUT, READ_ONLY, BUSY, ROOM, STALE]
            }
            Call::DiskWrite => &[INPUT_OUTPUT, ROOM],
            _ => &[INPUT_OUTPUT],
        }
    }
}
