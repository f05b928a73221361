//! What a disk needs of the machine whose file it is: the calls on the open file, and those by its
//! path. No clause says what they answer, so a disk is proved over any machine.
use std::alloc::Global;
use std::fs::TryLockError;
use std::io;

/// What an open file is.
#[derive(Clone, Copy)]
pub struct DiskFileStat {
    /// Whether it is a regular file.
    pub is_file: bool,
    /// Whether it is a block device.
    pub is_block_device: bool,
    /// How many names it has.
    pub names: u64,
    /// How many bytes it has.
    pub len: u64,
}

/// An open file that may be a disk.
pub trait DiskFile: Drop {
    /// Takes its lock.
    fn try_lock(&self) -> Result<(), TryLockError>;

    /// What it is.
    fn facts(&self) -> io::Result<DiskFileStat>;

    /// How long it is; of a device, too.
    fn length(&mut self) -> io::Result<u64>;

    /// Reads the bytes from a position on.
    fn read_exact_at(&self, out: &mut [u8], at: u64) -> io::Result<()>;

    /// Writes these bytes from a position on.
    fn write_all_at(&self, bytes: &[u8], at: u64) -> io::Result<()>;

    /// Makes last what was written, and the length.
    fn sync_all(&self) -> io::Result<()>;

    /// Makes last what was written.
    fn sync_data(&self) -> io::Result<()>;
}

/// The files of a machine, as far as a disk needs them by their paths.
pub trait DiskFiles {
    /// What is open.
    type File: DiskFile;

    /// Opens what is there, to be read and written.
    fn open_disk(&self, path: &str) -> io::Result<Self::File>;

    /// Makes a file that was not there, to be read and written.
    fn make_disk(&self, path: &str) -> io::Result<Self::File>;

    /// Drops what the system keeps of the file of this path in its memory.
    fn drop_cached(&self, file: &Self::File, path: &str) -> io::Result<()>;

    /// Makes the names last of the folder that has this path.
    fn sync_folder_of(&self, path: &str) -> io::Result<()>;

    /// The path without links.
    fn real_path(&self, path: &str) -> io::Result<String>;

    /// What the path names; a link is not followed.
    fn facts_at(&self, path: &str) -> io::Result<DiskFileStat>;

    /// Removes the file of this path.
    fn remove_disk(&self, path: &str) -> io::Result<()>;

    /// The memory that it takes for paths.
    fn heap(&self) -> Global;
}
