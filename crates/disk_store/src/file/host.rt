//! The files of this machine as disks. Each method makes the one call of its name.
use super::files::{DiskFile, DiskFileStat, DiskFiles};
use sqlite_std_file::OpenError;
use std::alloc::Global;
use std::fs::{self, File, Metadata, OpenOptions, TryLockError};
use std::io::{self, ErrorKind, Seek, SeekFrom};
use std::os::unix::fs::{FileExt, FileTypeExt, MetadataExt};
use std::path::Path;

impl DiskFile for File {
    fn try_lock(&self) -> Result<(), TryLockError> {
        self.try_lock()
    }

    fn facts(&self) -> io::Result<DiskFileStat> {
        Ok(facts_of(&self.metadata()?))
    }

    fn length(&mut self) -> io::Result<u64> {
        self.seek(SeekFrom::End(0))
    }

    fn read_exact_at(&self, out: &mut [u8], at: u64) -> io::Result<()> {
        FileExt::read_exact_at(self, out, at)
    }

    fn write_all_at(&self, bytes: &[u8], at: u64) -> io::Result<()> {
        FileExt::write_all_at(self, bytes, at)
    }

    fn sync_all(&self) -> io::Result<()> {
        self.sync_all()
    }

    fn sync_data(&self) -> io::Result<()> {
        self.sync_data()
    }
}

/// What the system says.
fn facts_of(found: &Metadata) -> DiskFileStat {
    DiskFileStat {
        is_file: found.is_file(),
        is_block_device: found.file_type().is_block_device(),
        names: found.nlink(),
        len: found.len(),
    }
}

/// The files of the machine that the program runs on.
#[derive(Clone, Copy)]
pub struct HostFiles<'a> {
    /// What makes the calls.
    pub rt: &'a HostRuntime,
}

impl<'a> DiskFiles for HostFiles<'a> {
    type File = File;

    fn open_disk(&self, path: &str) -> io::Result<File> {
        OpenOptions::new()
            .read(true)
            .write(true)
            .open(self.rt, path)
    }

    fn make_disk(&self, path: &str) -> io::Result<File> {
        OpenOptions::new()
            .read(true)
            .write(true)
            .create_new(true)
            .open(self.rt, path)
    }

    fn drop_cached(&self, file: &File, path: &str) -> io::Result<()> {
        if file.metadata()?.file_type().is_block_device() {
            return Ok(());
        }
        let real = fs::canonicalize(self.rt, path)?;
        match sqlite_std_file::open(self.rt, real.as_str(), sqlite_std_file::Unknown) {
            Ok(_) => Ok(()),
            Err(OpenError::Io(error)) => Err(error),
            Err(OpenError::OutOfMemory) => Err(ErrorKind::OutOfMemory.into()),
            Err(OpenError::Busy) => Err(ErrorKind::ResourceBusy.into()),
            Err(OpenError::HotJournal) => Err(ErrorKind::AlreadyExists.into()),
        }
    }

    fn sync_folder_of(&self, path: &str) -> io::Result<()> {
        let folder = match Path::new(path).parent() {
            Some(folder) if folder.as_str() != "" => File::open(self.rt, folder)?,
            _ => File::open(self.rt, ".")?,
        };
        folder.sync_all()
    }

    fn real_path(&self, path: &str) -> io::Result<String> {
        let real = fs::canonicalize(self.rt, path)?;
        Ok(String::from_str(self.rt.alloc(), real.as_str())?)
    }

    fn facts_at(&self, path: &str) -> io::Result<DiskFileStat> {
        Ok(facts_of(&fs::symlink_metadata(self.rt, path)?))
    }

    fn remove_disk(&self, path: &str) -> io::Result<()> {
        fs::remove_file(self.rt, path)
    }

    fn heap(&self) -> Global {
        self.rt.alloc()
    }
}
