//! A file's disk from its opening on.
ghost use Rattle.std.specs.Prelude.{◌≡◌, Bool, true, false, IfOk};
ghost use Rattle.disk_store.specs.Beginning.{BeginWith, IsFirst, first_calls};
ghost use Rattle.disk_store.specs.File.{calls_on, file_state};

use super::files::DiskFiles;
use super::{FailedOpening, FileDiskFrom, Start};
use disk_model::{Disk, DiskFault};
use std::marker::PhantomData;

/// Whether a file was made, or was there and was opened. A word of contracts.
pub trait Beginning: Drop {
    ghost is_new: { Bool };
}

/// The file was there, and was opened.
#[derive(Drop)]
pub struct WasThere;

impl Beginning for WasThere {
    ghost is_new = { false };
}

/// The file was made.
#[derive(Drop)]
pub struct WasMade;

impl Beginning for WasMade {
    ghost is_new = { true };
}

/// The disk of a file whose calls begin with those of its making or opening: whatever is called on
/// it, they stay.
#[derive(Drop)]
pub struct BegunFile<S: Start, K: Beginning> {
    pub disk: FileDiskFrom<S>,
    pub beginning: PhantomData<K>,
    ghost begins: { BeginWith (first_calls K.Beginning.is_new (file_state disk).len)
        (calls_on disk) },
}

impl<S: Start, K: Beginning> Disk for BegunFile<S, K> {
    ghost use Rattle.disk_store.specs.FileSound.{file_sound};
    ghost use Rattle.disk_store.specs.Begun.{begun_state};

    ghost state = { begun_state };

    ghost sound = { λ file honest. file_sound file.disk };

    fn len(&self) -> u64 {
        self.disk.len()
    }

    fn read(&mut self, at: u64, out: &mut [u8]) -> Result<(), DiskFault> {
        self.disk.read(at, out)
    }

    fn write(&mut self, at: u64, bytes: &[u8]) -> Result<(), DiskFault> {
        self.disk.write(at, bytes)
    }

    fn sync(&mut self) -> Result<(), DiskFault> {
        self.disk.sync()
    }
}

/// Opens the file at the path as a disk.
pub fn open_file<S: Start, M: DiskFiles<File = S::File>>(
    rt: &M,
    path: &str,
    start: S,
) -> Result<BegunFile<S, WasThere>, FailedOpening<S>>
    ensures first { IfOk result (λ file. IsFirst false file.disk) }
{
    Ok(BegunFile {
        disk: FileDiskFrom::open_from(rt, path, start)?,
        beginning: PhantomData,
    })
}

/// Makes a new file of so many zeros, as a disk.
pub fn make_file<S: Start, M: DiskFiles<File = S::File>>(
    rt: &M,
    path: &str,
    len: u64,
    start: S,
) -> Result<BegunFile<S, WasMade>, FailedOpening<S>>
    ensures first { IfOk result (λ file. IsFirst true file.disk) }
    ensures len { IfOk result (λ file. (file_state file.disk).len ≡ len) }
{
    Ok(BegunFile {
        disk: FileDiskFrom::create_from(rt, path, len, start)?,
        beginning: PhantomData,
    })
}
