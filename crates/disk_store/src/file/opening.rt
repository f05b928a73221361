//! How a file is opened as a disk, and how a new one is made.
ghost use Rattle.std.specs.Prelude.{◌≡◌, length, option_map, replicate, IfOk};
ghost use Rattle.disk_store.specs.Calls.{content_after, opening_calls, making_calls};
ghost use Rattle.disk_store.specs.Inner.Noting.{HasOnlyOpened};
ghost use Rattle.disk_model.specs.Disk.{IsNew, LeavesAll};
ghost use Rattle.disk_store.specs.File.{file_state, calls_on, fault_on, CanSync};
ghost use Rattle.disk_store.specs.declared.file.fault.OpenFault.TheVariants.{System};

use super::files::DiskFiles;
use super::host::HostFiles;
use super::system::{HeldFile, SideFile};
use super::{FileDisk, FileDiskFrom, OpenFault, Start, Unknown};
use crate::DiskFault;
use crate::call_count::CallCount;
use std::alloc::Global;
use std::io::{self, ErrorKind};
use std::marker::PhantomData;

/// A file that was not opened or made as a disk, and the value that opening it would have used up.
#[derive(Drop)]
pub struct FailedOpening<S: Start> {
    pub start: S,
    pub fault: OpenFault,
}

impl<S: Start> FailedOpening<S> {
    /// A file that was not made, for this reason of the system.
    pub fn of(start: S, error: io::Error) -> FailedOpening<S>
        ensures { result.start ≡ start }
    {
        FailedOpening {
            start,
            fault: OpenFault::System(error),
        }
    }

    /// A file that was not made either, since it could not be opened for this reason. That is the
    /// reason to give, unless there was nothing to open.
    pub fn behind(self, first: OpenFault) -> FailedOpening<S>
        ensures { result.start ≡ self.start }
    {
        let fault = match first {
            OpenFault::System(error) if error.kind() == ErrorKind::NotFound => self.fault,
            _ => first,
        };
        FailedOpening {
            start: self.start,
            fault,
        }
    }
}

impl<S: Start> From<FailedOpening<S>> for DiskFault {
    fn from(unopened: FailedOpening<S>) -> DiskFault {
        DiskFault::from(unopened.fault)
    }
}

impl FileDiskFrom<Unknown> {
    /// Opens a file or a block device that is there, and reads nothing of it but its length. The
    /// bytes that it gives are synced, and come from the device. It fails if the path names nothing
    /// or anything else, if the file may not be read and written or has a second name, and if
    /// another opening of it lives. Of `alloc` it takes nothing.
    pub fn open(rt: &HostRuntime, _alloc: Global, path: &str) -> Result<FileDisk, DiskFault>
        ensures new { IfOk result (λ disk. IsNew (file_state disk).bytes (file_state disk)) }
        ensures can_sync { IfOk result CanSync }
        ensures all { IfOk result (λ disk. LeavesAll (file_state disk)) }

        // The lock comes before the length, so that no other program of ours changes it in between.
        ensures order { IfOk result (λ disk.
            calls_on disk ≡ opening_calls (file_state disk).len) }
    {
        Ok(FileDiskFrom::open_path(&HostFiles { rt }, path)?)
    }

    /// Makes a new file of so many zeros, and opens it. It fails if the path names anything, and
    /// then leaves that as it is; if it fails later, it removes the file again. Each zero is
    /// written, so that the file is not sparse. Of `alloc` it takes nothing.
    pub fn create(
        rt: &HostRuntime,
        _alloc: Global,
        path: &str,
        len: u64,
    ) -> Result<FileDisk, DiskFault>
        ensures new { IfOk result (λ disk. IsNew (replicate len 0) (file_state disk)) }
        ensures can_sync { IfOk result CanSync }
        ensures order { IfOk result (λ disk. calls_on disk ≡ making_calls len) }
    {
        Ok(FileDiskFrom::make_path(&HostFiles { rt }, path, len)?)
    }
}

impl<S: Start> FileDiskFrom<S> {
    /// Opens a file that held what `S` says, as `open` does. The value of `S` is used up, so that
    /// code over any `S` opens or makes one file; it comes back if no file was opened.
    pub fn open_from<M: DiskFiles<File = S::File>>(
        rt: &M,
        path: &str,
        start: S,
    ) -> Result<FileDiskFrom<S>, FailedOpening<S>>
        ensures new { IfOk result (λ disk. IsNew (file_state disk).bytes (file_state disk)) }
        ensures first_bytes { IfOk result (λ disk. (file_state disk).len ≡ length S.Start.bytes
            → (file_state disk).bytes ≡ S.Start.bytes) }
        ensures can_sync { IfOk result CanSync }
        ensures order { IfOk result (λ disk.
            calls_on disk ≡ opening_calls (file_state disk).len) }
    {
        match FileDiskFrom::open_path(rt, path) {
            Ok(disk) => Ok(disk),
            Err(fault) => Err(FailedOpening { start, fault }),
        }
    }

    /// Makes a new file as `create` does, and uses up the value of `S` as `open_from` does.
    pub fn create_from<M: DiskFiles<File = S::File>>(
        rt: &M,
        path: &str,
        len: u64,
        start: S,
    ) -> Result<FileDiskFrom<S>, FailedOpening<S>>
        ensures new { IfOk result (λ disk. IsNew (replicate len 0) (file_state disk)) }
        ensures can_sync { IfOk result CanSync }
        ensures order { IfOk result (λ disk. calls_on disk ≡ making_calls len) }
    {
        match FileDiskFrom::make_path(rt, path, len) {
            Ok(disk) => Ok(disk),
            Err(fault) => Err(FailedOpening { start, fault }),
        }
    }

    /// Opens what stands at the path. The lock comes before all else, so that no other program of
    /// ours changes the file in between. What an earlier one wrote is synced, and what the system
    /// keeps of it dropped, before anything is asked of the file.
    fn open_path<M: DiskFiles<File = S::File>>(
        rt: &M,
        path: &str,
    ) -> Result<FileDiskFrom<S>, OpenFault>
        ensures new { IfOk result (λ disk. IsNew (file_state disk).bytes (file_state disk)) }
        ensures first_bytes { IfOk result (λ disk. (file_state disk).len ≡ length S.Start.bytes
            → (file_state disk).bytes ≡ S.Start.bytes) }
        ensures can_sync { IfOk result CanSync }
        ensures all { IfOk result (λ disk. LeavesAll (file_state disk)) }
        ensures order { IfOk result (λ disk.
            calls_on disk ≡ opening_calls (file_state disk).len) }
    {
        let mut file = HeldFile::lock(rt.open_disk(path)?)?;
        file.refuse_no_disk()?;
        file.sync_all()?;
        if let Err(error) = file.drop_cached(rt, path) {
            return Err(fault_of_dropping(rt, path, error));
        }
        let len = file.take_length()?;
        Ok(FileDiskFrom::begin(file, len))
    }

    /// Makes a file at a path that names nothing yet, and removes it again if that fails.
    fn make_path<M: DiskFiles<File = S::File>>(
        rt: &M,
        path: &str,
        len: u64,
    ) -> Result<FileDiskFrom<S>, OpenFault>
        ensures new { IfOk result (λ disk. IsNew (replicate len 0) (file_state disk)) }
        ensures can_sync { IfOk result CanSync }
        ensures all { IfOk result (λ disk. LeavesAll (file_state disk)) }
        ensures order { IfOk result (λ disk. calls_on disk ≡ making_calls len) }
    {
        let beside = SideFile::of(rt, path)?;
        let file = rt.make_disk(path)?;
        match FileDiskFrom::fill(file, rt, path, len) {
            Ok(disk) => Ok(disk),
            Err(fault) => {
                let _ = beside.take_away(rt, path);
                Err(fault)
            }
        }
    }

    /// Fills a new file with zeros, and makes them and its name last.
    fn fill<M: DiskFiles<File = S::File>>(
        file: S::File,
        rt: &M,
        path: &str,
        len: u64,
    ) -> Result<FileDiskFrom<S>, OpenFault>
        ensures new { IfOk result (λ disk. IsNew (replicate len 0) (file_state disk)) }
        ensures can_sync { IfOk result CanSync }
        ensures all { IfOk result (λ disk. LeavesAll (file_state disk)) }
        ensures order { IfOk result (λ disk. calls_on disk ≡ making_calls len) }
    {
        let mut made = HeldFile::lock(file)?;
        made.fill(len)?;
        made.sync_all()?;
        if let Err(error) = made.drop_cached(rt, path) {
            return Err(fault_of_dropping(rt, path, error));
        }
        made.sync_folder(rt, path)?;
        Ok(FileDiskFrom::begin(made, len))
    }

    /// Why the first read, write or sync of the file that failed did so, in the system's words.
    pub fn fault(&self) -> Option<OpenFault>
        ensures { result ≡ option_map System (fault_on self.now) }
    {
        self.file.fault().map(OpenFault::System)
    }

    /// The disk before its first call.
    fn begin(file: HeldFile<S::File>, len: u64) -> FileDiskFrom<S>
        requires { HasOnlyOpened S.Start.bytes len file.history.calls }
        ensures new { IsNew (file_state result).bytes (file_state result) }
        ensures can_sync { CanSync result }
        ensures all { LeavesAll (file_state result) }
        ensures history { calls_on result ≡ file.history.calls }
    {
        FileDiskFrom {
            file,
            len,
            failures: 0,
            can_sync: true,
            calls: CallCount::new(),
            start: PhantomData,
        }
    }
}

/// Which file this error is about: the empty one beside the disk or, if the error is that of a
/// device and the empty file is there, the disk itself.
fn fault_of_dropping<M: DiskFiles>(rt: &M, path: &str, error: io::Error) -> OpenFault {
    match error.kind() {
        ErrorKind::StorageFull | ErrorKind::QuotaExceeded | ErrorKind::ReadOnlyFilesystem
            if SideFile::of_target(rt, path).is_ok_and(|beside| beside.is_there()) => {
            OpenFault::System(error)
        }
        _ => OpenFault::Beside(error),
    }
}
