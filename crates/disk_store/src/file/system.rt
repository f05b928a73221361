//! The calls of the system on a file that is a disk. Each method makes the one that it notes, on
//! the bytes that it notes, and no other that changes the file: no contract can say so, and a
//! reader of this file has to see it.
ghost use Rattle.std.specs.Prelude.{◌≡◌, [], ◌∷◌, ◌++◌, IfOk, OnOk, OnErr};
ghost use Rattle.disk_store.specs.Calls.{Locked, Opened, Made, Gave, FailedRead, Wrote};
ghost use Rattle.disk_store.specs.Calls.{FailedWrite, Synced, FailedSync, Dropped, Named};
ghost use Rattle.disk_store.specs.File.{held_calls, held_fault};
ghost use Rattle.disk_store.specs.Inner.Noting.{KeepsFirst};

use super::OpenFault;
use super::files::{DiskFile, DiskFiles};
use crate::history::History;
use std::fs::TryLockError;
use std::io::{self, ErrorKind};

/// How many zeros are written at once.
const PIECE: u64 = 16_384;

/// A file that this opening has locked, and the calls on it. Nothing else makes such a value, and
/// no other call is made on it.
#[derive(Drop)]
pub struct HeldFile<F: DiskFile> {
    file: F,
    history: History,
    /// Why the first read, write or sync that failed did so.
    fault: Option<io::Error>,
}

impl<F: DiskFile> HeldFile<F> {
    /// Fails if another open of the file has the lock, which goes with the file's last handle.
    pub fn lock(file: F) -> Result<HeldFile<F>, OpenFault>
        ensures { IfOk result (λ held. held_calls held ≡ Locked ∷ []) }
    {
        let mut history = History::new();
        match history.locked(file.try_lock()) {
            Ok(()) => Ok(HeldFile {
                file,
                history,
                fault: None,
            }),
            Err(TryLockError::WouldBlock) => Err(OpenFault::InUse),
            Err(TryLockError::Error(error)) => Err(OpenFault::System(error)),
        }
    }

    /// Refuses what is neither a regular file nor a block device, and a file that has another name
    /// than the one by which it was opened, or none.
    pub fn refuse_no_disk(&self) -> Result<(), OpenFault> {
        let found = self.file.facts()?;
        // Nothing else has a length that stays.
        if !found.is_file && !found.is_block_device {
            return Err(OpenFault::NoDisk);
        }
        // What the system keeps of such a file is not dropped.
        if found.is_file && found.names != 1 {
            return Err(OpenFault::SecondName);
        }
        Ok(())
    }

    /// How long it is.
    pub fn take_length(&mut self) -> io::Result<u64>
        ensures { IfOk result
            (λ len. held_calls self.new ≡ held_calls self.old ++ Opened len ∷ []) }
    {
        self.history.opened(self.file.length())
    }

    /// Writes so many zeros from its start on, so that each byte has its place on the device: in a
    /// hole a write that failed may be lost later, though it is made again with success.
    pub fn fill(&mut self, len: u64) -> io::Result<()>
        ensures { OnOk result
            (held_calls self.new ≡ held_calls self.old ++ Made len ∷ []) }
    {
        self.history.made(len, write_zeros(&self.file, len))
    }

    /// Makes last what was written, and the length.
    pub fn sync_all(&mut self) -> io::Result<()>
        ensures { OnOk result
            (held_calls self.new ≡ held_calls self.old ++ Synced ∷ []) }
    {
        self.history.synced(self.file.sync_all())
    }

    /// Drops what the system keeps of the file of this path in its memory. After a sync that failed
    /// it keeps what it could not write as if it had: so a read gives what the device has.
    pub fn drop_cached<M: DiskFiles<File = F>>(&mut self, rt: &M, path: &str) -> io::Result<()>
        ensures { OnOk result
            (held_calls self.new ≡ held_calls self.old ++ Dropped ∷ []) }
    {
        let answer = rt.drop_cached(&self.file, path);
        self.history.dropped(answer)
    }

    /// Makes its name last: the folder of this path has it.
    pub fn sync_folder<M: DiskFiles>(&mut self, files: &M, path: &str) -> io::Result<()>
        ensures { OnOk result
            (held_calls self.new ≡ held_calls self.old ++ Named ∷ []) }
    {
        self.history.named(files.sync_folder_of(path))
    }

    /// Reads the bytes from a position on.
    pub fn read(&mut self, at: u64, out: &mut [u8]) -> io::Result<()>
        ensures ok { OnOk result
            (held_calls self.new ≡ held_calls self.old ++ Gave at out.new ∷ []) }
        ensures err { OnErr result
            (held_calls self.new ≡ held_calls self.old ++ FailedRead at ∷ []) }
        ensures first { KeepsFirst (held_fault self.old) (held_fault self.new) result }
    {
        let answer = self.file.read_exact_at(out, at);
        self.keep_first(&answer);
        self.history.gave(at, out, answer)
    }

    /// Writes these bytes from a position on.
    pub fn write(&mut self, at: u64, bytes: &[u8]) -> io::Result<()>
        ensures ok { OnOk result
            (held_calls self.new ≡ held_calls self.old ++ Wrote at bytes.now ∷ []) }
        ensures err { OnErr result
            (held_calls self.new ≡ held_calls self.old ++ FailedWrite at bytes.now ∷ []) }
        ensures first { KeepsFirst (held_fault self.old) (held_fault self.new) result }
    {
        let answer = self.file.write_all_at(bytes, at);
        self.keep_first(&answer);
        self.history.wrote(at, bytes, answer)
    }

    /// Makes last what was written.
    pub fn sync(&mut self) -> io::Result<()>
        ensures ok { OnOk result
            (held_calls self.new ≡ held_calls self.old ++ Synced ∷ []) }
        ensures err { OnErr result
            (held_calls self.new ≡ held_calls self.old ++ FailedSync ∷ []) }
        ensures first { KeepsFirst (held_fault self.old) (held_fault self.new) result }
    {
        let answer = self.file.sync_data();
        self.keep_first(&answer);
        self.history.synced(answer)
    }

    /// Why the first of the calls that failed did so.
    pub fn fault(&self) -> Option<io::Error>
        ensures { result ≡ held_fault self.now }
    {
        self.fault
    }

    /// Keeps why a call failed, if none did before.
    fn keep_first(&mut self, answer: &io::Result<()>)
        ensures first { KeepsFirst self.old.fault self.new.fault answer.now }
        ensures history { self.new.history ≡ self.old.history }
    {
        if let Err(error) = answer
            && self.fault.is_none()
        {
            self.fault = Some(*error);
        }
    }
}

/// The last piece goes first, so that a length that the system refuses is refused at once.
fn write_zeros<F: DiskFile>(file: &F, len: u64) -> io::Result<()> {
    let zeros = [0; PIECE as usize];
    let mut end = len;
    while end > 0 {
        let size = end.min(PIECE);
        file.write_all_at(&zeros[..size as usize], end - size)?;
        end -= size;
    }
    Ok(())
}

/// The empty file that `drop_cached_pages` wants beside a file: its path, and whether anything
/// stands there before it is made.
#[derive(Drop)]
pub struct SideFile {
    path: String,
    was_there: bool,
}

impl SideFile {
    /// Looks beside the file of this path. What can't be looked at counts as there.
    pub fn of<M: DiskFiles>(rt: &M, path: &str) -> io::Result<SideFile> {
        let path = format!(in rt.heap(); "{path}-wal")?;
        let was_there = match rt.facts_at(path.as_str()) {
            Ok(_) => true,
            Err(error) => error.kind() != ErrorKind::NotFound,
        };
        Ok(SideFile { path, was_there })
    }

    /// Looks beside the file that this path leads to. That file is there.
    pub fn of_target<M: DiskFiles>(rt: &M, path: &str) -> io::Result<SideFile> {
        let real = rt.real_path(path)?;
        SideFile::of(rt, real.as_str())
    }

    /// Whether anything stands there.
    pub fn is_there(&self) -> bool {
        self.was_there
    }

    /// Removes the file of this path that was made and is of no use, and the empty one that was
    /// made with it. It fails if that can't be done, and takes no memory.
    pub fn take_away<M: DiskFiles>(&self, rt: &M, path: &str) -> io::Result<()> {
        rt.remove_disk(path)?;
        self.clear(rt)
    }

    /// Removes the empty file, if nothing stood there before.
    pub fn clear<M: DiskFiles>(&self, rt: &M) -> io::Result<()> {
        if self.was_there {
            return Ok(());
        }
        remove_empty(rt, self.path.as_str())
    }
}

/// Takes away what an opening has made beside a file, and nobody else's file.
fn remove_empty<M: DiskFiles>(rt: &M, path: &str) -> io::Result<()> {
    match rt.facts_at(path) {
        Ok(found) if found.is_file && found.len == 0 => rt.remove_disk(path),
        _ => Ok(()),
    }
}
