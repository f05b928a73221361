//! What the calls do on a file that is a disk, and on its path.
use crate::bytes::{first, give};
use crate::call::Call;
use crate::faults::{absent, refused};
use crate::node::{Held, Open};
use crate::world::World;
use disk_store::DiskFileStat;
use mot_files::{Fault, Kind};
use std::alloc::AllocError;
use std::fs::TryLockError;
use std::io::{self, ErrorKind};

impl World {
    /// What precedes each call on an open disk: the place of its node, unless the call fails.
    fn disk_place(&mut self, call: Call, slot: usize) -> io::Result<usize> {
        let _passed = self.pass(call);
        self.say(call.name().as_bytes());
        if self.is_dead() {
            self.say(b" DEAD\n");
            return Err(gone());
        }
        if self.fails_on_disk(call) {
            return Err(self.fail(call));
        }
        self.say(b"\n");
        match self.held(slot) {
            Ok(held) => Ok(held.place),
            Err(fault) => Err(fault.error()),
        }
    }

    /// Whether this call on a disk fails by the plan.
    fn fails_on_disk(&mut self, call: Call) -> bool {
        let many = match call {
            Call::DiskRead => self.plan.disk_read_faults,
            Call::DiskWrite => self.plan.disk_write_faults,
            Call::DiskSync => self.plan.disk_sync_faults,
            _ => 0,
        };
        self.disk_steps == self.plan.disk_fault_at
            || self.is_one_in(self.plan.disk_faults)
            || self.is_one_in(many)
    }

    /// What it is.
    pub(crate) fn disk_facts(&mut self, slot: usize) -> io::Result<DiskFileStat> {
        let place = self.disk_place(Call::DiskFacts, slot)?;
        match self.facts_of(place) {
            Some(facts) => Ok(facts),
            None => Err(gone()),
        }
    }

    fn facts_of(&self, place: usize) -> Option<DiskFileStat> {
        match self.nodes.get(place) {
            Some(node) => Some(DiskFileStat {
                is_file: node.kind == Kind::File,
                is_block_device: false,
                names: self.count_names(place),
                len: node.bytes.len() as u64,
            }),
            None => None,
        }
    }

    /// Reads the bytes from a position on.
    pub(crate) fn disk_read(&mut self, slot: usize, out: &mut [u8], at: u64) -> io::Result<()> {
        let place = self.disk_place(Call::DiskRead, slot)?;
        let start = at as usize;
        let end = start.saturating_add(out.len());
        let Some(node) = self.nodes.get(place) else {
            return Err(gone());
        };
        match node.bytes.get(start..end) {
            Some(part) => {
                let _count = give(part, usize::MAX, out);
                Ok(())
            }
            None => Err(io::Error::from(ErrorKind::UnexpectedEof)),
        }
    }

    /// Writes these bytes from a position on.
    pub(crate) fn disk_write(&mut self, slot: usize, bytes: &[u8], at: u64) -> io::Result<()> {
        let at = at as usize;
        match self.disk_place(Call::DiskWrite, slot) {
            Ok(place) => in_io(self.put_on_disk(place, at, bytes)),
            Err(error) => {
                self.write_disk_torn(slot, bytes, at);
                Err(error)
            }
        }
    }

    fn put_on_disk(&mut self, place: usize, at: usize, bytes: &[u8]) -> Result<(), AllocError> {
        if let Some(node) = self.nodes.get_mut(place) {
            node.is_disk = true;
        }
        self.put(place, at, bytes)
    }

    /// A part of a write that failed.
    fn write_disk_torn(&mut self, slot: usize, bytes: &[u8], at: usize) {
        let count = self.torn_count(Call::DiskWrite, bytes.len());
        if count > 0
            && let Some(place) = self.place_in_slot(slot)
        {
            let _ = self.put_on_disk(place, at, first(bytes, count));
        }
    }

    /// Makes last what was written. After a sync that failed this is told, and not done.
    pub(crate) fn disk_sync(&mut self, slot: usize) -> io::Result<()> {
        match self.disk_place(Call::DiskSync, slot) {
            Ok(place) if self.is_doubtful(place) => Ok(()),
            Ok(place) => in_io(self.make_firm(place)),
            Err(error) => {
                self.doubt(slot);
                Err(error)
            }
        }
    }

    fn is_doubtful(&self, place: usize) -> bool {
        match self.nodes.get(place) {
            Some(node) => node.is_doubtful,
            None => false,
        }
    }

    /// A sync of what is open in the slot failed.
    fn doubt(&mut self, slot: usize) {
        if self.is_dead() {
            return;
        }
        if let Some(place) = self.place_in_slot(slot)
            && let Some(node) = self.nodes.get_mut(place)
        {
            node.is_doubtful = true;
        }
    }

    /// Takes the lock of the disk.
    pub(crate) fn lock_disk(&mut self, slot: usize) -> Result<(), TryLockError> {
        if let Err(fault) = self.begin(Call::LockDisk, "") {
            return Err(TryLockError::Error(fault.error()));
        }
        if self.is_busy(Call::LockDisk) {
            return Err(TryLockError::WouldBlock);
        }
        match self.take_lock(slot) {
            Ok(()) => Ok(()),
            Err(Fault::Busy) => Err(TryLockError::WouldBlock),
            Err(fault) => Err(TryLockError::Error(fault.error())),
        }
    }

    /// Opens what the path names as a disk.
    pub(crate) fn open_disk(&mut self, path: &str) -> Result<usize, Fault> {
        self.begin(Call::OpenDisk, path)?;
        let place = self.end_of(self.place(path)?);
        self.keep_disk(place)
    }

    /// Makes a file at the path that was not there, as a disk.
    pub(crate) fn make_disk(&mut self, path: &str) -> Result<usize, Fault> {
        self.begin(Call::MakeDisk, path)?;
        let place = self.make(path)?;
        self.end(Call::MakeDisk)?;
        self.keep_disk(place)
    }

    fn keep_disk(&mut self, place: usize) -> Result<usize, Fault> {
        self.keep_open(Open::Node(Held {
            place,
            at: 0,
            writable: true,
        }))
    }

    /// What the system has of the file in its memory is dropped. By that a file comes beside it, if
    /// none is there.
    pub(crate) fn drop_cached(&mut self, slot: usize, path: &str) -> io::Result<()> {
        if let Err(fault) = self.begin(Call::DropCached, path) {
            return Err(fault.error());
        }
        if let Some(place) = self.place_in_slot(slot)
            && self.is_doubtful(place)
        {
            in_io(self.settle(place))?;
        }
        in_io(self.make_side(path))
    }

    fn make_side(&mut self, path: &str) -> Result<(), AllocError> {
        let Ok(side) = format!(in self.alloc; "{path}-wal") else {
            return Err(AllocError);
        };
        if self.place_of(side.as_str()).is_none() {
            self.place_file(side.as_str(), b"")?;
        }
        Ok(())
    }

    /// The names last of the folder that has the path.
    pub(crate) fn sync_folder_of(&mut self, path: &str) -> Result<(), Fault> {
        self.begin(Call::SyncFolderOf, path)?;
        let folder = match path.rsplit_once("/") {
            Some((folder, _)) => folder,
            None => ".",
        };
        match self.make_names_firm(folder) {
            Ok(()) => self.end(Call::SyncFolderOf),
            Err(AllocError) => Err(refused(ErrorKind::OutOfMemory)),
        }
    }

    /// Whether the path names something, without links.
    pub(crate) fn find_real(&mut self, path: &str) -> Result<(), Fault> {
        self.begin(Call::RealPath, path)?;
        let _place = self.place(path)?;
        Ok(())
    }

    /// What the path names; a link is not followed.
    pub(crate) fn facts_at(&mut self, path: &str) -> Result<DiskFileStat, Fault> {
        self.begin(Call::FactsAt, path)?;
        let place = self.place(path)?;
        self.facts_of(place).ok_or(absent())
    }
}

/// The machine is not there.
pub(crate) fn gone() -> io::Error {
    io::Error::from(ErrorKind::Other)
}

/// A failed allocation as the system's error.
fn in_io(answer: Result<(), AllocError>) -> io::Result<()> {
    match answer {
        Ok(()) => Ok(()),
        Err(AllocError) => Err(io::Error::from(ErrorKind::OutOfMemory)),
    }
}
