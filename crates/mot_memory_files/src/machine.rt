//! The machine as the program takes it, and its disks.
ghost use Rattle.std.specs.Prelude.{◌<◌, [], All};
ghost use Rattle.std.proofs.lemmas.List.Elements.{All-nil};

use crate::call::Call;
use crate::disk::gone;
use crate::world::World;
use disk_store::{DiskFile, DiskFileStat, DiskFiles, Start};
use mot_files::Fault;
use std::alloc::Global;
use std::cell::RefCell;
use std::fs::TryLockError;
use std::io;
use std::marker::PhantomData;

/// The machine.
#[derive(Clone, Copy)]
pub struct MemoryMachine<'a> {
    pub(crate) world: &'a RefCell<World>,
    alloc: Global,
}

impl<'a> MemoryMachine<'a> {
    /// This one.
    pub fn new(world: &'a RefCell<World>, alloc: Global) -> MemoryMachine<'a> {
        MemoryMachine { world, alloc }
    }

    /// What is open in this slot.
    fn file(&self, slot: usize) -> MachineFile<'a> {
        MachineFile {
            world: self.world,
            slot,
        }
    }
}

/// An open file of the machine that may be a disk. It is closed at its end.
pub struct MachineFile<'a> {
    world: &'a RefCell<World>,
    slot: usize,
}

impl<'a> Drop for MachineFile<'a> {
    fn drop(self) {
        if let Ok(mut w) = self.world.try_borrow_mut() {
            w.close_slot(self.slot);
        }
        let MachineFile { world: _, slot: _ } = self;
    }
}

/// What a disk of the machine holds as it is opened: nothing is said of it.
#[derive(Drop)]
pub struct MachineStart<'a> {
    world: PhantomData<&'a RefCell<World>>,
}

impl<'a> MachineStart<'a> {
    /// The word.
    pub fn new() -> MachineStart<'a> {
        MachineStart { world: PhantomData }
    }
}

impl<'a> Start for MachineStart<'a> {
    type File = MachineFile<'a>;

    ghost bytes = { [] };

    ghost are_bytes = { All-nil (λ b. b < 256) };

    ghost others = { [] };

    ghost others_are_bytes = { All-nil (λ b. b < 256) };
}

/// What the call gave, as the system's error.
fn in_io<T: Drop>(answer: Result<T, Fault>) -> io::Result<T> {
    match answer {
        Ok(value) => Ok(value),
        Err(fault) => Err(fault.error()),
    }
}

impl<'a> DiskFile for MachineFile<'a> {
    fn try_lock(&self) -> Result<(), TryLockError> {
        match self.world.try_borrow_mut() {
            Ok(mut w) => w.lock_disk(self.slot),
            Err(_) => Err(TryLockError::Error(gone())),
        }
    }

    fn facts(&self) -> io::Result<DiskFileStat> {
        match self.world.try_borrow_mut() {
            Ok(mut w) => w.disk_facts(self.slot),
            Err(_) => Err(gone()),
        }
    }

    fn length(&mut self) -> io::Result<u64> {
        match self.facts() {
            Ok(facts) => Ok(facts.len),
            Err(error) => Err(error),
        }
    }

    fn read_exact_at(&self, out: &mut [u8], at: u64) -> io::Result<()> {
        match self.world.try_borrow_mut() {
            Ok(mut w) => w.disk_read(self.slot, out, at),
            Err(_) => Err(gone()),
        }
    }

    fn write_all_at(&self, bytes: &[u8], at: u64) -> io::Result<()> {
        match self.world.try_borrow_mut() {
            Ok(mut w) => w.disk_write(self.slot, bytes, at),
            Err(_) => Err(gone()),
        }
    }

    fn sync_all(&self) -> io::Result<()> {
        match self.world.try_borrow_mut() {
            Ok(mut w) => w.disk_sync(self.slot),
            Err(_) => Err(gone()),
        }
    }

    fn sync_data(&self) -> io::Result<()> {
        self.sync_all()
    }
}

impl<'a> DiskFiles for MemoryMachine<'a> {
    type File = MachineFile<'a>;

    fn open_disk(&self, path: &str) -> io::Result<MachineFile<'a>> {
        let opened = match self.world.try_borrow_mut() {
            Ok(mut w) => in_io(w.open_disk(path)),
            Err(_) => Err(gone()),
        };
        Ok(self.file(opened?))
    }

    fn make_disk(&self, path: &str) -> io::Result<MachineFile<'a>> {
        let made = match self.world.try_borrow_mut() {
            Ok(mut w) => in_io(w.make_disk(path)),
            Err(_) => Err(gone()),
        };
        Ok(self.file(made?))
    }

    fn drop_cached(&self, file: &MachineFile<'a>, path: &str) -> io::Result<()> {
        match self.world.try_borrow_mut() {
            Ok(mut w) => w.drop_cached(file.slot, path),
            Err(_) => Err(gone()),
        }
    }

    fn sync_folder_of(&self, path: &str) -> io::Result<()> {
        match self.world.try_borrow_mut() {
            Ok(mut w) => in_io(w.sync_folder_of(path)),
            Err(_) => Err(gone()),
        }
    }

    fn real_path(&self, path: &str) -> io::Result<String> {
        let found = match self.world.try_borrow_mut() {
            Ok(mut w) => in_io(w.find_real(path)),
            Err(_) => Err(gone()),
        };
        found?;
        Ok(String::from_str(self.alloc, path)?)
    }

    fn facts_at(&self, path: &str) -> io::Result<DiskFileStat> {
        match self.world.try_borrow_mut() {
            Ok(mut w) => in_io(w.facts_at(path)),
            Err(_) => Err(gone()),
        }
    }

    fn remove_disk(&self, path: &str) -> io::Result<()> {
        match self.world.try_borrow_mut() {
            Ok(mut w) => in_io(w.remove(Call::RemoveDisk, path)),
            Err(_) => Err(gone()),
        }
    }

    fn heap(&self) -> Global {
        self.alloc
    }
}
