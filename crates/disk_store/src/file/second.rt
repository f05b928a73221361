//! The second of two files, as a task on two disks leaves it.
ghost use Rattle.std.specs.Prelude.{◌≡◌, option_map};
ghost use Rattle.disk_store.specs.Second.{IsLeftOf, second_fault};
ghost use Rattle.disk_store.specs.declared.file.fault.OpenFault.TheVariants.{System};

use super::{FileDiskFrom, OpenFault, Second, SecondDisk, Start};
use std::marker::PhantomData;

impl<S: Start> SecondDisk<S> {
    /// The disk, after its last call.
    pub fn of(disk: FileDiskFrom<Second<S>>) -> SecondDisk<S>
        ensures { IsLeftOf result disk }
    {
        SecondDisk {
            file: disk.file,
            failures: disk.failures,
            calls: disk.calls,
            len: disk.len,
            can_sync: disk.can_sync,
            start: PhantomData,
        }
    }

    /// Why the first read, write or sync of the file that failed did so, in the system's words.
    pub fn fault(&self) -> Option<OpenFault>
        ensures { result ≡ option_map System (second_fault self.now) }
    {
        self.file.fault().map(OpenFault::System)
    }
}
