//! The file that monitoring reads.
ghost use Rattle.std.specs.Prelude.{◌≡◌, ◌++◌, ◌∷◌, [], IfSome, IsErr, MatchOption, codes, string_bytes};
ghost use Rattle.mot_files.specs.Call.{told_time};
ghost use Rattle.mot_endpoints.specs.Status.{AsksLock, ChecksPlace, WritesStatus, beside_fault};
ghost use Rattle.mot_endpoints.specs.Status.{status_beside, status_disk, status_system, unless_busy};

use crate::beside::{SUFFIX, is_of_disk};
use crate::fault::PacketsFault;
use crate::new_file::{clear, find};
use mot_files::{Fault, How, System, Time, replace};
use std::alloc::{AllocError, Global};

/// A file of which a reader always sees a whole text.
#[derive(Drop)]
pub struct StatusFile<'a, S: System + Drop> {
    system: S,
    /// Its path.
    pub path: &'a str,
    disk: &'a str,
    /// The path beside it; none if there was no memory for it.
    beside: Option<String>,
}

impl<'a, S: System + Drop> StatusFile<'a, S> {
    /// The file at this path. Nothing was written.
    pub fn new(system: S, alloc: Global, path: &'a str, disk: &'a str) -> StatusFile<'a, S>
        ensures path { result.path.now ≡ path.now }
        ensures disk { status_disk result ≡ disk.now }
        ensures system { status_system result ≡ system }
        ensures beside { IfSome (status_beside result) (λ beside. beside
            ≡ path.now ++ codes ".new") }
    {
        StatusFile {
            system,
            path,
            disk,
            beside: format!(in alloc; "{path}{SUFFIX}").ok(),
        }
    }

    /// The time of day, if the system knows it.
    pub fn now(&mut self) -> Option<Time>
        ensures calls { S.calls (status_system self.new)
            ≡ S.calls (status_system self.old) ++ told_time result ∷ [] }
        ensures path { self.new.path ≡ self.old.path }
        ensures disk { status_disk self.new ≡ status_disk self.old }
        ensures beside { status_beside self.new ≡ status_beside self.old }
    {
        self.system.now()
    }

    /// Writes the text beside the file, and puts it in its place. Neither is synced: after a power
    /// cut the file may be empty. The disk stays, and so do what is no regular file and what is locked.
    pub fn write(&mut self, text: &[u8]) -> Result<(), PacketsFault>
        ensures calls { MatchOption (status_beside self.old)
            (IsErr result × (S.calls (status_system self.new) ≡ S.calls (status_system self.old)))
            (λ beside. WritesStatus self.old.path.now beside (status_disk self.old) text.now result
            (S.calls (status_system self.old)) (S.calls (status_system self.new))) }
        ensures path { self.new.path ≡ self.old.path }
        ensures disk { status_disk self.new ≡ status_disk self.old }
        ensures beside { status_beside self.new ≡ status_beside self.old }
    {
        let Some(beside) = &self.beside else {
            return Err(PacketsFault::from(AllocError));
        };
        let beside = beside.as_str();
        check_place(&mut self.system, self.path, self.disk)?;
        if let Err(fault) = clear(&mut self.system, beside, self.disk) {
            return Err(fault_of_beside(fault));
        }
        Ok(replace(&mut self.system, beside, self.path, text)?)
    }
}

/// Whether a text may take the place of what is at the path: a regular file that no program of ours
/// writes, or nothing.
fn check_place<S: System>(system: &mut S, path: &str, disk: &str) -> Result<(), PacketsFault>
    ensures { ChecksPlace path.now disk.now result (S.calls system.old) (S.calls system.new) }
{
    if is_of_disk(system, path, disk) {
        return Err(PacketsFault::IsOfDisk);
    }
    match find(system, path, disk) {
        Ok(true) => check_unused(system, path),
        Ok(false) => Ok(()),
        Err(fault) => Err(fault),
    }
}

/// Refuses a file that is locked, as packets lock what they are written to. One whose lock can't be
/// asked for is not refused.
fn check_unused<S: System>(system: &mut S, path: &str) -> Result<(), PacketsFault>
    ensures { AsksLock path.now result (S.calls system.old) (S.calls system.new) }
{
    let handle = match system.open(path, How::Read) {
        Ok(handle) => handle,
        Err(_) => return Ok(()),
    };
    let answer = system.lock(handle);
    system.close(handle);
    unless_busy(answer)
}

/// Only a lock that is held is a fault.
fn unless_busy(answer: Result<(), Fault>) -> Result<(), PacketsFault>
    ensures { result ≡ unless_busy answer }
{
    match answer {
        Err(Fault::Busy) => Err(PacketsFault::InUse),
        _ => Ok(()),
    }
}

/// A fault of the file beside the path, as one of the path.
fn fault_of_beside(fault: PacketsFault) -> PacketsFault
    ensures { result ≡ beside_fault fault }
{
    match fault {
        PacketsFault::NoFile => PacketsFault::NoNewFile,
        _ => fault,
    }
}
