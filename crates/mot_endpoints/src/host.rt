//! What a program has of the machine to come to its files by: no path is opened, made as a disk or
//! removed but through it.
ghost use Rattle.std.specs.Prelude.{◌≡◌, ◌≢◌, ◌∷◌, ◌++◌, [], Err, None, Ok, Some, IfOk, MatchResult};
ghost use Rattle.std.specs.Prelude.{Result, false, is_ok, true};
ghost use Rattle.disk_store.specs.Beginning.{IsFirst};
ghost use Rattle.disk_store.specs.File.{file_state};
ghost use Rattle.mot_endpoints.specs.LinePlaces.{ChecksLines};
ghost use Rattle.mot_endpoints.specs.Opened.{TakesIn};
ghost use Rattle.mot_endpoints.specs.Packets.{IsTarget, OpensInto, OpensPackets};
ghost use Rattle.mot_endpoints.specs.Packets.{destination_of};
ghost use Rattle.mot_endpoints.specs.Packets.{target_of, writer_handle, writer_system};
ghost use Rattle.mot_endpoints.specs.Status.{status_disk, status_system};
ghost use Rattle.mot_files.specs.Call.{apart, call, made_disk, opened_disk, removed};
ghost use Rattle.mot_files.specs.declared.system.Fault.{Fault};
ghost use Rattle.mot_files.specs.declared.system.Part.TheVariants as Part;
ghost use Rattle.mot_shelf.specs.Reader.{view};
ghost use Rattle.mot_shelf.specs.View.{folder_at};

use crate::lines::{OtherFiles, check_folder};
use crate::{Cause, LinesFault, OpenPackets, StatusFile, Target, open_packets};
use disk_store::{
    BegunFile, DiskFiles, FailedOpening, HostFiles, SideFile, Start, WasMade, WasThere, make_file,
    open_file,
};
use mot_files::{CallLog, Event, Fault, HostSystem, Part, System};
use mot_line_folder::LinePlace;
use mot_shelf::FolderReader;

/// A machine: its files, and what of them may be disks.
pub trait Machine: DiskFiles {
    /// Its files, as calls that are noted.
    type System: System + Drop;

    /// Its files, of which nothing was asked.
    fn system(&self) -> Self::System
        ensures { Self.System.calls result ≡ [] };
}

impl<'a> Machine for HostFiles<'a> {
    type System = HostSystem<'a>;

    fn system(&self) -> HostSystem<'a> {
        HostSystem::new(self.rt)
    }
}

/// The files of a machine, by their paths. A part of a command that has a system of its own is noted,
/// and so is what was opened or made as a disk, since a disk's calls are in its own log.
#[derive(Drop)]
pub struct Host<M: Machine + Drop> {
    machine: M,
    /// The files, for all that is asked of them by no part with a system of its own.
    pub system: M::System,
    /// The empty file that stands beside the one that was opened or made last as a disk.
    side: Option<SideFile>,
}

impl<M: Machine + Drop> Host<M> {
    /// Nothing was asked.
    pub fn new(machine: M) -> Host<M>
        ensures { M.System.calls result.system ≡ [] }
    {
        Host {
            system: machine.system(),
            machine,
            side: None,
        }
    }

    /// Notes this of a path.
    fn note(&mut self, what: Event, path: &str)
        ensures { M.System.calls self.new.system
            ≡ M.System.calls self.old.system ++ call what path.now [] ∷ [] }
    {
        let mut calls = CallLog::new();
        calls.note(&what, path.as_bytes(), &[]);
        self.system.take_in(calls);
    }

    /// Opens the file at the path as a disk.
    pub fn disk<S: Start<File = M::File>>(
        &mut self,
        path: &str,
        start: S,
    ) -> Result<BegunFile<S, WasThere>, FailedOpening<S>>
        ensures first { IfOk result (λ file. IsFirst false file.disk) }
        ensures calls { M.System.calls self.new.system
            ≡ M.System.calls self.old.system ++ opened_disk path.now (is_ok result) ∷ [] }
    {
        self.side = SideFile::of_target(&self.machine, path).ok();
        let opened = open_file(&self.machine, path, start);
        self.note(Event::OpenedDisk(opened.is_ok()), path);
        opened
    }

    /// Makes a new file of so many zeros, as a disk.
    pub fn make_disk<S: Start<File = M::File>>(
        &mut self,
        path: &str,
        len: u64,
        start: S,
    ) -> Result<BegunFile<S, WasMade>, FailedOpening<S>>
        ensures first { IfOk result (λ file. IsFirst true file.disk) }
        ensures len { IfOk result (λ file. (file_state file.disk).len ≡ len) }
        ensures calls { M.System.calls self.new.system
            ≡ M.System.calls self.old.system ++ made_disk path.now (is_ok result) ∷ [] }
    {
        let made = match SideFile::of(&self.machine, path) {
            Ok(side) => {
                self.side = Some(side);
                make_file(&self.machine, path, len, start)
            }
            Err(error) => {
                self.side = None;
                Err(FailedOpening::of(start, error))
            }
        };
        self.note(Event::MadeDisk(made.is_ok()), path);
        made
    }

    /// Removes the empty file that the last opening of a disk has made beside its file, if it can:
    /// what was opened is no disk, or not one for what is asked.
    pub fn clear_side(&mut self)
        ensures { self.new.system ≡ self.old.system }
    {
        if let Some(side) = &self.side {
            let _ = side.clear(&self.machine);
        }
    }

    /// Removes the file of this path, that was made last as a disk and is of no use, and the empty
    /// one that was made beside it, if it can.
    pub fn take_away(&mut self, path: &str)
        ensures { (answer : Result (Unit {0}) Fault) × (M.System.calls self.new.system
            ≡ M.System.calls self.old.system ++ removed path.now answer ∷ []) }
    {
        let answer = match &self.side {
            Some(side) => side.take_away(&self.machine, path),
            None => Ok(()),
        };
        self.note(Event::Removed(answer.map_err(Fault::System)), path);
    }

    /// Opens what the path names, to write packets to it. A pipe or a device is opened for reading
    /// and writing: so a pipe's opening waits for no reader, and its reader may go and come back.
    /// The pipe is locked, so that no other program of ours writes to it. A file is written only if
    /// some turns are asked for: so a pipe that is not there is refused. So are the disk itself,
    /// the names of its files, and a terminal.
    pub fn packets<'a>(
        &mut self,
        path: &'a str,
        disk: &str,
        turns: Option<u32>,
    ) -> Result<OpenPackets<'a, M::System>, Cause>
        ensures target { IfOk result (λ opened. IsTarget path.now (target_of opened)) }
        ensures turns { IfOk result (λ opened. target_of opened ≡ Target.File
            → (turns ≢ None) × (turns ≢ Some 0)) }
        ensures opened { IfOk result (λ opened. OpensInto path.now disk.now
            (writer_handle opened.writer) []
            (M.System.calls (writer_system opened.writer)) (destination_of opened)) }
        ensures calls { MatchResult result
            (λ _. M.System.calls self.new.system
            ≡ M.System.calls self.old.system ++ apart Part.Packets path.now ∷ [])
            (λ cause. TakesIn (OpensPackets path.now disk.now turns (Err cause) [])
            (M.System.calls self.old.system) (M.System.calls self.new.system)) }
    {
        let mut system = self.machine.system();
        match open_packets(&mut system, self.machine.heap(), path, disk, turns) {
            Ok((handle, destination)) => {
                self.note(Event::Apart(Part::Packets), path);
                Ok(OpenPackets::new(system, handle, destination))
            }
            Err(cause) => {
                self.system.take_in(system.into_calls());
                Err(cause)
            }
        }
    }

    /// The folder of objects at the path, of which nothing was read. Files are read `at_once`, or
    /// once their last change is two seconds ago.
    pub fn folder<'a>(&mut self, path: &'a str, at_once: bool) -> FolderReader<'a, M::System>
        ensures view { view M.System.calls result ≡ folder_at path.now at_once [] }
        ensures calls { M.System.calls self.new.system
            ≡ M.System.calls self.old.system ++ apart Part.Folder path.now ∷ [] }
    {
        self.note(Event::Apart(Part::Folder), path);
        FolderReader::new(self.machine.system(), path, at_once)
    }

    /// The folder of lines at the path, of which nothing was read. It is not that of the objects,
    /// and none of the other files stands in it.
    pub fn lines<'a>(
        &mut self,
        path: &'a str,
        others: OtherFiles<'_>,
    ) -> Result<LinePlace<'a, M::System>, LinesFault>
        ensures path { IfOk result (λ place. place.path ≡ path.entry) }
        ensures checked { IfOk result (λ place. ChecksLines path.now others.entry (Ok tt)
            [] (M.System.calls place.system)) }
        ensures calls { MatchResult result
            (λ _. M.System.calls self.new.system
            ≡ M.System.calls self.old.system ++ apart Part.Lines path.now ∷ [])
            (λ fault. TakesIn (ChecksLines path.now others.entry (Err fault) [])
            (M.System.calls self.old.system) (M.System.calls self.new.system)) }
    {
        let mut system = self.machine.system();
        match check_folder(&mut system, path, others) {
            Ok(()) => {
                self.note(Event::Apart(Part::Lines), path);
                Ok(LinePlace::new(system, path))
            }
            Err(fault) => {
                self.system.take_in(system.into_calls());
                Err(fault)
            }
        }
    }

    /// The file of the status at the path, to which nothing was written.
    pub fn status<'a>(&mut self, path: &'a str, disk: &'a str) -> StatusFile<'a, M::System>
        ensures path { result.path.now ≡ path.now }
        ensures disk { status_disk result ≡ disk.now }
        ensures unasked { M.System.calls (status_system result) ≡ [] }
        ensures calls { M.System.calls self.new.system
            ≡ M.System.calls self.old.system ++ apart Part.Status path.now ∷ [] }
    {
        self.note(Event::Apart(Part::Status), path);
        StatusFile::new(self.machine.system(), self.machine.heap(), path, disk)
    }
}
