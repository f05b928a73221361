//! What the packets of `play` go to.
ghost use Rattle.std.specs.Prelude.{◌≡◌, ◌≢◌, ◌≤◌, ◌↔◌, ◌∷◌, ◌++◌, ℕ, [], None, Some, IfOk, IsTrue};
ghost use Rattle.std.specs.Prelude.{MatchResult, Ok, Result, length, take};
ghost use Rattle.mot_endpoints.specs.Packets.{BeginsBeside, BeginsNone, IsAnswer, IsPlace};
ghost use Rattle.mot_endpoints.specs.Packets.{IsReason, IsTakenAway, OpensPackets, OpensPath};
ghost use Rattle.mot_endpoints.specs.Packets.{OpensStream, TakesItsPlace, TakesPlace, TellsWhy};
ghost use Rattle.mot_endpoints.specs.Packets.{destination_of, fault_after, fault_of_turns};
ghost use Rattle.mot_endpoints.specs.Packets.{place_of, place_without, target_of, writer_handle};
ghost use Rattle.mot_endpoints.specs.Packets.{writer_system, writes_to};
ghost use Rattle.mot_endpoints.specs.declared.packets.Target.{Target};
ghost use Rattle.mot_files.specs.Call.{wrote};
ghost use Rattle.mot_files.specs.declared.system.Fault.{Fault};
ghost use Rattle.mot_packets.specs.Written.{Grows};

use crate::beside::{SUFFIX, folder_of, is_of_disk, leads_to};
use crate::fault::{Cause, PacketsFault};
use crate::new_file::{NewPlace, begin, take_away, unless_absent};
use mot_files::{CallLog, Fault, FileStat, Handle, How, Kind, System, take_place};
use mot_packets::Outlet;
use std::alloc::Global;
use std::io;

/// The word that names standard output.
pub const OUTPUT: &str = "-";

/// What takes the packets of `play`.
#[derive(Clone, Copy, Debug, PartialEq, Eq)]
pub enum Target {
    /// Standard output.
    Output,
    /// A named pipe or a character device: what is there and is neither a regular file nor a block
    /// device.
    Stream,
    /// A regular file, or nothing yet: it is written whole or not at all, in so many turns.
    File,
}

/// What is at a path.
#[derive(Clone, Copy)]
enum Place {
    /// What is neither a regular file nor a block device.
    Stream,
    /// A regular file.
    File,
    /// Nothing.
    Nothing,
}

/// Where packets go.
#[derive(Drop)]
pub enum Destination<'a> {
    /// Standard output.
    Output,
    /// A named pipe or a character device.
    Stream,
    /// A new file, by its paths.
    File(NewPlace<'a>),
}

/// What was opened to take packets.
#[derive(Drop)]
pub struct OpenPackets<'a, S: System + Drop> {
    /// What writes them.
    pub writer: PacketWriter<S>,
    /// Where they go.
    destination: Destination<'a>,
}

impl<'a, S: System + Drop> OpenPackets<'a, S> {
    /// What `open_packets` opened, in this system of files. Nothing was written to it.
    pub(crate) fn new(system: S, handle: Handle, destination: Destination<'a>) -> OpenPackets<'a, S>
        ensures destination { destination_of result ≡ destination.entry }
        ensures handle { writer_handle result.writer ≡ handle }
        ensures system { writer_system result.writer ≡ system }
    {
        OpenPackets {
            writer: PacketWriter {
                system,
                handle,
                fault: None,
            },
            destination,
        }
    }

    /// What takes the packets.
    pub fn target(&self) -> Target
        ensures { result ≡ target_of self.now }
    {
        match &self.destination {
            Destination::Output => Target::Output,
            Destination::Stream => Target::Stream,
            Destination::File(_) => Target::File,
        }
    }

    /// Makes a new file last, and then its name: at each moment the name is that of the old file,
    /// or of the new one, whole. If that fails, the file is taken away.
    pub fn take_place(&mut self) -> Result<(), PacketsFault>
        ensures handle { writer_handle self.new.writer ≡ writer_handle self.old.writer }
        ensures destination { destination_of self.new ≡ destination_of self.old }
        ensures others { target_of self.old ≢ Target.File → result ≡ Ok tt }
        ensures calls { TakesItsPlace (destination_of self.old) (writer_handle self.old.writer)
            result
            (S.calls (writer_system self.old.writer)) (S.calls (writer_system self.new.writer)) }
    {
        let Destination::File(place) = &self.destination else {
            return Ok(());
        };
        let PacketWriter { system, handle, .. } = &mut self.writer;
        let beside = place.beside.as_str();
        match take_place(system, *handle, beside, place.path, folder_of(place.path)) {
            Ok(()) => Ok(()),
            Err(fault) => {
                take_away(system, *handle, beside);
                Err(PacketsFault::from(fault))
            }
        }
    }

    /// Leaves nothing of a new file.
    pub fn take_away(&mut self)
        ensures handle { writer_handle self.new.writer ≡ writer_handle self.old.writer }
        ensures destination { destination_of self.new ≡ destination_of self.old }
        ensures calls { IsTakenAway (destination_of self.old) (writer_handle self.old.writer)
            (S.calls (writer_system self.old.writer)) (S.calls (writer_system self.new.writer)) }
    {
        if let Destination::File(place) = &self.destination {
            take_away(
                &mut self.writer.system,
                self.writer.handle,
                place.beside.as_str(),
            );
        }
    }

    /// The calls of its system so far, as a list that only clauses read. No more are made.
    pub fn into_calls(self) -> CallLog
        ensures { result.all ≡ S.calls (writer_system self.entry.writer) }
    {
        self.writer.system.into_calls()
    }

    /// Why packets were not taken, if they were not. If one was cut in a new file, it is what the
    /// system says of a further write: the file is given up anyway.
    pub fn reason(&mut self) -> Option<Cause>
        ensures handle { writer_handle self.new.writer ≡ writer_handle self.old.writer }
        ensures destination { destination_of self.new ≡ destination_of self.old }
        ensures told { IsReason (destination_of self.old) (writer_handle self.old.writer)
            self.old.writer.fault result (S.calls (writer_system self.old.writer))
            (S.calls (writer_system self.new.writer)) }
    {
        let fault = self.writer.fault?;
        match &self.destination {
            Destination::File(_) => Some(Cause::NewFile(self.writer.why(fault))),
            Destination::Output | Destination::Stream => Some(Cause::Packets(fault)),
        }
    }
}

/// Opens what the path names, to write packets to it. A pipe or a device is opened for reading and
/// writing: so a pipe's opening waits for no reader, and its reader may go and come back. The pipe
/// is locked, so that no other program of ours writes to it. A file is written only if some turns
/// are asked for: so a pipe that is not there is refused. The disk itself is refused, and so are a
/// terminal and every block device: no multiplexer reads one, and it may hold a file system.
pub fn open_packets<'a, S: System>(
    system: &mut S,
    alloc: Global,
    path: &'a str,
    disk: &str,
    turns: Option<u32>,
) -> Result<(Handle, Destination<'a>), Cause>
    ensures calls { OpensPackets path.now disk.now turns result (S.calls system.old)
        (S.calls system.new) }
{
    if path == OUTPUT {
        let handle = open_path(system, path, How::Output)?;
        return Ok((handle, Destination::Output));
    }
    let place = place_at(system, path, disk)?;
    if let Place::Stream = place {
        let handle = open_stream(system, path)?;
        return Ok((handle, Destination::Stream));
    }
    if let Some(fault) = fault_of_turns(place, turns) {
        return Err(Cause::Packets(fault));
    }
    match new_file(system, alloc, path, disk) {
        Ok((handle, place)) => Ok((handle, Destination::File(place))),
        Err(fault) => Err(Cause::NewFile(fault)),
    }
}

/// Why no file is written at a place that is none of a stream, by the turns that are asked for.
fn fault_of_turns(place: Place, turns: Option<u32>) -> Option<PacketsFault>
    ensures fault { result ≡ fault_of_turns place turns }
    ensures asked { result ≡ None → (turns ≢ None) × (turns ≢ Some 0) }
{
    match (place, turns) {
        (Place::Nothing, None) => Some(PacketsFault::NoPipe),
        (_, None) => Some(PacketsFault::EndlessFile),
        (_, Some(0)) => Some(PacketsFault::NoTurns),
        (_, Some(_)) => None,
    }
}

/// A new file for the path.
fn new_file<'a, S: System>(
    system: &mut S,
    alloc: Global,
    path: &'a str,
    disk: &str,
) -> Result<(Handle, NewPlace<'a>), PacketsFault>
    ensures { MatchResult result
        (λ made. BeginsBeside path.now disk.now made.0 made.1
        (S.calls system.old) (S.calls system.new))
        (λ fault. BeginsNone path.now disk.now fault (S.calls system.old) (S.calls system.new)) }
{
    let beside = format!(in alloc; "{path}{SUFFIX}")?;
    let handle = begin(system, beside.as_str(), disk)?;
    Ok((handle, NewPlace { path, beside }))
}

/// Opens what the path names so, if it is no terminal.
fn open_path<S: System>(system: &mut S, path: &str, how: How) -> Result<Handle, PacketsFault>
    ensures { OpensPath path.now how result (S.calls system.old) (S.calls system.new) }
{
    let handle = system.open(path, how)?;
    if system.is_terminal(handle) {
        return Err(PacketsFault::Terminal);
    }
    Ok(handle)
}

/// Opens a pipe or a character device for reading and writing. A pipe is locked. What was opened is
/// looked at before anything is written: another device may have come to the path.
fn open_stream<S: System>(system: &mut S, path: &str) -> Result<Handle, PacketsFault>
    ensures { OpensStream path.now result (S.calls system.old) (S.calls system.new) }
{
    let handle = open_path(system, path, How::Stream)?;
    let found = system.look_at(handle)?;
    if found.block.is_some() {
        return Err(PacketsFault::BlockDevice);
    }
    let Kind::Pipe = found.kind else {
        return Ok(handle);
    };
    system.lock(handle)?;
    Ok(handle)
}

/// What is at the path, to which a link may lead. The disk itself is refused, and so are a name of a
/// file of it, a path without a name, and a block device, which is not opened.
fn place_at<S: System>(system: &mut S, path: &str, disk: &str) -> Result<Place, PacketsFault>
    ensures { IsPlace path.now disk.now result (S.calls system.old) (S.calls system.new) }
{
    if is_of_disk(system, path, disk) {
        return Err(PacketsFault::IsOfDisk);
    }
    let found = match system.follow(path) {
        Ok(found) => found,
        Err(fault) => return place_without(path, fault),
    };
    if leads_to(system, disk, &found) {
        return Err(PacketsFault::IsDisk);
    }
    place_of(&found)
}

/// Nothing is at a path that has a name, if the system says so; any other fault is handed on.
fn place_without(path: &str, fault: Fault) -> Result<Place, PacketsFault>
    ensures { result ≡ place_without path.now fault }
{
    if path == "" {
        return Err(PacketsFault::from(fault));
    }
    unless_absent(fault, Place::Nothing)
}

/// What it is, as far as it takes packets: a block device takes none.
fn place_of(found: &FileStat) -> Result<Place, PacketsFault>
    ensures { result ≡ place_of found.now }
{
    match (found.block, found.kind) {
        (Some(_), _) => Err(PacketsFault::BlockDevice),
        (None, Kind::File) => Ok(Place::File),
        (None, _) => Ok(Place::Stream),
    }
}

/// A writer of packets, each in one write that is handed on at once. It is made of what
/// `open_packets` opened, and keeps why a packet was not written. What each write took is read off
/// the calls of its system.
#[derive(Drop)]
pub struct PacketWriter<S: System + Drop> {
    system: S,
    /// What it writes to.
    handle: Handle,
    /// Why the last packet was not taken.
    pub fault: Option<PacketsFault>,
}

impl<S: System + Drop> PacketWriter<S> {
    /// Why a packet was not taken: if it was cut, what the system says of a further write.
    fn why(&mut self, fault: PacketsFault) -> PacketsFault
        ensures handle { self.new.handle ≡ self.old.handle }
        ensures told { TellsWhy self.old.handle fault result (S.calls self.old.system)
            (S.calls self.new.system) }
    {
        match fault {
            PacketsFault::Cut => match self.system.write(self.handle, &[0]) {
                Ok(_) => PacketsFault::Cut,
                Err(fault) => PacketsFault::from(fault),
            },
            other => other,
        }
    }
}

impl<S: System + Drop> Outlet for PacketWriter<S> {
    ghost writes = { λ outlet.
        Some (writes_to (writer_handle outlet) (S.calls (writer_system outlet))) };

    #[inline(always)]
    fn write_once(&mut self, bytes: &[u8]) -> io::Result<usize>
        ensures bound { IfOk result (λ count. count ≤ length bytes.now) }
        ensures one { let old = Some (writes_to (writer_handle self.old)
            (S.calls (writer_system self.old))) in
            let new = Some (writes_to (writer_handle self.new) (S.calls (writer_system self.new))) in
            MatchResult result (λ count. Grows old new (take count bytes.now ∷ []))
            (λ _. Grows old new ([] ∷ [])) }
        ensures handle { writer_handle self.new ≡ writer_handle self.old }

        // The packet was offered in one write to what was opened, and nothing else was done.
        ensures calls { (answer : Result ℕ Fault) × (S.calls (writer_system self.new)
            ≡ S.calls (writer_system self.old)
            ++ wrote (writer_handle self.old) bytes.now answer ∷ [])
            × (self.new.fault ≡ fault_after self.old.fault (length bytes.now) answer)
            × IsAnswer answer result }
    {
        match self.system.write(self.handle, bytes) {
            Ok(count) if count < bytes.len() => {
                self.fault = Some(PacketsFault::Cut);
                Ok(count)
            }
            Ok(count) => Ok(count),
            Err(refused) => {
                self.fault = Some(PacketsFault::from(refused));
                Err(refused.error())
            }
        }
    }
}
