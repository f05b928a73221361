//! Reading one file of a folder.
ghost use Rattle.std.specs.Prelude.{◌≡◌, ◌≢◌, ◌<◌, ◌++◌, ◌↔◌, ℕ, List, MatchResult};
ghost use Rattle.std.specs.Prelude.{IfErr, IsTrue, length, true};
ghost use Rattle.mot_files.specs.declared.reading.ReadFailure.TheVariants.{System, TooLong, Young};
ghost use Rattle.mot_files.specs.Reading.{AgeIs, IsRead, IsReadOpen, IsSame, IsTaken, IsUnchanged};
ghost use Rattle.mot_files.specs.Reading.{IsUnfilled, IsUnread, IsUnreadOpen, IsUntaken, joined, reads};
ghost use Rattle.mot_files.specs.Stamping.{IsReadStamped, IsUnreadStamped};
ghost use Rattle.mot_files.specs.declared.system.Kind.TheVariants.{File};

use crate::stamping::{OLD, stamp_at};
use crate::system::{Fault, FileStat, Handle, How, Kind, Stamp, System, Time};
use std::alloc::{AllocError, Global};

/// Why a file was not read.
#[derive(Clone, Copy)]
pub enum ReadFailure {
    /// Its last change is less than two seconds ago, so it may be written still.
    Young,
    /// It was exchanged or written while it was read, or is no regular file.
    Changed,
    /// It has so many bytes, and so many are too many.
    TooLong(u64),
    /// The system refused a call, for this reason.
    System(Fault),
    /// There was no memory for its bytes.
    NoMemory,
}

impl From<Fault> for ReadFailure {
    ghost from_gives = { λ fault unread. unread ≡ System fault };

    fn from(fault: Fault) -> ReadFailure {
        ReadFailure::System(fault)
    }
}

/// A file that was read.
#[derive(Drop)]
pub struct FileRead {
    /// Its bytes.
    pub bytes: Vec<u8>,
    /// Its stamp before it was read, if its last change was two seconds ago then, or longer.
    pub stamp: Option<Stamp>,
}

/// The bytes of the regular file at the path, if it has so many at most. One that is young is read
/// only `at_once`.
pub fn read_file<S: System>(
    system: &mut S,
    alloc: Global,
    path: &str,
    most: u64,
    at_once: bool,
) -> Result<Vec<u8>, ReadFailure>
    ensures young { at_once ≡ true → IfErr result (λ unread. unread ≢ Young) }
    ensures long { IfErr result (λ unread. (count : ℕ) → unread ≡ TooLong count → most < count) }
    ensures calls { MatchResult result
        (λ bytes. IsRead path.now most at_once bytes.items (S.calls system.old) (S.calls system.new))
        (λ unread. IsUnread path.now most at_once unread (S.calls system.old)
        (S.calls system.new)) }
{
    let (_, bytes) = read_seen(system, alloc, path, most, at_once)?;
    Ok(bytes)
}

/// The same, with the file's stamp. So the time of day is asked before.
pub fn read_stamped<S: System>(
    system: &mut S,
    alloc: Global,
    path: &str,
    most: u64,
    at_once: bool,
) -> Result<FileRead, ReadFailure>
    ensures young { at_once ≡ true → IfErr result (λ unread. unread ≢ Young) }
    ensures long { IfErr result (λ unread. (count : ℕ) → unread ≡ TooLong count → most < count) }
    ensures calls { MatchResult result
        (λ file. IsReadStamped path.now most at_once file.bytes.items file.stamp
        (S.calls system.old) (S.calls system.new))
        (λ unread. IsUnreadStamped path.now most at_once unread (S.calls system.old)
        (S.calls system.new)) }
{
    let now = system.now();
    let (named, bytes) = read_seen(system, alloc, path, most, at_once)?;
    let stamp = stamp_at(&named, now);
    Ok(FileRead { bytes, stamp })
}

/// The bytes of the file at the path, behind what the system said of it before it was opened.
fn read_seen<S: System>(
    system: &mut S,
    alloc: Global,
    path: &str,
    most: u64,
    at_once: bool,
) -> Result<(FileStat, Vec<u8>), ReadFailure>
    ensures young { at_once ≡ true → IfErr result (λ unread. unread ≢ Young) }
    ensures long { IfErr result (λ unread. (count : ℕ) → unread ≡ TooLong count → most < count) }
    ensures calls { MatchResult result
        (λ read. (is : IsRead path.now most at_once read.1.items (S.calls system.old)
        (S.calls system.new)) × (is.named ≡ read.0))
        (λ unread. IsUnread path.now most at_once unread (S.calls system.old)
        (S.calls system.new)) }
{
    let named = system.look(path)?;
    // What is none is not opened: a pipe would wait for its writer.
    if !is_regular(&named) {
        return Err(ReadFailure::Changed);
    }
    let handle = system.open(path, How::Read)?;
    let bytes = read_open(system, alloc, handle, &named, most, at_once);
    system.close(handle);
    Ok((named, bytes?))
}

/// The bytes of an open file, if it is the one that was seen at its path, and stays as it is.
fn read_open<S: System>(
    system: &mut S,
    alloc: Global,
    handle: Handle,
    named: &FileStat,
    most: u64,
    at_once: bool,
) -> Result<Vec<u8>, ReadFailure>
    ensures young { at_once ≡ true → IfErr result (λ unread. unread ≢ Young) }
    ensures long { IfErr result (λ unread. (count : ℕ) → unread ≡ TooLong count → most < count) }
    ensures calls { MatchResult result
        (λ bytes. IsReadOpen handle named.now most at_once bytes.items (S.calls system.old)
        (S.calls system.new))
        (λ unread. IsUnreadOpen handle named.now most at_once unread (S.calls system.old)
        (S.calls system.new)) }
{
    let held = system.look_at(handle)?;
    if !is_same(&held, named) {
        return Err(ReadFailure::Changed);
    }
    if is_young(system, &held, at_once) {
        return Err(ReadFailure::Young);
    }
    if held.len > most {
        return Err(ReadFailure::TooLong(held.len));
    }
    take_all(system, alloc, handle, &held)
}

/// All bytes of an open file, if it stays as it is.
fn take_all<S: System>(
    system: &mut S,
    alloc: Global,
    handle: Handle,
    held: &FileStat,
) -> Result<Vec<u8>, ReadFailure>
    ensures { MatchResult result
        (λ bytes. IsTaken handle held.now bytes.items (S.calls system.old) (S.calls system.new))
        (λ unread. IsUntaken handle held.now unread (S.calls system.old) (S.calls system.new)) }
{
    let Ok(mut bytes) = Vec::from_elem(alloc, 0u8, held.len as usize) else {
        return Err(ReadFailure::NoMemory);
    };
    fill(system, handle, &mut bytes)?;
    let after = system.look_at(handle)?;
    if !is_unchanged(held, &after) {
        return Err(ReadFailure::Changed);
    }
    Ok(bytes)
}

/// Whether the file is too young.
fn is_young<S: System>(system: &mut S, held: &FileStat, at_once: bool) -> bool
    ensures { AgeIs at_once held.now result (S.calls system.old) (S.calls system.new) }
{
    if at_once {
        return false;
    }
    let written = held.written.nanos;
    match system.now() {
        Some(now) => written <= now.nanos && now.nanos - written < OLD,
        None => false,
    }
}

/// Whether it is a regular file.
pub fn is_regular(named: &FileStat) -> bool
    ensures { IsTrue result ↔ (named.now.kind ≡ File) }
{
    named.kind == Kind::File
}

/// Whether it is a regular file, and the same one.
pub fn is_same(held: &FileStat, named: &FileStat) -> bool
    ensures { IsTrue result ↔ IsSame held.now named.now }
{
    held.kind == Kind::File && held.device == named.device && held.number == named.number
}

/// Whether nothing of it was changed between the two.
fn is_unchanged(before: &FileStat, after: &FileStat) -> bool
    ensures { IsTrue result ↔ IsUnchanged before.now after.now }
{
    before.len == after.len && before.written == after.written && before.changed == after.changed
}

/// Fills the room with the next bytes.
fn fill<S: System>(system: &mut S, handle: Handle, room: &mut [u8]) -> Result<(), ReadFailure>
    ensures { MatchResult result
        (λ _. (chunks : List (List ℕ)) × (S.calls system.new
        ≡ S.calls system.old ++ reads handle chunks) × (room.new ≡ joined chunks))
        (λ unread. IsUnfilled handle unread (length room.old) (S.calls system.old)
        (S.calls system.new)) }
{
    let mut at = 0;
    while at < room.len() {
        match system.read(handle, &mut room[at..])? {
            0 => return Err(ReadFailure::Changed),
            count => at += count,
        }
    }
    Ok(())
}
