//! Which files of a folder are objects: the known suffixes, and those that a file adds.
ghost use Rattle.std.specs.Prelude.{◌≡◌, ◌≤◌, ◌<◌, ◌+◌, ◌∷◌, ◌++◌, ℕ, List, [], IfErr, IfOk};
ghost use Rattle.std.specs.Prelude.{MatchResult, Ok, length, take};
ghost use Rattle.mot_endpoints.specs.Opened.{AreMet, BeginsTo, if_given};
ghost use Rattle.mot_endpoints.specs.Opened.Need.{types as types_at};
ghost use Rattle.mot_endpoints.specs.Inner.{Extends};
ghost use Rattle.mot_endpoints.specs.Texts.{AsksFirst, IsReadToEnd, IsTextOf, IsTyped, IsUntyped};
ghost use Rattle.mot_files.specs.Call.{looked_at, read_of};
ghost use Rattle.mot_files.specs.Reading.{IsSame};
ghost use Rattle.mot_files.specs.declared.system.FileStat.{FileStat};

use crate::host::{Host, Machine};
use crate::{Cause, StartError, TypesFault};
use mot_files::{Fault, FileStat, Handle, How, System, is_regular, is_same};
use mot_numbers::Refusal;
use mot_suffixes::{FileTypes, RefusedLine};
use std::alloc::Global;

/// The most bytes of a file that adds suffixes.
const MOST: usize = 65_536;

/// The known suffixes, and those that the file at the path adds, if one is given: `ReadFault` if it
/// can't be read or has more than 65,536 bytes, and the refusals of its lines.
pub fn file_types<M: Machine + Drop>(
    host: &mut Host<M>,
    alloc: Global,
    path: Option<&str>,
) -> Result<FileTypes, StartError>
    ensures typed { IfOk result (IsTyped path.entry) }
    ensures refused { IfErr result (λ unbegun. IsUntyped path.entry unbegun.refusal) }
    ensures opens { MatchResult result
        (λ _. AreMet (if_given types_at path.entry) (M.System.calls host.old.system)
        (M.System.calls host.new.system))
        (λ unbegun. BeginsTo (if_given types_at path.entry) unbegun.refusal
        (M.System.calls host.old.system) (M.System.calls host.new.system)) }
{
    let Ok(mut types) = FileTypes::new(alloc) else {
        return Err(StartError::no_memory());
    };
    let Some(path) = path else {
        return Ok(types);
    };
    let text = match read_text(&mut host.system, alloc, path) {
        Ok(text) => text,
        Err(fault) => return Err(StartError::unread(Cause::Types(fault))),
    };
    match types.add(alloc, &text) {
        Ok(()) => Ok(types),
        Err(at) => Err(wrong(at)),
    }
}

/// A line of the file does not have the form, or there was no memory for it.
fn wrong(at: RefusedLine) -> StartError
    ensures { result.refusal ≡ at.refusal }
{
    match at.refusal {
        Refusal::OutOfMemory => StartError::no_memory(),
        refusal => StartError {
            refusal,
            cause: Some(Cause::Types(TypesFault::Line(at.number))),
        },
    }
}

/// The bytes of the regular file at the path, or where a link there leads: 65,536 at most.
pub(crate) fn read_text<S: System>(
    system: &mut S,
    alloc: Global,
    path: &str,
) -> Result<Vec<u8>, TypesFault>
    ensures short { IfOk result (λ text. length text.items ≤ 65536) }
    ensures calls { IfOk result (λ text. IsTextOf path.now text.items (S.calls system.old)
        (S.calls system.new)) }
    ensures asked { AsksFirst path.now (S.calls system.old) (S.calls system.new) }
{
    let named = system.follow(path)?;
    // A pipe, whose opening would wait, is not opened.
    if !is_regular(&named) {
        return Err(TypesFault::NoFile);
    }
    let handle = system.open(path, How::Read)?;
    let text = read_open(system, alloc, handle, &named);
    system.close(handle);
    text
}

/// The bytes of an open file, if it is the one that was seen at its path, and has not too many.
fn read_open<S: System>(
    system: &mut S,
    alloc: Global,
    handle: Handle,
    named: &FileStat,
) -> Result<Vec<u8>, TypesFault>
    ensures short { IfOk result (λ text. length text.items ≤ 65536) }
    ensures more { Extends (S.calls system.old) (S.calls system.new) }
    ensures calls { IfOk result (λ text. (held : FileStat) × IsSame held named.now × IsReadToEnd
        handle text.items (S.calls system.old ++ looked_at handle (Ok held) ∷ [])
        (S.calls system.new)) }
{
    let held = system.look_at(handle)?;
    if !is_same(&held, named) {
        return Err(TypesFault::NoFile);
    }
    let mut text = Vec::from_elem(alloc, 0u8, MOST + 1)?;
    let len = fill(system, handle, &mut text)?;
    if len > MOST {
        return Err(TypesFault::Long);
    }
    text.truncate(len);
    Ok(text)
}

/// Reads until the file ends, or the room is full; how many bytes came.
fn fill<S: System>(system: &mut S, handle: Handle, room: &mut [u8]) -> Result<usize, Fault>
    ensures more { Extends (S.calls system.old) (S.calls system.new) }
    ensures ended { IfOk result (λ count. count < length room.new
        → IsReadToEnd handle (take count room.new) (S.calls system.old) (S.calls system.new)) }
{
    let mut at = 0;
    while at < room.len() {
        match read_some(system, handle, room, at) {
            Ok(0) => return Ok(at),
            Ok(count) => at += count,
            Err(fault) => return Err(fault),
        }
    }
    Ok(at)
}

/// Reads bytes into the room, from this place on.
fn read_some<S: System>(
    system: &mut S,
    handle: Handle,
    room: &mut [u8],
    at: usize,
) -> Result<usize, Fault>
    requires { at ≤ length room.old }
    ensures fits { IfOk result (λ count. at + count ≤ length room.new) }
    ensures more { Extends (S.calls system.old) (S.calls system.new) }
    ensures noted { IfOk result (λ count. (chunk : List ℕ) × (length chunk ≡ count)
        × (S.calls system.new ≡ S.calls system.old ++ read_of handle chunk ∷ [])
        × (take (at + count) room.new ≡ take at room.old ++ chunk)) }
{
    match system.read(handle, &mut room[at..]) {
        Ok(count) => Ok(count),
        Err(fault) => Err(fault),
    }
}
