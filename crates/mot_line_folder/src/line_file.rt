//! A file of lines, and what stands at a name that should be one.
ghost use Rattle.std.specs.Prelude.{◌≡◌, ◌≤◌, ◌↔◌, IfOk, IsTrue, length, string_bytes};
ghost use Rattle.mot_line_folder.specs.LineFiles.{Begins, IsFound, IsLookedInto, IsNamed};
ghost use Rattle.mot_line_folder.specs.LineFiles.{Removes, Stamps, TakesAway, fault_found, fault_named};
ghost use Rattle.mot_line_folder.specs.LineFiles.{unless_gone, word_len};
ghost use Rattle.mot_line_folder.specs.LineReads.{ReadsLines};

use crate::said::Stamp;
use mot_files::{Fault, FileStat, Handle, How, System, is_regular, is_same};
use mot_lines::Verb;

/// A byte more than the longest first word of lines has.
const LONGEST: usize = 9;

/// A file of lines that is read.
#[derive(Drop)]
pub(crate) struct LineFile {
    /// What is open.
    pub(crate) handle: Handle,
    /// Its name in the folder.
    pub(crate) name: String,
    /// Its path.
    pub(crate) path: String,
    /// Whether what was read last of it is no line end.
    pub(crate) is_cut: bool,
}

impl LineFile {
    /// What distinguishes it, if the system tells.
    pub(crate) fn stamp<S: System>(&self, system: &mut S) -> Option<Stamp>
        ensures { Stamps self.now.handle result (S.calls system.old) (S.calls system.new) }
    {
        match system.look_at(self.handle) {
            Ok(held) => Some(Stamp::of(&held)),
            Err(_) => None,
        }
    }

    /// Whether its path still names it.
    pub(crate) fn is_named<S: System>(&self, system: &mut S) -> Result<bool, Fault>
        ensures { IsNamed self.now.handle (string_bytes self.now.path) result (S.calls system.old)
            (S.calls system.new) }
    {
        let held = system.look_at(self.handle)?;
        match system.look(self.path.as_str()) {
            Ok(named) => Ok(is_same(&held, &named)),
            Err(fault) => refused_name(fault),
        }
    }

    /// Removes the file, if its path still names it, and closes it. The path is kept, so that no
    /// memory can lack here and make its lines come again.
    pub(crate) fn take_away<S: System>(&self, system: &mut S) -> Result<(), Fault>
        ensures { TakesAway self.now.handle (string_bytes self.now.path) result
            (S.calls system.old) (S.calls system.new) }
    {
        let removed = self.remove(system);
        system.close(self.handle);
        removed
    }

    /// Removes the file, if its path still names it.
    fn remove<S: System>(&self, system: &mut S) -> Result<(), Fault>
        ensures { Removes self.now.handle (string_bytes self.now.path) result
            (S.calls system.old) (S.calls system.new) }
    {
        if self.is_named(system)? {
            return unless_gone(system.remove(self.path.as_str()));
        }
        Ok(())
    }

    /// The next bytes. A last line without its end gets one.
    pub(crate) fn read<S: System>(&mut self, system: &mut S, buf: &mut [u8]) -> Result<usize, Fault>
        ensures fits { IfOk result (λ count. count ≤ length buf.new) }
        ensures reads { ReadsLines self.old.handle self.old.is_cut self.new.is_cut result buf.new
            (S.calls system.old) (S.calls system.new) }
        ensures handle { self.new.handle ≡ self.old.handle }
        ensures path { self.new.path ≡ self.old.path }
    {
        let count = system.read(self.handle, buf)?;
        if count > 0 {
            self.is_cut = buf[count - 1] != b'\n';
            return Ok(count);
        }
        if buf.is_empty() || !self.is_cut {
            return Ok(0);
        }
        self.is_cut = false;
        buf[0] = b'\n';
        Ok(1)
    }
}

/// Why what stands at a path is left there.
#[derive(Clone, Copy)]
pub(crate) enum Reason {
    /// It does not begin with the first word of a line.
    NoLine,
    /// It is not a regular file.
    NoFile,
    /// The system refused a call.
    Refused(Fault),
}

/// What stands at a path.
#[derive(Clone, Copy)]
pub(crate) enum Found {
    /// A file of lines, which is open, or an empty one.
    Lines(Handle),
    /// It is left there, for this reason; what was seen there, if something was.
    Left(Reason, Option<FileStat>),
    /// Nothing, or something else than a moment before.
    Gone,
}

/// What stands at the path. A link is not followed, and only a file of lines stays open.
pub(crate) fn find<S: System>(system: &mut S, path: &str) -> Found
    ensures { IsFound path.now result (S.calls system.old) (S.calls system.new) }
{
    let named = match system.look(path) {
        Ok(named) => named,
        Err(fault) => return refused(fault, None),
    };
    if !is_regular(&named) {
        return Found::Left(Reason::NoFile, Some(named));
    }
    let handle = match system.open(path, How::Read) {
        Ok(handle) => handle,
        Err(fault) => return refused(fault, Some(named)),
    };
    let found = look_into(system, handle, &named);
    if let Found::Lines(_) = found {
        return found;
    }
    system.close(handle);
    found
}

/// What a refused call says of the path.
fn refused(fault: Fault, named: Option<FileStat>) -> Found
    ensures { result ≡ fault_found named fault }
{
    match fault {
        Fault::Absent(_) => Found::Gone,
        _ => Found::Left(Reason::Refused(fault), named),
    }
}

/// What a refused look at a path says of whether it names the file.
fn refused_name(fault: Fault) -> Result<bool, Fault>
    ensures { result ≡ fault_named fault }
{
    match fault {
        Fault::Absent(_) => Ok(false),
        other => Err(other),
    }
}

/// A file that somebody else removed at that moment is removed.
fn unless_gone(answer: Result<(), Fault>) -> Result<(), Fault>
    ensures { result ≡ unless_gone answer }
{
    match answer {
        Err(Fault::Absent(_)) => Ok(()),
        other => other,
    }
}

/// What the open file is, if it is the one that was seen at its path.
fn look_into<S: System>(system: &mut S, handle: Handle, named: &FileStat) -> Found
    ensures { IsLookedInto handle named.now result (S.calls system.old) (S.calls system.new) }
{
    let held = match system.look_at(handle) {
        Ok(held) => held,
        Err(fault) => return Found::Left(Reason::Refused(fault), Some(*named)),
    };
    if !is_same(&held, named) {
        return Found::Gone;
    }
    // A read may give fewer bytes than it was asked for, and `put` could be the front of another
    // word.
    let mut start = [0u8; LONGEST];
    let count = match system.peek(handle, &mut start) {
        Ok(count) => count,
        Err(fault) => return Found::Left(Reason::Refused(fault), Some(*named)),
    };
    if count < LONGEST && (count as u64) < held.len {
        return Found::Gone;
    }
    if begins(&start[..count]) {
        Found::Lines(handle)
    } else {
        Found::Left(Reason::NoLine, Some(*named))
    }
}

/// Whether these first bytes begin with the first word of a line, or are none.
fn begins(start: &[u8]) -> bool
    ensures { IsTrue result ↔ Begins start.now }
{
    start.is_empty() || Verb::of(&start[..word_len(start)]).is_some()
}

/// How many bytes come before a space or the end of the line.
fn word_len(start: &[u8]) -> usize
    ensures value { result ≡ word_len start.now }
    ensures fits { result ≤ length start.now }
{
    let mut at = 0;
    while at < start.len() {
        if start[at] == b' ' || start[at] == b'\n' {
            return at;
        }
        at += 1;
    }
    at
}
