//! The files of the machine. Each method makes the one call of its name, on what it is given, and
//! notes it with its answer: no contract can say so, and a reader of this file has to see it.
ghost use Rattle.std.specs.Prelude.{◌≡◌, ◌≤◌, [], IfOk, length};
ghost use Rattle.mot_files.specs.Host.{calls_of};

use crate::answers::{closed, locked, real_path, seen, time_of_day, told, unwritten};
use crate::call_log::CallLog;
use crate::system::{Event, Fault, FileStat, Handle, How, System, Time};
use crate::table::Table;
use std::fs::{File, OpenOptions, TryLockError};
use std::io::{self, IsTerminal, Read, Write};
use std::os::unix::fs::FileExt;
use std::rt::{Files, Stdout};
use std::time::SystemTime;

/// What is open.
#[derive(Drop)]
enum Open {
    File(File),
    Folder(<HostRuntime as Files>::Dir),
    Output(Stdout),
}

/// The files of the machine.
#[derive(Drop)]
pub struct HostSystem<'a> {
    rt: &'a HostRuntime,
    open: Table<Open>,
    calls: CallLog,
}

impl<'a> HostSystem<'a> {
    /// The files of this runtime, and its standard output. Nothing was asked.
    pub fn new(rt: &'a HostRuntime) -> HostSystem<'a>
        ensures { calls_of result ≡ [] }
    {
        HostSystem {
            rt,
            open: Table::new(rt.alloc()),
            calls: CallLog::new(),
        }
    }

    /// Opens what the path names.
    fn open_path(&self, path: &str, how: How) -> io::Result<Open> {
        let mut options = OpenOptions::new();
        let options = match how {
            How::Read => options.read(true),
            How::New => options.read(true).write(true).create_new(true),
            How::Stream => options.read(true).write(true),
            How::Folder => return Ok(Open::Folder(self.rt.open_dir(path)?)),
            How::Output => return Ok(Open::Output(self.rt.stdout())),
        };
        Ok(Open::File(options.open(self.rt, path)?))
    }

    /// Opens what the path names. The handle has its place before, so memory that is refused opens
    /// nothing, and makes no file.
    fn open_at_place(&mut self, path: &str, how: How) -> Result<Handle, Fault>
        ensures calls { self.new.calls ≡ self.old.calls }
    {
        let handle = self.open.vacate()?;
        let opened = told(self.open_path(path, how))?;
        self.open.put(handle, opened);
        Ok(handle)
    }

    /// Reads of what the handle stands for.
    fn read_from(&mut self, handle: Handle, room: &mut [u8]) -> io::Result<usize>
        ensures within { IfOk result (λ count. count ≤ length room.new) }
        ensures calls { self.new.calls ≡ self.old.calls }
    {
        match self.open.get_mut(handle) {
            Some(Open::File(file)) => file.read(room),
            Some(Open::Folder(names)) => names.read(room),
            _ => Err(closed()),
        }
    }

    /// Writes to what the handle stands for.
    #[inline(always)]
    fn write_to(&mut self, handle: Handle, bytes: &[u8]) -> io::Result<usize>
        ensures within { IfOk result (λ count. count ≤ length bytes.now) }
        ensures calls { self.new.calls ≡ self.old.calls }
    {
        match self.open.get_mut(handle) {
            Some(Open::File(file)) => file.write(bytes),
            Some(Open::Output(output)) => output.write(bytes),
            _ => Err(closed()),
        }
    }

    /// The file that the handle stands for.
    fn file(&self, handle: Handle) -> io::Result<&File> {
        match self.open.get(handle) {
            Some(Open::File(file)) => Ok(file),
            _ => Err(closed()),
        }
    }
}

impl<'a> System for HostSystem<'a> {
    ghost calls = { calls_of };

    fn look(&mut self, path: &str) -> Result<FileStat, Fault> {
        let answer = seen(self.rt.symlink_metadata(path));
        self.calls
            .note(&Event::Looked(answer), path.as_bytes(), &[]);
        answer
    }

    fn follow(&mut self, path: &str) -> Result<FileStat, Fault> {
        let answer = seen(self.rt.metadata(path));
        self.calls
            .note(&Event::Followed(answer), path.as_bytes(), &[]);
        answer
    }

    fn resolve(&mut self, path: &str, room: &mut [u8]) -> Result<usize, Fault> {
        let answer = told(real_path(self.rt.canonicalize(self.rt.alloc(), path), room));
        self.calls
            .note_given(&Event::Resolved(answer), room, answer, path.as_bytes());
        answer
    }

    fn open(&mut self, path: &str, how: How) -> Result<Handle, Fault> {
        let answer = self.open_at_place(path, how);
        self.calls
            .note(&Event::Opened(how, answer), path.as_bytes(), &[]);
        answer
    }

    fn look_at(&mut self, handle: Handle) -> Result<FileStat, Fault> {
        let answer = seen(self.file(handle).and_then(|file| file.metadata()));
        self.calls.note(&Event::LookedAt(handle, answer), &[], &[]);
        answer
    }

    fn is_terminal(&mut self, handle: Handle) -> bool {
        let answer = match self.open.get(handle) {
            Some(Open::File(file)) => file.is_terminal(),
            Some(Open::Output(output)) => output.is_terminal(),
            _ => false,
        };
        self.calls
            .note(&Event::IsTerminal(handle, answer), &[], &[]);
        answer
    }

    fn read(&mut self, handle: Handle, room: &mut [u8]) -> Result<usize, Fault> {
        let answer = told(self.read_from(handle, room));
        self.calls
            .note_given(&Event::Read(handle, answer), room, answer, &[]);
        answer
    }

    fn peek(&mut self, handle: Handle, room: &mut [u8]) -> Result<usize, Fault> {
        let asked = room.len();
        let answer = told(self.file(handle).and_then(|file| file.read_at(room, 0)));
        self.calls
            .note_given(&Event::Peeked(handle, asked, answer), room, answer, &[]);
        answer
    }

    #[inline(always)]
    fn write(&mut self, handle: Handle, bytes: &[u8]) -> Result<usize, Fault> {
        let answer = match self.write_to(handle, bytes) {
            Ok(count) => Ok(count),
            Err(error) => Err(unwritten(error.raw_os_error(), error.kind())),
        };
        self.calls.note(&Event::Wrote(handle, answer), bytes, &[]);
        answer
    }

    fn lock(&mut self, handle: Handle) -> Result<(), Fault> {
        let answer = locked(match self.file(handle) {
            Ok(file) => file.try_lock(),
            Err(error) => Err(TryLockError::Error(error)),
        });
        self.calls.note(&Event::Locked(handle, answer), &[], &[]);
        answer
    }

    fn sync(&mut self, handle: Handle) -> Result<(), Fault> {
        let answer = told(self.file(handle).and_then(|file| file.sync_all()));
        self.calls.note(&Event::Synced(handle, answer), &[], &[]);
        answer
    }

    fn rename(&mut self, from: &str, to: &str) -> Result<(), Fault> {
        let answer = told(self.rt.rename(from, to));
        self.calls
            .note(&Event::Renamed(answer), from.as_bytes(), to.as_bytes());
        answer
    }

    fn remove(&mut self, path: &str) -> Result<(), Fault> {
        let answer = told(self.rt.remove_file(path));
        self.calls
            .note(&Event::Removed(answer), path.as_bytes(), &[]);
        answer
    }

    fn close(&mut self, handle: Handle) {
        self.open.close(handle);
        self.calls.note(&Event::Closed(handle), &[], &[]);
    }

    fn now(&mut self) -> Option<Time> {
        let answer = time_of_day(SystemTime::now(self.rt));
        self.calls.note(&Event::Told(answer), &[], &[]);
        answer
    }

    fn take_in(&mut self, more: CallLog) {
        self.calls.join(&more);
    }

    fn into_calls(self) -> CallLog {
        self.calls
    }
}
