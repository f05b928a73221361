//! Files of lines in a folder, read one after the other.
ghost use Rattle.std.specs.Prelude.{◌≡◌, ◌≤◌, ◌⊎◌, ◌∷◌, [], IfOk, IsErr, None, Result, false, length};
ghost use Rattle.std.specs.Prelude.{string_bytes, take, true};
ghost use Rattle.mot_line_folder.specs.LineFiles.{TakesAway};
ghost use Rattle.mot_line_folder.specs.Spool.{SpoolView, open_file, spool_system, spool_view};
ghost use Rattle.mot_line_folder.specs.Spooling.{Finishes, FinishesFile, GaveLines, Serves};
ghost use Rattle.mot_line_folder.specs.Spooling.{ServesCount, ServesFile};
ghost use Rattle.mot_files.specs.declared.system.Fault.{Fault};

use crate::finder::Finder;
use crate::line_file::LineFile;
use mot_events::{Inlet, LineCount, Tells};
use mot_files::System;
use std::alloc::Global;
use std::io;

/// The end of a line that was not read to its end: with it no line asks for anything, since a
/// carriage return belongs to the last word.
const TORN: [u8; 2] = [b'\r', b'\n'];

/// The files of lines of a folder, as one input that waits for nothing. Each file is removed once
/// it was read to its end. So its lines come again after a crash, and none is lost. One whose
/// reading fails is left, until it is another one or was changed; if that can't be remembered, it
/// is the last. One that can't be removed is the last, too: else its lines would come again and
/// again. One that is gone by then is removed.
#[derive(Drop)]
pub struct Spool<'a, S: System + Drop> {
    /// What finds the files.
    finder: Finder<'a, S>,
    /// The file that is read.
    open: Option<LineFile>,
    /// Whether the reading of a file failed within a line.
    is_torn: bool,
    /// Whether no more is read.
    pub is_stopped: bool,
}

impl<'a, S: System + Drop> Spool<'a, S> {
    /// No file was read.
    pub fn new(system: S, alloc: Global, folder: &'a str) -> Spool<'a, S>
        ensures { spool_view S.calls result ≡ record {
          folder = folder.now;
          torn = false;
          stopped = false;
          file = None;
          calls = S.calls system;
        } }
    {
        Spool {
            finder: Finder::new(system, alloc, folder),
            open: None,
            is_torn: false,
            is_stopped: false,
        }
    }

    /// The next bytes of the file that is open, or of the next one.
    fn read_on(&mut self, buf: &mut [u8]) -> io::Result<usize>
        ensures fits { IfOk result (λ count. count ≤ length buf.new) }
        ensures serves { Serves self.old.finder.folder.now self.old.is_torn self.new.is_torn
            self.old.is_stopped self.old.«open» self.new.«open» result buf.new
            (S.calls self.old.finder.system) (S.calls self.new.finder.system) }
        ensures folder { self.new.finder.folder ≡ self.old.finder.folder }
    {
        if self.is_torn {
            return Ok(self.end_torn(buf));
        }
        if self.is_stopped || buf.is_empty() {
            return Ok(0);
        }
        if let Some(lines) = self.open.take() {
            return self.read_file(lines, buf);
        }
        match self.finder.open_next() {
            Some(lines) => self.read_file(lines, buf),
            None => Ok(0),
        }
    }

    /// The next bytes of this file. At its end it is taken away. If a read of it fails, it is left,
    /// and no more is read if it would not be known again.
    fn read_file(&mut self, mut lines: LineFile, buf: &mut [u8]) -> io::Result<usize>
        requires { self.old.«open» ≡ None }
        ensures fits { IfOk result (λ count. count ≤ length buf.new) }
        ensures serves { ServesFile lines self.new.«open» self.new.is_torn result buf.new
            (S.calls self.old.finder.system) (S.calls self.new.finder.system) }
        ensures folder { self.new.finder.folder ≡ self.old.finder.folder }
    {
        match lines.read(&mut self.finder.system, buf) {
            Ok(0) => {
                self.take_away(&lines);
                Ok(0)
            }
            Ok(count) => {
                self.open = Some(lines);
                Ok(count)
            }
            Err(fault) => {
                self.is_torn = lines.is_cut;
                self.is_stopped = !self.finder.leave_unread(&lines, fault);
                Err(fault.error())
            }
        }
    }

    /// Takes away the file that was read. If that fails no more is read.
    fn take_away(&mut self, lines: &LineFile)
        ensures takes { (taken : Result (Unit {0}) Fault)
            × TakesAway lines.now.handle (string_bytes lines.now.path) taken
            (S.calls self.old.finder.system) (S.calls self.new.finder.system)
            × (IsErr taken → self.new.is_stopped ≡ true) }
        ensures open { self.new.«open» ≡ self.old.«open» }
        ensures folder { self.new.finder.folder ≡ self.old.finder.folder }
    {
        if let Err(fault) = lines.take_away(&mut self.finder.system) {
            self.is_stopped = true;
            self.finder.tell_fault(lines, fault);
        }
    }

    /// Ends the line within which the reading of a file failed, so that none of its words counts.
    fn end_torn(&mut self, buf: &mut [u8]) -> usize
        ensures fits { result ≤ length buf.new }
        ensures ends { (result ≡ 0) ⊎ (take result buf.new ≡ 13 ∷ 10 ∷ []) }
        ensures finder { self.new.finder ≡ self.old.finder }
        ensures open { self.new.«open» ≡ self.old.«open» }
        ensures torn { (result ≡ 0) ⊎ (self.new.is_torn ≡ false) }
    {
        if buf.len() < TORN.len() {
            return 0;
        }
        self.is_torn = false;
        buf[0] = TORN[0];
        buf[1] = TORN[1];
        TORN.len()
    }

    /// The system of files.
    pub fn into_system(self) -> S
        ensures { result ≡ spool_system self.entry }
    {
        self.finder.into_system()
    }

    /// Ends the reading, once playing has ended and every line that was read was answered: a file
    /// that is at its end is taken away, and nothing more is read. One whose last line has no end
    /// stays, since that line was not answered. What is wrong is told.
    pub fn finish<T: Tells>(&mut self, log: &mut T)
        ensures finishes { Finishes (open_file self.old) (S.calls (spool_system self.old))
            (S.calls (spool_system self.new)) }
        ensures folder { (spool_view S.calls self.new).folder
            ≡ (spool_view S.calls self.old).folder }
        ensures stops { self.new.is_stopped ≡ true }
    {
        if let Some(lines) = self.open.take() {
            self.finish_file(&lines);
        }
        self.is_stopped = true;
        self.finder.notices.tell(log);
    }

    /// Takes the file away if it is at its end, and its last line has one; else closes it.
    fn finish_file(&mut self, lines: &LineFile)
        ensures finishes { FinishesFile lines.now (S.calls self.old.finder.system)
            (S.calls self.new.finder.system) }
        ensures folder { self.new.finder.folder ≡ self.old.finder.folder }
    {
        if lines.is_cut {
            self.finder.system.close(lines.handle);
            return;
        }
        let mut next = [0u8; 1];
        match self.finder.system.read(lines.handle, &mut next) {
            Ok(0) => self.take_away(lines),
            Ok(_) => self.finder.system.close(lines.handle),
            Err(_) => self.finder.system.close(lines.handle),
        }
    }
}

impl<'a, S: System + Drop> Inlet for Spool<'a, S> {
    ghost View = { SpoolView };

    ghost view = { λ spool. spool_view S.calls spool };

    ghost gave = { GaveLines };

    fn read<T: Tells>(&mut self, room: &mut [u8], count: &mut LineCount, log: &mut T) -> usize
        ensures fits { result ≤ length room.new }
        ensures gave { GaveLines (spool_view S.calls self.old) (spool_view S.calls self.new)
            (take result room.new) }

        // The same of this room. `gave` says it of one that may be shorter, and into an empty one
        // nothing is read.
        ensures serves { ServesCount (spool_view S.calls self.old) (spool_view S.calls self.new)
            result room.new }
    {
        // The lines of a file that is opened by this read are counted from the first.
        let was_open = self.open.is_some();
        let read = self.read_on(room).unwrap_or(0);
        if !was_open && let Some(lines) = &self.open {
            count.begin(lines.name.as_bytes());
        }
        self.finder.notices.tell(log);
        read
    }
}
