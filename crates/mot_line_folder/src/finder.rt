//! The files of lines in a folder, found one after the other.
ghost use Rattle.std.specs.Prelude.{◌≡◌, ◌++◌, ◌∷◌, [], false, true};
ghost use Rattle.std.specs.Prelude.{IsSome, List, MatchOption, None, Ok, Option};
ghost use Rattle.std.specs.Result.{result_unwrap_or};
ghost use Rattle.mot_line_folder.specs.LineFiles.{Leaves, refusal_of};
ghost use Rattle.mot_line_folder.specs.Spooling.{Finds, OnlyReads};
ghost use Rattle.mot_line_folder.specs.declared.said.Stamp.{Stamp};
ghost use Rattle.mot_files.specs.Call.{Call, closed};
ghost use Rattle.mot_files.specs.declared.system.Handle.{Handle};

use crate::line_file::{Found, LineFile, Reason, find};
use crate::names::{Names, is_of_lines, plain_text};
use crate::notices::{Notices, words_of};
use crate::said::{Said, Stamp};
use mot_events::Why;
use mot_files::{Fault, Handle, How, System, path_in};
use mot_numbers::Refusal;
use std::alloc::Global;
use std::io;

/// Room for the names that one read of a folder gives.
const ROOM: usize = 16_384;

/// How often a folder is read in one call, at most.
const READS: u32 = 2;

/// How many names are looked at in one call, at most.
const LOOKS: u32 = 16;

/// The regular files directly in a folder whose names end in `.lines` and do not begin with a dot,
/// in the order of their names. A file whose first line does not begin with a word of lines, or
/// that can't be opened, is left and told once.
///
/// A call reads a part of the folder at most, and looks at a few names: so whatever lies there, it
/// comes back soon.
#[derive(Drop)]
pub(crate) struct Finder<'a, S: System + Drop> {
    /// The files, which nothing else is asked of.
    pub(crate) system: S,
    alloc: Global,
    /// The folder's path.
    pub(crate) folder: &'a str,
    /// What is to be told.
    pub(crate) notices: Notices<'a>,
    /// The folder, while it is read.
    listing: Option<Handle>,
    /// The names of the files that come next.
    names: Names,
    /// The files that are left and logged.
    said: Said,
}

impl<'a, S: System + Drop> Finder<'a, S> {
    /// Nothing was looked for.
    pub(crate) fn new(system: S, alloc: Global, folder: &'a str) -> Finder<'a, S>
        ensures folder { result.folder.now ≡ folder.now }
        ensures system { result.system ≡ system }
    {
        Finder {
            system,
            alloc,
            folder,
            notices: Notices::new(alloc, folder),
            listing: None,
            names: Names::new(alloc),
            said: Said::new(alloc),
        }
    }

    /// The system of files.
    pub(crate) fn into_system(self) -> S
        ensures { result ≡ self.entry.system }
    {
        self.system
    }

    /// The next file of lines, if there is one among the names that are looked at. The log says
    /// once that the folder can't be read, or that there is no memory for it, and once that it can be
    /// again.
    pub(crate) fn open_next(&mut self) -> Option<LineFile>
        ensures finds { Finds self.old.folder.now result (S.calls self.old.system)
            (S.calls self.new.system) }
        ensures folder { self.new.folder ≡ self.old.folder }
    {
        match self.open_on() {
            Ok(opened) => {
                self.notices.add_readable(Refusal::OutOfMemory);
                opened
            }
            Err(error) => {
                self.notices.add_unread(error);
                None
            }
        }
    }

    /// Reads on in the folder if no name is left, or if it was not read to its end. Once all names
    /// that come next are known, opens the next file.
    fn open_on(&mut self) -> io::Result<Option<LineFile>>
        ensures finds { Finds self.old.folder.now (result_unwrap_or result None)
            (S.calls self.old.system) (S.calls self.new.system) }
        ensures folder { self.new.folder ≡ self.old.folder }
    {
        if self.names.is_empty() || self.listing.is_some() {
            match self.list() {
                Ok(true) => self.notices.add_readable(Refusal::ReadFault),
                Ok(false) => return Ok(None),
                Err(error) => {
                    self.names.clear();
                    return Err(error);
                }
            }
        }
        self.open_one()
    }

    /// Opens the next file of lines among the names that wait.
    fn open_one(&mut self) -> io::Result<Option<LineFile>>
        ensures finds { Finds self.old.folder.now (result_unwrap_or result None)
            (S.calls self.old.system) (S.calls self.new.system) }
        ensures folder { self.new.folder ≡ self.old.folder }
    {
        for _ in 0..LOOKS {
            let Some(name) = self.names.next()? else {
                return Ok(None);
            };
            if let Some(lines) = self.open_named(&name)? {
                return Ok(Some(lines));
            }
        }
        Ok(None)
    }

    /// Opens the file of this name, if it is a file of lines. A file that is left there is logged.
    /// Only names of lines wait; what is opened may be removed, so the name is asked for that again.
    fn open_named(&mut self, bytes: &[u8]) -> io::Result<Option<LineFile>>
        ensures finds { Finds self.old.folder.now (result_unwrap_or result None)
            (S.calls self.old.system) (S.calls self.new.system) }
        ensures folder { self.new.folder ≡ self.old.folder }
    {
        if !is_of_lines(bytes) {
            return Ok(None);
        }
        let name = match plain_text(bytes) {
            Ok(name) => name,
            Err(why) => return self.leave(bytes, None, Refusal::BadName, why),
        };
        let path = path_in(self.alloc, self.folder, name)?;
        let name = String::from_str(self.alloc, name)?;
        match find(&mut self.system, path.as_str()) {
            Found::Lines(handle) => Ok(self.open_found(LineFile {
                handle,
                name,
                path,
                is_cut: false,
            })),
            Found::Left(reason, seen) => {
                let (refusal, why) = told_of(self.alloc, reason);
                self.leave(bytes, seen.map(|seen| Stamp::of(&seen)), refusal, why)
            }
            Found::Gone => {
                self.said.meet(bytes);
                Ok(None)
            }
        }
    }

    /// This file, but not one of which a read failed before: that is closed.
    fn open_found(&mut self, lines: LineFile) -> Option<LineFile>
        ensures kept { MatchOption result ((stamp : Option Stamp) × Leaves lines.handle stamp
            (S.calls self.old.system) (S.calls self.new.system)) (λ kept. (kept ≡ lines)
            × OnlyReads (S.calls self.old.system) (S.calls self.new.system)) }
        ensures folder { self.new.folder ≡ self.old.folder }
    {
        let stamp = lines.stamp(&mut self.system);
        if self.said.is_unread(lines.name.as_bytes(), stamp) {
            self.system.close(lines.handle);
            return None;
        }
        Some(lines)
    }

    /// Reads the names of the folder, or a part of them; whether it came to their end. Then the
    /// folder is closed, and else it stays open.
    fn list(&mut self) -> io::Result<bool>
        ensures reads { OnlyReads (S.calls self.old.system) (S.calls self.new.system) }
        ensures stays { result ≡ Ok false → IsSome self.new.listing }
        ensures closes { result ≡ Ok true → (folder : Handle) × (inner : List Call)
            × (S.calls self.new.system ≡ inner ++ closed folder ∷ []) }
        ensures folder { self.new.folder ≡ self.old.folder }
    {
        let folder = self.open_folder()?;
        let is_whole = self.read_names(folder);
        if let Ok(false) = is_whole {
            self.listing = Some(folder);
        } else {
            self.system.close(folder);
        }
        is_whole
    }

    /// The folder that is read, or that is opened for it. If its path is a link, the dot makes the
    /// system follow it.
    fn open_folder(&mut self) -> io::Result<Handle>
        ensures reads { OnlyReads (S.calls self.old.system) (S.calls self.new.system) }
        ensures folder { self.new.folder ≡ self.old.folder }
    {
        if let Some(folder) = self.listing.take() {
            return Ok(folder);
        }
        self.begin_anew();
        let path = path_in(self.alloc, self.folder, ".")?;
        match self.system.open(path.as_str(), How::Folder) {
            Ok(handle) => Ok(handle),
            Err(fault) => Err(fault.error()),
        }
    }

    /// Once all names of the folder were given, forgets the files that none of them named.
    fn begin_anew(&mut self)
        ensures system { self.new.system ≡ self.old.system }
        ensures folder { self.new.folder ≡ self.old.folder }
    {
        if self.names.is_through {
            self.names.is_through = false;
            self.said.forget_unmet();
        }
    }

    /// Reads names, so often at most; whether it came to their end.
    fn read_names(&mut self, folder: Handle) -> io::Result<bool>
        ensures reads { OnlyReads (S.calls self.old.system) (S.calls self.new.system) }
        ensures folder { self.new.folder ≡ self.old.folder }
    {
        let mut room = Vec::from_elem(self.alloc, 0u8, ROOM)?;
        for _ in 0..READS {
            match self.system.read(folder, &mut room) {
                Ok(0) => {
                    self.names.end();
                    return Ok(true);
                }
                Ok(count) => self.names.keep_all(&room[..count])?,
                Err(fault) => return Err(fault.error()),
            }
        }
        Ok(false)
    }

    /// Opens nothing, and tells that the file of this name is left there, if the log does not have
    /// that already.
    fn leave(
        &mut self,
        name: &[u8],
        stamp: Option<Stamp>,
        refusal: Refusal,
        why: Why,
    ) -> io::Result<Option<LineFile>>
        ensures none { result_unwrap_or result None ≡ None }
        ensures system { self.new.system ≡ self.old.system }
        ensures folder { self.new.folder ≡ self.old.folder }
    {
        if self.said.is_new(name, stamp)? {
            self.notices.add_file(name, refusal, why);
        }
        Ok(None)
    }

    /// Leaves a file of which a read failed, closes it, and tells why; whether it will be known
    /// again.
    pub(crate) fn leave_unread(&mut self, lines: &LineFile, fault: Fault) -> bool
        ensures leaves { (stamp : Option Stamp) × Leaves lines.now.handle stamp
            (S.calls self.old.system) (S.calls self.new.system) }
        ensures folder { self.new.folder ≡ self.old.folder }
    {
        let stamp = lines.stamp(&mut self.system);
        self.system.close(lines.handle);
        let is_known = self.said.keep_unread(lines.name.as_bytes(), stamp);
        self.tell_fault(lines, fault);
        is_known
    }

    /// Tells that a file can't be read, or not be removed, and why.
    pub(crate) fn tell_fault(&mut self, lines: &LineFile, fault: Fault)
        ensures system { self.new.system ≡ self.old.system }
        ensures folder { self.new.folder ≡ self.old.folder }
    {
        let why = words_of(self.alloc, fault.error());
        self.notices
            .add_file(lines.name.as_bytes(), Refusal::ReadFault, why);
    }
}

/// The refusal of a file that is left for this reason, and why.
fn told_of(alloc: Global, reason: Reason) -> (Refusal, Why)
    ensures { result.0 ≡ refusal_of reason }
{
    match reason {
        Reason::NoLine => (Refusal::BadLine, Why::NoCommand),
        Reason::NoFile => (Refusal::ReadFault, Why::NotRegular),
        Reason::Refused(fault) => (Refusal::ReadFault, words_of(alloc, fault.error())),
    }
}
