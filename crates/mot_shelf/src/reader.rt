//! A folder of a system of files: it is listed and read through one reader, and clauses say of each
//! call what the folder gave.
ghost use Rattle.std.specs.Prelude.{◌≡◌, ◌≢◌, ◌<◌, ◌≤◌, ◌++◌, ◌∷◌, [], ℕ, Err, IfErr, IfOk};
ghost use Rattle.std.specs.Prelude.{MatchResult, None, Ok, Result, Some, length, take, true};
ghost use Rattle.mot_files.specs.Call.{looked, opened};
ghost use Rattle.mot_files.specs.declared.system.Fault.{Fault};
ghost use Rattle.mot_files.specs.declared.system.How.TheVariants as How;
ghost use Rattle.mot_files.specs.declared.system.FileStat.{FileStat};
ghost use Rattle.mot_shelf.specs.Given.{Given, and_asked, and_failed, and_kept, and_kept_names};
ghost use Rattle.mot_shelf.specs.Given.{and_listed, and_missed, and_read, and_unchanged};
ghost use Rattle.mot_files.specs.declared.reading.ReadFailure.TheVariants.{TooLong, Young};
ghost use Rattle.mot_shelf.specs.Calls.{FolderIsClosed, FolderIsOpened, IsSeen};
ghost use Rattle.mot_shelf.specs.Calls.{NamesAreRead, NamesAreUnread};
ghost use Rattle.mot_shelf.specs.Gives.{Asks};
ghost use Rattle.mot_shelf.specs.Reader.{reader_fault, reader_path, reader_system, seen_in, view};
ghost use Rattle.mot_shelf.specs.View.{afresh, folder_at};

use crate::path::{NoPath, PathRoom, set_path};
use crate::seen::SeenFiles;
use mot_files::{
    FileRead, Handle, How, Kind, ReadFailure, Stamp, System, file_stamp, make_last, read_stamped,
    sync_path,
};
use std::alloc::Global;
use std::io::{self, ErrorKind};

/// The folder at a path of a system of files.
#[derive(Drop)]
pub struct FolderReader<'a, S: System + Drop> {
    system: S,
    path: &'a str,
    /// Room for the path of a name in it.
    room: PathRoom,
    /// Whether a file is read however young it is.
    at_once: bool,
    /// The open folder, while its names are listed.
    listing: Option<Handle>,
    /// The regular files that the look asked for, if their stamps are kept.
    seen: Option<SeenFiles>,
    /// Why it was not opened, if it was last opened in vain.
    fault: Option<io::Error>,
}

impl<'a, S: System + Drop> FolderReader<'a, S> {
    /// The folder at this path. Files are read `at_once`, or once their last change is two seconds
    /// ago.
    pub fn new(system: S, path: &'a str, at_once: bool) -> FolderReader<'a, S>
        ensures system { reader_system result ≡ system }
        ensures view { view S.calls result ≡ folder_at path.now at_once (S.calls system) }
        ensures none { reader_fault result ≡ None }
    {
        FolderReader {
            system,
            path,
            room: PathRoom::new(),
            at_once,
            listing: None,
            seen: None,
            fault: None,
        }
    }

    /// The system of files.
    pub fn into_system(self) -> S
        ensures { result ≡ reader_system self.entry }
    {
        self.system
    }

    /// Its path, to be shown.
    pub fn shown(&self) -> &str
        ensures { result.now ≡ reader_path self.now }
    {
        self.path
    }

    /// A look begins: a folder that an earlier one left open is closed, and what it saw forgotten. Where
    /// no file is known, no stamp need be kept.
    pub fn begin(&mut self, alloc: Global, keeps_stamps: bool)
        ensures same { reader_path self.new ≡ reader_path self.old }
        ensures asks { (given : Given)
            → Asks (afresh (view S.calls self.old)) (view S.calls self.new) given given }
        ensures anew { ((view S.calls self.new).listing ≡ None) × (reader_fault self.new ≡ None) }
    {
        close_listing(&mut self.system, self.listing);
        self.listing = None;
        self.seen = none_seen(alloc, keeps_stamps);
        self.fault = None;
    }

    /// Opens it, or the folder that it is a link to, so that its names are listed from the first
    /// on.
    pub fn open(&mut self) -> io::Result<()>
        ensures same { reader_path self.new ≡ reader_path self.old }
        ensures asks { (given : Given) → MatchResult result
            (λ _. Asks (view S.calls self.old) (view S.calls self.new) given
            (and_listed given (reader_path self.old)))
            (λ _. Asks (view S.calls self.old) (view S.calls self.new) given
            (and_failed given (reader_path self.old))) }
        ensures fault { MatchResult result (λ _. reader_fault self.new ≡ reader_fault self.old)
            (λ error. reader_fault self.new ≡ Some error) }
    {
        match open_folder(&mut self.system, &mut self.room, self.path) {
            Ok(handle) => {
                self.listing = Some(handle);
                Ok(())
            }
            Err(error) => {
                self.fault = Some(error);
                Err(error)
            }
        }
    }

    /// Why it was not opened, if a look last tried to in vain. It is printed, and decides nothing.
    pub fn fault(&self) -> Option<io::Error>
        ensures { result ≡ reader_fault self.now }
    {
        self.fault
    }

    /// The next of its names, each ended by a zero byte, and how many bytes they are: 0 where there
    /// are no further ones.
    pub fn names(&mut self, room: &mut [u8]) -> io::Result<usize>
        ensures fits { IfOk result (λ count. count ≤ length room.new) }
        ensures same { reader_path self.new ≡ reader_path self.old }
        ensures asks { (given : Given) → MatchResult result
            (λ count. Asks (view S.calls self.old) (view S.calls self.new) given
            (and_listed given (take count room.new)))
            (λ _. Asks (view S.calls self.old) (view S.calls self.new) given
            (and_failed given (reader_path self.old))) }
    {
        next_names(&mut self.system, &mut self.listing, room)
    }

    /// Whether there is a regular file of this name in it. A link is none. Its stamp is kept.
    pub fn is_file(&mut self, alloc: Global, name: &[u8]) -> io::Result<bool>
        ensures same { reader_path self.new ≡ reader_path self.old }
        ensures asks { (given : Given) → MatchResult result
            (λ is_file. Asks (view S.calls self.old) (view S.calls self.new) given
            (and_asked given name.now is_file))
            (λ _. Asks (view S.calls self.old) (view S.calls self.new) given
            (and_failed given name.now)) }
    {
        match set_path(&mut self.room, self.path, name) {
            Ok(()) => match file_stamp(&mut self.system, self.room.as_str()) {
                Ok(stamp) => {
                    keep_stamp(&mut self.seen, alloc, name, stamp);
                    Ok(stamp.is_some())
                }
                Err(fault) => Err(fault.error()),
            },
            // A name that is no text is that of no file.
            Err(NoPath::NoText) => Ok(false),
            Err(NoPath::TooLong) => Err(NoPath::TooLong.error()),
        }
    }

    /// What this name in it names, to be told; `None` if the system does not say.
    pub fn kind(&mut self, name: &[u8]) -> Option<Kind>
        ensures same { reader_path self.new ≡ reader_path self.old }
        ensures asks { (given : Given)
            → Asks (view S.calls self.old) (view S.calls self.new) given given }
    {
        match set_path(&mut self.room, self.path, name) {
            Ok(()) => kind_at(&mut self.system, self.room.as_str()),
            Err(_) => None,
        }
    }

    /// Whether the file of this name was a regular one with this stamp when the look asked for it. It
    /// is not asked for again, and not read.
    pub fn is_unchanged(&self, name: &[u8], stamp: &Stamp) -> bool
        ensures { result ≡ true → (given : Given)
            → Asks (view S.calls self.now) (view S.calls self.now) given
            (and_unchanged given name.now stamp.now) }
    {
        match &self.seen {
            Some(seen) => seen.has(name, stamp),
            None => false,
        }
    }

    /// The regular file of this name, which has so many bytes at most, with the stamp that it had
    /// before it was read. The error says why it was not read.
    pub fn read(&mut self, alloc: Global, name: &[u8], most: u64) -> Result<FileRead, ReadFailure>
        ensures same { reader_path self.new ≡ reader_path self.old }
        ensures asks { (given : Given) → MatchResult result
            (λ file. Asks (view S.calls self.old) (view S.calls self.new) given
            (and_read given name.now file.bytes.items file.stamp))
            (λ _. Asks (view S.calls self.old) (view S.calls self.new) given
            (and_missed given name.now)) }
        ensures young { (view S.calls self.old).at_once ≡ true
            → IfErr result (λ unread. unread ≢ Young) }
        ensures long { IfErr result (λ unread.
            (count : ℕ) → unread ≡ TooLong count → most < count) }
    {
        match set_path(&mut self.room, self.path, name) {
            Ok(()) => read_stamped(
                &mut self.system,
                alloc,
                self.room.as_str(),
                most,
                self.at_once,
            ),
            Err(none) => Err(none.unread()),
        }
    }

    /// Makes the file of this name last, and then its name: so after a power cut the folder has
    /// under it what it has now, or what came to it later. The error says why not.
    pub fn keep(&mut self, name: &[u8]) -> Result<(), ReadFailure>
        ensures same { reader_path self.new ≡ reader_path self.old }
        ensures asks { (given : Given) → MatchResult result
            (λ _. Asks (view S.calls self.old) (view S.calls self.new) given
            (and_kept given name.now))
            (λ _. Asks (view S.calls self.old) (view S.calls self.new) given
            (and_missed given name.now)) }
    {
        match set_path(&mut self.room, self.path, name) {
            Ok(()) => match make_last(&mut self.system, self.room.as_str(), self.path) {
                Ok(()) => Ok(()),
                Err(unread) => Err(unread),
            },
            Err(none) => Err(none.unread()),
        }
    }

    /// Makes its names last: so after a power cut none comes back that is gone now.
    pub fn keep_names(&mut self) -> io::Result<()>
        ensures same { reader_path self.new ≡ reader_path self.old }
        ensures asks { (given : Given) → MatchResult result
            (λ _. Asks (view S.calls self.old) (view S.calls self.new) given
            (and_kept_names given (reader_path self.old)))
            (λ _. Asks (view S.calls self.old) (view S.calls self.new) given
            (and_failed given (reader_path self.old))) }
        ensures fault { MatchResult result (λ _. reader_fault self.new ≡ reader_fault self.old)
            (λ error. reader_fault self.new ≡ Some error) }
    {
        match sync_path(&mut self.system, self.path) {
            Ok(()) => Ok(()),
            Err(fault) => {
                let error = fault.error();
                self.fault = Some(error);
                Err(error)
            }
        }
    }
}

/// Closes the folder, if one is open.
fn close_listing<S: System>(system: &mut S, listing: Option<Handle>)
    ensures { FolderIsClosed listing (S.calls system.old) (S.calls system.new) }
{
    if let Some(handle) = listing {
        system.close(handle);
    }
}

/// No file yet, if stamps are to be kept.
fn none_seen(alloc: Global, keeps_stamps: bool) -> Option<SeenFiles>
    ensures { seen_in result ≡ [] }
{
    if keeps_stamps {
        Some(SeenFiles::new(alloc))
    } else {
        None
    }
}

/// Keeps the stamp of the file of this name, if it has one.
fn keep_stamp(seen: &mut Option<SeenFiles>, alloc: Global, name: &[u8], stamp: Option<Stamp>)
    ensures { IsSeen name.now stamp (seen_in seen.old) (seen_in seen.new) }
{
    if let (Some(seen), Some(stamp)) = (seen, stamp) {
        seen.add(alloc, name, stamp);
    }
}

/// Opens the folder of this path, or the one that it is a link to, to be listed.
fn open_folder<S: System>(system: &mut S, room: &mut PathRoom, path: &str) -> io::Result<Handle>
    ensures { FolderIsOpened path.now result (S.calls system.old) (S.calls system.new) }
{
    // An empty path is no folder; with a slash after it, it would be the topmost one.
    if path.is_empty() {
        return open_exactly(system, path);
    }
    // A link to a folder is opened by no other path.
    match set_path(room, path, b".") {
        Ok(()) => open_exactly(system, room.as_str()),
        Err(none) => Err(none.error()),
    }
}

/// Opens the folder of exactly this path.
fn open_exactly<S: System>(system: &mut S, path: &str) -> io::Result<Handle>
    ensures { MatchResult result
        (λ handle. S.calls system.new
        ≡ S.calls system.old ++ opened path.now How.Folder (Ok handle) ∷ [])
        (λ error. (fault : Fault) × (S.calls system.new
        ≡ S.calls system.old ++ opened path.now How.Folder (Err fault) ∷ [])) }
{
    match system.open(path, How::Folder) {
        Ok(handle) => Ok(handle),
        Err(fault) => Err(fault.error()),
    }
}

/// The next names of the open folder; after the last it is closed.
fn next_names<S: System>(
    system: &mut S,
    listing: &mut Option<Handle>,
    room: &mut [u8],
) -> io::Result<usize>
    ensures fits { IfOk result (λ count. count ≤ length room.new) }
    ensures calls { IfOk result (λ count. NamesAreRead listing.old listing.new room.new count
        (S.calls system.old) (S.calls system.new)) }
    ensures refused { IfErr result (λ _. NamesAreUnread listing.old listing.new
        (S.calls system.old) (S.calls system.new)) }
{
    let Some(handle) = *listing else {
        return Err(io::Error::from(ErrorKind::NotFound));
    };
    match system.read(handle, room) {
        Ok(0) => {
            system.close(handle);
            *listing = None;
            Ok(0)
        }
        Ok(count) => Ok(count),
        Err(fault) => Err(fault.error()),
    }
}

/// What the path names, if the system says it.
fn kind_at<S: System>(system: &mut S, path: &str) -> Option<Kind>
    ensures { (answer : Result FileStat Fault) × (S.calls system.new
        ≡ S.calls system.old ++ looked path.now answer ∷ []) }
{
    match system.look(path) {
        Ok(named) => Some(named.kind),
        Err(_) => None,
    }
}
