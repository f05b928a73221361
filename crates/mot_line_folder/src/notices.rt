//! What is to be told of files of lines, until it is.
ghost use Rattle.std.specs.Prelude.{◌≡◌, ◌≢◌, IsSome, Some, [], vec_capacity};
ghost use Rattle.mot_line_folder.specs.Inner.{Adds, IsOfFile};
ghost use Rattle.mot_line_folder.specs.declared.notices.Notice.TheVariants as notice;

use disk_store::OpenFault;
use mot_events::{Event, Tells, Why, Words};
use mot_numbers::Refusal;
use std::alloc::{AllocError, Global};
use std::io::{self, ErrorKind, Write};

/// Room for the notices of one read: one for each name that is looked at, and some of the folder.
const ROOM: usize = 32;

/// Something about a folder of files of lines, or about a file in it.
#[derive(Drop)]
enum Notice {
    /// The file of this name is left there, or is the last one.
    File(Words, Refusal, Why),
    /// The folder can't be read.
    Folder(Refusal, Why),
    /// The folder can be read again.
    Readable,
}

/// What is to be told of a folder of files of lines. A notice for which there is no memory is left
/// out; that of a file for whose name there is none says that of the folder.
#[derive(Drop)]
pub(crate) struct Notices<'a> {
    alloc: Global,
    /// The folder's path.
    folder: &'a str,
    waiting: Vec<Notice>,
    /// Why the folder can't be read, as was told.
    unread: Option<Refusal>,
}

impl<'a> Notices<'a> {
    /// Nothing is to be told. If there is no memory for notices now, it is taken as they come.
    pub(crate) fn new(alloc: Global, folder: &'a str) -> Notices<'a> {
        Notices {
            alloc,
            folder,
            waiting: Vec::with_capacity(alloc, ROOM).unwrap_or(Vec::new(alloc)),
            unread: None,
        }
    }

    /// The file of this name is left there, or is the last one.
    pub(crate) fn add_file(&mut self, name: &[u8], refusal: Refusal, why: Why)
        ensures adds { Adds (IsOfFile name.now refusal why) (vec_capacity self.old.waiting)
            self.old.waiting.items self.new.waiting.items }
    {
        let notice = match Vec::from_slice(self.alloc, name) {
            Ok(name) => Notice::File(Words::new(name), refusal, why),
            Err(AllocError) => Notice::Folder(Refusal::OutOfMemory, Why::Unsaid),
        };
        let _ = self.waiting.push(notice);
    }

    /// The folder can't be read, or there is no memory for its files, if that is not told already.
    pub(crate) fn add_unread(&mut self, error: io::Error)
        ensures unread { IsSome self.new.unread }
    {
        let (refusal, why) = match error.kind() {
            ErrorKind::OutOfMemory => (Refusal::OutOfMemory, Why::Unsaid),
            _ => (Refusal::ReadFault, words_of(self.alloc, error)),
        };
        if self.unread != Some(refusal) {
            self.unread = Some(refusal);
            let _ = self.waiting.push(Notice::Folder(refusal, why));
        }
    }

    /// The folder can be read again, if it could not for this reason.
    pub(crate) fn add_readable(&mut self, refusal: Refusal)
        ensures known { self.old.unread ≢ Some refusal → self.new ≡ self.old }
        ensures adds { self.old.unread ≡ Some refusal → Adds (λ n. n ≡ notice.Readable)
            (vec_capacity self.old.waiting) self.old.waiting.items self.new.waiting.items }
        ensures readable { self.new.unread ≢ Some refusal }
    {
        if self.unread == Some(refusal) {
            self.unread = None;
            let _ = self.waiting.push(Notice::Readable);
        }
    }

    /// Tells all, in their order.
    pub(crate) fn tell<T: Tells>(&mut self, log: &mut T)
        ensures none { self.new.waiting.items ≡ [] }
    {
        for notice in &self.waiting {
            tell_notice(self.folder, notice, log);
        }
        self.waiting.clear();
    }
}

/// Tells one.
fn tell_notice<T: Tells>(folder: &str, notice: &Notice, log: &mut T) {
    let event = match notice {
        Notice::File(name, refusal, why) => Event::LinesRefused(name.as_bytes(), *refusal, why),
        Notice::Folder(refusal, why) => Event::LinesRefused(folder.as_bytes(), *refusal, why),
        Notice::Readable => Event::LinesReadable(folder.as_bytes()),
    };
    log.tell(&event);
}

/// The system's words, as far as there is memory for them.
pub(crate) fn words_of(alloc: Global, error: io::Error) -> Why {
    let mut text = Vec::new(alloc);
    match write!(text, "{}", OpenFault::System(error)) {
        Ok(()) => Why::Words(Words::new(text)),
        Err(_) => Why::Unsaid,
    }
}
