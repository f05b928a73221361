//! Names in a folder about which the log has a line, so that it has one once.
ghost use Rattle.std.specs.Prelude.{◌≡◌, ◌<◌, ◌≤◌, ◌↔◌, HoldsAt, IfNone, IfOk, IfSome, IsTrue};
ghost use Rattle.std.specs.Prelude.{MatchOption, IsSome, length};
ghost use Rattle.mot_line_folder.specs.LineFiles.{IsStampOf};
ghost use Rattle.mot_line_folder.specs.Inner.{IsDue, IsNew, IsUnread, IsUntold, Remembers};

use mot_files::{FileStat, Time};
use std::alloc::{AllocError, Global};

/// The most names that are remembered. Further ones are not logged.
const MOST: usize = 100;

/// What distinguishes a file from another one, and from the same one once it was changed.
#[derive(Clone, Copy, PartialEq, Eq)]
pub(crate) struct Stamp {
    device: u64,
    number: u64,
    changed: Time,
}

impl Stamp {
    /// That of the file of which the system says this.
    pub(crate) fn of(seen: &FileStat) -> Stamp
        ensures { IsStampOf seen.now result }
    {
        Stamp {
            device: seen.device,
            number: seen.number,
            changed: seen.changed,
        }
    }
}

/// A name about which the log has a line.
#[derive(Drop)]
pub(crate) struct Told {
    name: Vec<u8>,
    /// The file that the line is about, if one was seen.
    stamp: Option<Stamp>,
    /// Whether it was met since names were forgotten last.
    is_met: bool,
    /// The file of which a read failed once lines of it were answered, if one did.
    unread: Option<Stamp>,
}

/// The names about which the log has a line.
#[derive(Drop)]
pub(crate) struct Said {
    alloc: Global,
    names: Vec<Told>,
}

impl Said {
    /// Nothing was logged.
    pub(crate) fn new(alloc: Global) -> Said {
        Said {
            alloc,
            names: Vec::new(alloc),
        }
    }

    /// Whether a line about this file is due, which then counts as logged: not if the log has this
    /// line already, nor if too many names are remembered.
    pub(crate) fn is_new(&mut self, name: &[u8], stamp: Option<Stamp>) -> Result<bool, AllocError>
        ensures due { IfOk result (λ is. IsNew self.old.names.items name.now stamp is) }
    {
        Ok(self.keep(name, stamp, None)?.unwrap_or(false))
    }

    /// Notes that a read of this file failed; whether it will be known again.
    pub(crate) fn keep_unread(&mut self, name: &[u8], stamp: Option<Stamp>) -> bool
        ensures { IsTrue result → Remembers self.new.names.items name.now stamp }
    {
        stamp.is_some() && matches!(self.keep(name, stamp, stamp), Ok(Some(_)))
    }

    /// Remembers this file, and that a read of it failed if one did, if there is room; whether the log
    /// has no line about it yet. Of which file a read failed before, is not forgotten.
    fn keep(
        &mut self,
        name: &[u8],
        stamp: Option<Stamp>,
        unread: Option<Stamp>,
    ) -> Result<Option<bool>, AllocError>
        ensures due { IfOk result (λ kept. MatchOption kept
            (IsUntold self.old.names.items name.now × (100 ≤ length self.old.names.items))
            (λ is. IsDue self.old.names.items name.now stamp is
            × (IsSome unread → Remembers self.new.names.items name.now unread))) }
    {
        if let Some(at) = self.place_of(name) {
            let told = &mut self.names[at];
            let is_new = !is_one(&told.stamp, &stamp);
            told.stamp = stamp;
            told.is_met = true;
            told.unread = unread.or(told.unread);
            return Ok(Some(is_new));
        }
        if self.names.len() >= MOST {
            return Ok(None);
        }
        self.names.push(Told {
            name: Vec::from_slice(self.alloc, name)?,
            stamp,
            is_met: true,
            unread,
        })?;
        Ok(Some(true))
    }

    /// Whether a read of this file failed, and it is as it was then.
    pub(crate) fn is_unread(&mut self, name: &[u8], stamp: Option<Stamp>) -> bool
        ensures known { IsUnread self.old.names.items name.now stamp result }
        ensures met { IsTrue result → Remembers self.new.names.items name.now stamp }
    {
        if stamp.is_none() {
            return false;
        }
        let Some(at) = self.place_of(name) else {
            return false;
        };
        let told = &mut self.names[at];
        if !is_one(&told.unread, &stamp) {
            return false;
        }
        told.is_met = true;
        true
    }

    /// Notes that this name was met, if it is remembered.
    pub(crate) fn meet(&mut self, name: &[u8]) {
        if let Some(at) = self.place_of(name) {
            self.names[at].is_met = true;
        }
    }

    /// Where the name stands, if it is remembered.
    fn place_of(&self, name: &[u8]) -> Option<usize>
        ensures fits { IfSome result (λ at. at < length self.now.names.items) }
        ensures names { IfSome result
            (λ at. HoldsAt (λ told. told.name.items ≡ name.now) self.now.names.items at) }
        ensures none { IfNone result (IsUntold self.now.names.items name.now) }
    {
        self.names
            .iter()
            .position(|told| told.name.as_slice() == name)
    }

    /// Forgets the names that were not met since the last call.
    pub(crate) fn forget_unmet(&mut self) {
        self.names.retain(|told| told.is_met);
        for told in &mut self.names {
            told.is_met = false;
        }
    }
}

/// Whether both are the same file in the same state, or none.
fn is_one(stamp: &Option<Stamp>, other: &Option<Stamp>) -> bool
    ensures { IsTrue result ↔ (stamp.now ≡ other.now) }
{
    stamp == other
}
