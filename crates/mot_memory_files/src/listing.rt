//! The names of a folder, which may change while they are read.
ghost use Rattle.std.specs.Prelude.{◌≤◌, IfOk, length};

use crate::bytes::give;
use crate::call::{ACCESS, Call, INPUT_OUTPUT, INVALID};
use crate::faults::{by_number, no_memory, refused};
use crate::names::{is_in, name_in, plain};
use crate::node::{Names, Open};
use crate::reached::Reach;
use crate::world::World;
use mot_files::{Fault, Kind};
use std::alloc::AllocError;
use std::io::ErrorKind;

impl World {
    /// Opens the folder of this path, whose names come in any order.
    pub(crate) fn open_names(&mut self, path: &str) -> Result<Open, Fault> {
        let place = self.end_of(self.place(path)?);
        match self.nodes.get(place) {
            Some(node) if node.is_denied => return Err(by_number(ACCESS)),
            Some(node) if node.kind == Kind::Folder => {}
            _ => return Err(refused(ErrorKind::NotADirectory)),
        }
        let first = self.any(8) as usize;
        match self.listing(plain(path), first) {
            Ok(names) => Ok(Open::Names(names)),
            Err(AllocError) => Err(no_memory()),
        }
    }

    fn listing(&self, folder: &str, first: usize) -> Result<Names, AllocError> {
        let mut left = Vec::from_slice(self.alloc, b".\0..\0")?;
        let count = self.entries.len();
        for at in 0..count {
            let place = at.wrapping_add(first).checked_rem(count).unwrap_or(0);
            self.add_name(&mut left, folder, place, 0)?;
        }
        Ok(Names {
            folder: String::from_str(self.alloc, folder)?,
            left,
            turn: self.turn,
        })
    }

    /// Adds the name of the entry of this index, if it is in the folder, and came after this change.
    fn add_name(
        &self,
        names: &mut Vec<u8>,
        folder: &str,
        at: usize,
        after: u64,
    ) -> Result<(), AllocError> {
        match self.entries.get(at) {
            Some(entry) if entry.turn > after && is_inside(entry.path.as_str(), folder) => {
                names.extend_from_slice(name_in(entry.path.as_str()).as_bytes())?;
                names.push(0)?;
                Ok(())
            }
            _ => Ok(()),
        }
    }

    /// The next names of what is open in this slot, if it is a folder.
    pub(crate) fn read_names(&mut self, slot: usize, room: &mut [u8]) -> Result<usize, Fault>
        ensures { IfOk result (λ count. count ≤ length room.new) }
    {
        if self.is_one_in(self.plan.listing_faults) {
            self.say(b"  the listing breaks off\n");
            self.failed = self.failed.wrapping_add(1);
            self.count(Reach::Failed(Call::ReadNames, INPUT_OUTPUT));
            return Err(by_number(INPUT_OUTPUT));
        }
        if self.is_one_in(self.plan.listing_changes) && self.stir(slot).is_err() {
            return Err(no_memory());
        }
        let most = self.piece();
        match self.open.get_mut(slot) {
            Some(Open::Names(names)) => give_names(&mut names.left, most, room),
            _ => Err(by_number(INVALID)),
        }
    }

    /// The folder changes. What came to it is given after the other names, also if it was given
    /// before under another number; what went is given or not.
    fn stir(&mut self, slot: usize) -> Result<(), AllocError> {
        self.change()?;
        let Some(Open::Names(names)) = self.open.get(slot) else {
            return Ok(());
        };
        let folder = String::from_str(self.alloc, names.folder.as_str())?;
        let after = names.turn;
        let more = self.came(folder.as_str(), after)?;
        let turn = self.turn;
        if let Some(Open::Names(names)) = self.open.get_mut(slot) {
            names.left.extend_from_slice(more.as_slice())?;
            names.turn = turn;
        }
        self.count(Reach::Stirred);
        Ok(())
    }

    /// The names that came to the folder after this change.
    fn came(&self, folder: &str, after: u64) -> Result<Vec<u8>, AllocError> {
        let mut names = Vec::new(self.alloc);
        for at in 0..self.entries.len() {
            self.add_name(&mut names, folder, at, after)?;
        }
        Ok(names)
    }
}

/// Whether the path stands in this folder, and is not its own.
fn is_inside(path: &str, folder: &str) -> bool {
    path != folder && is_in(path, folder)
}

/// Moves whole names into the room: as many as fit, but no more than `most` bytes unless it is one.
fn give_names(names: &mut Vec<u8>, most: usize, room: &mut [u8]) -> Result<usize, Fault>
    ensures { IfOk result (λ count. count ≤ length room.new) }
{
    let mut end = 0;
    for (at, byte) in names.iter().enumerate() {
        if *byte == 0 && at < room.len() && (end == 0 || at < most) {
            end = at.wrapping_add(1);
        }
    }
    if end == 0 && !names.is_empty() {
        return Err(by_number(INVALID));
    }
    let count = give(names.as_slice(), end, room);
    let _given = names.drain(..count.min(names.len()));
    Ok(count)
}
