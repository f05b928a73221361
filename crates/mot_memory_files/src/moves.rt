//! What the calls do that write, sync, rename and remove.
ghost use Rattle.std.specs.Prelude.{◌≤◌, IfOk, length};

use crate::bytes::{first, mark_at, put_at};
use crate::call::{Call, INVALID, IS_FOLDER, PIPE, ROOM};
use crate::faults::{absent, by_number, no_memory};
use crate::node::{Node, Open, Removed};
use crate::reached::Reach;
use crate::world::World;
use mot_files::{Fault, Handle, Kind};
use std::alloc::{AllocError, Global};

impl World {
    /// Writes these bytes, or the first of them.
    pub(crate) fn write(&mut self, handle: Handle, bytes: &[u8]) -> Result<usize, Fault>
        ensures { IfOk result (λ count. count ≤ length bytes.now) }
    {
        let slot = handle.slot as usize;
        if self.is_of_pipe(slot) {
            return self.send(slot, bytes);
        }
        if let Some(Open::Output) = self.open.get(slot) {
            return self.print(bytes);
        }
        self.write_file(slot, bytes)
    }

    /// Whether a pipe is open in the slot.
    fn is_of_pipe(&self, slot: usize) -> bool {
        match self.place_in_slot(slot) {
            Some(place) => match self.nodes.get(place) {
                Some(node) => node.kind == Kind::Pipe,
                None => false,
            },
            None => false,
        }
    }

    /// Adds the bytes to a file, at its end.
    fn write_file(&mut self, slot: usize, bytes: &[u8]) -> Result<usize, Fault>
        ensures { IfOk result (λ count. count ≤ length bytes.now) }
    {
        if let Err(fault) = self.begin(Call::Write, "") {
            self.write_torn(slot, bytes);
            return Err(fault);
        }
        let held = self.held(slot)?;
        if !held.writable {
            return Err(by_number(INVALID));
        }
        let count = self.piece().min(bytes.len()).min(self.plan.room as usize);
        if count == 0 && !bytes.is_empty() {
            return Err(by_number(ROOM));
        }
        if self.append(held.place, first(bytes, count)).is_err() {
            return Err(no_memory());
        }
        self.end(Call::Write)?;
        Ok(count)
    }

    /// A part of a write that failed.
    fn write_torn(&mut self, slot: usize, bytes: &[u8]) {
        let count = self.torn_count(Call::Write, bytes.len());
        if let Ok(held) = self.held(slot)
            && held.writable
        {
            let _ = self.append(held.place, first(bytes, count));
        }
    }

    /// Adds the bytes at the end of the node at this place.
    fn append(&mut self, place: usize, bytes: &[u8]) -> Result<(), AllocError> {
        self.plan.room = self.plan.room.saturating_sub(bytes.len() as u64);
        let end = match self.nodes.get(place) {
            Some(node) => node.bytes.len(),
            None => 0,
        };
        self.put(place, end, bytes)
    }

    /// Puts these bytes at a position of the node at this place.
    pub(crate) fn put(&mut self, place: usize, at: usize, bytes: &[u8]) -> Result<(), AllocError> {
        let now = self.stamp();
        if let Some(node) = self.nodes.get_mut(place) {
            put_at(&mut node.bytes, at, bytes)?;
            mark_at(&mut node.loose, at, bytes.len())?;
            node.is_loose = true;
            node.written = now;
            node.changed = now;
        }
        Ok(())
    }

    /// Prints the bytes, or the first of them.
    fn print(&mut self, bytes: &[u8]) -> Result<usize, Fault>
        ensures { IfOk result (λ count. count ≤ length bytes.now) }
    {
        self.begin(Call::Write, "")?;
        let count = self.piece().min(bytes.len());
        match self.output.extend_from_slice(first(bytes, count)) {
            Ok(()) => Ok(count),
            Err(AllocError) => Err(no_memory()),
        }
    }

    /// The pipe's reader takes a packet whole, or a part of it, or is gone.
    fn send(&mut self, slot: usize, bytes: &[u8]) -> Result<usize, Fault>
        ensures { IfOk result (λ count. count ≤ length bytes.now) }
    {
        self.begin(Call::Send, "")?;
        let held = self.held(slot)?;
        if !held.writable {
            return Err(by_number(INVALID));
        }
        match self.plan.packets.checked_sub(1) {
            Some(left) => self.plan.packets = left,
            None => return Err(by_number(PIPE)),
        }
        let count = self.count_taken(bytes.len());
        match self.take(first(bytes, count)) {
            Ok(()) => Ok(count),
            Err(AllocError) => Err(no_memory()),
        }
    }

    /// How many of so many bytes the reader takes.
    fn count_taken(&mut self, len: usize) -> usize
        ensures { result ≤ len }
    {
        if !self.is_one_in(self.plan.cuts) {
            return len;
        }
        self.count(Reach::Cut);
        (self.any(len as u64) as usize).min(len)
    }

    /// The reader takes these.
    fn take(&mut self, bytes: &[u8]) -> Result<(), AllocError> {
        self.air.extend_from_slice(bytes)?;
        self.writes.push(bytes.len())?;
        Ok(())
    }

    /// Makes it last: the bytes of a file, or the names of a folder.
    pub(crate) fn sync(&mut self, handle: Handle) -> Result<(), Fault> {
        self.begin(Call::Sync, "")?;
        let held = self.held(handle.slot as usize)?;
        if self.plan.unable {
            return Err(by_number(INVALID));
        }
        match self.make_place_firm(held.place) {
            Ok(()) => self.end(Call::Sync),
            Err(AllocError) => Err(no_memory()),
        }
    }

    /// The bytes of the file at this place last, or the names of the folder.
    fn make_place_firm(&mut self, place: usize) -> Result<(), AllocError> {
        match self.folder_at(place)? {
            Some(path) => self.make_names_firm(path.as_str()),
            None => self.make_firm(place),
        }
    }

    /// The path of the folder at this place, if it is one.
    fn folder_at(&self, place: usize) -> Result<Option<String>, AllocError> {
        match self.nodes.get(place) {
            Some(node) if node.kind == Kind::Folder => {}
            _ => return Ok(None),
        }
        for entry in &self.entries {
            if entry.place == place {
                return Ok(Some(String::from_str(self.alloc, entry.path.as_str())?));
            }
        }
        Ok(None)
    }

    /// The first path takes the place of the second.
    pub(crate) fn rename(&mut self, from: &str, to: &str) -> Result<(), Fault> {
        self.begin(Call::Rename, to)?;
        let place = self.place(from)?;
        self.is_no_folder(from)?;
        self.is_no_folder(to)?;
        let now = self.stamp();
        if let Some(node) = self.nodes.get_mut(place) {
            node.changed = now;
        }
        self.entries.retain(|entry| entry.path.as_str() != from);
        match self.point(to, place) {
            Ok(()) => self.end(Call::Rename),
            Err(AllocError) => Err(no_memory()),
        }
    }

    /// An error if the path is that of a folder.
    fn is_no_folder(&self, path: &str) -> Result<(), Fault> {
        match self.node_of(path) {
            Some(node) if node.kind == Kind::Folder => Err(by_number(IS_FOLDER)),
            _ => Ok(()),
        }
    }

    /// Removes the path, unless it is that of a folder.
    pub(crate) fn remove(&mut self, call: Call, path: &str) -> Result<(), Fault> {
        self.begin(call, path)?;
        let _place = self.place(path)?;
        self.is_no_folder(path)?;
        match self.take_away(path) {
            Ok(()) => self.end(call),
            Err(AllocError) => Err(no_memory()),
        }
    }

    /// Notes what the path names, and removes it.
    fn take_away(&mut self, path: &str) -> Result<(), AllocError> {
        let now = self.stamp();
        if let Some(node) = self.node_of(path) {
            let removed = removed_of(self.alloc, path, node, now)?;
            self.removed.push(removed)?;
        }
        self.forget(path)
    }
}

/// What is removed with this path.
fn removed_of(alloc: Global, path: &str, node: &Node, now: u64) -> Result<Removed, AllocError> {
    Ok(Removed {
        path: String::from_str(alloc, path)?,
        kind: node.kind,
        bytes: Vec::from_slice(alloc, node.bytes.as_slice())?,
        is_new: node.changed == now,
    })
}
