//! What the calls do that look, open, read and lock.
ghost use Rattle.std.specs.Prelude.{◌≤◌, IfOk, length};

use crate::bytes::{give, rest_of};
use crate::call::{ACCESS, AGAIN, Call, INVALID, IS_FOLDER, STALE};
use crate::faults::{absent, by_number, no_memory, refused};
use crate::node::{Held, Node, Open};
use crate::reached::Reach;
use crate::world::World;
use mot_files::{Fault, FileStat, Handle, How, Kind, Time};
use std::alloc::AllocError;
use std::io::ErrorKind;

impl World {
    /// The place of what the path names.
    pub(crate) fn place(&self, path: &str) -> Result<usize, Fault> {
        match self.place_of(path) {
            Some(place) => Ok(place),
            None => Err(absent()),
        }
    }

    /// What the path names, or the end of a link there if it `follows`.
    pub(crate) fn look(
        &mut self,
        call: Call,
        path: &str,
        follows: bool,
    ) -> Result<FileStat, Fault> {
        self.begin(call, path)?;
        let mut place = self.place(path)?;
        if follows {
            place = self.end_of(place);
        }
        self.seen(place).ok_or(absent())
    }

    /// The path without links.
    pub(crate) fn resolve(&mut self, path: &str, room: &mut [u8]) -> Result<usize, Fault>
        ensures { IfOk result (λ count. count ≤ length room.new) }
    {
        self.begin(Call::Resolve, path)?;
        let _place = self.place(path)?;
        if path.len() > room.len() {
            return Err(refused(ErrorKind::InvalidFilename));
        }
        Ok(give(path.as_bytes(), usize::MAX, room))
    }

    /// Gives what was opened a slot: the first that is free, as a system does.
    pub(crate) fn keep_open(&mut self, open: Open) -> Result<usize, Fault> {
        if let Some(slot) = self.free_slot() {
            if let Some(place) = self.open.get_mut(slot) {
                *place = open;
            }
            return Ok(slot);
        }
        let slot = self.open.len();
        match self.open.push(open) {
            Ok(()) => Ok(slot),
            Err(_) => Err(no_memory()),
        }
    }

    fn free_slot(&self) -> Option<usize> {
        for (slot, open) in self.open.iter().enumerate() {
            if let Open::Closed = open {
                return Some(slot);
            }
        }
        None
    }

    /// Opens what the path names.
    pub(crate) fn open(&mut self, path: &str, how: How) -> Result<Handle, Fault> {
        let call = match how {
            How::New => Call::OpenNew,
            How::Folder => Call::OpenNames,
            _ => Call::Open,
        };
        self.begin(call, path)?;
        let open = self.opened(path, how)?;
        let slot = self.keep_open(open)?;
        Ok(Handle { slot: slot as u64 })
    }

    fn opened(&mut self, path: &str, how: How) -> Result<Open, Fault> {
        match how {
            How::Output => Ok(Open::Output),
            How::Folder => self.open_names(path),
            How::New => self.open_new(path),
            How::Read => self.open_node(path, false),
            How::Stream => self.open_node(path, true),
        }
    }

    /// Opens a file that is made.
    fn open_new(&mut self, path: &str) -> Result<Open, Fault> {
        let place = self.make(path)?;
        self.end(Call::OpenNew)?;
        Ok(Open::Node(Held {
            place,
            at: 0,
            writable: true,
        }))
    }

    /// Makes a file of this path, unless something stands there.
    pub(crate) fn make(&mut self, path: &str) -> Result<usize, Fault> {
        if self.place_of(path).is_some() {
            return Err(refused(ErrorKind::AlreadyExists));
        }
        let Ok(place) = self.add(Kind::File, b"", false) else {
            return Err(no_memory());
        };
        match self.point(path, place) {
            Ok(()) => Ok(place),
            Err(AllocError) => Err(no_memory()),
        }
    }

    /// Opens what stands there, or the end of a link.
    fn open_node(&mut self, path: &str, writable: bool) -> Result<Open, Fault> {
        let place = self.end_of(self.place(path)?);
        let now = self.stamp();
        let Some(node) = self.nodes.get(place) else {
            return Err(absent());
        };
        if node.is_denied {
            return Err(by_number(ACCESS));
        }
        // The program could not know of one that came after its last call.
        if node.kind == Kind::Pipe && !writable && node.changed != now {
            self.waited = self.waited.wrapping_add(1);
        }
        Ok(Open::Node(Held {
            place,
            at: 0,
            writable,
        }))
    }

    /// The file that the slot stands for.
    pub(crate) fn held(&self, slot: usize) -> Result<Held, Fault> {
        let held = match self.open.get(slot) {
            Some(Open::Node(held)) => *held,
            _ => return Err(by_number(INVALID)),
        };
        if self.plan.stale && self.count_names(held.place) == 0 {
            return Err(by_number(STALE));
        }
        Ok(held)
    }

    /// What the handle stands for.
    pub(crate) fn look_at(&mut self, handle: Handle) -> Result<FileStat, Fault> {
        self.begin(Call::LookAt, "")?;
        let held = self.held(handle.slot as usize)?;
        self.seen(held.place).ok_or(absent())
    }

    /// The next bytes, or names.
    pub(crate) fn read(&mut self, handle: Handle, room: &mut [u8]) -> Result<usize, Fault>
        ensures { IfOk result (λ count. count ≤ length room.new) }
    {
        let slot = handle.slot as usize;
        if self.is_of_names(slot) {
            self.begin(Call::ReadNames, "")?;
            return self.read_names(slot, room);
        }
        self.begin(Call::Read, "")?;
        self.read_bytes(slot, room)
    }

    fn is_of_names(&self, slot: usize) -> bool {
        match self.open.get(slot) {
            Some(Open::Names(_)) => true,
            _ => false,
        }
    }

    /// The next bytes.
    fn read_bytes(&mut self, slot: usize, room: &mut [u8]) -> Result<usize, Fault>
        ensures { IfOk result (λ count. count ≤ length room.new) }
    {
        if self.is_one_in(self.plan.read_faults) {
            return Err(Fault::System(self.fail(Call::Read)));
        }
        let most = self.piece();
        let held = self.held(slot)?;
        let Some(node) = self.nodes.get(held.place) else {
            return Err(absent());
        };
        if node.kind == Kind::Folder {
            return Err(by_number(IS_FOLDER));
        }
        let count = give(rest_of(node.bytes.as_slice(), held.at), most, room);
        self.move_on(slot, count);
        Ok(count)
    }

    /// So many bytes of it were read.
    fn move_on(&mut self, slot: usize, count: usize) {
        if let Some(Open::Node(held)) = self.open.get_mut(slot) {
            held.at = held.at.wrapping_add(count);
        }
    }

    /// The first bytes.
    pub(crate) fn peek(&mut self, handle: Handle, room: &mut [u8]) -> Result<usize, Fault>
        ensures { IfOk result (λ count. count ≤ length room.new) }
    {
        self.begin(Call::Peek, "")?;
        let most = self.piece();
        let held = self.held(handle.slot as usize)?;
        let Some(node) = self.nodes.get(held.place) else {
            return Err(absent());
        };
        give_first(node, most, room)
    }

    /// Whether it is a terminal, which nothing here is.
    pub(crate) fn is_terminal(&mut self) -> bool {
        let _passed = self.pass(Call::IsTerminal);
        false
    }

    /// Takes the lock of what the handle stands for.
    pub(crate) fn lock(&mut self, handle: Handle) -> Result<(), Fault> {
        self.begin(Call::Lock, "")?;
        if self.is_busy(Call::Lock) {
            return Err(Fault::Busy);
        }
        self.take_lock(handle.slot as usize)
    }

    /// Whether another program has the lock, by the plan.
    pub(crate) fn is_busy(&mut self, call: Call) -> bool {
        let is_busy = self.is_one_in(self.plan.busy);
        if is_busy {
            self.count(Reach::Failed(call, AGAIN));
        }
        is_busy
    }

    /// Takes the lock, unless another slot has it.
    pub(crate) fn take_lock(&mut self, slot: usize) -> Result<(), Fault> {
        let held = self.held(slot)?;
        let Some(node) = self.nodes.get_mut(held.place) else {
            return Err(absent());
        };
        if node.locked.unwrap_or(slot) != slot {
            return Err(Fault::Busy);
        }
        node.locked = Some(slot);
        Ok(())
    }

    /// Closes it.
    pub(crate) fn close(&mut self, handle: Handle) {
        let _changed = self.pass(Call::Close);
        if !self.is_dead() {
            self.close_slot(handle.slot as usize);
        }
    }

    /// Nothing is open in the slot, and its lock is given back.
    pub(crate) fn close_slot(&mut self, slot: usize) {
        for node in &mut self.nodes {
            if node.locked == Some(slot) {
                node.locked = None;
            }
        }
        let place = self.place_in_slot(slot);
        if let Some(open) = self.open.get_mut(slot) {
            *open = Open::Closed;
        }
        if let Some(place) = place {
            let _ = self.free_number(place);
        }
    }

    /// The place of the node that is open in the slot.
    pub(crate) fn place_in_slot(&self, slot: usize) -> Option<usize> {
        match self.open.get(slot) {
            Some(Open::Node(held)) => Some(held.place),
            _ => None,
        }
    }

    /// The time of day.
    pub(crate) fn now(&mut self) -> Option<Time> {
        match self.begin(Call::Now, "") {
            Ok(()) => Some(Time {
                nanos: u128::from(self.clock),
            }),
            Err(_) => None,
        }
    }
}

/// The first bytes of a file, which has them at a place.
fn give_first(node: &Node, most: usize, room: &mut [u8]) -> Result<usize, Fault>
    ensures { IfOk result (λ count. count ≤ length room.new) }
{
    match node.kind {
        Kind::Pipe => Err(refused(ErrorKind::NotSeekable)),
        Kind::Folder => Err(by_number(IS_FOLDER)),
        _ => Ok(give(node.bytes.as_slice(), most, room)),
    }
}
