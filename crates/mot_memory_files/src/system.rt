//! The files of the machine, as the program asks for them: each call is noted with its answer.
ghost use Rattle.std.specs.Prelude.{◌≡◌, [], IfOk, length, ◌≤◌};
ghost use Rattle.mot_memory_files.specs.System.{calls_of};

use crate::call::Call;
use crate::faults::no_memory;
use crate::world::World;
use mot_files::{CallLog, Event, Fault, FileStat, Handle, How, System, Time};
use std::cell::RefCell;

/// The files of the machine, of which every part of the program may have its own.
#[derive(Drop)]
pub struct MachineSystem<'a> {
    world: &'a RefCell<World>,
    calls: CallLog,
}

impl<'a> MachineSystem<'a> {
    /// Its files, of which nothing was asked.
    pub fn new(world: &'a RefCell<World>) -> MachineSystem<'a>
        ensures { calls_of result ≡ [] }
    {
        MachineSystem {
            world,
            calls: CallLog::new(),
        }
    }
}

// What the world answers; one that is in use is not there.

fn look_in(
    world: &RefCell<World>,
    call: Call,
    path: &str,
    follows: bool,
) -> Result<FileStat, Fault> {
    match world.try_borrow_mut() {
        Ok(mut w) => w.look(call, path, follows),
        Err(_) => Err(no_memory()),
    }
}

fn resolve_in(world: &RefCell<World>, path: &str, room: &mut [u8]) -> Result<usize, Fault>
    ensures { IfOk result (λ count. count ≤ length room.new) }
{
    match world.try_borrow_mut() {
        Ok(mut w) => w.resolve(path, room),
        Err(_) => Err(no_memory()),
    }
}

fn open_in(world: &RefCell<World>, path: &str, how: How) -> Result<Handle, Fault> {
    match world.try_borrow_mut() {
        Ok(mut w) => w.open(path, how),
        Err(_) => Err(no_memory()),
    }
}

fn look_at_in(world: &RefCell<World>, handle: Handle) -> Result<FileStat, Fault> {
    match world.try_borrow_mut() {
        Ok(mut w) => w.look_at(handle),
        Err(_) => Err(no_memory()),
    }
}

fn read_in(world: &RefCell<World>, handle: Handle, room: &mut [u8]) -> Result<usize, Fault>
    ensures { IfOk result (λ count. count ≤ length room.new) }
{
    match world.try_borrow_mut() {
        Ok(mut w) => w.read(handle, room),
        Err(_) => Err(no_memory()),
    }
}

fn peek_in(world: &RefCell<World>, handle: Handle, room: &mut [u8]) -> Result<usize, Fault>
    ensures { IfOk result (λ count. count ≤ length room.new) }
{
    match world.try_borrow_mut() {
        Ok(mut w) => w.peek(handle, room),
        Err(_) => Err(no_memory()),
    }
}

fn write_in(world: &RefCell<World>, handle: Handle, bytes: &[u8]) -> Result<usize, Fault>
    ensures { IfOk result (λ count. count ≤ length bytes.now) }
{
    match world.try_borrow_mut() {
        Ok(mut w) => w.write(handle, bytes),
        Err(_) => Err(no_memory()),
    }
}

fn is_terminal_in(world: &RefCell<World>) -> bool {
    match world.try_borrow_mut() {
        Ok(mut w) => w.is_terminal(),
        Err(_) => false,
    }
}

fn lock_in(world: &RefCell<World>, handle: Handle) -> Result<(), Fault> {
    match world.try_borrow_mut() {
        Ok(mut w) => w.lock(handle),
        Err(_) => Err(no_memory()),
    }
}

fn sync_in(world: &RefCell<World>, handle: Handle) -> Result<(), Fault> {
    match world.try_borrow_mut() {
        Ok(mut w) => w.sync(handle),
        Err(_) => Err(no_memory()),
    }
}

fn rename_in(world: &RefCell<World>, from: &str, to: &str) -> Result<(), Fault> {
    match world.try_borrow_mut() {
        Ok(mut w) => w.rename(from, to),
        Err(_) => Err(no_memory()),
    }
}

fn remove_in(world: &RefCell<World>, path: &str) -> Result<(), Fault> {
    match world.try_borrow_mut() {
        Ok(mut w) => w.remove(Call::Remove, path),
        Err(_) => Err(no_memory()),
    }
}

fn now_in(world: &RefCell<World>) -> Option<Time> {
    match world.try_borrow_mut() {
        Ok(mut w) => w.now(),
        Err(_) => None,
    }
}

fn close_in(world: &RefCell<World>, handle: Handle) {
    if let Ok(mut w) = world.try_borrow_mut() {
        w.close(handle);
    }
}

impl<'a> System for MachineSystem<'a> {
    ghost calls = { calls_of };

    fn look(&mut self, path: &str) -> Result<FileStat, Fault> {
        let answer = look_in(self.world, Call::Look, path, false);
        self.calls
            .note(&Event::Looked(answer), path.as_bytes(), &[]);
        answer
    }

    fn follow(&mut self, path: &str) -> Result<FileStat, Fault> {
        let answer = look_in(self.world, Call::Follow, path, true);
        self.calls
            .note(&Event::Followed(answer), path.as_bytes(), &[]);
        answer
    }

    fn resolve(&mut self, path: &str, room: &mut [u8]) -> Result<usize, Fault> {
        let answer = resolve_in(self.world, path, room);
        self.calls
            .note_given(&Event::Resolved(answer), room, answer, path.as_bytes());
        answer
    }

    fn open(&mut self, path: &str, how: How) -> Result<Handle, Fault> {
        let answer = open_in(self.world, path, how);
        self.calls
            .note(&Event::Opened(how, answer), path.as_bytes(), &[]);
        answer
    }

    fn look_at(&mut self, handle: Handle) -> Result<FileStat, Fault> {
        let answer = look_at_in(self.world, handle);
        self.calls.note(&Event::LookedAt(handle, answer), &[], &[]);
        answer
    }

    fn read(&mut self, handle: Handle, room: &mut [u8]) -> Result<usize, Fault> {
        let answer = read_in(self.world, handle, room);
        self.calls
            .note_given(&Event::Read(handle, answer), room, answer, &[]);
        answer
    }

    fn peek(&mut self, handle: Handle, room: &mut [u8]) -> Result<usize, Fault> {
        let asked = room.len();
        let answer = peek_in(self.world, handle, room);
        self.calls
            .note_given(&Event::Peeked(handle, asked, answer), room, answer, &[]);
        answer
    }

    fn write(&mut self, handle: Handle, bytes: &[u8]) -> Result<usize, Fault> {
        let answer = write_in(self.world, handle, bytes);
        self.calls.note(&Event::Wrote(handle, answer), bytes, &[]);
        answer
    }

    fn is_terminal(&mut self, handle: Handle) -> bool {
        let answer = is_terminal_in(self.world);
        self.calls
            .note(&Event::IsTerminal(handle, answer), &[], &[]);
        answer
    }

    fn lock(&mut self, handle: Handle) -> Result<(), Fault> {
        let answer = lock_in(self.world, handle);
        self.calls.note(&Event::Locked(handle, answer), &[], &[]);
        answer
    }

    fn sync(&mut self, handle: Handle) -> Result<(), Fault> {
        let answer = sync_in(self.world, handle);
        self.calls.note(&Event::Synced(handle, answer), &[], &[]);
        answer
    }

    fn rename(&mut self, from: &str, to: &str) -> Result<(), Fault> {
        let answer = rename_in(self.world, from, to);
        self.calls
            .note(&Event::Renamed(answer), from.as_bytes(), to.as_bytes());
        answer
    }

    fn remove(&mut self, path: &str) -> Result<(), Fault> {
        let answer = remove_in(self.world, path);
        self.calls
            .note(&Event::Removed(answer), path.as_bytes(), &[]);
        answer
    }

    fn close(&mut self, handle: Handle) {
        close_in(self.world, handle);
        self.calls.note(&Event::Closed(handle), &[], &[]);
    }

    fn now(&mut self) -> Option<Time> {
        let answer = now_in(self.world);
        self.calls.note(&Event::Told(answer), &[], &[]);
        answer
    }

    fn take_in(&mut self, more: CallLog) {
        self.calls.join(&more);
    }

    fn into_calls(self) -> CallLog {
        self.calls
    }
}
