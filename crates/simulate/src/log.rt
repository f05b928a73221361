//! The log as its reader sees it, with the moment of each line.
use crate::texts::OBJECTS;
use mot_memory_files::World;
use std::alloc::Global;
use std::cell::RefCell;
use std::io::{self, ErrorKind, Write};

/// What was known as a line was shown.
#[derive(Clone, Copy)]
pub struct ShownLine {
    /// Where the line begins and ends.
    pub start: usize,
    pub end: usize,
    /// The time of day.
    pub clock: u64,
    /// Whether the file of the name in it would have survived a crash.
    pub is_firm: bool,
    /// Whether an object is withdrawn whose file was there since the program began.
    pub is_withdrawn_wrongly: bool,
}

/// A log of which its reader sees what was flushed.
#[derive(Drop)]
pub struct Log<'a> {
    world: &'a RefCell<World>,
    pub shown: Vec<u8>,
    waiting: Vec<u8>,
    pub lines: Vec<ShownLine>,
    /// Whether a write came before the one before it was flushed.
    pub is_late: bool,
    start: usize,
    begun: u64,
}

impl<'a> Log<'a> {
    /// A log without a line.
    pub fn new(world: &'a RefCell<World>, alloc: Global) -> Log<'a> {
        Log {
            world,
            shown: Vec::new(alloc),
            waiting: Vec::new(alloc),
            lines: Vec::new(alloc),
            is_late: false,
            start: 0,
            begun: match world.try_borrow() {
                Ok(world) => world.clock,
                Err(_) => 0,
            },
        }
    }

    /// Whether all was flushed.
    pub fn is_flushed(&self) -> bool {
        self.waiting.is_empty() && !self.is_late
    }

    /// Whether all that was written was flushed in the end.
    pub fn is_shown(&self) -> bool {
        self.waiting.is_empty()
    }

    /// The line of this moment.
    pub fn line(&self, moment: &ShownLine) -> &[u8] {
        match self.shown.get(moment.start..moment.end) {
            Some(line) => line,
            None => b"",
        }
    }

    fn note_lines(&mut self) -> io::Result<()> {
        let Ok(world) = self.world.try_borrow() else {
            return Err(io::Error::from(ErrorKind::Other));
        };
        for at in self.start..self.shown.len() {
            let Some(line) = self.shown.get(self.start..at) else {
                continue;
            };
            if let Some(b'\n') = self.shown.get(at) {
                self.lines.push(ShownLine {
                    start: self.start,
                    end: at,
                    clock: world.clock,
                    is_firm: is_firm(&world, line),
                    is_withdrawn_wrongly: was_there(&world, line, self.begun),
                })?;
                self.start = at.wrapping_add(1);
            }
        }
        Ok(())
    }
}

/// The path of the object that the line begins with, after this word.
fn path_after(line: &[u8], word: &[u8]) -> Option<&'static str> {
    let rest = line.strip_prefix(word)?;
    for path in OBJECTS {
        if let Some(name) = path.strip_prefix("objects/")
            && rest.starts_with(name.as_bytes())
        {
            return Some(*path);
        }
    }
    None
}

/// Whether the line withdraws an object whose file was there at this time already.
fn was_there(world: &World, line: &[u8], begun: u64) -> bool {
    match path_after(line, b"withdraw ") {
        Some(path) => match world.there_since(path) {
            Some(since) => since <= begun,
            None => false,
        },
        None => false,
    }
}

/// Whether the file that the line puts would survive.
fn is_firm(world: &World, line: &[u8]) -> bool {
    match path_after(line, b"put ") {
        Some(path) => world.is_firm(path),
        None => true,
    }
}

impl<'a> Write for Log<'a> {
    fn write(&mut self, bytes: &[u8]) -> io::Result<usize> {
        if !self.waiting.is_empty() {
            self.is_late = true;
        }
        self.waiting.extend_from_slice(bytes)?;
        Ok(bytes.len())
    }

    fn flush(&mut self) -> io::Result<()> {
        self.shown.extend_from_slice(self.waiting.as_slice())?;
        self.waiting.clear();
        self.note_lines()
    }
}
