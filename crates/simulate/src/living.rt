//! One life of the program: a command's words, and what was printed.
use crate::log::Log;
use crate::stop::{Stop, held};
use mot_endpoints::Host;
use mot_memory_files::{MachineStart, MemoryMachine, World};
use mot_server::run_program_on;
use std::alloc::Global;
use std::cell::RefCell;

/// The exit status, and what was printed.
#[derive(Drop)]
pub struct Life<'a> {
    pub status: u8,
    pub log: Log<'a>,
    pub errors: Vec<u8>,
}

impl<'a> Life<'a> {
    /// Whether the disk failed, by what was printed.
    pub fn has_device_fault(&self) -> bool {
        tells(self.log.shown.as_slice(), b"15 DeviceFault")
            || tells(self.errors.as_slice(), b"15 DeviceFault")
    }
}

/// Whether the text has these words.
pub fn tells(text: &[u8], words: &[u8]) -> bool {
    text.windows(words.len().max(1)).any(|part| part == words)
}

/// Runs the program with these words and this input, to its end or to the death of the machine.
pub fn run<'a>(
    world: &'a RefCell<World>,
    alloc: Global,
    words: &[&str],
    input: &[u8],
) -> Result<Life<'a>, Stop> {
    note_command(&mut *held(world)?, words);
    let mut host = Host::new(MemoryMachine::new(world, alloc));
    let mut reader: &[u8] = input;
    let mut log = Log::new(world, alloc);
    let mut errors = Vec::new(alloc);
    let exit = run_program_on(
        &mut host,
        alloc,
        words,
        MachineStart::new(),
        &mut reader,
        &mut log,
        &mut errors,
    );
    let mut w = held(world)?;
    w.note(log.shown.as_slice());
    w.note(errors.as_slice());
    Ok(Life {
        status: exit.status,
        log,
        errors,
    })
}

/// The command stands in the trace as an operator types it.
fn note_command(w: &mut World, words: &[&str]) {
    w.note(b"$ motcar");
    for word in words {
        w.note(b" ");
        w.note(word.as_bytes());
    }
    w.note(b"\n");
}
