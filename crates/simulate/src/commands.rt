//! The commands of a story: which one is drawn, and how an operator types it.
use crate::texts::INPUTS;
use mot_memory_files::World;
use std::alloc::{AllocError, Global};

/// A command that may fail, or be cut off by a death.
#[derive(Clone, Copy, PartialEq, Eq)]
pub enum Command {
    /// `sync`.
    Sync,
    /// `sync --dry-run`.
    TrySync,
    /// `put` of two files.
    Put,
    /// `withdraw` of three names.
    Withdraw,
    /// `serve`, with lines.
    Serve,
    /// `play` of lines.
    PlayLines,
    /// `play` of a folder.
    PlayFolder,
    /// `play` of both.
    PlayBoth,
    /// `copy`.
    Copy,
}

/// The commands, in the order of `COMMANDS`.
const ALL: &[Command] = &[
    Command::Sync,
    Command::TrySync,
    Command::Put,
    Command::Withdraw,
    Command::Serve,
    Command::PlayLines,
    Command::PlayFolder,
    Command::PlayBoth,
    Command::Copy,
];

/// What they are called.
pub const COMMANDS: &[&str] = &[
    "sync",
    "sync --dry-run",
    "put",
    "withdraw",
    "serve",
    "play --lines",
    "play --folder",
    "play --folder --lines",
    "copy",
];

/// The files that `put` puts, by the names of their objects.
pub const PUT: &[&str] = &["a.txt", "c.png"];

/// The objects that `withdraw` withdraws.
pub const WITHDRAWN: &[&str] = &["b.txt", "x", "c.png"];

/// How a life is asked for.
#[derive(Clone, Copy)]
pub struct Manner {
    pub command: Command,
    /// Whether young files are taken, too.
    pub at_once: bool,
    /// Whether no other program changes anything.
    pub is_still: bool,
    /// Whether nothing fails either, but reads of files that break off.
    pub is_exact: bool,
    /// Whether the time of day jumps, or has jumped before.
    pub jumps: bool,
    /// The numbers of `play`.
    pub every: u64,
    pub turns: u64,
    pub directory: u64,
    pub look: u64,
    /// Which lines `serve` gets.
    pub input: usize,
}

impl Manner {
    /// Draws one. Playing is drawn in two lives of three.
    pub fn drawn(w: &mut World) -> Manner {
        let at = [0, 0, 1, 2, 3, 4, 5, 5, 6, 6, 6, 7, 7, 7, 7, 8];
        let drawn = w.any(at.len() as u64) as usize;
        let command = match at.get(drawn) {
            Some(place) => match ALL.get(*place) {
                Some(command) => *command,
                None => Command::Sync,
            },
            None => Command::Sync,
        };
        Manner {
            command,
            at_once: w.any(2) == 0,
            is_still: false,
            is_exact: false,
            jumps: false,
            every: w.one_of([1, 1, 3, 8]),
            turns: w.any(6).wrapping_add(1),
            directory: w.one_of([0, 5, 20, 40]),
            look: w.one_of([0, 2, 5, 9]),
            input: w.any(INPUTS.len() as u64) as usize,
        }
    }

    /// That of a calm `play`, which takes no young file.
    pub fn calm(is_still: bool, jumps: bool) -> Manner {
        Manner {
            command: Command::PlayBoth,
            at_once: false,
            is_still,
            is_exact: false,
            jumps,
            every: 3,
            turns: 40,
            directory: 20,
            look: 9,
            input: 0,
        }
    }

    /// The place of its command.
    pub fn place(&self) -> usize {
        match ALL.iter().position(|command| *command == self.command) {
            Some(place) => place,
            None => 0,
        }
    }

    /// The words.
    pub fn words(&self, alloc: Global) -> Result<Vec<&'static str>, AllocError> {
        let mut words = if self.plays() {
            self.words_of_play(alloc)?
        } else {
            Vec::from_slice(alloc, self.plain_words())?
        };
        if self.at_once && self.has_folder() {
            words.push("--at-once")?;
        }
        Ok(words)
    }

    /// The words of a command that does not play.
    fn plain_words(&self) -> &'static [&'static str] {
        match self.command {
            Command::Sync => &["sync", "d.disk", "objects"],
            Command::TrySync => &["sync", "--dry-run", "d.disk", "objects"],
            Command::Put => &["put", "d.disk", "objects/a.txt", "objects/c.png"],
            Command::Withdraw => &["withdraw", "d.disk", "b.txt", "x", "c.png"],
            Command::Copy => &["copy", "d.disk", "n.disk"],
            _ => &["serve", "d.disk"],
        }
    }

    fn words_of_play(&self, alloc: Global) -> Result<Vec<&'static str>, AllocError> {
        let mut words = Vec::new(alloc);
        words.extend_from_slice(&["play", "d.disk", "packets", "--turns", text_of(self.turns)])?;
        words.extend_from_slice(&["--directory", text_of(self.directory)])?;
        if self.has_folder() {
            words.extend_from_slice(&["--folder", "objects", "--look", text_of(self.look)])?;
            words.extend_from_slice(&["--allow-empty", "--status", "status.prom"])?;
        }
        if self.command != Command::PlayFolder {
            words.extend_from_slice(&["--lines", "lines", "--every", text_of(self.every)])?;
        }
        Ok(words)
    }

    /// Whether it goes by the folder of objects.
    pub fn has_folder(&self) -> bool {
        match self.command {
            Command::Sync | Command::TrySync | Command::PlayFolder | Command::PlayBoth => true,
            _ => false,
        }
    }

    /// Whether it plays.
    pub fn plays(&self) -> bool {
        match self.command {
            Command::PlayLines | Command::PlayFolder | Command::PlayBoth => true,
            _ => false,
        }
    }

    /// What it reads from its input.
    pub fn input_text(&self) -> &'static [u8] {
        match (self.command, INPUTS.get(self.input)) {
            (Command::Serve, Some(text)) => *text,
            _ => b"",
        }
    }
}

/// The number as a word; those that are drawn have one.
fn text_of(number: u64) -> &'static str {
    match number {
        0 => "0",
        1 => "1",
        2 => "2",
        3 => "3",
        4 => "4",
        5 => "5",
        6 => "6",
        8 => "8",
        9 => "9",
        20 => "20",
        40 => "40",
        _ => "7",
    }
}
