//! The command line, in clap's words.
ghost use Rattle.std.specs.Prelude.{◌≡◌, map, Contains, IfErr, IfOk, IfSome};
ghost use Rattle.clap.specs.Words.{HasKind, HasMatchesOf, fault_of};
ghost use Rattle.mot_cli.specs.Command.{motcar_app, verb_apps};
ghost use Rattle.mot_cli.specs.Inner.{MeansAlike, line_app, verb_app};

use crate::parts::{Argument, DISK, Kind, Verb, command_line};
use clap::{ArgMatches, Error};
use std::alloc::Global;
use std::convert::AsStr;
use std::slice;

/// What the top help says below the list of commands.
const NOTES: &str = "\
motcar COMMAND --help lists the arguments of a command.
motcar --version prints the version, the commit and the toolchain that proved it.

docs/OPERATING.md is the manual. docs/FORMATS.md describes the lines that motcar reads, and its
replies.
Exit status: 0 if everything was done, 1 after a refusal, which standard error or the log describes,
2 if the command line is wrong.";

/// Rows of commands: the name, what the help says, and the arguments.
macro_rules! verbs {
    ($($name:literal, $about:literal, $arguments:expr;)*) => {
        &[$(Verb { name: $name, about: $about, arguments: $arguments }),*]
    };
}

/// The commands, those that a station needs first.
const VERBS: &[Verb] = verbs! {
    "format", "Make a disk, and its file if there is none",
        &[DISK, OBJECTS, DATA, SEGMENT, ADDRESS, PACKET, AFTER];
    "play", "Play a disk into a pipe, a device or a file, each packet in one write",
        &[DISK, PACKETS, FOLDER, TYPES, ALLOW_EMPTY, KEEP_MOST, AT_ONCE, LINES, EVERY, TURNS,
            DIRECTORY, LOOK, PLAY_RATE, EARLY, STATUS, LEVELS];
    "sync", "Make the carousel of a disk equal to a folder",
        &[DISK, DIR, TYPES, ALLOW_EMPTY, KEEP_MOST, AT_ONCE, DRY_RUN];
    "health", "Say whether a disk on air sends packets, by when its status was written",
        &[WRITTEN, MAX_AGE, JSON];
    "list", "Print the objects of a disk", &[DISK, JSON];
    "put", "Put files into the carousel of a disk, or replace the objects of their names",
        &[DISK, FILE, TYPES];
    "withdraw", "Withdraw objects from the carousel of a disk", &[DISK, NAMES];
    "get", "Print the body of an object of a disk, and nothing else", &[DISK, NAME];
    "serve", "Answer lines of standard input on standard output, from a disk", &[DISK];
    "inspect", "Print the sizes of a disk, what is free of them, and how long a turn takes",
        &[DISK, RATE, JSON];
    "check", "Print the carousel of a disk, whether the disk is clean, and its layout",
        &[DISK, JSON];
    "copy", "Make a copy of a disk, of other sizes if they are given",
        &[DISK, NEW, OBJECTS, DATA, SEGMENT, ADDRESS, PACKET, GOES_ON];
    "export", "Print the lines that rebuild the carousel of a disk", &[DISK];
    "migrate", "Rewrite a disk of layout 1 into layout 2", &[DISK];
    "memory", "Answer lines of standard input on standard output, from memory",
        &[OBJECTS, DATA, SEGMENT, ADDRESS, PACKET];
};

/// The numbers of a geometry.
const OBJECTS: Argument = Argument {
    name: "objects",
    kind: Kind::Number("N"),
    help: "Objects at most, 1 to 250 [default: 16; of a copy, as the disk]",
};

const DATA: Argument = Argument {
    name: "data",
    kind: Kind::Number("BYTES"),
    help: "Bytes for all bodies, 1 to 268435456 [default: 65536; of a copy, as the disk]",
};

const SEGMENT: Argument = Argument {
    name: "segment",
    kind: Kind::Number("BYTES"),
    help: "Bytes of a segment, 64 to 8189 [default: 1024; of a copy, as the disk]",
};

const ADDRESS: Argument = Argument {
    name: "address",
    kind: Kind::Number("N"),
    help: "Address of the packets, 1 to 1023 [default: 1; of a copy, as the disk]",
};

const PACKET: Argument = Argument {
    name: "packet",
    kind: Kind::Number("BYTES"),
    help: "Bytes of a packet: 24, 48, 72 or 96 [default: 96; of a copy, as the disk]",
};

/// The beginning of a new disk's ids.
const AFTER: Argument = Argument {
    name: "after",
    kind: Kind::Number("N"),
    help: "Transport id after which the ids begin, 0 to 65535 [default: 0]",
};

/// What `copy` needs besides a disk, and may be given besides its sizes: where its ids go on.
const NEW: Argument = Argument {
    name: "NEW",
    kind: Kind::Word,
    help: "The file of the copy: it is made, or it is long enough, or a block device",
};

const GOES_ON: Argument = Argument {
    name: "after",
    kind: Kind::Number("N"),
    help: "Transport id after which new ids go on, 0 to 65535 [default: as the disk]",
};

/// What `play` needs besides a disk, and may be given.
const PACKETS: Argument = Argument {
    name: "PACKETS",
    kind: Kind::Word,
    help: "A named pipe or a device, - for standard output, or a file if --turns is given",
};

const FOLDER: Argument = Argument {
    name: "folder",
    kind: Kind::Path("DIR"),
    help: "Make the carousel equal to this folder, at the start and then again and again",
};

const TYPES: Argument = Argument {
    name: "types",
    kind: Kind::Path("FILE"),
    help: "Take files of these suffixes, too: lines SUFFIX TYPE SUBTYPE MIME",
};

const ALLOW_EMPTY: Argument = Argument {
    name: "allow-empty",
    kind: Kind::Flag,
    help: "Withdraw all objects if the folder has none",
};

const KEEP_MOST: Argument = Argument {
    name: "keep-most",
    kind: Kind::Flag,
    help: "Change nothing if more than half of the objects, and more than three, would go, unless \
        --allow-empty is given",
};

const AT_ONCE: Argument = Argument {
    name: "at-once",
    kind: Kind::Flag,
    help: "Take files that were changed less than two seconds ago, too",
};

const LINES: Argument = Argument {
    name: "lines",
    kind: Kind::Path("DIR"),
    help: "Answer the lines of the files in this folder, between packets, and remove the files",
};

const EVERY: Argument = Argument {
    name: "every",
    kind: Kind::Number("PACKETS"),
    help: "Read lines every so many packets [default: 8]",
};

const TURNS: Argument = Argument {
    name: "turns",
    kind: Kind::Number("N"),
    help: "End after so many whole turns; a file is written only with it [default: without end]",
};

const DIRECTORY: Argument = Argument {
    name: "directory",
    kind: Kind::Number("PACKETS"),
    help: "Send the directory again after so many packets; 0: at each turn's beginning \
        [default: 340 without end, else 0]",
};

const LOOK: Argument = Argument {
    name: "look",
    kind: Kind::Number("PACKETS"),
    help: "Look at the folder after so many packets of a turn, too; 0: between turns \
        [default: 100 without end, else 0]",
};

const PLAY_RATE: Argument = Argument {
    name: "rate",
    kind: Kind::Number("N"),
    help: "Multiply both defaults by the packets that a frame holds at N kbit/s, a multiple of 8 \
        up to 1824",
};

const EARLY: Argument = Argument {
    name: "early",
    kind: Kind::Number("N"),
    help: "Send so many changed objects at most before the rest of the turn goes on [default: 3]",
};

const STATUS: Argument = Argument {
    name: "status",
    kind: Kind::Path("FILE"),
    help: "Write what monitoring asks for into this file: at the start, at each look and every \
        1,000 packets",
};

const LEVELS: Argument = Argument {
    name: "levels",
    kind: Kind::Flag,
    help: "Put <4> before log lines that tell of a refusal, and <6> before others, for systemd",
};

/// The status that `health` looks at.
const WRITTEN: Argument = Argument {
    name: "STATUS",
    kind: Kind::Word,
    help: "The file that play --status writes",
};

const MAX_AGE: Argument = Argument {
    name: "max-age",
    kind: Kind::Number("SECONDS"),
    help: "How many seconds ago it was written at most, 1 to 86400 [default: 120]",
};

/// The folder of `sync`.
const DIR: Argument = Argument {
    name: "DIR",
    kind: Kind::Word,
    help: "The folder",
};

const DRY_RUN: Argument = Argument {
    name: "dry-run",
    kind: Kind::Flag,
    help: "Print the lines of a sync, and change nothing",
};

/// The files of `put`.
const FILE: Argument = Argument {
    name: "FILE",
    kind: Kind::Words,
    help: "A file, by whose name and suffix the object has its name and its type",
};

/// The objects of `withdraw`.
const NAMES: Argument = Argument {
    name: "NAME",
    kind: Kind::Words,
    help: "The name of an object",
};

/// The object of `get`.
const NAME: Argument = Argument {
    name: "NAME",
    kind: Kind::Word,
    help: "The name of the object",
};

/// The rate of `inspect`.
const RATE: Argument = Argument {
    name: "rate",
    kind: Kind::Number("N"),
    help: "Time the turn at N kbit/s, a multiple of 8 up to 1824 [default: twelve rates]",
};

/// The form of what is printed.
const JSON: Argument = Argument {
    name: "json",
    kind: Kind::Flag,
    help: "Print JSON, one object a line",
};

/// What the words after the program's own name match in the command line. The error is that a word
/// is wrong, that help is asked for, or that memory ran out.
pub fn motcar_matches<'a, S: AsStr>(alloc: Global, words: &'a [S]) -> Result<ArgMatches<'a>, Error>
    ensures matches { IfOk result (HasMatchesOf motcar_app (map S.text words.now)) }
    ensures kinds { IfErr result (HasKind (fault_of motcar_app (map S.text words.now))) }
{
    let command = command_line(alloc, verbs_for(VERBS, words))?;
    command.after_help(NOTES).try_get_matches_from(words)
}

/// Of these commands, which are all, those that the words may mean: the one that the first word names,
/// or all. (A command line of one command is made with a tenth of the instructions.)
fn verbs_for<'v, S: AsStr>(verbs: &'v [Verb], words: &[S]) -> &'v [Verb]
    requires each { map verb_app verbs.now ≡ verb_apps }
    requires all { line_app verbs.now ≡ motcar_app }
    ensures { MeansAlike (line_app result.now) (map S.text words.now) }
{
    let Some(word) = words.first() else {
        return verbs;
    };
    match verb_named(verbs, word.as_str()) {
        Some(verb) => slice::from_ref(verb),
        None => verbs,
    }
}

/// The command of this name.
fn verb_named<'v>(verbs: &'v [Verb], name: &str) -> Option<&'v Verb>
    ensures { IfSome result (λ verb.
        Contains verbs.now verb.now × (verb.now.name.now ≡ name.now)) }
{
    for verb in verbs {
        if verb.name == name {
            return Some(verb);
        }
    }
    None
}
