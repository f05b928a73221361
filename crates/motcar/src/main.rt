//! The carousel server's program.
#![tactic(auto)]

mod version;

use disk_store::{OpenFault, Unknown};
use mot_endpoints::Cause;
use mot_numbers::Refusal;
use mot_outcome::{Subject, UsedDisk, refuse};
use mot_server::run_program;
use std::fs::File;
use std::io::{BufWriter, ErrorKind, Write};
use std::os::fd::AsRawFd;
use std::process::ExitCode;
use std::{env, io};
use version::print_version;

/// Room for the longest reply to a `raw` line, so that it goes out in one write.
const BUFFER: usize = 65_536;

/// What is opened in the place of a standard stream that is closed.
const NULL: &str = "/dev/null";

/// The number of standard error, the last of the standard streams.
const STANDARD_ERROR: i32 = 2;

fn main(rt: HostRuntime) -> ExitCode {
    match run(&rt) {
        Ok(status) => ExitCode::from(status),
        Err(error) => explain(&rt, &error),
    }
}

/// Runs the program, with the numbers of its standard streams taken.
fn run(rt: &HostRuntime) -> io::Result<u8> {
    match hold_streams(rt) {
        Ok(_streams) => run_on_streams(rt),
        Err(error) => {
            let cause = Cause::Disk(OpenFault::System(error));
            let subject = Subject::File { path: NULL, cause };
            Ok(refused(rt, Refusal::DeviceFault, subject))
        }
    }
}

/// Runs the program on its words and the real streams.
fn run_on_streams(rt: &HostRuntime) -> io::Result<u8> {
    let alloc = rt.alloc();
    let words: Vec<String> = env::args(rt)?.skip(1).collect(alloc)?;
    let mut writer = BufWriter::with_capacity(alloc, BUFFER, io::writer(rt))?;
    Ok(run_words(rt, words.as_slice(), &mut writer))
}

/// Does what these words ask for, and answers the exit status.
fn run_words<W: Write>(rt: &HostRuntime, words: &[String], writer: &mut W) -> u8 {
    let (mut reader, mut errors) = (rt.reader(), rt.stderr());
    match words {
        [word] if word.as_str() == "--version" || word.as_str() == "-V" => show_version(rt, writer),
        _ => run_program(rt, rt.alloc(), words, &mut reader, writer, &mut errors),
    }
}

/// Prints the version, and answers the exit status.
fn show_version<W: Write>(rt: &HostRuntime, writer: &mut W) -> u8 {
    match print_version(rt, writer) {
        Ok(()) => 0,
        Err(_) => refused(rt, Refusal::WriteFault, Subject::Nothing),
    }
}

/// Takes the numbers of the standard streams that are closed, so that no file which is opened later
/// gets one and is printed to. They are opened for reading alone: an input that is closed is empty,
/// and what can't be printed is a fault. A file gets the least number that is free, so if the first
/// one's is above theirs, none of them is closed.
fn hold_streams(rt: &HostRuntime) -> io::Result<Option<(File, File, File)>> {
    let first = File::open(rt, NULL)?;
    if first.as_raw_fd() > STANDARD_ERROR {
        return Ok(None);
    }
    let second = File::open(rt, NULL)?;
    let third = File::open(rt, NULL)?;
    Ok(Some((first, second, third)))
}

/// Prints the refusal, and what it is about, and answers its status.
fn refused(rt: &HostRuntime, refusal: Refusal, subject: Subject<'_>) -> u8 {
    let disk = UsedDisk::Untouched(Unknown);
    refuse(&mut rt.stderr(), false, refusal, subject, disk).status
}

/// Prints why the program did not begin: there was no memory, or a word was no UTF-8.
fn explain(rt: &HostRuntime, error: &io::Error) -> ExitCode {
    if error.kind() == ErrorKind::OutOfMemory {
        let status = refused(rt, Refusal::OutOfMemory, Subject::Nothing);
        return ExitCode::from(status);
    }
    let _ = eprintln!(rt; "motcar: a word of the command line is no UTF-8 text");
    ExitCode::from(2)
}
