//! The program, of all its commands.
ghost use Rattle.std.specs.Prelude.{◌≢◌, Some, map};
ghost use Rattle.mot_cli.specs.Task.{LackOption};
ghost use Rattle.mot_numbers.specs.declared.refusal.Refusal.TheVariants.{BadNumber};
ghost use Rattle.mot_server.specs.Program.{Ran, RunsTo, Uses};

use crate::running::execute;
use crate::telling::{conclude, tell_no_task};
use disk_store::{HostFiles, Start, Unknown};
use mot_cli::{motcar_matches, task_of};
use mot_endpoints::{Host, Machine};
use mot_outcome::{Exit, UsedDisk, explain};
use std::alloc::Global;
use std::convert::AsStr;
use std::io::{Read, Write};

/// Does what the words after the program's own name ask for, on the files of the machine, and
/// answers the exit status: 0 if everything was done or help was asked for, 1 after a refusal, 2 if
/// the words are wrong. What went wrong is printed to `errors`.
///
/// It is `run_program_on` on the files of this machine. What is promised is that the
/// status, the bytes that were read and those that were printed are those of one such run: there is
/// an exit of it. What the files hold then is promised of that call, which hands out the disk. Here
/// no clause can speak of them, nor see a call on the runtime beside that one; nor can it say what is
/// printed to `errors`, or that memory was left, for want of which any run may be refused.
pub fn run_program<R: Read, W: Write, E: Write>(
    rt: &HostRuntime,
    alloc: Global,
    words: &[String],
    reader: &mut R,
    writer: &mut W,
    errors: &mut E,
) -> u8
    ensures ran { Ran ⟦<Unknown as Start>⟧ (map ⟦<String as AsStr>⟧.text words.now)
        result (R.remaining reader.old) (R.remaining reader.new)
        (W.contents writer.old) (W.contents writer.new) }
{
    let mut host = Host::new(HostFiles { rt });
    let exit = run_program_on(&mut host, alloc, words, Unknown, reader, writer, errors);
    exit.status
}

/// Does what the words after the program's own name ask for, on these files, and hands out the disk
/// that it worked on. What went wrong is printed to `errors`.
///
/// The words are read once. The clauses are over the tasks of all commands, so it does the task that
/// the words ask for and no other, once, and nothing after it. Any run may be refused for want of
/// memory. No clause says what help tells, or what is printed to `errors`.
///
/// `start` is for clauses alone: the content of the disk's file when it was opened. A program gives
/// `Unknown`.
pub fn run_program_on<
    'a,
    S: AsStr,
    B: Start,
    R: Read,
    W: Write,
    E: Write,
    M: Machine<File = B::File> + Drop,
>(
    host: &mut Host<M>,
    alloc: Global,
    words: &'a [S],
    start: B,
    reader: &mut R,
    writer: &mut W,
    errors: &mut E,
) -> Exit<B>
    // With status 0 the task that the words ask for was done, or help was asked for; with status 1
    // this refusal ended the task, or it was not begun; with status 2 the words are wrong.
    ensures ended { RunsTo (map S.text words.now) result
        (R.remaining reader.old) (R.remaining reader.new)
        (W.contents writer.old) (W.contents writer.new) }

    // An option of `play` that lacks the one of which it says more is not told as a bad number.
    ensures lacking { LackOption (map S.text words.now) → result.refusal ≢ Some BadNumber }

    // Nothing was opened, made or removed but what the words name, each at most once. A disk was made
    // only of what was found free: no device that is mounted or has a signature.
    ensures files { Uses (map S.text words.now) result
        (M.System.calls host.old.system) (M.System.calls host.new.system) }
{
    let matches = match motcar_matches(alloc, words) {
        Ok(matches) => matches,
        Err(error) => return explain(alloc, writer, errors, &error, start),
    };
    let Some((name, rest)) = matches.subcommand() else {
        return Exit::unrefused(2, UsedDisk::Untouched(start));
    };
    let task = match task_of(name, rest) {
        Ok(task) => task,
        Err(why) => return tell_no_task(errors, why, rest, start),
    };
    let finished = execute(host, alloc, &task, start, reader, writer, errors);
    conclude(errors, rest, finished)
}
