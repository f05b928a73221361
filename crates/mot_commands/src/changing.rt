//! What `put` and `withdraw` do.
ghost use Rattle.std.specs.Prelude.{◌≡◌, ◌⊎◌, ℕ, Bool, [], IfOk, List, None, Option, false, is_ok};
ghost use Rattle.std.specs.Result.{result_unwrap_or};
ghost use Rattle.disk_model.specs.Disk.{KeepsLength};
ghost use Rattle.mot_commands.specs.Changing.{Executes, Changes, ChangesFile, PutReads, PutsFiles};
ghost use Rattle.mot_commands.specs.Changing.{Takes, TakesEach, WithdrawsFile, IsLineOf};
ghost use Rattle.mot_commands.specs.Changing.{reply_line, taken_event, taken_result, texts};
ghost use Rattle.mot_endpoints.specs.Opened.{Need, if_given};
ghost use Rattle.mot_endpoints.specs.Texts.{IsUntyped};
ghost use Rattle.mot_events.specs.Events.{event_of};
ghost use Rattle.mot_files.specs.Call.{Call};
ghost use Rattle.mot_log.specs.Text.{look_line};
ghost use Rattle.mot_numbers.specs.declared.refusal.Refusal.TheVariants.{DeviceFault};
ghost use Rattle.mot_outcome.specs.Outcome.{Concludes, Opens, OpensAnd, Prints};
ghost use Rattle.mot_playout.specs.Attempts.{fault_of};

use crate::asking::{Words, base_name, request_of};
use crate::working::{ended_with, finish};
use disk_model::Disk;
use disk_store::Start;
use mot_endpoints::{Host, Machine, file_types};
use mot_events::{LookEvent, LookResult, LookStep, Why};
use mot_files::System;
use mot_lines::{TextLine, done_text, refusal_text};
use mot_log::add_look_line;
use mot_numbers::Refusal;
use mot_objects::{Command, Done};
use mot_outcome::{TaskEnd, write_last};
use mot_playout::Server;
use mot_update::Ended;
use std::alloc::{AllocError, Global};
use std::io::Write;

/// Puts these files on the disk of the file at the path, one after the other, or replaces the
/// objects of their names; prints a line for each, and why a file was not read to `errors`. Each is
/// typed by its suffix, of the known ones and of those that a file adds. Whether each was put.
pub fn put<S: Start, W: Write, E: Write, M: Machine<File = S::File> + Drop>(
    host: &mut Host<M>,
    alloc: Global,
    path: &str,
    files: &[&str],
    types: Option<&str>,
    start: S,
    writer: &mut W,
    errors: &mut E,
) -> TaskEnd<S, bool>
    ensures ended { Concludes (λ r. IsUntyped types.entry r ⊎ (r ≡ DeviceFault))
        (λ all ending. (before after : List Call) × PutsFiles types.entry (texts files.now) all
        ending result.disk (W.contents writer.old) (W.contents writer.new) before after)
        result.result result.disk (W.contents writer.old) (W.contents writer.new) }
    ensures files { OpensAnd (if_given Need.types types.entry) path.now
        (PutReads types.entry (texts files.now) result.disk) (fault_of result.result) result.disk
        (M.System.calls host.old.system) (M.System.calls host.new.system) }
{
    match file_types(host, alloc, types) {
        Ok(types) => {
            let words = Words::Files(types);
            change_file(host, alloc, path, files, &words, start, writer, errors)
        }
        Err(unbegun) => TaskEnd::unbegun(unbegun.refusal, unbegun.cause, start),
    }
}

/// Withdraws the objects of these names from the disk of the file at the path, one after the other,
/// and prints the replies; to `errors` which names no object can have. Whether each was withdrawn.
pub fn withdraw_file<S: Start, W: Write, E: Write, M: Machine<File = S::File> + Drop>(
    host: &mut Host<M>,
    alloc: Global,
    path: &str,
    names: &[&str],
    start: S,
    writer: &mut W,
    errors: &mut E,
) -> TaskEnd<S, bool>
    ensures ended { Concludes (λ r. r ≡ DeviceFault) (λ all ending. WithdrawsFile
        (texts names.now) all ending result.disk (W.contents writer.old) (W.contents writer.new))
        result.result result.disk (W.contents writer.old) (W.contents writer.new) }
    ensures files { Opens [] path.now (fault_of result.result) result.disk
        (M.System.calls host.old.system) (M.System.calls host.new.system) }
{
    let words = Words::Objects;
    change_file(host, alloc, path, names, &words, start, writer, errors)
}

/// Does what each word asks for on the disk of the file at the path, one after the other, and prints
/// the replies; why a word asks for no command to `errors`. Whether each command is done.
fn change_file<S: Start, W: Write, E: Write, M: Machine<File = S::File> + Drop>(
    host: &mut Host<M>,
    alloc: Global,
    path: &str,
    list: &[&str],
    words: &Words,
    start: S,
    writer: &mut W,
    errors: &mut E,
) -> TaskEnd<S, bool>
    ensures ended { Concludes (λ r. r ≡ DeviceFault) (λ all ending. (before after : List Call)
        × ChangesFile words.now (texts list.now) all ending
        (W.contents writer.old) (W.contents writer.new) before after result.disk)
        result.result result.disk (W.contents writer.old) (W.contents writer.new) }
    ensures files { OpensAnd [] path.now (λ before after. (all : Bool) × (ending : Option Refusal)
        × (old : Option (List ℕ)) × (new : Option (List ℕ))
        × ChangesFile words.now (texts list.now) all ending old new before after result.disk)
        (fault_of result.result) result.disk
        (M.System.calls host.old.system) (M.System.calls host.new.system) }
{
    match host.disk(path, start) {
        Ok(disk) => {
            let ended = change_disk(&mut host.system, alloc, disk, list, words, writer, errors);
            finish(host, ended)
        }
        Err(unopened) => TaskEnd::unopened(unopened),
    }
}

/// The same on a disk that it opens.
fn change_disk<Y: System, D: Disk, W: Write, E: Write>(
    system: &mut Y,
    alloc: Global,
    disk: D,
    list: &[&str],
    words: &Words,
    writer: &mut W,
    errors: &mut E,
) -> Ended<D, bool>
    ensures keeps { KeepsLength (D.state disk) (D.state result.disk) }
    ensures ended { Changes D.state words.now (texts list.now)
        (result_unwrap_or result.result false) (fault_of result.result)
        (W.contents writer.old) (W.contents writer.new)
        (Y.calls system.old) (Y.calls system.new) result.disk (D.state disk) }
{
    let mut server = match Server::open(alloc, disk) {
        Ok(server) => server,
        Err(refused) => return Ended::unopened(refused),
    };
    let result = take_each(system, alloc, list, words, writer, errors, &mut server);
    ended_with(server.into_disk(), result)
}

/// Takes the words in turn.
fn take_each<Y: System, D: Disk, W: Write, E: Write>(
    system: &mut Y,
    alloc: Global,
    list: &[&str],
    words: &Words,
    writer: &mut W,
    errors: &mut E,
    server: &mut Server<D>,
) -> Result<bool, Refusal>
    ensures keeps { KeepsLength (D.state server.old.disk) (D.state server.new.disk) }
    ensures taken { TakesEach D.state words.now (texts list.now)
        (result_unwrap_or result false) (fault_of result)
        (server.old, W.contents writer.old, Y.calls system.old)
        (server.new, W.contents writer.new, Y.calls system.new) }
{
    let mut all = true;
    for word in list {
        let done = take(system, alloc, word, words, writer, errors, server)?;
        all = all && done;
    }
    Ok(all)
}

/// Does what a word asks for, and prints the reply.
fn take<Y: System, D: Disk, W: Write, E: Write>(
    system: &mut Y,
    alloc: Global,
    word: &str,
    words: &Words,
    writer: &mut W,
    errors: &mut E,
    server: &mut Server<D>,
) -> Result<bool, Refusal>
    ensures keeps { KeepsLength (D.state server.old.disk) (D.state server.new.disk) }
    ensures taken { Takes D.state words.now word.now (result_unwrap_or result false)
        (fault_of result)
        (server.old, W.contents writer.old, Y.calls system.old)
        (server.new, W.contents writer.new, Y.calls system.new) }
{
    let request = request_of(system, alloc, words, server.carousel(), word, errors);
    let end = answer(alloc, request, server);
    print_line(alloc, writer, words, word, end)
}

/// Does the command, unless what was asked for is refused.
fn answer<D: Disk>(
    alloc: Global,
    request: Result<Command, Refusal>,
    server: &mut Server<D>,
) -> Result<Done, Refusal>
    ensures { Executes D.state request server.old server.new result }
{
    match request {
        Ok(command) => server.execute(alloc, &command),
        Err(refusal) => Err(refusal),
    }
}

/// Prints what came of a word, with its name; whether its command is done. Without memory for that
/// line the reply comes without the name.
fn print_line<W: Write>(
    alloc: Global,
    writer: &mut W,
    words: &Words,
    word: &str,
    end: Result<Done, Refusal>,
) -> Result<bool, Refusal>
    ensures printed { (text : List ℕ) × IsLineOf words.now word.now end text
        × Prints (fault_of result) text (W.contents writer.old) (W.contents writer.new) }
    ensures right { fault_of result ≡ None → result_unwrap_or result false ≡ is_ok end }
{
    match line_of(alloc, words, word, end) {
        Ok(line) => write_last(writer, line.as_slice())?,
        Err(AllocError) => write_last(writer, reply_text(end).as_slice())?,
    }
    Ok(end.is_ok())
}

/// The line that tells what came of a word, as the log tells it of a look.
fn line_of(
    alloc: Global,
    words: &Words,
    word: &str,
    end: Result<Done, Refusal>,
) -> Result<Vec<u8>, AllocError>
    ensures { IfOk result (λ line. line.items ≡ look_line (taken_event words.now word.now end)) }
{
    let event = event_of(alloc, words, word, end)?;
    let mut line = Vec::new(alloc);
    add_look_line(&mut line, &event)?;
    Ok(line)
}

/// What came of a word.
fn event_of(
    alloc: Global,
    words: &Words,
    word: &str,
    end: Result<Done, Refusal>,
) -> Result<LookEvent, AllocError>
    ensures { IfOk result (λ event. event ≡ taken_event words.now word.now end) }
{
    match words {
        Words::Files(_) => named(alloc, base_name(word.as_bytes()), LookStep::Put, end),
        Words::Objects => named(alloc, word.as_bytes(), LookStep::Withdraw, end),
    }
}

/// What came of a step with this name.
fn named(
    alloc: Global,
    name: &[u8],
    step: LookStep,
    end: Result<Done, Refusal>,
) -> Result<LookEvent, AllocError>
    ensures { IfOk result (λ event. event ≡ event_of name.now (taken_result step end)) }
{
    let name = mot_events::Words::new(Vec::from_slice(alloc, name)?);
    let outcome = match end {
        Ok(done) => LookResult::Done(step, done),
        Err(refusal) => LookResult::Refused(step, refusal, Why::Unsaid),
    };
    Ok(LookEvent { name, outcome })
}

/// The reply to a command that ended so.
fn reply_text(end: Result<Done, Refusal>) -> TextLine
    ensures { result.items ≡ reply_line end }
{
    match end {
        Ok(done) => done_text(done),
        Err(refusal) => refusal_text(refusal),
    }
}
