//! What `sync` does: it makes the carousel of a disk equal to a folder.
ghost use Rattle.std.specs.Prelude.{◌≡◌, IfErr, MatchResult, OnOk, false, flat_map};
ghost use Rattle.std.specs.Result.{result_unwrap_or};
ghost use Rattle.std.specs.Io.KnownBytes.{Appends};
ghost use Rattle.disk_model.specs.Disk.{KeepsLength};
ghost use Rattle.mot_log.specs.Text.{look_line};
ghost use Rattle.mot_feed.specs.Feeding.{IsFeedFault};
ghost use Rattle.mot_folder.specs.Guard.{guard_of};
ghost use Rattle.mot_journal.specs.Image.{Standing};
ghost use Rattle.mot_numbers.specs.declared.refusal.Refusal.TheVariants.{WriteFault};
ghost use Rattle.mot_outcome.specs.Outcome.{Concludes, OpensOrReads};
ghost use Rattle.mot_playout.specs.Attempts.{fault_of};
ghost use Rattle.mot_repository.specs.Repository.{Holds};
ghost use Rattle.mot_shelf.specs.Gives.{GaveSo};
ghost use Rattle.mot_shelf.specs.Reader.{reader_path, view};
ghost use Rattle.mot_shelf.specs.View.{FolderView};
ghost use Rattle.mot_sync_command.specs.Syncing.{IsUnsynced, SyncsBy, SyncsTask, synced_with};
ghost use Rattle.mot_sync_command.specs.Syncing.{Syncs};
ghost use Rattle.mot_sync_command.specs.Inner.{LooksAndTells};
ghost use Rattle.mot_update.specs.Faults.{StaysCalm};

use crate::trying::sync_or_try;
use disk_model::Disk;
use disk_store::Start;
use mot_cli::SyncTask;
use mot_endpoints::{Cause, Host, Machine, copy_unopened, file_types};
use mot_events::LookEvent;
use mot_files::{CallLog, System};
use mot_folder::{FileTypes, Folder, Guard, KnownFiles, look_at_folder};
use mot_log::add_look_line;
use mot_numbers::Refusal;
use mot_outcome::{TaskCalls, TaskEnd, clear_after, write_bytes, write_last};
use mot_playout::Server;
use mot_shelf::FolderReader;
use mot_update::Ended;
use std::alloc::Global;
use std::io::Write;

/// Makes the carousel of the disk of a file equal to the files of a folder that have one of the known
/// suffixes, or of those that a file adds; or does that to a copy in memory, and prints the lines of
/// it: then the disk itself is only synced and read, and another program may have it.
pub fn sync<'a, B: Start, W: Write, M: Machine<File = B::File> + Drop>(
    host: &mut Host<M>,
    alloc: Global,
    task: &SyncTask<'a>,
    start: B,
    log: &mut W,
) -> TaskEnd<B, bool>
    ensures ended { Concludes (IsUnsynced task.now.types) (λ all ending. SyncsTask task.now all ending
        result.disk (W.contents log.old) (W.contents log.new))
        result.result result.disk (W.contents log.old) (W.contents log.new) }
    ensures opens { OpensOrReads task.now.dry_run (synced_with task.now) task.now.disk.now
        (fault_of result.result) result.disk
        (M.System.calls host.old.system) (M.System.calls host.new.system) }
{
    let types = match file_types(host, alloc, task.types) {
        Ok(types) => types,
        Err(unbegun) => return TaskEnd::unbegun(unbegun.refusal, unbegun.cause, start),
    };
    let shelf = host.folder(task.folder, task.rules.at_once);
    match host.disk(task.disk, start) {
        Ok(disk) => {
            let (ended, cause, calls) = sync_shelf(alloc, disk, shelf, &types, task, log);
            clear_after(host, &ended.result);
            TaskEnd::of_file(ended, TaskCalls::folder(calls), cause)
        }
        Err(unopened) => {
            let copy = copy_unopened(
                &mut host.system,
                alloc,
                task.disk,
                unopened.fault,
                task.dry_run,
            );
            let Some(copy) = copy else {
                return TaskEnd::unopened(unopened);
            };
            let (ended, cause, _) = sync_shelf(alloc, copy, shelf, &types, task, log);
            TaskEnd::in_memory(ended, cause, unopened.start)
        }
    }
}

/// Makes the carousel of the disk equal to a folder, or that of a copy. Why the folder was not opened,
/// and the calls on it, are handed out. (It is a function of its own, for any system of files, since
/// calls at the program's own take longer to prove.)
fn sync_shelf<Y: System + Drop, D: Disk, W: Write>(
    alloc: Global,
    disk: D,
    shelf: FolderReader<'_, Y>,
    types: &FileTypes,
    task: &SyncTask<'_>,
    log: &mut W,
) -> (Ended<D, bool>, Option<Cause>, CallLog)
    ensures { (then_folder : FolderView) × (then_folder.calls ≡ result.2.all)
        × SyncsBy task.now.dry_run types.now
        (guard_of task.now.rules.allow_empty task.now.rules.keep_most)
        (view Y.calls shelf.entry) then_folder (D.state disk)
        (D.state result.0.disk) (result_unwrap_or result.0.result false)
        (fault_of result.0.result) (W.contents log.old) (W.contents log.new) }
{
    let guard = Guard::of(task.rules.allow_empty, task.rules.keep_most);
    let mut folder = Folder::new(alloc, shelf, types, guard);
    let ended = sync_or_try(alloc, disk, &mut folder, task.dry_run, log);
    let cause = Cause::of_folder(folder.shelf.fault());
    (ended, cause, folder.shelf.into_system().into_calls())
}

/// Opens the disk and makes its carousel equal to the folder, of which all files are read; whether
/// nothing was refused. The lines of the look are written to the log.
pub fn sync_disk<S: System + Drop, D: Disk, L: Write>(
    alloc: Global,
    disk: D,
    folder: &mut Folder<'_, S>,
    log: &mut L,
) -> Ended<D, bool>
    ensures { Syncs folder.old.types.now folder.old.guard
        (view S.calls folder.old.shelf) (view S.calls folder.new.shelf)
        (D.state disk) (D.state result.disk)
        (result_unwrap_or result.result false) (fault_of result.result)
        (L.contents log.old) (L.contents log.new) }
{
    let mut server = match Server::open(alloc, disk) {
        Ok(server) => server,
        Err(refused) => return Ended::unopened(refused),
    };
    // Its sizes are in their ranges. (The line is there for the proof.)
    let _ = server.geometry();
    // Whatever is known of them, the files are read.
    folder.files = KnownFiles::new(alloc);
    let result = look_and_tell(alloc, &mut server, folder, log);
    Ended {
        disk: server.into_disk(),
        result,
        reason: None,
    }
}

/// Looks at the folder once, and writes the lines of the look to the log; whether nothing was
/// refused.
fn look_and_tell<S: System + Drop, D: Disk, L: Write>(
    alloc: Global,
    server: &mut Server<D>,
    folder: &mut Folder<'_, S>,
    log: &mut L,
) -> Result<bool, Refusal>
    ensures keeps { KeepsLength (D.state server.old.disk) (D.state server.new.disk) }
    ensures faults { MatchResult result (λ _. StaysCalm server.old server.new
        (D.state server.old.disk) (D.state server.new.disk)) (λ r. IsFeedFault server.old
        (D.state server.old.disk) (D.state server.new.disk) r) }
    ensures looked { (s : Standing) → Holds server.old.view s (D.state server.old.disk)
        → (D.state server.new.disk).IsHonest
        → GaveSo (view S.calls folder.old.shelf) (view S.calls folder.new.shelf) (λ given.
        LooksAndTells server.old server.new (D.state server.old.disk)
        (D.state server.new.disk) s folder.old.types.now folder.old.guard
        (reader_path folder.old.shelf) given folder.old.files.known.items
        (L.contents log.old) (L.contents log.new) result) }
{
    let looked = look_at_folder(alloc, server, folder);
    let told = write_events(alloc, log, folder.report.events.as_slice());
    looked?;
    told?;
    Ok(!folder.report.any_refused)
}

/// Writes a line for each event to the log.
fn write_events<L: Write>(alloc: Global, log: &mut L, events: &[LookEvent]) -> Result<(), Refusal>
    ensures written { OnOk result (Appends (L.contents log.old) (L.contents log.new)
        (flat_map look_line events.now)) }
    ensures fault { IfErr result (λ r. r ≡ WriteFault) }
{
    let mut line = Vec::new(alloc);
    for event in events {
        write_event(&mut line, log, event)?;
    }
    write_last(log, b"")
}

/// Writes the line of an event to the log.
fn write_event<L: Write>(line: &mut Vec<u8>, log: &mut L, event: &LookEvent) -> Result<(), Refusal>
    ensures written { OnOk result (Appends (L.contents log.old) (L.contents log.new)
        (look_line event.now)) }
    ensures fault { IfErr result (λ r. r ≡ WriteFault) }
{
    line.clear();
    if add_look_line(line, event).is_err() {
        return Err(Refusal::WriteFault);
    }
    write_bytes(log, line.as_slice())
}
