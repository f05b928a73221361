//! The commands on air, over any streams.
ghost use Rattle.std.specs.Prelude.{◌≡◌, option_map};
ghost use Rattle.mot_air.specs.Commands.{IsUnplayed};
ghost use Rattle.mot_outcome.specs.Outcome.{Concludes};
ghost use Rattle.mot_air.specs.Commands.{PlaysTask, needs_of, objects_at};
ghost use Rattle.mot_feed.specs.declared.manner.Manner.{Manner};
ghost use Rattle.mot_folder.specs.Guard.{guard_of};
ghost use Rattle.mot_air.specs.Telling.{folder_in, watch_in, watched};
ghost use Rattle.mot_endpoints.specs.Opened.{AreMet, Need, if_given};
ghost use Rattle.mot_outcome.specs.Outcome.{Opens};
ghost use Rattle.mot_shelf.specs.Reader.{reader_path};
ghost use Rattle.mot_playout.specs.Attempts.{fault_of};

use crate::on_air::{Airing, play_file};
use crate::playing::FollowedFolder;
use disk_model::Disk;
use disk_store::Start;
use mot_cli::{LookRules, PlayTask};
use mot_endpoints::{Host, Machine, OtherFiles, StatusFile, file_types, line_folder};
use mot_folder::{FileTypes, Guard};
use mot_outcome::TaskEnd;
use std::alloc::Global;
use std::io::Write;

/// Plays a disk, with looks at the folder of objects and answers to the lines of the other, if they
/// are given, for files of the known suffixes and of those that a file adds.
pub fn play<'a, B: Start, W: Write, E: Write, M: Machine<File = B::File> + Drop>(
    host: &mut Host<M>,
    alloc: Global,
    task: PlayTask<'a>,
    start: B,
    writer: &mut W,
    errors: &mut E,
) -> TaskEnd<B, bool>
    ensures ended { Concludes (IsUnplayed task.entry) (λ all ending. PlaysTask task.entry all ending
        result.disk (W.contents writer.old) (W.contents writer.new))
        result.result result.disk (W.contents writer.old) (W.contents writer.new) }
    ensures opens { Opens (needs_of task.entry) task.entry.disk.now
        (fault_of result.result) result.disk (M.System.calls host.old.system) (M.System.calls host.new.system) }
{
    let PlayTask { disk, packets, .. } = task;
    let types = match file_types(host, alloc, task.types) {
        Ok(types) => types,
        Err(unbegun) => return TaskEnd::unbegun(unbegun.refusal, unbegun.cause, start),
    };
    let others = OtherFiles {
        objects: task.folder,
        disk,
        packets,
        types: task.types,
    };
    let lines = match line_folder(host, alloc, task.lines, task.every, others) {
        Ok(lines) => lines,
        Err(unbegun) => return TaskEnd::unbegun(unbegun.refusal, unbegun.cause, start),
    };
    let folder = followed(host, task.folder, &types, task.rules);
    let status = status_file(host, task.status, disk);
    let airing = Airing {
        task,
        folder,
        lines,
        status,
    };
    play_file(host, alloc, airing, start, writer, errors)
}

/// The folder, if one is given, with what is known of suffixes.
fn followed<'a: 't, 't, M: Machine + Drop>(
    host: &mut Host<M>,
    folder: Option<&'a str>,
    types: &'t FileTypes,
    rules: LookRules,
) -> Option<FollowedFolder<'t, M::System>>
    ensures given { (how : Manner) → watched result (λ followed. watch_in how
        (reader_path followed.shelf) followed.types.now followed.guard)
        ≡ watched folder.entry (λ path. watch_in how path.now types.now
        (guard_of rules.allow_empty rules.keep_most)) }
    ensures folder { folder_in M.System.calls result ≡ objects_at folder.entry rules.at_once }
    ensures opens { AreMet (if_given Need.folder folder.entry) (M.System.calls host.old.system)
        (M.System.calls host.new.system) }
{
    Some(FollowedFolder {
        shelf: host.folder(folder?, rules.at_once),
        types,
        guard: Guard::of(rules.allow_empty, rules.keep_most),
    })
}

/// The file that the status is written to, if one is given.
fn status_file<'a, M: Machine + Drop>(
    host: &mut Host<M>,
    path: Option<&'a str>,
    disk: &'a str,
) -> Option<StatusFile<'a, M::System>>
    ensures path { option_map (λ status. status.path.now) result
        ≡ option_map (λ path. path.now) path.entry }
    ensures opens { AreMet (if_given Need.status path.entry) (M.System.calls host.old.system)
        (M.System.calls host.new.system) }
{
    Some(host.status(path?, disk))
}
