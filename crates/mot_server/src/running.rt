//! Each command, by its task.
ghost use Rattle.std.specs.Prelude.{◌≡◌};
ghost use Rattle.mot_outcome.specs.Outcome.{status_in};
ghost use Rattle.mot_playout.specs.Attempts.{fault_of};
ghost use Rattle.mot_server.specs.Inner.{ComesOut, whole_result};
ghost use Rattle.mot_server.specs.Program.{UsesFor};

use disk_store::Start;
use mot_air::play;
use mot_cli::Task;
use mot_commands::{format_file, put, serve_memory, tell_health, withdraw_file, work_on_file};
use mot_copy_command::copy_file;
use mot_endpoints::{Host, Machine};
use mot_outcome::TaskEnd;
use mot_sync_command::sync;
use std::alloc::Global;
use std::io::{Read, Write};

/// Does a task. Its result tells whether all of it is done, or files of a folder were refused.
pub(crate) fn execute<'a, B: Start, R: Read, W: Write, E: Write, M: Machine<File = B::File> + Drop>(
    host: &mut Host<M>,
    alloc: Global,
    task: &Task<'_, 'a>,
    start: B,
    reader: &mut R,
    writer: &mut W,
    errors: &mut E,
) -> TaskEnd<B, bool>
    ensures ended { ComesOut task.now result.result result.disk
        (R.remaining reader.old) (R.remaining reader.new)
        (W.contents writer.old) (W.contents writer.new) }
    ensures files { UsesFor (status_in result.result) (fault_of result.result) task.now result.disk
        (M.System.calls host.old.system) (M.System.calls host.new.system) }
{
    match task {
        Task::Memory(geometry) => whole(serve_memory(alloc, *geometry, start, reader, writer)),
        Task::Format {
            path,
            geometry,
            directory,
        } => whole(format_file(host, alloc, path, start, *geometry, *directory, writer)),
        Task::Copy(copied) => whole(copy_file(host, alloc, copied, start, writer)),
        Task::Play(played) => play(host, alloc, *played, start, writer, errors),
        Task::Sync(synced) => sync(host, alloc, synced, start, writer),
        Task::Health(asked) => tell_health(host, alloc, asked, start, writer),
        Task::PutFiles { disk, files, types } => put(
            host, alloc, disk, files, *types, start, writer, errors,
        ),
        Task::WithdrawNames { disk, names } => {
            withdraw_file(host, alloc, disk, names, start, writer, errors)
        }
        Task::OnDisk { disk, work } => {
            whole(work_on_file(host, alloc, disk, work, start, reader, writer))
        }
    }
}

/// What a task came to that, if no refusal ended it, is done whole.
fn whole<B: Start>(finished: TaskEnd<B, ()>) -> TaskEnd<B, bool>
    ensures { result ≡ record {
      result = whole_result finished.result;
      disk = finished.disk;
      cause = finished.cause;
      reason = finished.reason;
    } }
{
    TaskEnd {
        result: match finished.result {
            Ok(()) => Ok(true),
            Err(refusal) => Err(refusal),
        },
        disk: finished.disk,
        cause: finished.cause,
        reason: finished.reason,
    }
}
