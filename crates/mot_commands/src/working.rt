//! What is done with the disk of a file that was there.
ghost use Rattle.std.specs.Prelude.{◌≡◌, [], None};
ghost use Rattle.std.specs.Io.KnownBytes.{Keeps};
ghost use Rattle.disk_model.specs.Disk.{KeepsLength};
ghost use Rattle.mot_commands.specs.Commands.{Does, DoesOnFile, only_looks};
ghost use Rattle.mot_numbers.specs.declared.refusal.Refusal.TheVariants.{DeviceFault};
ghost use Rattle.mot_outcome.specs.Outcome.{Finishes, OpensOrReads};
ghost use Rattle.mot_outcome.specs.declared.used.TaskCalls.{TaskCalls};
ghost use Rattle.mot_outcome.specs.declared.used.UsedDisk.TheVariants.{OfFile};
ghost use Rattle.mot_playout.specs.Attempts.{fault_of};

use crate::checking::check_disk;
use crate::getting::get_body;
use crate::listing::list_disk;
use crate::migrating::migrate_disk;
use crate::serving::serve_disk;
use disk_model::Disk;
use disk_store::{BegunFile, Start, WasThere};
use mot_cli::DiskTask;
use mot_endpoints::{Host, Machine, copy_unopened};
use mot_export::{export_disk, inspect_disk};
use mot_numbers::Refusal;
use mot_outcome::{TaskCalls, TaskEnd, clear_after};
use mot_update::Ended;
use std::alloc::Global;
use std::io::{Read, Write};

/// Does what is asked with the disk of the file at the path; answers what ended it before its end.
/// Lines are read to serve them alone. Work that only looks is done with a copy in memory, if another
/// program has the disk or it can't be written.
pub fn work_on_file<S: Start, R: Read, W: Write, M: Machine<File = S::File> + Drop>(
    host: &mut Host<M>,
    alloc: Global,
    path: &str,
    work: &DiskTask<'_>,
    start: S,
    reader: &mut R,
    writer: &mut W,
) -> TaskEnd<S, ()>
    ensures ended { Finishes
        (λ r. (r ≡ DeviceFault) × Keeps (R.remaining reader.old) (R.remaining reader.new))
        (λ ending used. DoesOnFile work.now ending used
        (R.remaining reader.old) (R.remaining reader.new)
        (W.contents writer.old) (W.contents writer.new))
        result (W.contents writer.old) (W.contents writer.new) }
    ensures files { OpensOrReads (only_looks work.now) [] path.now (fault_of result.result)
        result.disk (M.System.calls host.old.system) (M.System.calls host.new.system) }
{
    let unopened = match host.disk(path, start) {
        Ok(disk) => {
            let ended = work_on(alloc, disk, work, reader, writer);
            return finish(host, ended);
        }
        Err(unopened) => unopened,
    };
    let (system, looks) = (&mut host.system, only_looks(work));
    match copy_unopened(system, alloc, path, unopened.fault, looks) {
        Some(copy) => {
            let ended = work_on(alloc, copy, work, reader, writer);
            TaskEnd::in_memory(ended, None, unopened.start)
        }
        None => TaskEnd::unopened(unopened),
    }
}

/// Whether it changes nothing on a disk.
fn only_looks(work: &DiskTask<'_>) -> bool
    ensures { result ≡ only_looks work.now }
{
    !matches!(work, DiskTask::Serve | DiskTask::Migrate)
}

/// Does what is asked with a disk that it opens.
fn work_on<D: Disk, R: Read, W: Write>(
    alloc: Global,
    disk: D,
    work: &DiskTask<'_>,
    reader: &mut R,
    writer: &mut W,
) -> Ended<D, ()>
    ensures keeps { KeepsLength (D.state disk) (D.state result.disk) }
    ensures does { Does D.state result.disk work.now (fault_of result.result)
        (R.remaining reader.old) (R.remaining reader.new)
        (W.contents writer.old) (W.contents writer.new) (D.state disk) }
{
    match work {
        DiskTask::Serve => serve_disk(alloc, disk, reader, writer),
        DiskTask::Check(form) => check_disk(alloc, disk, *form, writer),
        DiskTask::Migrate => migrate_disk(alloc, disk, writer),
        DiskTask::ListObjects(form) => list_disk(alloc, disk, *form, writer),
        DiskTask::GetBody(name) => get_body(alloc, disk, name, writer),
        DiskTask::Export => export_disk(alloc, disk, writer),
        DiskTask::Inspect(rate, form) => inspect_disk(alloc, disk, *rate, *form, writer),
    }
}

/// A command ended so on this disk, and no more is known of it.
pub(crate) fn ended_with<D: Disk, T>(disk: D, came: Result<T, Refusal>) -> Ended<D, T>
    ensures { result ≡ record { disk = disk; result = came; reason = None } }
{
    Ended {
        disk,
        result: came,
        reason: None,
    }
}

/// A task ended on this disk, beside which nothing was done. What the opening has made beside its
/// file is taken away if that is no disk, or not one for what was asked.
pub(crate) fn finish<S: Start, T, M: Machine<File = S::File> + Drop>(
    host: &mut Host<M>,
    ended: Ended<BegunFile<S, WasThere>, T>,
) -> TaskEnd<S, T>
    ensures ended { (beside : TaskCalls) × (result ≡ record {
      result = ended.result;
      disk = OfFile ended.disk.disk beside;
      cause = None;
      reason = ended.reason;
    }) }
    ensures calls { host.new.system ≡ host.old.system }
{
    clear_after(host, &ended.result);
    TaskEnd::of_file(ended, TaskCalls::nothing(), None)
}
