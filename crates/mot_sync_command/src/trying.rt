//! What `sync` does to the disk itself, or would do, tried on a copy of it.
ghost use Rattle.std.specs.Prelude.{false};
ghost use Rattle.std.specs.Result.{result_unwrap_or};
ghost use Rattle.mot_sync_command.specs.Syncing.{SyncsBy, Tries};
ghost use Rattle.mot_playout.specs.Attempts.{fault_of};
ghost use Rattle.mot_shelf.specs.Reader.{view};

use crate::copying::copy_disk;
use crate::syncing::sync_disk;
use disk_model::Disk;
use mot_files::System;
use mot_folder::Folder;
use mot_update::Ended;
use std::alloc::Global;
use std::io::Write;

/// Makes the carousel of the disk equal to the folder, or in a dry run that of a copy of it.
pub(crate) fn sync_or_try<S: System + Drop, D: Disk, L: Write>(
    alloc: Global,
    disk: D,
    folder: &mut Folder<'_, S>,
    dry_run: bool,
    log: &mut L,
) -> Ended<D, bool>
    ensures { SyncsBy dry_run folder.old.types.now folder.old.guard
        (view S.calls folder.old.shelf) (view S.calls folder.new.shelf)
        (D.state disk) (D.state result.disk)
        (result_unwrap_or result.result false) (fault_of result.result)
        (L.contents log.old) (L.contents log.new) }
{
    if dry_run {
        try_disk(alloc, disk, folder, log)
    } else {
        sync_disk(alloc, disk, folder, log)
    }
}

/// Makes the carousel of a copy of the disk equal to the folder, as `sync_disk` does. The disk itself
/// is only synced and read.
fn try_disk<S: System + Drop, D: Disk, L: Write>(
    alloc: Global,
    disk: D,
    folder: &mut Folder<'_, S>,
    log: &mut L,
) -> Ended<D, bool>
    ensures { Tries folder.old.types.now folder.old.guard
        (view S.calls folder.old.shelf) (view S.calls folder.new.shelf)
        (D.state disk) (D.state result.disk)
        (result_unwrap_or result.result false) (fault_of result.result)
        (L.contents log.old) (L.contents log.new) }
{
    let (disk, copy) = match copy_disk(alloc, disk) {
        Ok(both) => both,
        Err(ended) => return ended,
    };
    let tried = sync_disk(alloc, copy, folder, log);
    let Ended { result, .. } = tried;
    Ended {
        disk,
        result,
        reason: None,
    }
}
