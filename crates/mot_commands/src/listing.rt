//! What `list` does.
ghost use Rattle.mot_playout.specs.Attempts.{fault_of};
ghost use Rattle.mot_commands.specs.Report.{Lists};

use crate::shown::text_in;
use crate::working::ended_with;
use disk_model::Disk;
use mot_cli::Form;
use mot_outcome::print_text;
use mot_repository::Repository;
use mot_update::Ended;
use std::alloc::Global;
use std::io::Write;

/// Prints the objects of a disk. Nothing on it changes, but that it is synced.
pub(crate) fn list_disk<D: Disk, W: Write>(
    alloc: Global,
    disk: D,
    form: Form,
    writer: &mut W,
) -> Ended<D, ()>
    ensures { Lists form (fault_of result.result) (W.contents writer.old) (W.contents writer.new)
        (D.state disk) (D.state result.disk) }
{
    let repository = match Repository::open(alloc, disk) {
        Ok(repository) => repository,
        Err(refused) => return Ended::unopened(refused),
    };
    let result = print_text(writer, text_in(alloc, repository.carousel(), form));
    ended_with(repository.into_disk(), result)
}
