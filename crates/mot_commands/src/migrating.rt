//! What `migrate` does.
ghost use Rattle.mot_playout.specs.Attempts.{fault_of};
ghost use Rattle.std.specs.Prelude.{◌≡◌};
ghost use Rattle.mot_commands.specs.Report.{Migrates, migrated_line};

use crate::working::ended_with;
use disk_model::Disk;
use mot_outcome::write_last;
use mot_repository::Repository;
use mot_update::Ended;
use std::alloc::Global;
use std::io::Write;

/// Rewrites a disk of layout 1 into layout 2, and prints whether there was anything to do. What it
/// stands for stays.
pub(crate) fn migrate_disk<D: Disk, W: Write>(
    alloc: Global,
    disk: D,
    writer: &mut W,
) -> Ended<D, ()>
    ensures { Migrates (fault_of result.result) (W.contents writer.old) (W.contents writer.new)
        (D.state disk) (D.state result.disk) }
{
    let mut repository = match Repository::open(alloc, disk) {
        Ok(repository) => repository,
        Err(refused) => return Ended::unopened(refused),
    };
    match repository.migrate(alloc) {
        Ok(is_rewritten) => {
            let result = write_last(writer, migrated_text(is_rewritten));
            ended_with(repository.into_disk(), result)
        }
        Err(refusal) => ended_with(repository.into_disk(), Err(refusal)),
    }
}

/// Whether a disk was rewritten, as a line.
fn migrated_text(is_rewritten: bool) -> &'static [u8]
    ensures { result.now ≡ migrated_line is_rewritten }
{
    if is_rewritten {
        b"migrated\n"
    } else {
        b"already layout 2\n"
    }
}
