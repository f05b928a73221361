//! What `memory` and `serve` do.
ghost use Rattle.mot_playout.specs.Attempts.{fault_of};
ghost use Rattle.std.specs.Prelude.{◌≡◌};
ghost use Rattle.std.specs.Io.KnownBytes.{Keeps};
ghost use Rattle.disk_model.specs.Disk.{KeepsLength};
ghost use Rattle.mot_commands.specs.Commands.{IsUnmade, ServesMemory};
ghost use Rattle.mot_outcome.specs.Outcome.{Finishes};
ghost use Rattle.mot_commands.specs.Serving.{Serves};

use crate::working::ended_with;
use disk_model::Disk;
use disk_store::{RamDisk, Start};
use mot_journal::format;
use mot_numbers::{Geometry, Refusal};
use mot_outcome::TaskEnd;
use mot_playout::Server;
use mot_session::{MAX_READS, serve};
use mot_update::Ended;
use std::alloc::Global;
use std::io::{Read, Write};

/// Serves the reader's lines from a new disk in memory; answers what ended it before the input's
/// end.
pub fn serve_memory<S: Start, R: Read, W: Write>(
    alloc: Global,
    geometry: Geometry,
    start: S,
    reader: &mut R,
    writer: &mut W,
) -> TaskEnd<S, ()>
    ensures { Finishes
        (λ r. IsUnmade geometry r × Keeps (R.remaining reader.old) (R.remaining reader.new))
        (λ ending used. ServesMemory geometry ending used
        (R.remaining reader.old) (R.remaining reader.new)
        (W.contents writer.old) (W.contents writer.new))
        result (W.contents writer.old) (W.contents writer.new) }
{
    if !geometry.is_valid() {
        return TaskEnd::unbegun(Refusal::BadGeometry, None, start);
    }
    let Some(mut disk) = RamDisk::new(alloc, geometry.length()) else {
        return TaskEnd::unbegun(Refusal::OutOfMemory, None, start);
    };
    // A disk of zeros that is long enough fails for nothing else.
    let Ok(()) = format(&mut disk, &geometry) else {
        return TaskEnd::unbegun(Refusal::OutOfMemory, None, start);
    };
    TaskEnd::in_memory(serve_disk(alloc, disk, reader, writer), None, start)
}

/// Serves the reader's lines from a disk that it opens.
pub(crate) fn serve_disk<R: Read, W: Write, D: Disk>(
    alloc: Global,
    disk: D,
    reader: &mut R,
    writer: &mut W,
) -> Ended<D, ()>
    ensures keeps { KeepsLength (D.state disk) (D.state result.disk) }
    ensures ended { Serves D.state result.disk (fault_of result.result)
        (R.remaining reader.old) (R.remaining reader.new)
        (W.contents writer.old) (W.contents writer.new) (D.state disk) }
{
    let mut server = match Server::open(alloc, disk) {
        Ok(server) => server,
        Err(refused) => return Ended::unopened(refused),
    };
    let fault = serve(alloc, reader, writer, &mut server, MAX_READS).fault;
    ended_with(server.into_disk(), result_of(fault))
}

/// What serving came to, that this fault ended, or the input's end.
fn result_of(fault: Option<Refusal>) -> Result<(), Refusal>
    ensures { fault_of result ≡ fault }
{
    match fault {
        None => Ok(()),
        Some(refusal) => Err(refusal),
    }
}
