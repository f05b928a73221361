//! What `format` does.
ghost use Rattle.mot_playout.specs.Attempts.{fault_of};
ghost use Rattle.std.specs.Prelude.{◌≡◌, ◌≢◌, Some, false, true};
ghost use Rattle.mot_numbers.specs.Geometry.{IsValid};
ghost use Rattle.mot_numbers.specs.declared.refusal.Refusal.TheVariants.{DeviceFault};
ghost use Rattle.mot_commands.specs.Commands.{FormatsFile, FormatsFree, IsUnformatted};
ghost use Rattle.mot_outcome.specs.Outcome.{Finishes};
ghost use Rattle.mot_commands.specs.Commands.{MakesFile};
ghost use Rattle.mot_commands.specs.Report.{Formats};

use crate::working::{ended_with, finish};
use disk_model::Disk;
use disk_store::{FailedOpening, Start};
use mot_devices::use_of;
use mot_endpoints::{Cause, Host, Machine};
use mot_journal::{Reason, format_from};
use mot_numbers::{Geometry, Refusal, TransportId};
use mot_outcome::{TaskCalls, TaskEnd, write_number};
use mot_update::Ended;
use std::alloc::Global;
use std::io::Write;

/// Makes a disk of the file at the path. The file is made if it can't be opened, and removed again
/// if the disk could not be made of it. No file is touched for a geometry out of range, or if the
/// path names a device in use or a file of another disk.
pub fn format_file<S: Start, W: Write, M: Machine<File = S::File> + Drop>(
    host: &mut Host<M>,
    alloc: Global,
    path: &str,
    start: S,
    geometry: Geometry,
    directory: TransportId,
    writer: &mut W,
) -> TaskEnd<S, ()>
    ensures ended { Finishes (IsUnformatted geometry) (λ ending used.
        FormatsFile geometry directory ending used (W.contents writer.old) (W.contents writer.new))
        result (W.contents writer.old) (W.contents writer.new) }
    ensures files { FormatsFree (fault_of result.result) path.now result.disk
        (M.System.calls host.old.system) (M.System.calls host.new.system) }
{
    if !geometry.is_valid() {
        return TaskEnd::unbegun(Refusal::BadGeometry, None, start);
    }
    if let Some(found) = use_of(&mut host.system, alloc, path) {
        return TaskEnd::unbegun(Refusal::DeviceFault, Some(Cause::from(found)), start);
    }
    match host.disk(path, start) {
        Ok(mut disk) => {
            let result = format_disk(&mut disk, &geometry, directory, writer);
            let ended = Ended {
                reason: reason_of(&result, &disk, &geometry),
                disk,
                result,
            };
            finish(host, ended)
        }
        Err(unopened) => format_new_file(host, path, unopened, geometry, directory, writer),
    }
}

/// Makes a new file, and a disk of it. If it can't be formatted, it is removed again.
fn format_new_file<S: Start, W: Write, M: Machine<File = S::File> + Drop>(
    host: &mut Host<M>,
    path: &str,
    unopened: FailedOpening<S>,
    geometry: Geometry,
    directory: TransportId,
    writer: &mut W,
) -> TaskEnd<S, ()>
    requires { IsValid geometry }
    ensures ended { Finishes (IsUnformatted geometry) (λ ending used.
        FormatsFile geometry directory ending used (W.contents writer.old) (W.contents writer.new))
        result (W.contents writer.old) (W.contents writer.new) }
    ensures files { MakesFile (fault_of result.result) path.now result.disk
        (M.System.calls host.old.system) (M.System.calls host.new.system) }
{
    let mut disk = match host.make_disk(path, geometry.length(), unopened.start) {
        Ok(disk) => disk,
        Err(unmade) => return TaskEnd::unopened(unmade.behind(unopened.fault)),
    };
    let result = format_disk(&mut disk, &geometry, directory, writer);
    if is_unformatted(&result) {
        host.take_away(path);
    }
    TaskEnd::of_file(ended_with(disk, result), TaskCalls::nothing(), None)
}

/// Why a disk that was there was not formatted.
fn reason_of<D: Disk>(made: &Result<(), Refusal>, disk: &D, geometry: &Geometry) -> Option<Reason> {
    match made {
        Ok(()) => None,
        Err(refusal) => Reason::of_formatting(*refusal, disk.len(), geometry),
    }
}

/// Whether formatting failed, and not only the telling of it: a file that was made here is long
/// enough, and has no magic, so that nothing but a disk fault is in its way.
fn is_unformatted(made: &Result<(), Refusal>) -> bool
    ensures failed { result ≡ true → fault_of made.now ≡ Some DeviceFault }
    ensures done { result ≡ false → fault_of made.now ≢ Some DeviceFault }
{
    matches!(made, Err(Refusal::DeviceFault))
}

/// Makes a disk, and prints how many bytes it has.
pub(crate) fn format_disk<D: Disk, W: Write>(
    disk: &mut D,
    geometry: &Geometry,
    directory: TransportId,
    writer: &mut W,
) -> Result<(), Refusal>
    ensures { Formats geometry.now directory (fault_of result)
        (W.contents writer.old) (W.contents writer.new) (D.state disk.old) (D.state disk.new) }
{
    format_from(disk, geometry, directory)?;
    write_number(writer, b"formatted ", geometry.length())
}
