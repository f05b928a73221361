//! What `copy` does.
ghost use Rattle.mot_playout.specs.Attempts.{fault_of};
ghost use Rattle.std.specs.Prelude.{◌≡◌, IfNone, IfSome, IsSome, None, Some, false, true};
ghost use Rattle.disk_model.specs.Disk.{OnlyReads};
ghost use Rattle.disk_store.specs.File.{file_state};
ghost use Rattle.disk_store.specs.Second.{IsLeftOf};
ghost use Rattle.mot_cli.specs.Options.{geometry_over};
ghost use Rattle.mot_copy_command.specs.Command.{ComesToCopy, CopiesFile, CopiesTo, IsRefused};
ghost use Rattle.mot_copy_command.specs.Command.{MakesCopy, OpensOrMakesCopy, OpensTwo};
ghost use Rattle.mot_copy_command.specs.Copying.{Copies, refusal_of};
ghost use Rattle.mot_copy_command.specs.Inner.Views.{CopiesView, OfView};
ghost use Rattle.mot_numbers.specs.Geometry.{IsValid};
ghost use Rattle.mot_numbers.specs.declared.geometry.Geometry.{Geometry as GeometryOf};
ghost use Rattle.mot_numbers.specs.declared.refusal.Refusal.TheVariants.{DeviceFault};
ghost use Rattle.mot_outcome.specs.Outcome.{Finishes};

use crate::records::length_of_bodies;
use crate::{NotCopied, copy};
use disk_model::Disk;
use disk_store::{
    BegunFile, FailedOpening, FileDiskFrom, Second, SecondDisk, Start, WasThere, with_second,
};
use mot_cli::CopyTask;
use mot_devices::use_of;
use mot_endpoints::{Cause, Host, Machine, NewDiskFault};
use mot_journal::Reason;
use mot_numbers::{Geometry, Refusal};
use mot_outcome::{TaskEnd, UsedDisk, clear_unfit, write_number};
use mot_repository::Repository;
use mot_update::Ended;
use std::alloc::Global;
use std::io::Write;

/// What copying came to, with the disk that was copied; that of the copy, if its file was opened or
/// made; and why it was refused, if more is known than the refusal says.
type Copying<S> = (
    Ended<BegunFile<S, WasThere>, ()>,
    Option<SecondDisk<S>>,
    Option<Cause>,
);

/// Copies the disk of a file to that of another, which is opened, or made if it can't be, and removed
/// again if nothing was copied to it. That is not done for sizes that no disk has, or if it is a
/// device in use or a file of another disk. Prints how many bytes the copy has.
pub fn copy_file<S: Start, W: Write, M: Machine<File = S::File> + Drop>(
    host: &mut Host<M>,
    alloc: Global,
    task: &CopyTask<'_>,
    start: S,
    writer: &mut W,
) -> TaskEnd<S, ()>
    ensures ended { Finishes (λ r. r ≡ DeviceFault) (λ ending used.
        CopiesFile task.now.sizes task.now.after ending used
        (W.contents writer.old) (W.contents writer.new))
        result (W.contents writer.old) (W.contents writer.new) }
    ensures files { OpensTwo (fault_of result.result) task.now.disk.now task.now.new.now result.disk
        (M.System.calls host.old.system) (M.System.calls host.new.system) }
{
    let (start, second) = with_second(start);
    let disk = match host.disk(task.disk, start) {
        Ok(disk) => disk,
        Err(unopened) => return TaskEnd::unopened(unopened),
    };
    let (ended, to, cause) = copy_disk(host, alloc, task, disk, second, writer);
    TaskEnd {
        result: ended.result,
        disk: UsedDisk::OfCopy(ended.disk.disk, to),
        cause,
        reason: ended.reason,
    }
}

/// Copies a disk that is open.
fn copy_disk<S: Start, W: Write, M: Machine<File = S::File> + Drop>(
    host: &mut Host<M>,
    alloc: Global,
    task: &CopyTask<'_>,
    disk: BegunFile<S, WasThere>,
    second: Second<S>,
    writer: &mut W,
) -> Copying<S>
    ensures ended { CopiesTo task.now.sizes task.now.after (fault_of result.0.result) result.1
        (W.contents writer.old) (W.contents writer.new)
        (file_state disk.disk) (file_state result.0.disk.disk) }
    ensures files { ComesToCopy (fault_of result.0.result) task.now.new.now result.1
        (M.System.calls host.old.system) (M.System.calls host.new.system) }
{
    let repository = match Repository::open(alloc, disk) {
        Ok(repository) => repository,
        Err(refused) => {
            clear_unfit(host, refused.refusal);
            return uncopied(refused.disk, refused.refusal, None, refused.reason);
        }
    };
    let Some(geometry) = valid_sizes(task, repository.geometry()) else {
        return uncopied(repository.into_disk(), Refusal::BadGeometry, None, None);
    };
    if let Some(found) = use_of(&mut host.system, alloc, task.new) {
        let cause = Some(Cause::NewDisk(NewDiskFault::from(found)));
        return uncopied(repository.into_disk(), Refusal::DeviceFault, cause, None);
    }
    copy_open(host, alloc, repository, &geometry, task, second, writer)
}

/// The sizes of the copy, if a disk has such.
fn valid_sizes(task: &CopyTask<'_>, base: Geometry) -> Option<Geometry>
    ensures some { IfSome result (λ g. (geometry_over base task.now.sizes ≡ Some g) × IsValid g) }
    ensures none { IfNone result ((g : GeometryOf)
        → geometry_over base task.now.sizes ≡ Some g → IsValid g → ⊥) }
{
    let geometry = task.sizes.over(&base)?;
    geometry.is_valid().then_some(geometry)
}

/// The end of a copying for which no other file was opened or made.
fn uncopied<S: Start>(
    from: BegunFile<S, WasThere>,
    refusal: Refusal,
    cause: Option<Cause>,
    reason: Option<Reason>,
) -> Copying<S>
    ensures { result ≡ (record { disk = from; result = Err refusal; reason = reason }, None, cause) }
{
    let ended = Ended {
        disk: from,
        result: Err(refusal),
        reason,
    };
    (ended, None, cause)
}

/// Copies an open disk to that of the file at the path of the task, which is opened or made.
fn copy_open<S: Start, W: Write, M: Machine<File = S::File> + Drop>(
    host: &mut Host<M>,
    alloc: Global,
    mut repository: Repository<BegunFile<S, WasThere>>,
    geometry: &Geometry,
    task: &CopyTask<'_>,
    second: Second<S>,
    writer: &mut W,
) -> Copying<S>
    requires { IsValid geometry.now }
    ensures reads { OnlyReads (file_state repository.disk.disk)
        (file_state result.0.disk.disk) }
    ensures ended { CopiesView repository.view geometry.now task.now.after
        (fault_of result.0.result) result.1 (W.contents writer.old) (W.contents writer.new)
        (file_state repository.disk.disk) (file_state result.0.disk.disk) }
    ensures files { OpensOrMakesCopy (fault_of result.0.result) task.now.new.now result.1
        (M.System.calls host.old.system) (M.System.calls host.new.system) }
{
    match host.disk(task.new, second) {
        Ok(mut to) => {
            let made = tell_copy(alloc, &mut repository, &mut to, geometry, task, writer);
            if is_refused(&made) {
                host.clear_side();
            }
            end_of(repository, to.disk, made, geometry)
        }
        Err(unopened) => copy_to_new(host, alloc, repository, geometry, task, unopened, writer),
    }
}

/// Copies an open disk to that of a new file. If nothing was copied, it is removed.
fn copy_to_new<S: Start, W: Write, M: Machine<File = S::File> + Drop>(
    host: &mut Host<M>,
    alloc: Global,
    mut repository: Repository<BegunFile<S, WasThere>>,
    geometry: &Geometry,
    task: &CopyTask<'_>,
    unopened: FailedOpening<Second<S>>,
    writer: &mut W,
) -> Copying<S>
    requires { IsValid geometry.now }
    ensures reads { OnlyReads (file_state repository.disk.disk)
        (file_state result.0.disk.disk) }
    ensures ended { CopiesView repository.view geometry.now task.now.after
        (fault_of result.0.result) result.1 (W.contents writer.old) (W.contents writer.new)
        (file_state repository.disk.disk) (file_state result.0.disk.disk) }
    ensures files { MakesCopy (fault_of result.0.result) task.now.new.now result.1
        (M.System.calls host.old.system) (M.System.calls host.new.system) }
{
    let mut to = match host.make_disk(task.new, geometry.length(), unopened.start) {
        Ok(to) => to,
        Err(unmade) => {
            let fault = NewDiskFault::Disk(unmade.behind(unopened.fault).fault);
            let cause = Some(Cause::NewDisk(fault));
            return uncopied(repository.into_disk(), Refusal::DeviceFault, cause, None);
        }
    };
    let made = tell_copy(alloc, &mut repository, &mut to, geometry, task, writer);
    if is_refused(&made) {
        host.take_away(task.new);
    }
    end_of(repository, to.disk, made, geometry)
}

/// Whether copying was refused, and not only the telling of it.
fn is_refused(made: &Result<(), Refusal>) -> bool
    ensures refused { result ≡ true → IsRefused (fault_of made.now) }
    ensures copied { result ≡ false → IsRefused (fault_of made.now) → ⊥ }
{
    matches!(made, Err(refusal) if *refusal != Refusal::WriteFault)
}

/// The end of a copying to this disk.
fn end_of<S: Start>(
    repository: Repository<BegunFile<S, WasThere>>,
    to: FileDiskFrom<Second<S>>,
    made: Result<(), Refusal>,
    geometry: &Geometry,
) -> Copying<S>
    ensures from { result.0.disk ≡ repository.disk }
    ensures to { IfSome result.1 (λ second. IsLeftOf second to) }
    ensures some { IsSome result.1 }
    ensures made { result.0.result ≡ made }
{
    let cause = cause_of(&made, &repository, geometry);
    let unmade = made.err();
    let reason = unmade.and_then(|refusal| Reason::of_formatting(refusal, to.len(), geometry));
    let ended = Ended {
        disk: repository.into_disk(),
        result: made,
        reason,
    };
    (ended, Some(SecondDisk::of(to)), cause)
}

/// Why a copy has no room, with both numbers.
fn cause_of<D: Disk>(
    made: &Result<(), Refusal>,
    repository: &Repository<D>,
    geometry: &Geometry,
) -> Option<Cause> {
    let fault = match made {
        Err(Refusal::TooManyObjects) => NewDiskFault::Objects {
            count: repository.body_count(),
            most: geometry.objects,
        },
        Err(Refusal::NoRoom) => NewDiskFault::Bodies {
            length: length_of_bodies(&repository.carousel().objects),
            room: geometry.area,
        },
        _ => return None,
    };
    Some(Cause::NewDisk(fault))
}

/// Makes the copy, and prints how many bytes it has.
fn tell_copy<D: Disk, E: Disk, W: Write>(
    alloc: Global,
    repository: &mut Repository<D>,
    to: &mut E,
    geometry: &Geometry,
    task: &CopyTask<'_>,
    writer: &mut W,
) -> Result<(), Refusal>
    ensures reads { OnlyReads (D.state repository.old.disk) (D.state repository.new.disk) }
    ensures copies { Copies (OfView repository.old.view (D.state repository.old.disk)
        (D.state repository.new.disk)) (D.state repository.old.disk).failures
        (D.state repository.new.disk).failures geometry.now task.now.after (fault_of result)
        (W.contents writer.old) (W.contents writer.new) (E.state to.old) (E.state to.new) }
{
    match copy(alloc, repository, to, geometry, task.after) {
        Ok(()) => write_number(writer, b"copied ", geometry.length()),
        Err(why) => Err(refusal_of(why)),
    }
}

/// The refusal of a copy that was not made.
fn refusal_of(why: NotCopied) -> Refusal
    ensures { result ≡ refusal_of why }
{
    match why {
        NotCopied::Refused(refusal) => refusal,
        NotCopied::Unreadable => Refusal::DeviceFault,
    }
}
