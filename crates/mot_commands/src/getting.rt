//! What `get` does.
ghost use Rattle.mot_playout.specs.Attempts.{fault_of};
ghost use Rattle.std.specs.Prelude.{◌≡◌, ◌⊎◌, ◌<◌, IfErr, IfOk, vec_len};
ghost use Rattle.disk_model.specs.Disk.{OnlyReads, Rises};
ghost use Rattle.mot_numbers.specs.declared.refusal.Refusal.TheVariants.{DeviceFault, OutOfMemory};
ghost use Rattle.mot_journal.specs.Image.{Standing};
ghost use Rattle.mot_objects.specs.Name.{IsName};
ghost use Rattle.mot_commands.specs.Asking.{IsUnnamed};
ghost use Rattle.mot_commands.specs.Report.{Gets};
ghost use Rattle.mot_commands.specs.Inner.Got.{MissesBody, ReadsBody};
ghost use Rattle.mot_repository.specs.Repository.{HasStanding, object_body};

use crate::working::ended_with;
use disk_model::Disk;
use mot_numbers::Refusal;
use mot_objects::Name;
use mot_outcome::write_last;
use mot_repository::Repository;
use mot_update::Ended;
use std::alloc::Global;
use std::io::Write;

/// Prints the body of the object of this name. The disk is only synced and read.
pub(crate) fn get_body<D: Disk, W: Write>(
    alloc: Global,
    disk: D,
    name: &str,
    writer: &mut W,
) -> Ended<D, ()>
    ensures { Gets name.now (fault_of result.result) (W.contents writer.old) (W.contents writer.new)
        (D.state disk) (D.state result.disk) }
{
    let mut repository = match Repository::open(alloc, disk) {
        Ok(repository) => repository,
        Err(refused) => return Ended::unopened(refused),
    };
    match read_named(alloc, &mut repository, name) {
        Ok(body) => ended_with(repository.into_disk(), write_last(writer, &body)),
        Err(refusal) => ended_with(repository.into_disk(), Err(refusal)),
    }
}

/// The body of the object of this name.
fn read_named<D: Disk>(
    alloc: Global,
    repository: &mut Repository<D>,
    name: &str,
) -> Result<Vec<u8>, Refusal>
    ensures only_reads { OnlyReads (D.state repository.old.disk) (D.state repository.new.disk) }
    ensures body { IfOk result (λ body. ReadsBody repository.old.view
        (D.state repository.old.disk) (D.state repository.new.disk) name.now body.items) }
    ensures why { IfErr result (MissesBody repository.old.view
        (D.state repository.old.disk).failures (D.state repository.new.disk).failures name.now) }
{
    let name = name_of(alloc, name.as_bytes())?;
    match repository.carousel().place_of(&name) {
        Some(place) => read_whole(alloc, repository, place),
        None => Err(Refusal::NoSuchName),
    }
}

/// A name of these bytes.
pub(crate) fn name_of(alloc: Global, bytes: &[u8]) -> Result<Name, Refusal>
    ensures named { IfOk result (λ name. (name ≡ bytes.now) × IsName bytes.now) }
    ensures why { IfErr result (IsUnnamed bytes.now) }
{
    Name::new(Vec::from_slice(alloc, bytes)?)
}

/// The body of the object at this place.
fn read_whole<D: Disk>(
    alloc: Global,
    repository: &mut Repository<D>,
    place: usize,
) -> Result<Vec<u8>, Refusal>
    requires { place < vec_len repository.old.view.carousel.objects }
    ensures only_reads { OnlyReads (D.state repository.old.disk) (D.state repository.new.disk) }
    ensures body { IfOk result (λ body. (s : Standing)
        → HasStanding repository.old.view s (D.state repository.old.disk)
        → (D.state repository.new.disk).IsHonest
        → body.items ≡ object_body s.carousel.objects place) }
    ensures why { IfErr result (λ refusal. (refusal ≡ OutOfMemory)
        ⊎ ((refusal ≡ DeviceFault)
        × Rises (D.state repository.old.disk).failures (D.state repository.new.disk).failures)) }
{
    let bodies = repository.body_count();
    prove!(place < bodies);
    let length = repository.body_length(place) as usize;
    let mut body = Vec::from_elem(alloc, 0u8, length)?;
    repository.read_body(place, 0, &mut body)?;
    Ok(body)
}
