//! Whether a body on the disk has these bytes.
ghost use Rattle.std.specs.Prelude.{◌≡◌, ◌<◌, ◌↔◌, length, IfOk, IfErr, IsTrue, OnErr, OnOk};
ghost use Rattle.disk_model.specs.Disk.{OnlyReads, Rises};
ghost use Rattle.mot_journal.specs.Image.{Standing};
ghost use Rattle.mot_numbers.specs.declared.refusal.Refusal.TheVariants.{DeviceFault};
ghost use Rattle.mot_repository.specs.OnDisk.{extent_at};
ghost use Rattle.mot_repository.specs.Repository.{Holds, object_body};

use disk_model::Disk;
use mot_numbers::Refusal;
use mot_repository::Repository;

/// The most bytes of a body that are compared at once.
const PIECE: usize = 4_096;

/// Whether the body of the object at this place has these bytes. The only refusal is `DeviceFault`.
pub(crate) fn is_body<D: Disk>(
    repository: &mut Repository<D>,
    place: usize,
    bytes: &[u8],
) -> Result<bool, Refusal>
    requires { place < length repository.old.view.extents }
    ensures only_reads { OnlyReads (D.state repository.old.disk) (D.state repository.new.disk) }
    ensures view { repository.new.view ≡ repository.old.view }
    ensures fault { IfErr result (λ refusal. refusal ≡ DeviceFault) }
    ensures rises { OnErr result (Rises (D.state repository.old.disk).failures
        (D.state repository.new.disk).failures) }
    ensures calm { OnOk result ((D.state repository.new.disk).failures
        ≡ (D.state repository.old.disk).failures) }
    ensures exact { (s : Standing) → Holds repository.old.view s (D.state repository.old.disk)
        → (D.state repository.new.disk).IsHonest → IfOk result
        (λ same. IsTrue same ↔ (object_body s.carousel.objects place ≡ bytes.now)) }
{
    // There is a body for each object. The line is there for the proof, and does nothing when it
    // runs.
    let _ = repository.body_count();
    if repository.body_length(place) as usize != bytes.len() {
        return Ok(false);
    }
    let mut piece = [0u8; PIECE];
    let mut from = 0;
    while from < bytes.len() {
        let count = PIECE.min(bytes.len() - from);
        let read = &mut piece[..count];
        repository.read_body(place, from, read)?;
        let wanted = &bytes[from..from + count];
        if *read != *wanted {
            return Ok(false);
        }
        from += count;
    }
    Ok(true)
}
