//! A carousel as the lines that rebuild it.
ghost use Rattle.std.specs.Prelude.{◌≡◌, ◌≤◌, ◌<◌, Some, length, vec_len, IfErr, OnOk, slice_get};
ghost use Rattle.disk_model.specs.Disk.{OnlyReads};
ghost use Rattle.hex.specs.Hex.{encode_lower};
ghost use Rattle.mot_journal.specs.Image.{Standing};
ghost use Rattle.mot_lines.specs.Export.{export_text, put_line};
ghost use Rattle.mot_objects.specs.Carousel as whole;
ghost use Rattle.mot_export.specs.Exporting.{Exports};
ghost use Rattle.mot_export.specs.Inner.Inspected.{IsPrintingFault};
ghost use Rattle.mot_repository.specs.Repository.{HasStanding, object_body};
ghost use Rattle.mot_outcome.specs.Outcome.{Prints};
ghost use Rattle.mot_playout.specs.Attempts.{fault_of};
ghost use Rattle.mot_session.specs.Served.{Writes};

use disk_model::Disk;
use mot_lines::{period_text, put_text};
use mot_numbers::Refusal;
use mot_outcome::{write_bytes, write_last};
use mot_repository::Repository;
use mot_update::Ended;
use std::alloc::Global;
use std::io::Write;

/// The most bytes of a body that are read at once.
const PIECE: usize = 4_096;

/// Opens the disk and writes its carousel as lines: a `put` line for each object, in order, and the
/// `period` line if the period is not 0. If it is refused in the middle, it has written a beginning
/// of them.
pub fn export_disk<D: Disk, W: Write>(alloc: Global, disk: D, writer: &mut W) -> Ended<D, ()>
    ensures { Exports (fault_of result.result) (W.contents writer.old) (W.contents writer.new)
        (D.state disk) (D.state result.disk) }
{
    let mut repository = match Repository::open(alloc, disk) {
        Ok(repository) => repository,
        Err(refused) => return Ended::unopened(refused),
    };
    let result = write_export(&mut repository, writer);
    Ended {
        disk: repository.into_disk(),
        result,
        reason: None,
    }
}

/// Writes the lines of an open repository's carousel; after a fault some first bytes of them.
fn write_export<D: Disk, W: Write>(
    repository: &mut Repository<D>,
    writer: &mut W,
) -> Result<(), Refusal>
    ensures only_reads { OnlyReads (D.state repository.old.disk) (D.state repository.new.disk) }
    ensures written { (s : Standing) → HasStanding repository.old.view s
        (D.state repository.old.disk)
        → (D.state repository.new.disk).IsHonest
        → Writes result (export_text s.carousel) (W.contents writer.old) (W.contents writer.new) }
    ensures calm { OnOk result ((D.state repository.new.disk).failures
        ≡ (D.state repository.old.disk).failures) }
    ensures fault { IfErr result (λ r. IsPrintingFault r (D.state repository.old.disk).failures
        (D.state repository.new.disk).failures) }
{
    for place in 0..repository.carousel().objects.len() {
        write_object(repository, place, writer)?;
    }
    let period = period_text(repository.carousel().period);
    write_last(writer, period.as_slice())
}

/// Writes the line of the object at this place.
fn write_object<D: Disk, W: Write>(
    repository: &mut Repository<D>,
    place: usize,
    writer: &mut W,
) -> Result<(), Refusal>
    requires place { place < vec_len repository.old.view.carousel.objects }
    ensures only_reads { OnlyReads (D.state repository.old.disk) (D.state repository.new.disk) }
    ensures view { repository.new.view ≡ repository.old.view }
    ensures written { (s : Standing) (o : whole.Object)
        → HasStanding repository.old.view s (D.state repository.old.disk)
        → (D.state repository.new.disk).IsHonest
        → slice_get s.carousel.objects place ≡ Some o
        → Writes result (put_line o) (W.contents writer.old) (W.contents writer.new) }
    ensures calm { OnOk result ((D.state repository.new.disk).failures
        ≡ (D.state repository.old.disk).failures) }
    ensures fault { IfErr result (λ r. IsPrintingFault r (D.state repository.old.disk).failures
        (D.state repository.new.disk).failures) }
{
    let words = put_text(&repository.carousel().objects[place]);
    write_bytes(writer, words.as_slice())?;
    write_body(repository, place, writer)?;
    write_bytes(writer, b"\n")
}

/// Writes the body in small hexadecimal digits, a piece at a time.
fn write_body<D: Disk, W: Write>(
    repository: &mut Repository<D>,
    place: usize,
    writer: &mut W,
) -> Result<(), Refusal>
    requires place { place < vec_len repository.old.view.carousel.objects }
    ensures only_reads { OnlyReads (D.state repository.old.disk) (D.state repository.new.disk) }
    ensures view { repository.new.view ≡ repository.old.view }
    ensures written { (s : Standing) → HasStanding repository.old.view s
        (D.state repository.old.disk)
        → (D.state repository.new.disk).IsHonest
        → Writes result (encode_lower (object_body s.carousel.objects place))
        (W.contents writer.old) (W.contents writer.new) }
    ensures calm { OnOk result ((D.state repository.new.disk).failures
        ≡ (D.state repository.old.disk).failures) }
    ensures fault { IfErr result (λ r. IsPrintingFault r (D.state repository.old.disk).failures
        (D.state repository.new.disk).failures) }
{
    let bodies = repository.body_count();
    prove!(place < bodies);
    let length = repository.body_length(place) as usize;
    let mut piece = [0u8; PIECE];
    let mut from = 0;
    while from < length {
        let count = PIECE.min(length - from);
        let read = &mut piece[..count];
        repository.read_body(place, from, read)?;
        write_digits(writer, read)?;
        from += count;
    }
    Ok(())
}

/// Writes bytes in small hexadecimal digits.
fn write_digits<W: Write>(writer: &mut W, bytes: &[u8]) -> Result<(), Refusal>
    requires { length bytes.now ≤ PIECE }
    ensures { Prints (fault_of result) (encode_lower bytes.now)
        (W.contents writer.old) (W.contents writer.new) }
{
    let mut digits = [0u8; 2 * PIECE];
    let count = 2 * bytes.len();
    // The digits have the room that they want.
    let Ok(()) = hex::encode_to_slice(bytes, &mut digits[..count]) else {
        return Err(Refusal::WriteFault);
    };
    write_bytes(writer, &digits[..count])
}
