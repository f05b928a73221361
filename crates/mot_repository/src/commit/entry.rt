//! What a commit writes if the half has room: the body into its gap, and then the record.
ghost use Rattle.std.specs.Prelude.{◌≡◌, ◌+◌, ◌≤◌, ◌<◌, ◌++◌, [], ◌∷◌, ℕ, List, true, length};
ghost use Rattle.std.specs.Prelude.{slice_range, Ok, OnOk, OnErr, IfErr, IsFalse};
ghost use Rattle.disk_model.specs.Disk.{Keeps, Costs, Throughout, WritesWithin, HasCause};
ghost use Rattle.mot_journal.specs.declared.layout.Layout.{Layout};
ghost use Rattle.mot_journal.specs.declared.record.Record.{Record};
ghost use Rattle.mot_journal.specs.Slot.{is_sound, slot_count};
ghost use Rattle.mot_journal.specs.Catalogue.{Catalogue};
ghost use Rattle.mot_journal.specs.Image.{catalogue_of, Standing};
ghost use Rattle.mot_journal.specs.Journal.{HasRecords};
ghost use Rattle.mot_journal.specs.Gaps.{AreBeside, standing_of};
ghost use Rattle.mot_numbers.specs.declared.refusal.Refusal.TheVariants.{DeviceFault};
ghost use Rattle.mot_numbers.specs.Geometry.{area_start, length_of};
ghost use Rattle.mot_objects.specs.declared.command.Command.{Command};
ghost use Rattle.mot_objects.specs.declared.command.Done.{Done};
ghost use Rattle.mot_repository.specs.Outcome.{calls_for_body, after_command};
ghost use Rattle.mot_repository.specs.Repository.{RepositoryView, Agrees, IsOf, Holds};
ghost use Rattle.mot_repository.specs.Repository.{IsBeforeOrAfter};

use disk_model::Disk;
use mot_journal::{Journal, Record};
use mot_numbers::Refusal;

/// Writes a body here. What brings no body makes no call of the disk.
fn write_body<D: Disk>(disk: &mut D, at: u64, body: &[u8]) -> Result<(), Refusal>
    requires within { at + length body.now ≤ (D.state disk.old).len }

    ensures keeps { Keeps (D.state disk.old) (D.state disk.new) }
    ensures cause { OnErr result (HasCause (D.state disk.old).failures
        (D.state disk.new).failures result) }
    ensures calm { OnOk result ((D.state disk.new).failures ≡ (D.state disk.old).failures) }
    ensures cost { Costs (calls_for_body body.now) (D.state disk.old) (D.state disk.new) result }
    ensures fault { IfErr result (λ refusal. refusal ≡ DeviceFault) }
    ensures range { (D.state disk.old).IsHonest
        → WritesWithin at (length body.now) (D.state disk.old) (D.state disk.new) }
    ensures bytes { (D.state disk.old).IsHonest → OnOk result
        (slice_range (D.state disk.new).bytes at (at + length body.now) ≡ body.now) }
{
    if body.is_empty() {
        return Ok(());
    }
    let Ok(()) = disk.write(at, body) else {
        return Err(Refusal::DeviceFault);
    };
    Ok(())
}

/// Writes a body, if there is one, into a gap of the data area, and then its record.
pub fn write_change<D: Disk>(
    journal: &mut Journal,
    disk: &mut D,
    at: u64,
    body: &[u8],
    entry: &Record,
) -> Result<(), Refusal>
    requires not_full { journal.old.count < slot_count journal.old.layout journal.old.geometry }
    requires going { IsFalse journal.old.spent }
    requires long_enough { length_of journal.old.geometry ≤ (D.state disk.old).len }
    requires sound { is_sound journal.old.geometry journal.old.layout entry.now ≡ true }
    requires within { at + length body.now ≤ (D.state disk.old).len }

    ensures keeps { Keeps (D.state disk.old) (D.state disk.new) }
    ensures cause { HasCause (D.state disk.old).failures (D.state disk.new).failures result }
    ensures cost { Costs (calls_for_body body.now + 4)
        (D.state disk.old) (D.state disk.new) result }
    ensures fault { IfErr result (λ refusal. refusal ≡ DeviceFault) }
    ensures geometry { journal.new.geometry ≡ journal.old.geometry }
    ensures layout { journal.new.layout ≡ journal.old.layout }
    ensures going { OnOk result (IsFalse journal.new.spent) }

    // At each moment a crash leaves what was there before the command, or what it makes of that.
    ensures any_moment { (view : RepositoryView) (s : Standing) (records : List Record)
        (c next : Catalogue) (from : ℕ) (layout : Layout) (command : Command) (done : Done)
        → view.journal ≡ journal.old → at ≡ area_start view.journal.geometry + from
        → catalogue_of view.journal.geometry.objects records ≡ Ok c
        → catalogue_of view.journal.geometry.objects (records ++ entry.now ∷ []) ≡ Ok next
        → AreBeside view.journal.geometry from (length body.now) c.objects
        × (from + length body.now ≤ view.journal.geometry.area)
        → (holds : Holds view s (D.state disk.old)) → holds.records ≡ records
        → ((image : List ℕ) → IsOf s image → HasRecords view.journal records image
        → slice_range image at (at + length body.now) ≡ body.now
        → after_command layout s command
        ≡ Ok (standing_of view.journal.geometry next image, done))
        → Throughout (D.state disk.old) (D.state disk.new) (IsBeforeOrAfter layout s command) }

    // Once it is Ok, what agrees with what the command makes of it holds.
    ensures ok { (view : RepositoryView) (s : Standing) (records : List Record)
        (c next : Catalogue) (from : ℕ) (layout : Layout) (command : Command) (done : Done)
        → view.journal ≡ journal.old → at ≡ area_start view.journal.geometry + from
        → catalogue_of view.journal.geometry.objects records ≡ Ok c
        → catalogue_of view.journal.geometry.objects (records ++ entry.now ∷ []) ≡ Ok next
        → AreBeside view.journal.geometry from (length body.now) c.objects
        × (from + length body.now ≤ view.journal.geometry.area)
        → (holds : Holds view s (D.state disk.old)) → holds.records ≡ records
        → ((image : List ℕ) → IsOf s image → HasRecords view.journal records image
        → slice_range image at (at + length body.now) ≡ body.now
        → after_command layout s command
        ≡ Ok (standing_of view.journal.geometry next image, done))
        → OnOk result ((last : Standing) × (after_command layout s command ≡ Ok (last, done))
        × ((view' : RepositoryView) → view'.journal ≡ journal.new → IsFalse view'.halted
        → Agrees view' last → Holds view' last (D.state disk.new))) }
{
    write_body(disk, at, body)?;
    journal.append(disk, entry)
}
