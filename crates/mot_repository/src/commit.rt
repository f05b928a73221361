//! A commit as a whole: room in the half, the body, and the record.
ghost use Rattle.std.specs.Prelude.{◌≡◌, ◌+◌, ◌≤◌, ◌<◌, ℕ, true, length, Ok, OnOk, OnErr, IfErr};
ghost use Rattle.std.specs.Prelude.{IsFalse};
ghost use Rattle.disk_model.specs.Disk.{Keeps, Costs, Throughout, HasCause};
ghost use Rattle.mot_journal.specs.Slot.{is_sound, slot_count};
ghost use Rattle.mot_journal.specs.Catalogue.{Catalogue};
ghost use Rattle.mot_journal.specs.Image.{catalogue_of, Standing};
ghost use Rattle.mot_numbers.specs.declared.refusal.Refusal.TheVariants.{DeviceFault};
ghost use Rattle.mot_numbers.specs.Geometry.{area_start, length_of};
ghost use Rattle.mot_objects.specs.declared.carousel.Carousel.{Carousel};
ghost use Rattle.mot_objects.specs.declared.command.Command.{Command};
ghost use Rattle.mot_objects.specs.declared.command.Done.{Done};
ghost use Rattle.mot_repository.specs.Outcome.{calls_for, calls_for_room, after_command, body_of};
ghost use Rattle.mot_repository.specs.Outcome.{extents_after};
ghost use Rattle.mot_repository.specs.Inner.Following.{RecordsFollowCommands};
ghost use Rattle.mot_repository.specs.Inner.Following.{RewritingKeepsTheCatalogue};
ghost use Rattle.mot_repository.specs.Inner.Following.{StandingsAreSound};
ghost use Rattle.mot_repository.specs.Inner.Extents.{names_kept};
ghost use Rattle.mot_repository.specs.Inner.Prepared.{CanBeGiven, IsFull, IsPreparedFor};
ghost use Rattle.mot_repository.specs.Inner.Kept.{HasSlotFree};
ghost use Rattle.mot_repository.specs.Repository.{RepositoryView, IsOf, Holds, IsBeforeOrAfter};

mod entry;

use disk_model::Disk;
use entry::write_change;
use mot_journal::{Journal, Record};
use mot_numbers::Refusal;

/// If the half is full, writes the given records into the other one, and selects it.
fn make_room<D: Disk>(journal: &mut Journal, disk: &mut D, given: &[Record]) -> Result<(), Refusal>
    requires going { IsFalse journal.old.spent }
    requires long_enough { length_of journal.old.geometry ≤ (D.state disk.old).len }
    requires given { IsFull journal.old → CanBeGiven journal.old given.now }

    ensures keeps { Keeps (D.state disk.old) (D.state disk.new) }
    ensures cause { OnErr result (HasCause (D.state disk.old).failures
        (D.state disk.new).failures result) }
    ensures calm { OnOk result ((D.state disk.new).failures ≡ (D.state disk.old).failures) }
    ensures cost { Costs (calls_for_room journal.old) (D.state disk.old) (D.state disk.new) result }
    ensures fault { IfErr result (λ refusal. refusal ≡ DeviceFault) }
    ensures geometry { journal.new.geometry ≡ journal.old.geometry }
    ensures layout { journal.new.layout ≡ journal.old.layout }
    ensures going { OnOk result (IsFalse journal.new.spent) }
    ensures not_full { OnOk result
        (journal.new.count < slot_count journal.new.layout journal.new.geometry) }
    ensures any_moment { (view : RepositoryView) (s : Standing) (c : Catalogue)
        → view.journal ≡ journal.old → (holds : Holds view s (D.state disk.old))
        → catalogue_of view.journal.geometry.objects holds.records ≡ Ok c
        → (IsFull journal.old → catalogue_of view.journal.geometry.objects given.now ≡ Ok c)
        → Throughout (D.state disk.old) (D.state disk.new) (IsOf s) }
    ensures room { (view : RepositoryView) (s : Standing) (c : Catalogue)
        → view.journal ≡ journal.old → (holds : Holds view s (D.state disk.old))
        → catalogue_of view.journal.geometry.objects holds.records ≡ Ok c
        → (IsFull journal.old → catalogue_of view.journal.geometry.objects given.now ≡ Ok c)
        → OnOk result (HasSlotFree s holds.records given.now journal.old journal.new
        (D.state disk.new)) }
{
    if !journal.is_full() {
        return Ok(());
    }
    journal.rewrite(disk, given)
}

/// Writes what is prepared for a command: if the half is full, the given records into the other
/// one; then the body into its gap, and the record.
pub fn commit_change<D: Disk>(
    journal: &mut Journal,
    disk: &mut D,
    given: &[Record],
    at: u64,
    body: &[u8],
    entry: &Record,
) -> Result<(), Refusal>
    requires going { IsFalse journal.old.spent }
    requires long_enough { length_of journal.old.geometry ≤ (D.state disk.old).len }
    requires given { IsFull journal.old → CanBeGiven journal.old given.now }
    requires sound { is_sound journal.old.geometry journal.old.layout entry.now ≡ true }
    requires within { at + length body.now ≤ (D.state disk.old).len }

    ensures keeps { Keeps (D.state disk.old) (D.state disk.new) }
    ensures cause { HasCause (D.state disk.old).failures (D.state disk.new).failures result }
    ensures cost { Costs (calls_for journal.old body.now)
        (D.state disk.old) (D.state disk.new) result }
    ensures fault { IfErr result (λ refusal. refusal ≡ DeviceFault) }
    ensures geometry { journal.new.geometry ≡ journal.old.geometry }
    ensures layout { journal.new.layout ≡ journal.old.layout }
    ensures going { OnOk result (IsFalse journal.new.spent) }

    // What this rests on: records follow commands, a rewrite keeps the catalogue, and no fault of
    // fields or of the list leaves a sound carousel.
    ensures follows { RecordsFollowCommands }
    ensures rewriting { RewritingKeepsTheCatalogue }
    ensures standings { StandingsAreSound }

    // At each moment a crash leaves what was there before the command, or what it makes of that.
    ensures any_moment { (view : RepositoryView) (s : Standing) (command : Command) (done : Done)
        (next : Carousel) (from : ℕ)
        → view.journal ≡ journal.old → at ≡ area_start view.journal.geometry + from
        → body.now ≡ body_of command
        → IsPreparedFor view command done next from entry.now given.now
        → Holds view s (D.state disk.old)
        → Throughout (D.state disk.old) (D.state disk.new)
        (IsBeforeOrAfter view.journal.layout s command) }

    // Once it is Ok, what the command makes of it holds: in memory the carousel that was prepared,
    // and its extents.
    ensures ok { (view : RepositoryView) (s : Standing) (command : Command) (done : Done)
        (next : Carousel) (from : ℕ)
        → view.journal ≡ journal.old → at ≡ area_start view.journal.geometry + from
        → body.now ≡ body_of command
        → IsPreparedFor view command done next from entry.now given.now
        → Holds view s (D.state disk.old)
        → OnOk result ((last : Standing)
        × (after_command view.journal.layout s command ≡ Ok (last, done))
        × ((view' : RepositoryView) → view'.journal ≡ journal.new → IsFalse view'.halted
        → view'.carousel ≡ next
        → view'.extents ≡ extents_after (names_kept view.carousel) view.extents command from
        → Holds view' last (D.state disk.new))) }
{
    make_room(journal, disk, given)?;
    write_change(journal, disk, at, body, entry)
}
