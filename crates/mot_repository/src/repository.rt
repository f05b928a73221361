//! A repository: a disk, its journal, and the carousel that both stand for.
ghost use Rattle.std.specs.Prelude.{◌≡◌, ◌<◌, ◌≤◌, ◌+◌, ◌⊎◌, ◌↔◌, ℕ, true, false, List, length};
ghost use Rattle.std.specs.Prelude.{slice_range, Ok, OnOk, OnErr, IfOk, IfErr, IsTrue, IsFalse};

use crate::commit::commit_change;
use crate::inventory::Inventory;
use crate::prepared::{Prepared, prepare_change};
use crate::records::records_of;
use disk_model::Disk;
use mot_carousel::longest_gap;
use mot_journal::{Geometry, Journal, Layout, area_start};
use mot_numbers::Refusal;
use mot_objects::{Carousel, Command, Done};
use std::alloc::Global;
use std::marker::Model;

/// A carousel kept on a disk. Its bodies are never held in memory.
///
/// A disk fault in a command halts it: it is then to be opened again from its disk.
#[derive(Drop)]
pub struct Repository<D: Disk> {
    disk: D,
    journal: Journal,
    inventory: Inventory,
    halted: bool,
}

impl<D: Disk> Model for Repository<D> {
    ghost use Rattle.mot_repository.specs.Inner.Fold.{IsInOrder, view_with};
    ghost use Rattle.mot_repository.specs.OnDisk.{OnDisk};

    ghost Value = { OnDisk D };

    ghost view = { λ r. record {
      view = record {
        journal = r.journal;
        carousel = r.inventory.carousel;
        extents = r.inventory.extents.items;
        halted = r.halted;
      };
      disk = r.disk;
    } };

    ghost invariant = { λ r. IsInOrder
        (view_with r.journal r.inventory.carousel r.inventory.extents.items r.halted)
        (D.state r.disk).len };
}

impl<D: Disk> Repository<D> {
    ghost use Rattle.disk_model.specs.Disk.{Keeps, KeepsLength, Costs, IsUnchanged, OnlyReads};
    ghost use Rattle.disk_model.specs.Disk.{Throughout, HasCause};
    ghost use Rattle.mot_numbers.specs.declared.refusal.Refusal.TheVariants.{DeviceFault};
    ghost use Rattle.mot_numbers.specs.Geometry.{area_start, is_valid};
    ghost use Rattle.mot_objects.specs.declared.command.Command.{Command};
    ghost use Rattle.mot_journal.specs.declared.layout.Layout.TheVariants.{One, Two};
    ghost use Rattle.mot_journal.specs.Image.{Standing, stands_for, IsClean, IsInLayoutTwo};
    ghost use Rattle.mot_journal.specs.Image.{gate_reads};
    ghost use Rattle.mot_journal.specs.Journal.{StandsWhere};
    ghost use Rattle.mot_journal.specs.Slot.{slot_count};
    ghost use Rattle.mot_repository.specs.Answers.{IsRefusal, IsChanged, IsAnswered, IsHalted};
    ghost use Rattle.mot_repository.specs.Answers.{IsMigrationRefusal, carousel_after};
    ghost use Rattle.mot_repository.specs.Copy.{CopiesAreSound};
    ghost use Rattle.mot_repository.specs.Outcome.{calls_of_command, after_command, has_long_name};
    ghost use Rattle.mot_repository.specs.OnDisk.{ArePaired, OnDisk, extent_at, body_on};
    ghost use Rattle.mot_repository.specs.OnDisk.{IsCheckRefusal};
    ghost use Rattle.mot_carousel.specs.Gap.{IsLongestGap};
    ghost use Rattle.mot_repository.specs.Inner.Fold.{IsInOrder, view_with};
    ghost use Rattle.mot_repository.specs.Inner.Ready.{IsPrepared};
    ghost use Rattle.mot_repository.specs.Repository.{object_body, IsOf, Holds, IsBeforeOrAfter};
    ghost use Rattle.mot_repository.specs.Repository.{HasStanding};

    /// An open repository of these parts, not halted.
    pub(crate) fn of(disk: D, journal: Journal, inventory: Inventory) -> Self
        requires { IsInOrder (view_with journal inventory.carousel inventory.extents.items false)
            (D.state disk).len }
        ensures disk { result.disk ≡ disk }
        ensures view { result.view
            ≡ view_with journal inventory.carousel inventory.extents.items false }
    {
        Repository {
            disk,
            journal,
            inventory,
            halted: false,
        }
    }

    /// The disk, as it stands.
    pub fn into_disk(self) -> D
        ensures { result ≡ self.disk }
    {
        self.disk
    }

    /// The carousel, whose bodies lie on the disk.
    pub fn carousel(&self) -> &Carousel
        ensures value { result.now ≡ self.now.view.carousel }
    {
        &self.inventory.carousel
    }

    /// The sizes that the disk was formatted with.
    pub fn geometry(&self) -> Geometry
        ensures value { result ≡ self.now.view.journal.geometry }
        ensures valid { is_valid self.now.view.journal.geometry ≡ true }
    {
        self.journal.geometry()
    }

    /// The layout of the half that is selected.
    pub fn layout(&self) -> Layout
        ensures value { result ≡ self.now.view.journal.layout }
    {
        self.journal.layout()
    }

    /// Whether a command ended in a disk fault.
    pub fn halted(&self) -> bool
        ensures value { result ≡ self.now.view.halted }
    {
        self.halted
    }

    /// How many bodies there are: one for each object.
    pub fn body_count(&self) -> usize
        ensures value { result ≡ length self.now.view.extents }
        ensures paired { ArePaired self.now.view.carousel self.now.view.extents }
    {
        self.inventory.extents.len()
    }

    /// The length of the body of the object at this place.
    pub fn body_length(&self, place: usize) -> u32
        requires { place < length self.now.view.extents }
        ensures value { result ≡ (extent_at self.now.view.extents place).1 }
    {
        self.inventory.extents[place].1
    }

    /// The most bytes that the body of one object more could have: they lie in one piece.
    pub fn longest_gap(&self) -> u32
        ensures { IsLongestGap self.now.view.extents self.now.view.journal.geometry.area
            result }
    {
        longest_gap(&self.inventory.extents, self.journal.geometry().area)
    }

    /// How many records its journal has, each in a slot of the half that is selected.
    pub fn record_count(&self) -> usize
        ensures { result ≡ self.now.view.journal.count }
    {
        self.journal.record_count()
    }

    /// Where on the disk a byte of the body of the object at this place lies.
    fn place_on_disk(&self, place: usize, from: usize) -> u64
        requires place { place < length self.now.view.extents }
        requires within { from ≤ (extent_at self.now.view.extents place).1 }
        ensures value { result ≡ area_start self.now.view.journal.geometry
            + (extent_at self.now.view.extents place).0 + from }
        ensures room { area_start self.now.view.journal.geometry
            + (extent_at self.now.view.extents place).0 + (extent_at self.now.view.extents place).1
            ≤ (D.state self.now.disk).len }
    {
        let (start, _) = self.inventory.extents[place];
        area_start(&self.journal.geometry()) + u64::from(start) + from as u64
    }

    /// Reads a part of the body of the object at this place, through the disk. It answers also if
    /// the repository is halted. The only refusal is `DeviceFault`.
    pub fn read_body(&mut self, place: usize, from: usize, out: &mut [u8]) -> Result<(), Refusal>
        requires place { place < length self.old.view.extents }
        requires within { from + length out.old ≤ (extent_at self.old.view.extents place).1 }

        ensures keeps { KeepsLength (D.state self.old.disk) (D.state self.new.disk) }
        ensures cause { HasCause (D.state self.old.disk).failures
            (D.state self.new.disk).failures result }
        ensures cost { Costs 1 (D.state self.old.disk) (D.state self.new.disk) result }
        ensures fault { IfErr result (λ refusal. refusal ≡ DeviceFault) }
        ensures view { self.new.view ≡ self.old.view }
        ensures unchanged { (D.state self.old.disk).IsHonest
            → IsUnchanged (D.state self.old.disk) (D.state self.new.disk) }

        // The body lies on the disk.
        ensures lies { area_start self.old.view.journal.geometry
            + (extent_at self.old.view.extents place).0 + (extent_at self.old.view.extents place).1
            ≤ (D.state self.old.disk).len }

        // What is read are the bytes of the body's extent, as the disk read before.
        ensures read { (D.state self.new.disk).IsHonest → OnOk result
            (out.new ≡ slice_range (body_on self.old.view.journal.geometry self.old.view.extents
            place (D.state self.old.disk).bytes) from (from + length out.old)) }

        // Only a read that gives other bytes ends that the disk is honest.
        ensures honest { (D.state self.old.disk).IsHonest → OnOk result
            (out.new ≡ slice_range (body_on self.old.view.journal.geometry self.old.view.extents
            place (D.state self.old.disk).bytes) from (from + length out.old))
            → (D.state self.new.disk).IsHonest }

        // That is the body of the carousel that the disk stands for.
        ensures bytes { (s : Standing) → HasStanding self.old.view s (D.state self.old.disk)
            → (D.state self.new.disk).IsHonest → OnOk result
            (out.new ≡ slice_range (object_body s.carousel.objects place) from
            (from + length out.old)) }
    {
        let at = self.place_on_disk(place, from);
        let Ok(()) = self.disk.read(at, out) else {
            return Err(Refusal::DeviceFault);
        };
        Ok(())
    }

    /// Works out what the command does, and takes all memory that doing it takes. It does not call
    /// the disk, and changes nothing. The refusals are `Halted`, those of the rules, `NoRoom` if no
    /// gap holds the body, `OutOfMemory`, and on layout 1 `BadName` for a name above 100 bytes.
    pub fn prepare<'a>(&self, alloc: Global, command: &'a Command) -> Result<Prepared<'a>, Refusal>
        ensures prepared { IfOk result (λ p. IsPrepared self.now.view command.now p) }
        ensures short { OnOk result
            (has_long_name self.now.view.journal.layout command.now ≡ false) }
        ensures going { OnOk result (IsFalse self.now.view.halted) }
        ensures refused { IfErr result
            (λ refusal. IsRefusal self.now.view command.now refusal) }
    {
        if self.halted {
            return Err(Refusal::Halted);
        }
        let geometry = self.journal.geometry();
        let layout = self.journal.layout();
        let is_full = self.journal.is_full();
        prepare_change(alloc, &geometry, layout, is_full, &self.inventory, command)
    }

    /// Does what was prepared from this repository as it stands. It takes no memory. At
    /// `DeviceFault`, the only refusal, the repository is halted, with the carousel from before.
    pub fn commit(&mut self, prepared: Prepared) -> Result<Done, Refusal>
        requires going { IsFalse self.old.view.halted }
        requires prepared { (command : Command) × IsPrepared self.old.view command prepared }

        ensures keeps { Keeps (D.state self.old.disk) (D.state self.new.disk) }
        ensures cause { HasCause (D.state self.old.disk).failures
            (D.state self.new.disk).failures result }
        ensures cost { (command : Command) → IsPrepared self.old.view command prepared.entry
            → Costs (calls_of_command self.old.view.journal command)
            (D.state self.old.disk) (D.state self.new.disk) result }
        ensures fault { IfErr result (λ refusal. refusal ≡ DeviceFault) }
        ensures halted { OnErr result (IsHalted self.old.view self.new.view) }
        ensures changed { (command : Command) → IsPrepared self.old.view command prepared.entry
            → IfOk result (λ done. IsChanged self.old.view command done self.new.view) }
        ensures kept { OnOk result (self.new.view.carousel ≡ carousel_after prepared.entry) }

        // At each moment a crash leaves what the disk stood for before the command, or what it
        // stands for after it.
        ensures any_moment { (command : Command) → IsPrepared self.old.view command prepared.entry
            → (s : Standing) → Holds self.old.view s (D.state self.old.disk)
            → Throughout (D.state self.old.disk) (D.state self.new.disk)
            (IsBeforeOrAfter self.old.view.journal.layout s command) }

        // So does a crash now, whether a disk fault came or not.
        ensures now { (command : Command) → IsPrepared self.old.view command prepared.entry
            → (s : Standing) → Holds self.old.view s (D.state self.old.disk)
            → (image : List ℕ) → (D.state self.new.disk).MayLeave image
            → IsBeforeOrAfter self.old.view.journal.layout s command image }

        // Once it is Ok, each crash leaves what it stands for after the command.
        ensures ok { (command : Command) → IsPrepared self.old.view command prepared.entry
            → (s : Standing) → Holds self.old.view s (D.state self.old.disk)
            → IfOk result (λ done. (next : Standing)
            × (after_command self.old.view.journal.layout s command ≡ Ok (next, done))
            × Holds self.new.view next (D.state self.new.disk)) }
    {
        let written = commit_change(
            &mut self.journal,
            &mut self.disk,
            &prepared.given,
            prepared.at,
            prepared.body,
            &prepared.record,
        );
        self.halted = written.is_err();
        prepared.take_up(written, &mut self.inventory)
    }

    /// Prepares the command and commits it. At `DeviceFault` the repository is halted, with the
    /// carousel from before; after every other refusal it is as it was, and so is the disk.
    pub fn execute(&mut self, alloc: Global, command: &Command) -> Result<Done, Refusal>
        ensures keeps { Keeps (D.state self.old.disk) (D.state self.new.disk) }
        ensures answered { IsAnswered self.old.view self.new.view
            (D.state self.old.disk) (D.state self.new.disk) command.now result }
        ensures going { OnOk result (IsFalse self.old.view.halted) }
        ensures calm { OnOk result
            ((D.state self.new.disk).failures ≡ (D.state self.old.disk).failures) }
        ensures untouched { IfErr result
            (λ refusal. (refusal ≡ DeviceFault) ⊎ (self.new ≡ self.old)) }
        ensures cost { Costs (calls_of_command self.old.view.journal command.now)
            (D.state self.old.disk) (D.state self.new.disk) result }

        // At each moment a crash leaves what the disk stood for before the command, or what it
        // stands for after it.
        ensures any_moment { (s : Standing) → Holds self.old.view s (D.state self.old.disk)
            → Throughout (D.state self.old.disk) (D.state self.new.disk)
            (IsBeforeOrAfter self.old.view.journal.layout s command.now) }

        // So does a crash now, whether a disk fault came or not.
        ensures now { (s : Standing) → Holds self.old.view s (D.state self.old.disk)
            → (image : List ℕ) → (D.state self.new.disk).MayLeave image
            → IsBeforeOrAfter self.old.view.journal.layout s command.now image }

        // Once it is Ok, each crash leaves what it stands for after the command.
        ensures ok { (s : Standing) → Holds self.old.view s (D.state self.old.disk)
            → IfOk result (λ done. (next : Standing)
            × (after_command self.old.view.journal.layout s command.now ≡ Ok (next, done))
            × Holds self.new.view next (D.state self.new.disk)) }
    {
        let prepared = self.prepare(alloc, command)?;
        self.commit(prepared)
    }

    /// Whether no gate of the selected half is open after a closed one. It only reads.
    pub fn is_clean(&mut self) -> Result<bool, Refusal>
        ensures only_reads { OnlyReads (D.state self.old.disk) (D.state self.new.disk) }
        ensures cost { (D.state self.new.disk).calls
            ≤ (D.state self.old.disk).calls + gate_reads self.old.view.journal.geometry }
        ensures calm { OnOk result
            ((D.state self.new.disk).failures ≡ (D.state self.old.disk).failures) }
        ensures view { self.new.view ≡ self.old.view }
        ensures going { OnOk result (IsFalse self.old.view.halted) }
        ensures refused { IfErr result (λ refusal. IsCheckRefusal self.old self.new
            (D.state self.old.disk).failures (D.state self.new.disk).failures refusal) }

        // If the disk stands for something, and the journal stands where it has its records, the
        // answer is whether the bytes that are read are clean.
        ensures exact { (s : Standing) → (D.state self.new.disk).IsHonest
            → stands_for (D.state self.old.disk).bytes ≡ Ok s
            → StandsWhere self.old.view.journal (D.state self.old.disk).bytes
            → IfOk result (λ clean. IsTrue clean ↔ IsClean (D.state self.old.disk).bytes) }
        ensures held { (s : Standing) → (D.state self.new.disk).IsHonest
            → Holds self.old.view s (D.state self.old.disk) → IfOk result IsTrue }
    {
        if self.halted {
            return Err(Refusal::Halted);
        }
        self.journal.is_clean(&mut self.disk)
    }

    /// Rewrites the journal into layout 2; false, with no disk call, if it is of layout 2 already.
    /// At `DeviceFault` the repository is halted; `OutOfMemory` and `Halted` come before anything
    /// is written.
    pub fn migrate(&mut self, alloc: Global) -> Result<bool, Refusal>
        ensures keeps { Keeps (D.state self.old.disk) (D.state self.new.disk) }
        ensures geometry { self.new.view.journal.geometry ≡ self.old.view.journal.geometry }
        ensures carousel { self.new.view.carousel ≡ self.old.view.carousel }
        ensures extents { self.new.view.extents ≡ self.old.view.extents }
        ensures going { OnOk result (IsFalse self.old.view.halted) }
        ensures halted { OnOk result (self.new.view.halted ≡ self.old.view.halted) }
        ensures calm { OnOk result
            ((D.state self.new.disk).failures ≡ (D.state self.old.disk).failures) }
        ensures rewritten { IfOk result
            (λ done. IsTrue done ↔ (self.old.view.journal.layout ≡ One)) }
        ensures layout { OnOk result (self.new.view.journal.layout ≡ Two) }
        ensures still { self.old.view.journal.layout ≡ Two → (self.new ≡ self.old)
            × (IsFalse self.old.view.halted → result ≡ Ok false) }
        ensures refused { IfErr result (λ refusal. IsMigrationRefusal self.old.view self.new.view
            (D.state self.old.disk) (D.state self.new.disk) refusal) }
        ensures untouched { IfErr result
            (λ refusal. (refusal ≡ DeviceFault) ⊎ (self.new ≡ self.old)) }
        ensures cost { self.old.view.journal.layout ≡ One
            → Costs (slot_count Two self.old.view.journal.geometry + 3)
            (D.state self.old.disk) (D.state self.new.disk) result }

        // At each moment a crash leaves the same carousel, clean, and so does a crash now.
        ensures any_moment { (s : Standing) → Holds self.old.view s (D.state self.old.disk)
            → Throughout (D.state self.old.disk) (D.state self.new.disk) (IsOf s) }
        ensures now { (s : Standing) → Holds self.old.view s (D.state self.old.disk)
            → (image : List ℕ) → (D.state self.new.disk).MayLeave image → IsOf s image }

        // Once it is Ok, each crash leaves it in layout 2.
        ensures layouts { (s : Standing) → Holds self.old.view s (D.state self.old.disk)
            → OnOk result ((image : List ℕ) → (D.state self.new.disk).MayLeave image
            → IsInLayoutTwo image) }
        ensures ok { (s : Standing) → Holds self.old.view s (D.state self.old.disk)
            → OnOk result (Holds self.new.view s (D.state self.new.disk)) }
    {
        if self.halted {
            return Err(Refusal::Halted);
        }
        let Layout::One = self.journal.layout() else {
            return Ok(false);
        };
        let given = records_of(alloc, &self.inventory)?;
        if let Err(fault) = self.journal.migrate(&mut self.disk, &given) {
            self.halted = true;
            return Err(fault);
        }
        Ok(true)
    }

    /// What the records of each copy of what is kept come to. It is there for the proof of copies, and
    /// does nothing when it runs.
    pub fn know_copies(&self)
        ensures { CopiesAreSound self.now.view }
    {
        self.journal.geometry();
    }
}
