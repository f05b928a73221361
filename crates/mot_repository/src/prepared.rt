//! A command for which all memory was taken, and nothing was written.
ghost use Rattle.std.specs.Prelude.{◌≡◌, ◌+◌, ◌≤◌, length, true, false, IsTrue, IsFalse, OnOk, IfOk, IfErr, Ok};
ghost use Rattle.std.specs.Prelude.{if◌then◌else◌, is_ok};
ghost use Rattle.std.specs.Result.{result_and};
ghost use Rattle.mot_journal.specs.declared.layout.Layout.TheVariants.{Two};
ghost use Rattle.mot_numbers.specs.Geometry.{is_valid};
ghost use Rattle.mot_objects.specs.declared.body.TheConstants.{MAX_BODY};
ghost use Rattle.mot_repository.specs.Answers.{IsRefusal, carousel_after};
ghost use Rattle.mot_repository.specs.Inner.Extents.{catalogue_with};
ghost use Rattle.mot_repository.specs.Inner.Whole.{IsWhole};
ghost use Rattle.mot_repository.specs.Outcome.{body_of, has_long_name};
ghost use Rattle.mot_repository.specs.Inner.Prepared.{IsFull};
ghost use Rattle.mot_repository.specs.Inner.Ready.{IsPrepared};
ghost use Rattle.mot_repository.specs.Inner.Kept.{KeepsInventory};
ghost use Rattle.mot_repository.specs.Repository.{RepositoryView};

mod placing;

use crate::inventory::Inventory;
use crate::records::{record_of_change, records_of};
use mot_carousel::{first_fit, plan};
use mot_journal::{Layout, Record, area_start};
use mot_numbers::{Geometry, Refusal};
use mot_objects::{Carousel, Command, Done};
use placing::extents_after;
use std::alloc::Global;

/// A change that was worked out, with all memory that doing it takes. Its body stays the command's.
#[derive(Drop)]
pub struct Prepared<'a> {
    /// What is kept after it.
    pub(crate) inventory: Inventory,
    /// The transport ids that it takes.
    pub(crate) done: Done,
    /// Where on the disk its body goes.
    pub(crate) at: u64,
    /// Its body, or no bytes.
    pub(crate) body: &'a [u8],
    /// Its record.
    pub(crate) record: Record,
    /// The records that a full half is rewritten to first; none if it has room.
    pub(crate) given: Vec<Record>,
}

impl Prepared<'_> {
    /// The carousel after the change.
    pub fn next(&self) -> &Carousel
        ensures { result.now ≡ carousel_after self.now }
    {
        &self.inventory.carousel
    }

    /// Puts what is kept after the change in place of what was kept, if the change was written.
    pub(crate) fn take_up(
        self,
        written: Result<(), Refusal>,
        kept: &mut Inventory,
    ) -> Result<Done, Refusal>
        ensures answer { result ≡ result_and written (Ok self.entry.done) }
        ensures kept { kept.new
            ≡ (if is_ok written then self.entry.inventory else kept.old) }
    {
        written?;
        *kept = self.inventory;
        Ok(self.done)
    }
}

/// Works out what the command does, and takes all memory that doing it takes. The refusals come in
/// this order: `BadName` if the layout has no room for the name, those of the carousel's rules, and
/// `NoRoom` if no gap holds the body. `OutOfMemory` may come at any point after the name. The
/// records of a rewrite are made if the half is full.
pub(crate) fn prepare_change<'a>(
    alloc: Global,
    geometry: &Geometry,
    layout: Layout,
    is_full: bool,
    inventory: &Inventory,
    command: &'a Command,
) -> Result<Prepared<'a>, Refusal>
    requires valid { is_valid geometry.now ≡ true }
    requires whole { let kept = catalogue_with inventory.now.carousel inventory.now.extents.items in
        IsWhole geometry.now layout kept }
    ensures prepared { (view : RepositoryView)
        → KeepsInventory geometry.now layout inventory.now view
        → (IsFull view.journal → IsTrue is_full)
        → IfOk result (λ p. IsPrepared view command.now p) }
    ensures short { OnOk result (has_long_name layout command.now ≡ false) }
    ensures refused { (view : RepositoryView)
        → KeepsInventory geometry.now layout inventory.now view → IsFalse view.halted
        → IfErr result (λ refusal. IsRefusal view command.now refusal) }
{
    if is_name_too_long(layout, command) {
        return Err(Refusal::BadName);
    }
    let change = plan(alloc, &inventory.carousel, geometry.objects, command)?;
    let body = body_bytes(command);
    let start = first_fit(&inventory.by_start, body.len() as u32, geometry.area);
    let Some(start) = start else {
        return Err(Refusal::NoRoom);
    };
    let (extents, by_start) = extents_after(alloc, inventory, command, start)?;
    let given = if is_full {
        records_of(alloc, inventory)?
    } else {
        Vec::new(alloc)
    };
    let record = record_of_change(&inventory.carousel, &change.next, command, start)?;
    Ok(Prepared {
        inventory: Inventory {
            carousel: change.next,
            extents,
            by_start,
        },
        done: change.done,
        at: area_start(geometry) + u64::from(start),
        body,
        record,
        given,
    })
}

/// Whether the slots of this layout have no room for the name that the command speaks of.
fn is_name_too_long(layout: Layout, command: &Command) -> bool
    ensures value { result ≡ has_long_name layout command.now }

    // no name is too long for layout 2
    ensures fits { has_long_name Two command.now ≡ false }
{
    match command {
        Command::Put { name, .. } | Command::Replace { name, .. } | Command::Withdraw { name } => {
            name.as_bytes().len() > layout.longest_name()
        }
        Command::Period(_) => false,
    }
}

/// The bytes that the command brings.
fn body_bytes(command: &Command) -> &[u8]
    ensures value { result.now ≡ body_of command.now }
    ensures short { length result.now ≤ MAX_BODY }
{
    match command {
        Command::Put { body, .. } | Command::Replace { body, .. } => body.as_bytes(),
        Command::Withdraw { .. } | Command::Period(_) => &[],
    }
}
