//! A disk opened: its records folded into a carousel, whose bodies stay where they lie.
ghost use Rattle.std.specs.Prelude.{◌≡◌, ◌≤◌, ◌+◌, false, IfOk, IfErr, IfSome, IsFalse};
ghost use Rattle.std.specs.Prelude.{MatchResult};
ghost use Rattle.disk_model.specs.Disk.{Costs, OnlyReads, OnlySyncs};
ghost use Rattle.mot_journal.specs.Reason.{HasReason, IsReasonOf};
ghost use Rattle.mot_numbers.specs.Refusal.{IsCalm};
ghost use Rattle.mot_numbers.specs.declared.refusal.Refusal.TheVariants.{DeviceFault};
ghost use Rattle.mot_repository.specs.Inner.Fold.{IsInOrder, view_with};
ghost use Rattle.mot_repository.specs.Inner.Extents.{IsLoaded};
ghost use Rattle.mot_repository.specs.Opening.{IsOpened, IsOpeningRefusal};

mod bounds;
mod fold;

use crate::Repository;
use crate::inventory::Inventory;
use disk_model::Disk;
use fold::inventory_of;
use mot_journal::{Fault, Journal, Reason, load_with_reason};
use mot_numbers::Refusal;
use std::alloc::Global;

/// Why a disk was not opened, and the disk.
#[derive(Drop)]
pub struct Refused<D: Disk> {
    /// `OutOfMemory`, `DeviceFault`, `NotFormatted` or `Damaged`.
    pub refusal: Refusal,
    /// The reason of the last two, which the bytes of the disk show.
    pub reason: Option<Reason>,
    /// The disk, as it stands.
    pub disk: D,
}

impl<D: Disk> Repository<D> {
    /// Opens a disk. It syncs it first, and changes nothing on it but that. It takes memory for the
    /// records of one half and for the objects, and none for bodies.
    ///
    /// The refusals are `DeviceFault` if the disk failed, `OutOfMemory`, `NotFormatted` for a disk
    /// with no magic, a geometry out of range or too few bytes, and `Damaged`. The last has the
    /// number of the first slot that breaks the format, or else of the first whose record makes a
    /// fault of the list: too many objects, none of the id that is to go, two of one id, extents
    /// that meet.
    pub fn open(alloc: Global, disk: D) -> Result<Self, Refused<D>>
        ensures only_syncs { MatchResult result
            (λ r. OnlySyncs (D.state disk) (D.state r.disk))
            (λ e. OnlySyncs (D.state disk) (D.state e.disk)) }
        ensures going { IfOk result (λ r. IsFalse r.view.halted) }

        // What is kept is what the disk stands for, and no position of it is loose.
        ensures opened { IfOk result (λ r. (D.state r.disk).IsHonest
            → IsOpened (D.state disk) (D.state r.disk) r.view) }
        ensures refused { IfErr result
            (λ e. IsOpeningRefusal (D.state disk) (D.state e.disk) e.refusal) }

        // What the bytes are refused for is told, and so of them.
        ensures reason { IfErr result (λ e. HasReason e.refusal e.reason) }
        ensures so { IfErr result (λ e. (D.state e.disk).IsHonest
            → IfSome e.reason (IsReasonOf (D.state disk).bytes)) }

        // A disk fault is answered exactly if the disk has failed.
        ensures calm { MatchResult result
            (λ r. (D.state r.disk).failures ≡ (D.state disk).failures)
            (λ e. IsCalm e.refusal (D.state disk).failures
            (D.state e.disk).failures) }

        // a sync, a read of the head, and a read of the selected half
        ensures cost { MatchResult result
            (λ r. (D.state r.disk).calls ≡ (D.state disk).calls + 3)
            (λ e. (D.state e.disk).calls ≤ (D.state disk).calls + 3) }
    {
        let mut disk = disk;
        if disk.sync().is_err() {
            return Err(Refused {
                refusal: Refusal::DeviceFault,
                reason: None,
                disk,
            });
        }
        match load_inventory(alloc, &mut disk) {
            Ok((journal, inventory)) => Ok(Repository::of(disk, journal, inventory)),
            Err(fault) => Err(Refused {
                refusal: fault.refusal,
                reason: fault.reason,
                disk,
            }),
        }
    }
}

/// The journal of a disk, and the carousel that its records stand for. It only reads.
fn load_inventory<D: Disk>(alloc: Global, disk: &mut D) -> Result<(Journal, Inventory), Fault>
    ensures only_reads { OnlyReads (D.state disk.old) (D.state disk.new) }
    ensures going { IfOk result (λ l. IsFalse l.0.spent) }
    ensures in_order { IfOk result (λ l. IsInOrder
        (view_with l.0 l.1.carousel l.1.extents.items false) (D.state disk.old).len) }
    ensures loaded { (D.state disk.new).IsHonest → IfOk result
        (λ l. IsLoaded (D.state disk.old).bytes l.0 l.1.carousel l.1.extents.items) }
    ensures refused { IfErr result
        (λ fault. IsOpeningRefusal (D.state disk.old) (D.state disk.new) fault.refusal) }
    ensures reason { IfErr result (λ fault. HasReason fault.refusal fault.reason) }
    ensures so { (D.state disk.new).IsHonest → IfErr result
        (λ fault. IfSome fault.reason (IsReasonOf (D.state disk.old).bytes)) }
    ensures calm { MatchResult result
        (λ l. (D.state disk.new).failures ≡ (D.state disk.old).failures)
        (λ fault. IsCalm fault.refusal (D.state disk.old).failures
        (D.state disk.new).failures) }
    ensures cost { Costs 2 (D.state disk.old) (D.state disk.new) result }
{
    let loaded = load_with_reason(alloc, disk)?;
    let geometry = loaded.journal.geometry();
    let inventory = inventory_of(alloc, &geometry, loaded.records)?;
    Ok((loaded.journal, inventory))
}
