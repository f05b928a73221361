//! Records that are added to a journal.
ghost use Rattle.std.specs.Prelude.{◌≡◌, IfOk};
ghost use Rattle.mot_journal.specs.declared.record.Action.TheVariants.{Nothing};

use crate::disks::{ONE, old_disk};
use crate::expecting::expect;
use disk_store::Disk;
use mot_base::{Refusal, TransportId};
use mot_carousel::Period;
use mot_journal::{Action, Journal, Record, load};
use std::alloc::Global;

// A record that does nothing to the objects, with this period.
fn record_of(period: u32) -> Result<Record, Refusal>
    ensures { IfOk result (λ r. r.action ≡ Nothing) }
{
    Ok(Record {
        period: Period::new(period)?,
        directory: TransportId::FIRST,
        cursor: TransportId::FIRST,
        action: Action::Nothing,
    })
}

// Adds a record that does nothing to the objects, where the journal takes one.
fn add<D: Disk>(journal: &mut Journal, disk: &mut D, period: u32) -> Result<(), Refusal> {
    let full = journal.is_full();
    let spent = journal.is_spent();
    let long = disk.len() >= journal.geometry().length();
    if full || spent || !long {
        return Err(Refusal::DeviceFault);
    }
    let entry = record_of(period)?;
    journal.append(disk, &entry)
}

// How many records are added to an empty journal of layout 1, and whether it is full then.
fn added(alloc: Global) -> Result<(u32, bool), Refusal> {
    let mut disk = old_disk(alloc, &ONE)?;
    let mut journal = load(alloc, &mut disk)?.journal;
    for period in 0..20 {
        if add(&mut journal, &mut disk, period).is_err() {
            return Ok((period, journal.is_full()));
        }
    }
    Ok((20, journal.is_full()))
}

// Whether a record is added whose second call on the disk fails, whether the journal is spent then,
// and how many records the disk has.
fn added_with_fault(alloc: Global) -> Result<(bool, bool, usize), Refusal> {
    let mut disk = old_disk(alloc, &ONE)?;
    let mut journal = load(alloc, &mut disk)?.journal;
    disk.fail_at(2);
    let is_added = add(&mut journal, &mut disk, 1).is_ok();
    let loaded = load(alloc, &mut disk)?;
    Ok((is_added, journal.is_spent(), loaded.records.len()))
}

#[test]
fn six_records_fill_a_half_and_a_fault_spends_the_journal(rt: HostRuntime) {
    expect(&rt, added(rt.alloc()), Ok((6, true)));
    expect(&rt, added_with_fault(rt.alloc()), Ok((false, true, 0)));
}
