//! A stop at each device call of the calls that write a journal, and a crash: the records before or
//! after.
ghost use Rattle.std.specs.Prelude.{◌≡◌, ◌≤◌, IfOk};
ghost use Rattle.mot_journal.specs.declared.record.Action.TheVariants.{Nothing};

use crate::disks::{self, ONE, blank_disk, image_of, new_disk, write_at};
use crate::expecting::expect;
use disk_model::Disk;
use disk_store::MemoryDisk;
use mot_base::{Refusal, TransportId};
use mot_journal::{Action, Journal, Layout, Record, format, load};
use mot_objects::Period;
use std::alloc::Global;

// A record that does nothing to the objects, with this period.
fn record_of(period: u32) -> Result<Record, Refusal>
    ensures { IfOk result (λ r. r.action ≡ Nothing) }
{
    Ok(Record {
        period: Period::new(period)?,
        directory: TransportId::FIRST,
        cursor: TransportId::FIRST,
        action: Action::Nothing,
    })
}

// Adds a record that does nothing to the objects, where the journal takes one.
fn add<D: Disk>(journal: &mut Journal, disk: &mut D, period: u32) -> Result<(), Refusal> {
    let full = journal.is_full();
    let spent = journal.is_spent();
    let long = disk.len() >= journal.geometry().length();
    if full || spent || !long {
        return Err(Refusal::BadLine);
    }
    let entry = record_of(period)?;
    journal.append(disk, &entry)
}

// How many records a disk has, and the period of the last one. Its gates have to be clean.
fn last_of<D: Disk>(alloc: Global, disk: &mut D) -> Result<(usize, u32), Refusal> {
    let loaded = load(alloc, disk)?;
    let Ok(true) = loaded.journal.is_clean(disk) else {
        return Err(Refusal::BadLine);
    };
    match loaded.records.last() {
        Some(entry) => Ok((loaded.records.len(), entry.period.get())),
        None => Ok((0, 0)),
    }
}

// A record that sets object 2: type 2, subtype 3, five bytes from 0 on, name `a`, `image/png`.
const OBJECT: [u8; 35] = [
    0xA5, 2, 0, 0, 0, 0, 3, 0, 3, 0, 2, 0, 2, 0, 3, 0, 0, 0, 0, 0, 0, 0, 5, 1, 0x61, 9, 0x69, 0x6D,
    0x61, 0x67, 0x65, 0x2F, 0x70, 0x6E, 0x67,
];

// A disk of layout 1, written byte by byte as docs/FORMATS.md has it, whose first slot sets the
// object.
fn old_disk(alloc: Global) -> Result<MemoryDisk, Refusal> {
    let mut disk = disks::old_disk(alloc, 1, 8)?;
    write_at(&mut disk, 64, &OBJECT)?;
    disk.sync().or(Err(Refusal::DeviceFault))?;
    Ok(disk)
}

// Writes one record, with this period, into the other half, where the journal can be rewritten.
fn rewrite<D: Disk>(journal: &mut Journal, disk: &mut D, period: u32) -> Result<(), Refusal> {
    let spent = journal.is_spent();
    let long = disk.len() >= journal.geometry().length();
    let entry = record_of(period)?;
    if spent || !long {
        return Err(Refusal::BadLine);
    }
    match journal.layout() {
        Layout::One => journal.migrate(disk, &[entry]),
        Layout::Two => journal.rewrite(disk, &[entry]),
    }
}

#[derive(Clone, Copy)]
enum Call {
    Append,
    Rewrite,
    Migrate,
    Format,
}

// How many records a disk has, and the period of the last one, or why it is not loaded.
type Last = Result<(usize, u32), Refusal>;

// The disk that it is called on.
fn disk_of(alloc: Global, call: Call) -> Result<MemoryDisk, Refusal> {
    match call {
        Call::Append | Call::Rewrite => new_disk(alloc, &ONE),
        Call::Migrate => old_disk(alloc),
        Call::Format => blank_disk(alloc, &ONE),
    }
}

// Whether the call succeeds on a disk that stops at this device call of it.
fn is_done(alloc: Global, call: Call, disk: &mut MemoryDisk, stop: u64) -> Result<bool, Refusal>
    requires { 1 ≤ stop }
{
    if let Call::Format = call {
        disk.stop_at(stop);
        return Ok(format(disk, &ONE).is_ok());
    }
    let mut journal = load(alloc, disk)?.journal;
    disk.stop_at(stop);
    match call {
        Call::Append => Ok(add(&mut journal, disk, 7).is_ok()),
        _ => Ok(rewrite(&mut journal, disk, 9).is_ok()),
    }
}

// The same, and the records of what a crash leaves.
fn left_by(alloc: Global, call: Call, stop: u64, choices: &[u8]) -> Result<(bool, Last), Refusal>
    requires { 1 ≤ stop }
{
    let mut disk = disk_of(alloc, call)?;
    let is_done = is_done(alloc, call, &mut disk, stop)?;
    let mut left = image_of(alloc, &disk, choices)?;
    Ok((is_done, last_of(alloc, &mut left)))
}

const NONE: Last = Err(Refusal::NotFormatted);

const NEW: Last = Ok((1, 0));

#[test]
fn what_is_left(rt: HostRuntime) {
    let rows: [(Call, u64, &[u8], (bool, Last)); 9] = [
        (Call::Append, 3, &[0xA5], (false, Ok((2, 7)))),
        (Call::Append, 3, &[0x00], (false, NEW)),
        (Call::Rewrite, 5, &[0x01], (false, Ok((1, 9)))),
        (Call::Rewrite, 5, &[0x77], (false, NEW)),
        (Call::Rewrite, 7, &[], (true, Ok((1, 9)))),
        (Call::Migrate, 5, &[0x01], (false, Ok((1, 9)))),
        (Call::Migrate, 7, &[], (true, Ok((1, 9)))),
        (Call::Format, 1, &[0xA5], (false, NONE)),
        (Call::Format, 14, &[], (true, NEW)),
    ];
    for (call, stop, choices, left) in rows {
        expect(&rt, left_by(rt.alloc(), call, stop, choices), Ok(left));
    }
}
