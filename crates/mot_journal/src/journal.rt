//! The journal of a disk that was loaded.
ghost use Rattle.std.specs.Prelude.{◌≡◌, ◌≤◌, ◌<◌, ◌+◌, ◌^◌, ◌++◌, List, [], ◌∷◌, length, true, Ok};
ghost use Rattle.std.specs.Prelude.{OnOk, OnErr, MatchResult, ◌↔◌, IfOk, IfErr, IfSome, IsErr};
ghost use Rattle.std.specs.Prelude.{IsTrue, IsFalse, All};
ghost use Rattle.disk_model.specs.Disk.{Keeps, Costs, OnlyReads, Throughout, HasCause, Rises};
ghost use Rattle.mot_journal.specs.Geometry.{geometry_of};
ghost use Rattle.mot_journal.specs.Slot.{is_sound, slot_count, AreSound};
ghost use Rattle.mot_journal.specs.Image.{records_of, has_clean_gates, gate_reads};
ghost use Rattle.mot_journal.specs.Journal.{JournalView, with_records, IsLoadRefusal, HoldsRecords};
ghost use Rattle.mot_journal.specs.Journal.{FoldOf, WithoutOrWith, OnlyReadArea, StandsWhere};
ghost use Rattle.mot_journal.specs.Journal.{RewritesTo};
ghost use Rattle.mot_journal.specs.Inner.Steps.{start_of_slot};
ghost use Rattle.mot_journal.specs.Reason.{HasReason, IsReasonOf};
ghost use Rattle.mot_journal.specs.declared.layout.Layout.TheVariants.{One, Two};
ghost use Rattle.mot_journal.specs.declared.record.Record.{Record};
ghost use Rattle.mot_numbers.specs.Refusal.{IsCalm};
ghost use Rattle.mot_numbers.specs.Geometry.{length_of, is_valid};
ghost use Rattle.mot_numbers.specs.declared.refusal.Refusal.TheVariants.{DeviceFault};

use crate::encoding::slot_bytes;
use crate::gates::are_gates_clean;
use crate::loading::{geometry_of_head, layout_of_half, records_of_half};
use crate::places::{HEAD_SIZE, half_size, half_start};
use crate::writing::{fill_half, place_of_slot, publish, write_slot};
use crate::{Fault, Geometry, HeadFault, Layout, Reason, Record};
use disk_model::Disk;
use mot_numbers::Refusal;
use std::alloc::Global;
use std::marker::Model;

/// Where the byte is that selects a half.
const SELECTOR: u64 = 8;

/// Where the records of a disk stand: in this half, in its first slots.
#[derive(Drop)]
pub struct Journal {
    geometry: Geometry,
    half: u8,
    layout: Layout,
    count: usize,
    spent: bool,
    ghost two_halves: { half ≤ 1 },
}

impl Model for Journal {
    ghost Value = { JournalView };

    ghost view = { λ j. record {
      geometry = j.geometry;
      half = j.half;
      layout = j.layout;
      count = j.count;
      spent = j.spent;
    } };
}

/// A journal and its records, in the order of their slots.
#[derive(Drop)]
pub struct Loaded {
    pub journal: Journal,
    pub records: Vec<Record>,
}

/// Reads the records of the half that is selected. It only reads.
pub fn load<D: Disk>(alloc: Global, disk: &mut D) -> Result<Loaded, Refusal>
    ensures only_reads { OnlyReads (D.state disk.old) (D.state disk.new) }

    // A disk fault is answered exactly if the disk has failed.
    ensures calm { MatchResult result
        (λ loaded. (D.state disk.new).failures ≡ (D.state disk.old).failures)
        (λ refusal. IsCalm refusal (D.state disk.old).failures
        (D.state disk.new).failures) }
    ensures cost { Costs 2 (D.state disk.old) (D.state disk.new) result }
    ensures loaded { (D.state disk.new).IsHonest → IfOk result (λ l.
        records_of (D.state disk.old).bytes ≡ Ok (with_records l.journal l.records.items)) }
    ensures count { IfOk result (λ l. l.journal.count ≡ length l.records.items) }
    ensures few { IfOk result (λ l.
        length l.records.items ≤ slot_count l.journal.layout l.journal.geometry) }
    ensures going { IfOk result (λ l. IsFalse l.journal.spent) }
    ensures long_enough { IfOk result (λ l. length_of l.journal.geometry ≤ (D.state disk.old).len) }
    ensures valid { IfOk result (λ l. is_valid l.journal.geometry ≡ true) }
    ensures sound { IfOk result
        (λ l. All (λ r. is_sound l.journal.geometry l.journal.layout r ≡ true) l.records.items) }
    ensures refused { IfErr result
        (λ refusal. IsLoadRefusal (D.state disk.old) (D.state disk.new) refusal) }
{
    match load_with_reason(alloc, disk) {
        Ok(loaded) => Ok(loaded),
        Err(fault) => Err(fault.refusal),
    }
}

/// The same, with the reason if the bytes of the disk are refused.
pub fn load_with_reason<D: Disk>(alloc: Global, disk: &mut D) -> Result<Loaded, Fault>
    ensures only_reads { OnlyReads (D.state disk.old) (D.state disk.new) }

    // A disk fault is answered exactly if the disk has failed.
    ensures calm { MatchResult result
        (λ loaded. (D.state disk.new).failures ≡ (D.state disk.old).failures)
        (λ fault. IsCalm fault.refusal (D.state disk.old).failures
        (D.state disk.new).failures) }
    ensures cost { Costs 2 (D.state disk.old) (D.state disk.new) result }
    ensures loaded { (D.state disk.new).IsHonest → IfOk result (λ l.
        records_of (D.state disk.old).bytes ≡ Ok (with_records l.journal l.records.items)) }
    ensures count { IfOk result (λ l. l.journal.count ≡ length l.records.items) }
    ensures few { IfOk result (λ l.
        length l.records.items ≤ slot_count l.journal.layout l.journal.geometry) }
    ensures going { IfOk result (λ l. IsFalse l.journal.spent) }
    ensures long_enough { IfOk result (λ l. length_of l.journal.geometry ≤ (D.state disk.old).len) }
    ensures valid { IfOk result (λ l. is_valid l.journal.geometry ≡ true) }
    ensures sound { IfOk result
        (λ l. All (λ r. is_sound l.journal.geometry l.journal.layout r ≡ true) l.records.items) }
    ensures refused { IfErr result
        (λ fault. IsLoadRefusal (D.state disk.old) (D.state disk.new) fault.refusal) }
    ensures reason { IfErr result (λ fault. HasReason fault.refusal fault.reason) }

    // The reason is so of the disk's bytes.
    ensures so { (D.state disk.new).IsHonest → IfErr result
        (λ fault. IfSome fault.reason (IsReasonOf (D.state disk.old).bytes)) }
{
    let len = disk.len();
    if len < HEAD_SIZE as u64 {
        return Err(Fault::of(Reason::Head(HeadFault::Short { len })));
    }
    let mut head = [0; HEAD_SIZE];
    if disk.read(0, &mut head).is_err() {
        return Err(Fault::plain(Refusal::DeviceFault));
    }
    let geometry = match geometry_of_head(&head, len) {
        Ok(geometry) => geometry,
        Err(fault) => return Err(Fault::of(Reason::Head(fault))),
    };
    let half: u8 = if head[8] == 1 { 1 } else { 0 };
    let Ok(mut bytes) = vec![in alloc; 0; half_size(&geometry)] else {
        return Err(Fault::plain(Refusal::OutOfMemory));
    };
    if disk.read(half_start(&geometry, half), &mut bytes).is_err() {
        return Err(Fault::plain(Refusal::DeviceFault));
    }
    let layout = layout_of_half(&bytes);
    match records_of_half(alloc, &geometry, layout, &bytes) {
        Ok(records) => {
            let count = records.len();
            Ok(Loaded {
                journal: Journal {
                    geometry,
                    half,
                    layout,
                    count,
                    spent: false,
                },
                records,
            })
        }
        Err(fault) => Err(fault),
    }
}

impl Journal {
    /// The sizes that the disk was formatted with.
    pub fn geometry(&self) -> Geometry
        ensures { result ≡ self.now.geometry }
    {
        self.geometry
    }

    /// The layout of the half that is selected.
    pub fn layout(&self) -> Layout
        ensures { result ≡ self.now.layout }
    {
        self.layout
    }

    /// Whether no slot of the half is closed, so that a record can only come by a rewrite.
    pub fn is_full(&self) -> bool
        ensures { IsTrue result ↔ (slot_count self.now.layout self.now.geometry ≤ self.now.count) }
    {
        self.count >= self.layout.slot_count(&self.geometry)
    }

    /// How many records it has, each in a slot of the half.
    pub fn record_count(&self) -> usize
        ensures { result ≡ self.now.count }
    {
        self.count
    }

    /// Whether a disk fault has come in a call that writes. Nothing can be written then.
    pub fn is_spent(&self) -> bool
        ensures { result ≡ self.now.spent }
    {
        self.spent
    }

    /// Whether every gate of the half after the first closed one is closed. It reads the half,
    /// 4,096 bytes at once, and only reads. The only refusal is `DeviceFault`.
    pub fn is_clean<D: Disk>(&self, disk: &mut D) -> Result<bool, Refusal>
        requires long_enough { length_of self.now.geometry ≤ (D.state disk.old).len }
        ensures only_reads { OnlyReads (D.state disk.old) (D.state disk.new) }
        ensures cause { IsErr result
            → Rises (D.state disk.old).failures (D.state disk.new).failures }
        ensures fault { IfErr result (λ refusal. refusal ≡ DeviceFault) }
        ensures calm { OnOk result ((D.state disk.new).failures ≡ (D.state disk.old).failures) }
        ensures cost { (D.state disk.new).calls
            ≤ (D.state disk.old).calls + gate_reads self.now.geometry }
        ensures exact { (D.state disk.new).IsHonest → StandsWhere self.now (D.state disk.old).bytes
            → IfOk result (λ clean. clean ≡ has_clean_gates
            (geometry_of (D.state disk.old).bytes) (D.state disk.old).bytes) }
    {
        let Ok(clean) = are_gates_clean(disk, &self.geometry, self.half, self.layout) else {
            return Err(Refusal::DeviceFault);
        };
        Ok(clean)
    }

    /// Where the first closed slot lies.
    fn next_place(&self) -> u64
        requires { self.now.count < slot_count self.now.layout self.now.geometry }
        ensures value { result ≡ start_of_slot self.now self.now.count }
        ensures low { result < 2 ^ 62 }
    {
        place_of_slot(&self.geometry, self.half, self.layout, self.count)
    }

    /// Adds a record in the first closed slot: the slot without its gate, a sync, the gate, a sync.
    /// After `DeviceFault`, the only refusal, the journal is spent.
    pub fn append<D: Disk>(&mut self, disk: &mut D, entry: &Record) -> Result<(), Refusal>
        requires not_full { self.old.count < slot_count self.old.layout self.old.geometry }
        requires going { IsFalse self.old.spent }
        requires long_enough { length_of self.old.geometry ≤ (D.state disk.old).len }
        requires sound { is_sound self.old.geometry self.old.layout entry.now ≡ true }

        ensures keeps { Keeps (D.state disk.old) (D.state disk.new) }
        ensures cause { HasCause (D.state disk.old).failures (D.state disk.new).failures result }
        ensures fault { IfErr result (λ refusal. refusal ≡ DeviceFault) }
        ensures cost { Costs 4 (D.state disk.old) (D.state disk.new) result }
        ensures spent { OnErr result (self.new ≡ record self.old { spent = true }) }
        ensures added { OnOk result (self.new ≡ record self.old { count = self.old.count + 1 }) }

        // At each moment a crash leaves the records from before the call, with the new one or
        // without.
        ensures any_moment { (records : List Record)
            → HoldsRecords self.old records (D.state disk.old)
            → FoldOf self.old (records ++ entry.now ∷ [])
            → Throughout (D.state disk.old) (D.state disk.new)
            (WithoutOrWith self.old records entry.now (D.state disk.old)) }
        ensures ok { (records : List Record) → HoldsRecords self.old records (D.state disk.old)
            → FoldOf self.old (records ++ entry.now ∷ [])
            → OnOk result (HoldsRecords self.new (records ++ entry.now ∷ []) (D.state disk.new)) }
        ensures area { (records : List Record) → HoldsRecords self.old records (D.state disk.old)
            → FoldOf self.old (records ++ entry.now ∷ [])
            → OnOk result (OnlyReadArea self.old (D.state disk.old) (D.state disk.new)) }
    {
        let place = self.next_place();
        let slot = slot_bytes(self.layout, entry);
        self.spent = true;
        let Ok(()) = write_slot(disk, place, &slot) else {
            return Err(Refusal::DeviceFault);
        };
        self.count += 1;
        self.spent = false;
        Ok(())
    }

    /// Writes these records into the other half, in the journal's layout, slot by slot; then a
    /// sync, the selector, a sync. After `DeviceFault`, the only refusal, the journal is spent.
    pub fn rewrite<D: Disk>(&mut self, disk: &mut D, given: &[Record]) -> Result<(), Refusal>
        requires some { 0 < length given.now }
        requires few { length given.now ≤ slot_count self.old.layout self.old.geometry }
        requires going { IsFalse self.old.spent }
        requires long_enough { length_of self.old.geometry ≤ (D.state disk.old).len }
        requires sound { AreSound self.old.geometry self.old.layout given.now }

        ensures keeps { Keeps (D.state disk.old) (D.state disk.new) }
        ensures cause { HasCause (D.state disk.old).failures (D.state disk.new).failures result }
        ensures fault { IfErr result (λ refusal. refusal ≡ DeviceFault) }
        ensures cost { Costs (slot_count self.old.layout self.old.geometry + 3)
            (D.state disk.old) (D.state disk.new) result }
        ensures spent { OnErr result (self.new ≡ record self.old { spent = true }) }
        ensures rewrites { RewritesTo self.old.layout given.now self.old self.new
            (D.state disk.old) (D.state disk.new) result }
    {
        let layout = self.layout;
        self.write_other_half(disk, layout, given)
    }

    /// The same from layout 1 into layout 2.
    pub fn migrate<D: Disk>(&mut self, disk: &mut D, given: &[Record]) -> Result<(), Refusal>
        requires first_layout { self.old.layout ≡ One }
        requires some { 0 < length given.now }
        requires few { length given.now ≤ slot_count Two self.old.geometry }
        requires going { IsFalse self.old.spent }
        requires long_enough { length_of self.old.geometry ≤ (D.state disk.old).len }
        requires sound { AreSound self.old.geometry Two given.now }

        ensures keeps { Keeps (D.state disk.old) (D.state disk.new) }
        ensures cause { HasCause (D.state disk.old).failures (D.state disk.new).failures result }
        ensures fault { IfErr result (λ refusal. refusal ≡ DeviceFault) }
        ensures cost { Costs (slot_count Two self.old.geometry + 3)
            (D.state disk.old) (D.state disk.new) result }
        ensures spent { OnErr result (self.new ≡ record self.old { spent = true }) }
        ensures rewrites { RewritesTo Two given.now self.old self.new
            (D.state disk.old) (D.state disk.new) result }
    {
        self.write_other_half(disk, Layout::Two, given)
    }

    /// Writes these records into the other half, in this layout, and selects it.
    fn write_other_half<D: Disk>(
        &mut self,
        disk: &mut D,
        layout: Layout,
        given: &[Record],
    ) -> Result<(), Refusal>
        requires some { 0 < length given.now }
        requires few { length given.now ≤ slot_count layout self.old.geometry }
        requires going { IsFalse self.old.spent }
        requires long_enough { length_of self.old.geometry ≤ (D.state disk.old).len }
        requires sound { AreSound self.old.geometry layout given.now }

        ensures keeps { Keeps (D.state disk.old) (D.state disk.new) }
        ensures cause { HasCause (D.state disk.old).failures (D.state disk.new).failures result }
        ensures fault { IfErr result (λ refusal. refusal ≡ DeviceFault) }
        ensures cost { Costs (slot_count layout self.old.geometry + 3)
            (D.state disk.old) (D.state disk.new) result }
        ensures spent { OnErr result (self.new ≡ record self.old { spent = true }) }
        ensures rewrites { RewritesTo layout given.now self.old self.new
            (D.state disk.old) (D.state disk.new) result }
    {
        let other = 1 - self.half;
        self.spent = true;
        let Ok(()) = fill_half(disk, &self.geometry, other, layout, given) else {
            return Err(Refusal::DeviceFault);
        };
        let Ok(()) = publish(disk, SELECTOR, &[other]) else {
            return Err(Refusal::DeviceFault);
        };
        self.half = other;
        self.layout = layout;
        self.count = given.len();
        self.spent = false;
        Ok(())
    }
}
