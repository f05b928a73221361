//! The gates of a half, as they are read.
ghost use Rattle.std.specs.Prelude.{◌≡◌, ◌+◌, ◌/◌, ◌≤◌, length, IfOk, OnOk, IsErr};
ghost use Rattle.disk_model.specs.Disk.{OnlyReads, Rises};
ghost use Rattle.mot_journal.specs.Image.{are_gates_clean as gates_clean, gate_reads, slots_in};
ghost use Rattle.mot_journal.specs.Slot.{slot_size};
ghost use Rattle.mot_journal.specs.Inner.Steps.{scan, slots_in_half};
ghost use Rattle.mot_numbers.specs.Geometry.{length_of};

use crate::encoding::OPEN;
use crate::places::{half_size, half_start};
use crate::{Geometry, Layout};
use disk_model::{Disk, DiskFault};

/// The most bytes of a half that are read at once: whole slots, of either layout.
const PIECE: usize = 4096;

/// Whether every gate of a half after the first closed one is closed.
pub fn are_gates_clean<D: Disk>(
    disk: &mut D,
    geometry: &Geometry,
    half: u8,
    layout: Layout,
) -> Result<bool, DiskFault>
    requires two_halves { half ≤ 1 }
    requires long_enough { length_of geometry.now ≤ (D.state disk.old).len }
    ensures only_reads { OnlyReads (D.state disk.old) (D.state disk.new) }
    ensures cause { IsErr result → Rises (D.state disk.old).failures (D.state disk.new).failures }
    ensures calm { OnOk result ((D.state disk.new).failures ≡ (D.state disk.old).failures) }
    ensures cost { (D.state disk.new).calls ≤ (D.state disk.old).calls + gate_reads geometry.now }
    ensures exact { (D.state disk.new).IsHonest → IfOk result (λ clean. clean
        ≡ gates_clean (slots_in_half geometry.now half layout (D.state disk.old).bytes)) }
{
    let mut piece = [0; PIECE];
    let mut is_shut = false;
    for number in 0..half_size(geometry).div_ceil(PIECE) {
        let from = number * PIECE;
        let count = PIECE.min(half_size(geometry) - from);
        let slots = &mut piece[..count];
        disk.read(half_start(geometry, half) + from as u64, slots)?;
        match last_gate(slots, layout, is_shut) {
            Some(is_now) => is_shut = is_now,
            None => return Ok(false),
        }
    }
    Ok(true)
}

/// Whether the last gate of these slots is closed, or the one before them if there are none; `None`
/// if one is open after a closed one.
fn last_gate(slots: &[u8], layout: Layout, was_shut: bool) -> Option<bool>
    ensures { result ≡ scan was_shut
        (slots_in (slot_size layout) (length slots.now / slot_size layout) slots.now) }
{
    let size = layout.slot_size();
    let mut is_shut = was_shut;
    for number in 0..slots.len() / size {
        let is_open = slots[number * size] == OPEN;
        if is_open & is_shut {
            return None;
        }
        is_shut = !is_open;
    }
    Some(is_shut)
}
