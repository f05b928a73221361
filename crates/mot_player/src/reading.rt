//! Reading the bytes of an entity.
ghost use Rattle.std.specs.Prelude.{◌≡◌, ◌+◌, ◌<◌, ◌≤◌, length, take, drop, vec_len, slice_range};
ghost use Rattle.std.specs.Prelude.{OnOk};
ghost use Rattle.mot_player.specs.Turn.{ReadsBodies};
ghost use Rattle.mot_player.specs.PlayerView.{AreBodiesFor};
ghost use Rattle.mot_player.specs.Inner.Entities.{entity_bytes, entity_length};

use crate::{Bodies, Turn};
use mot_numbers::Refusal;

/// Reads bytes of an entity of a turn, from a place in it on, into the front of the buffer. The
/// only refusal is `DeviceFault`.
pub(crate) fn read_front<B: Bodies>(
    turn: &Turn,
    bodies: &mut B,
    entity: usize,
    from: usize,
    len: usize,
    buffer: &mut Vec<u8>,
) -> Result<(), Refusal>
    requires bodies { AreBodiesFor turn.now (B.bodies bodies.old) }
    requires entity { entity < length turn.now.bodies + 1 }
    requires range { from + len ≤ entity_length turn.now entity }
    requires room { len ≤ vec_len buffer.old }
    ensures len { vec_len buffer.new ≡ vec_len buffer.old }
    ensures reads { ReadsBodies B.bodies B.IsHonest B.failures B.HasOnlyRead bodies.old
        bodies.new result }
    ensures bytes { B.IsHonest bodies.new → OnOk result
        (take len buffer.new.items
        ≡ take len (drop from (entity_bytes turn.now (B.bodies bodies.old) entity))) }

    // The directory stands in the turn, and no read can change it.
    ensures directory { entity ≡ 0 → OnOk result
        (take len buffer.new.items ≡ take len (drop from turn.now.directory)) }
{
    let (front, _) = buffer.as_mut_slice().split_at_mut(len);
    read_entity(turn, bodies, entity, from, front)
}

/// Reads the bytes of an entity of a turn from a place in it on. The only refusal is `DeviceFault`.
fn read_entity<B: Bodies>(
    turn: &Turn,
    bodies: &mut B,
    entity: usize,
    from: usize,
    out: &mut [u8],
) -> Result<(), Refusal>
    requires bodies { AreBodiesFor turn.now (B.bodies bodies.old) }
    requires entity { entity < length turn.now.bodies + 1 }
    requires range { from + length out.old ≤ entity_length turn.now entity }
    ensures reads { ReadsBodies B.bodies B.IsHonest B.failures B.HasOnlyRead bodies.old
        bodies.new result }
    ensures bytes { B.IsHonest bodies.new → OnOk result
        (out.new ≡ slice_range (entity_bytes turn.now (B.bodies bodies.old) entity) from
        (from + length out.old)) }
    ensures directory { entity ≡ 0 → OnOk result
        (out.new ≡ slice_range turn.now.directory from (from + length out.old)) }
{
    if entity == 0 {
        out.copy_from_slice(&turn.directory()[from..from + out.len()]);
        Ok(())
    } else {
        bodies.read(entity - 1, from, out)
    }
}
