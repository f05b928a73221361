//! The newest bodies of a turn.
ghost use Rattle.std.specs.Prelude.{◌≡◌, IfOk};
ghost use Rattle.mot_player.specs.Inner.Difference.{plans_of};
ghost use Rattle.mot_player.specs.Inner.Newest.{first_from, ids_of};
ghost use Rattle.mot_player.specs.Start.{age, is_new, younger};

use crate::course::Waiting;
use crate::planned_body::PlannedBody;
use mot_numbers::TransportId;
use std::alloc::{AllocError, Global};

/// The newest of these bodies, at most so many, each from its first segment on. `cursor` is the
/// transport id that was taken last.
pub(crate) fn newest(
    alloc: Global,
    bodies: &[PlannedBody],
    cursor: TransportId,
    most: usize,
) -> Result<Vec<Waiting>, AllocError>
    ensures { IfOk result (λ queue. queue.items
        ≡ first_from (is_new most cursor (ids_of (plans_of bodies.now))) most 1
        (plans_of bodies.now)) }
{
    let mut queue = Vec::new(alloc);
    let mut left = most;
    let mut entity = 0;
    for body in bodies {
        entity += 1;
        if is_new(bodies, cursor, most, body.tid) && left > 0 {
            left -= 1;
            queue.push(Waiting { entity, segment: 0 })?;
        }
    }
    Ok(queue)
}

/// Whether fewer than so many of the bodies are younger than the one of this id.
fn is_new(bodies: &[PlannedBody], cursor: TransportId, most: usize, id: TransportId) -> bool
    ensures { result ≡ is_new most cursor (ids_of (plans_of bodies.now)) id }
{
    younger(bodies, cursor, age(cursor, id)) < most
}

/// How many of the bodies are younger than this age.
fn younger(bodies: &[PlannedBody], cursor: TransportId, old: usize) -> usize
    ensures { result ≡ younger cursor old (ids_of (plans_of bodies.now)) }
{
    let mut count = 0;
    for body in bodies {
        if age(cursor, body.tid) < old {
            count += 1;
        }
    }
    count
}

/// How old an id is: how far it lies behind the one that was taken last.
fn age(cursor: TransportId, id: TransportId) -> usize
    ensures { result ≡ age cursor id }
{
    (usize::from(cursor.get()) + 65_535 - usize::from(id.get())) % 65_535
}
