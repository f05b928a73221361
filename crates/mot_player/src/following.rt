//! What goes on of a turn in the one that comes.
ghost use Rattle.std.specs.Prelude.{◌≡◌, ◌+◌, ◌^◌, ◌<◌, ◌≤◌, ◌++◌, vec_capacity, vec_len, length};
ghost use Rattle.mot_player.specs.Inner.Course.{entities_not_begun, fresh_of, kept, kept_of};
ghost use Rattle.mot_player.specs.Inner.Course.{rest_from};

use crate::course::Waiting;
use crate::difference::Difference;

/// Queues what waits of the entities that stay.
pub(crate) fn keep(queue: &mut Vec<Waiting>, waiting: &[Waiting], difference: Difference)
    requires room { vec_len queue.old + length waiting.now ≤ vec_capacity queue.old }
    ensures kept { queue.new.items ≡ queue.old.items ++ kept_of difference waiting.now }
    ensures few { vec_len queue.new ≤ vec_len queue.old + length waiting.now }
    ensures room { vec_capacity queue.new ≡ vec_capacity queue.old }
{
    for w in waiting {
        if let Some(entity) = kept(difference, *w) {
            queue.push_reserved(entity);
        }
    }
}

/// How many of them are not begun.
pub(crate) fn entities_not_begun(queue: &[Waiting]) -> usize
    ensures count { result ≡ entities_not_begun queue.now }
{
    let mut count = 0;
    for waiting in queue {
        if waiting.segment == 0 {
            count += 1;
        }
    }
    count
}

/// What waits of an entity, by its number in the turn that comes; `None` of one that went.
fn kept(difference: Difference, waiting: Waiting) -> Option<Waiting>
    ensures { result ≡ kept difference waiting }
{
    let Waiting { entity, segment } = waiting;
    match difference {
        Difference::Changed(gone) | Difference::Removed(gone) if entity == gone => None,
        Difference::Removed(gone) if entity > gone => Some(Waiting {
            entity: entity - 1,
            segment,
        }),
        _ => Some(waiting),
    }
}

/// The body that came, whole.
pub(crate) fn fresh(difference: Difference, entity_count: usize) -> Option<Waiting>
    ensures { result ≡ fresh_of difference entity_count }
{
    match difference {
        Difference::Added => Some(Waiting {
            entity: entity_count,
            segment: 0,
        }),
        Difference::Changed(entity) => Some(Waiting { entity, segment: 0 }),
        Difference::Nothing | Difference::Removed(_) => None,
    }
}

/// From which segment on the bodies come, where the body that came is queued or is not.
pub(crate) fn rest_from(
    difference: Difference,
    is_queued: bool,
    entity_count: usize,
    waiting: Waiting,
) -> Waiting
    requires within { waiting.entity ≤ entity_count }
    requires few { entity_count < 2 ^ 32 }
    ensures { result ≡ rest_from difference is_queued entity_count waiting }
{
    let Waiting { entity, segment } = waiting;
    match difference {
        Difference::Added if entity == entity_count && is_queued => Waiting {
            entity: entity + 1,
            segment: 0,
        },
        Difference::Changed(gone) if entity == gone && segment > 0 => Waiting {
            entity: entity + 1,
            segment: 0,
        },
        Difference::Removed(gone) if entity == gone => Waiting { entity, segment: 0 },
        Difference::Removed(gone) if entity > gone => Waiting {
            entity: entity - 1,
            segment,
        },
        _ => waiting,
    }
}
