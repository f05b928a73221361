//! Which part of a turn comes next.
ghost use Rattle.std.specs.Prelude.{◌≡◌, ℕ, ◌+◌, ◌*◌, ◌^◌, ◌<◌, ◌≤◌, ◌==◌, List, length};
ghost use Rattle.std.specs.Prelude.{if◌then◌else◌};
ghost use Rattle.mot_numbers.specs.declared.numbers.TheConstants.{MAX_SEGMENT};
ghost use Rattle.mot_player.specs.Inner.Next.{IsNext, TakesEarly};
ghost use Rattle.mot_player.specs.Course.{course_of};
ghost use Rattle.mot_player.specs.Inner.Course.{passed};
ghost use Rattle.mot_player.specs.Inner.Entities.{IsOnCourse, IsPlannable, entity_length};

use crate::Turn;
use crate::course::Course;
use mot_groups::segment_count;
use mot_numbers::SegmentSize;

/// A segment of an entity of a turn, and the next one.
#[derive(Clone, Copy)]
pub(crate) struct Part {
    pub entity: usize,
    /// Where in the entity its bytes begin, and how many there are.
    pub from: usize,
    pub len: usize,
    pub number: u16,
    pub is_last: bool,
    pub next_entity: usize,
    pub next_segment: usize,
}

/// The segment that is due on a course.
pub(crate) fn part_at(turn: &Turn, size: SegmentSize, course: &Course) -> Part
    requires { IsOnCourse turn.now size (course_of course.now) }
    ensures entity { result.entity < length turn.now.bodies + 1 }
    ensures range { result.from + result.len ≤ entity_length turn.now result.entity }
    ensures len { (0 < result.len) × (result.len ≤ size) }
    ensures number { result.number < 2 ^ 15 }
    ensures on_course { IsOnCourse turn.now size
        (passed (length turn.now.bodies + 1) result (course_of course.now)) }
    ensures next { IsNext turn.now size (course_of course.now) result }
    ensures early { TakesEarly turn.now size (course_of course.now) result }
{
    let due = course.due(turn.entity_count());
    segment_at(turn, size, due.entity, due.segment)
}

/// That segment of that entity.
fn segment_at(turn: &Turn, segment_size: SegmentSize, entity: usize, segment: usize) -> Part
    requires entity { entity < length turn.now.bodies + 1 }
    requires segment { segment * segment_size < entity_length turn.now entity }
    ensures entity { result.entity ≡ entity }
    ensures number { (result.number ≡ segment) × (result.number < 2 ^ 15) }
    ensures from { result.from ≡ segment * segment_size }
    ensures range { result.from + result.len ≤ entity_length turn.now entity }
    ensures len { (0 < result.len) × (result.len ≤ segment_size) }
    ensures full { result.from + result.len < entity_length turn.now entity
        → result.len ≡ segment_size }
    ensures is_last { result.is_last ≡ (result.from + result.len == entity_length turn.now entity) }
    ensures next_entity { result.next_entity ≡ (if result.is_last then entity + 1 else entity) }
    ensures next_segment { result.next_segment ≡ (if result.is_last then 0 else segment + 1) }
    ensures plannable { IsPlannable turn.now }
    ensures size { (64 ≤ segment_size) × (segment_size ≤ MAX_SEGMENT) }
{
    // A turn has a directory and its bodies. (The line is there for the proof.)
    let _ = turn.entity_count();
    let size = usize::from(segment_size.get());
    let entity_len = turn.entity_length(entity);
    let from = segment * size;
    let len = (entity_len - from).min(size);
    let is_last = segment + 1 == segment_count(entity_len, segment_size);
    let (next_entity, next_segment) = if is_last {
        (entity + 1, 0)
    } else {
        (entity, segment + 1)
    };
    Part {
        entity,
        from,
        len,
        number: segment as u16,
        is_last,
        next_entity,
        next_segment,
    }
}
