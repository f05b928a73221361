//! The last data group of each type, and beginning the next one.
ghost use Rattle.std.specs.Prelude.{◌≡◌, ◌<◌, ◌≤◌, length, vec_len, vec_capacity, bytes_eq};

use mot_groups::{content_front, write_group};
use mot_numbers::{GroupKind, TransportId};
use std::alloc::{AllocError, Global};

/// The group of a type that was begun last: its continuity index, its segment, and the bytes in
/// front of that in its content. The segment is empty if no group was begun.
#[derive(Drop)]
pub(crate) struct LastGroup {
    pub index: u8,
    pub front: [u8; 7],
    pub segment: Vec<u8>,
    ghost in_range: { index < 16 },
    ghost whole: { length front ≡ 7 },
}

impl LastGroup {
    ghost use Rattle.std.specs.Prelude.{◌+◌, ◌^◌, [], ◌++◌, Some, None, IfOk};
    ghost use Rattle.mot_numbers.specs.PacketLength.{kind_number};
    ghost use Rattle.mot_numbers.specs.declared.numbers.TheConstants.{MAX_SEGMENT};
    ghost use Rattle.mot_groups.specs.Group.{GroupFields, IsGroup, content_of, bytes_of_group};
    ghost use Rattle.mot_groups.specs.Group.{group_of, read_group, segment_content};
    ghost use Rattle.mot_player.specs.PlayerView.{kept_last};
    ghost use Rattle.mot_player.specs.Place.{Last, next_index};

    /// None was begun. There is room for segments of so many bytes.
    pub fn none(alloc: Global, capacity: usize) -> Result<Self, AllocError>
        ensures none { IfOk result (λ last. kept_last last ≡ None) }
        ensures capacity { IfOk result (λ last. vec_capacity last.segment ≡ capacity) }
    {
        Ok(LastGroup {
            index: 0,
            front: [0; 7],
            segment: Vec::with_capacity(alloc, capacity)?,
        })
    }

    /// The continuity index of a group of this content.
    pub fn next_index(&self, front: &[u8; 7], segment: &[u8]) -> u8
        requires { length front.now ≡ 7 }
        ensures value { result ≡ next_index (kept_last self.now) (front.now ++ segment.now) }
        ensures range { result < 16 }
    {
        if self.segment.is_empty() {
            0
        } else if is_same_front(&self.front, front) && self.segment.as_slice() == segment {
            self.index
        } else {
            (self.index + 1) % 16
        }
    }

    /// Keeps the group of this index and content, for which there is room.
    pub fn keep(&mut self, index: u8, front: &[u8; 7], segment: &[u8])
        requires index { index < 16 }
        requires front { length front.now ≡ 7 }
        requires some { 0 < length segment.now }
        requires room { length segment.now ≤ vec_capacity self.old.segment }
        ensures last { kept_last self.new
            ≡ Some (record { index = index; content = front.now ++ segment.now }) }
        ensures capacity { vec_capacity self.old.segment ≤ vec_capacity self.new.segment }
    {
        self.index = index;
        self.front = *front;
        self.segment.clear();
        self.segment.extend_from_slice(segment).unwrap();
    }
    /// Writes the group of a segment in place of another, with the continuity index that follows
    /// from this one, and keeps it in place of this one.
    pub fn begin_group(
        &mut self,
        group: &mut Vec<u8>,
        kind: GroupKind,
        tid: TransportId,
        number: u16,
        is_last: bool,
        segment: &[u8],
    )
        requires room { length segment.now + 11 ≤ vec_capacity group.old }
        requires last { length segment.now ≤ vec_capacity self.old.segment }
        requires number { number < 2 ^ 15 }
        requires segment { (0 < length segment.now) × (length segment.now ≤ MAX_SEGMENT) }
        ensures written { let s = (group_of 0 (kind_number kind) tid number is_last
            segment.now).segment in
            let index = next_index (kept_last self.old) (segment_content s) in
            group.new.items ≡ bytes_of_group (record { index = index; segment = s }) }
        ensures last { let s = (group_of 0 (kind_number kind) tid number is_last
            segment.now).segment in
            let index = next_index (kept_last self.old) (segment_content s) in
            kept_last self.new ≡ Some (record { index = index; content = segment_content s }) }
        ensures len { vec_len group.new ≡ length segment.now + 11 }
        ensures capacity { vec_capacity group.old ≤ vec_capacity group.new }
        ensures last_capacity { vec_capacity self.old.segment ≤ vec_capacity self.new.segment }
    {
        let front = content_front(tid, number, is_last, segment.len() as u16);
        let index = self.next_index(&front, segment);
        group.clear();
        write_group(group, kind, index, tid, number, is_last, segment);
        self.keep(index, &front, segment);
    }
}

/// Whether two fronts are the same. Those of two segments of an entity mostly differ in the low byte
/// of their numbers: so it is looked at first.
fn is_same_front(one: &[u8; 7], other: &[u8; 7]) -> bool
    requires { (length one.now ≡ 7) × (length other.now ≡ 7) }
    ensures { result ≡ bytes_eq one.now other.now }
{
    one[1] == other[1] && one == other
}
