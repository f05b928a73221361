//! The data groups of an entity.
ghost use Rattle.std.specs.Prelude.{◌≡◌, ℕ, ◌+◌, ◌^◌, ◌<◌, ◌≤◌, List, ◌++◌, length, vec_len};
ghost use Rattle.std.specs.Prelude.{vec_capacity, Some};
ghost use Rattle.std.specs.Int.{div_ceil};
ghost use Rattle.mot_groups.specs.Entity.{IsCut, pieces};
ghost use Rattle.mot_groups.specs.Group.{bytes_of_group, content_head, group_of, read_group};
ghost use Rattle.mot_groups.specs.Laws.{EntitiesReadBack, GroupsHaveTheirContent, GroupsReadBack};
ghost use Rattle.mot_groups.specs.Laws.{OnlyOwnBytesRead};
ghost use Rattle.mot_numbers.specs.PacketLength.{kind_number};

use mot_base::{append, append_number, crc16};
use mot_numbers::{GroupKind, MAX_SEGMENT, SegmentSize, TransportId};

/// A group's first four bits: no extension field, but a checksum, a segment and a user access
/// field.
const FLAGS: u8 = 0x70;

/// The user access field's first byte: a transport id, and with it 2 bytes in all.
const TRANSPORT_ID: u8 = 0x12;

/// How many segments of this size an entity of `len` bytes is cut into: each has the size but the
/// last, which may be shorter (EN 301 234).
pub fn segment_count(len: usize, size: SegmentSize) -> usize
    ensures count { result ≡ div_ceil len size }
    ensures number { (bytes : List ℕ) → length bytes ≡ len
        → length (pieces size bytes) ≡ result }
    ensures cut { (bytes : List ℕ) → IsCut size bytes (pieces size bytes) }

    // What the segments and their groups read as.
    ensures entities { EntitiesReadBack size }
    ensures groups { GroupsReadBack }
    ensures contents { GroupsHaveTheirContent }
{
    len.div_ceil(usize::from(size.get()))
}

/// The bytes of a group's content that stand in front of its segment of so many bytes: whether it
/// is the last, its number, its transport id and its size (EN 300 401, clause 5.3.3). With the
/// segment they are all that its continuity index depends on.
pub fn content_front(tid: TransportId, number: u16, last: bool, size: u16) -> [u8; 7]
    requires { number < 2 ^ 15 }
    ensures { result ≡ content_head number last tid size }
{
    let [flag_and_high, low] = (u16::from(last) << 15 | number).to_be_bytes();
    let [tid_high, tid_low] = tid.get().to_be_bytes();
    let [size_high, size_low] = size.to_be_bytes();
    [
        flag_and_high,
        low,
        TRANSPORT_ID,
        tid_high,
        tid_low,
        size_high,
        size_low,
    ]
}

/// Appends one data group (EN 300 401, clause 5.3.3): the segment's bytes and 11 more, for which
/// `out` has room. It takes no memory.
///
/// `index` is the group's continuity index, 0 to 15; `number` is the segment's number in its
/// entity, 0 to 32,767, and `last` says that no more follow; the segment has 1 to 8,189 bytes.
pub fn write_group(
    out: &mut Vec<u8>,
    kind: GroupKind,
    index: u8,
    tid: TransportId,
    number: u16,
    last: bool,
    segment: &[u8],
)
    requires room { vec_len out.old + length segment.now + 11 ≤ vec_capacity out.old }
    requires index { index < 16 }
    requires number { number < 2 ^ 15 }
    requires segment { (0 < length segment.now) × (length segment.now ≤ MAX_SEGMENT) }
    ensures written { let group = group_of index (kind_number kind) tid number last segment.now in
        out.new.items ≡ out.old.items ++ bytes_of_group group }
    ensures len { vec_len out.new ≡ vec_len out.old + length segment.now + 11 }
    ensures capacity { vec_capacity out.new ≡ vec_capacity out.old }

    // What was written reads as the arguments, and nothing else does.
    ensures reads { let group = group_of index (kind_number kind) tid number last segment.now in
        read_group (bytes_of_group group) ≡ Some group }
    ensures only { OnlyOwnBytesRead }
{
    let start = out.len();
    append(out, &[FLAGS | kind.number(), index << 4]);
    append(out, &content_front(tid, number, last, segment.len() as u16));
    append(out, segment);
    let checksum = crc16(&out.as_slice()[start..]);
    append_number(out, checksum);
}
