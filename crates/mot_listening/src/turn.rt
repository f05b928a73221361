//! How many packets a turn has, and how many bytes these; and the checksum of its directory.
ghost use Rattle.std.specs.Prelude.{◌≡◌, ◌+◌, ◌<◌, ◌≤◌, ◌^◌, IfErr, IfOk, List, [], ℕ, length};
ghost use Rattle.std.specs.List.{sum};
ghost use Rattle.mot_listening.specs.Entities.{entity_lengths, group_lengths};
ghost use Rattle.mot_listening.specs.Lengths.{size_of, size_of_turn};
ghost use Rattle.mot_numbers.specs.PacketLength.{room_of};
ghost use Rattle.mot_numbers.specs.declared.refusal.Refusal.TheVariants.{OutOfMemory};
ghost use Rattle.mot_objects.specs.Stands.{AreBodiesOf, carousel_of};
ghost use Rattle.mot_objects.specs.declared.body.TheConstants.{MAX_BODY};
ghost use Rattle.mot_player.specs.Turn.{turn_of_carousel};

use crate::lengths::{GROUP_FRAME, packet_for};
use mot_base::crc16;
use mot_directory::directory_bytes;
use mot_groups::segment_count;
use mot_numbers::{PacketLength, Refusal, SegmentSize};
use mot_objects::Carousel;
use mot_packets::packet_count;
use std::alloc::Global;

/// How many packets a turn has, and how many bytes these; and the checksum of its directory.
#[derive(Clone, Copy)]
pub struct TurnSize {
    /// The packets.
    pub packets: u64,
    /// Their bytes.
    pub bytes: u64,
    /// The checksum word of the directory's bytes, before they are cut into segments.
    pub checksum: u16,
}

impl TurnSize {
    /// No packet, and no directory.
    pub fn none() -> TurnSize
        ensures { result ≡ size_of 0 [] }
    {
        TurnSize::begun(0)
    }

    /// No packet so far, of a turn whose directory has this checksum.
    fn begun(checksum: u16) -> TurnSize
        ensures { result ≡ size_of checksum [] }
    {
        TurnSize {
            packets: 0,
            bytes: 0,
            checksum,
        }
    }

    /// The packets of a directory or body of so many bytes.
    fn count_entity(&mut self, full_length: PacketLength, segment_size: SegmentSize, len: usize)
        requires short { len ≤ MAX_BODY }
        requires few { (self.old.packets ≤ 2 ^ 60) × (self.old.bytes ≤ 2 ^ 60) }
        ensures packets { self.new.packets ≡ self.old.packets
            + length (entity_lengths (room_of full_length) segment_size len) }
        ensures bytes { self.new.bytes ≡ self.old.bytes
            + sum (entity_lengths (room_of full_length) segment_size len) }
        ensures checksum { self.new.checksum ≡ self.old.checksum }
        ensures few { (self.new.packets ≤ self.old.packets + 2 ^ 50)
            × (self.new.bytes ≤ self.old.bytes + 2 ^ 50) }
    {
        let (packets, bytes) = entity_size(full_length, segment_size, len);
        self.packets += packets as u64;
        self.bytes += bytes as u64;
    }
}

/// How many packets carry a directory or body of so many bytes, and how many bytes they have: all
/// groups but the last have a full segment.
fn entity_size(full_length: PacketLength, segment_size: SegmentSize, len: usize) -> (usize, usize)
    requires { len ≤ MAX_BODY }
    ensures packets { result.0
        ≡ length (entity_lengths (room_of full_length) segment_size len) }
    ensures bytes { result.1 ≡ sum (entity_lengths (room_of full_length) segment_size len) }
    ensures few { (result.0 ≤ 2 ^ 50) × (result.1 ≤ 2 ^ 50) }
{
    let count = segment_count(len, segment_size);
    if count == 0 {
        return (0, 0);
    }
    let others = count - 1;
    let full = usize::from(segment_size.get());
    let last = len.saturating_sub(others * full);
    let (full_packets, full_bytes) = group_size(full_length, full + GROUP_FRAME);
    let (last_packets, last_bytes) = group_size(full_length, last + GROUP_FRAME);
    (
        others * full_packets + last_packets,
        others * full_bytes + last_bytes,
    )
}

/// How many packets carry a group of so many bytes, and how many bytes they have: all but the last
/// are full.
fn group_size(full_length: PacketLength, len: usize) -> (usize, usize)
    requires { (0 < len) × (len < 2 ^ 20) }
    ensures packets { result.0 ≡ length (group_lengths (room_of full_length) len) }
    ensures bytes { result.1 ≡ sum (group_lengths (room_of full_length) len) }
    ensures few { (result.0 ≤ 2 ^ 20) × (result.1 ≤ 2 ^ 28) }
{
    let count = packet_count(len, full_length);
    let others = count.saturating_sub(1);
    let rest = len.saturating_sub(others * full_length.room());
    let last = packet_for(rest, full_length);
    (count, others * full_length.bytes() + last)
}

/// What a turn of this carousel takes, from its beginning on, with the directory once; and the
/// checksum of the directory, which two carousels share only by chance if any of their objects
/// differs in its name, type, length, transport id or version. It takes memory for the directory's
/// bytes, and gives it back. The only refusal is `OutOfMemory`.
pub fn turn_size(
    alloc: Global,
    carousel: &Carousel,
    segment_size: SegmentSize,
    full_length: PacketLength,
) -> Result<TurnSize, Refusal>
    ensures counted { (bodies : List (List ℕ)) → AreBodiesOf carousel.now bodies
        → IfOk result (λ size. size ≡ size_of_turn (room_of full_length) segment_size
        (turn_of_carousel (carousel_of carousel.now bodies) segment_size)) }
    ensures refused { IfErr result (λ r. r ≡ OutOfMemory) }
{
    let directory = directory_bytes(alloc, carousel, segment_size)?;
    let mut turn = TurnSize::begun(crc16(&directory));
    turn.count_entity(full_length, segment_size, directory.len());
    for object in &carousel.objects {
        turn.count_entity(full_length, segment_size, object.length.get() as usize);
    }
    Ok(turn)
}
