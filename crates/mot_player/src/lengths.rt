//! How many packets an entity takes.
ghost use Rattle.std.specs.Prelude.{◌≡◌, ℕ, ◌^◌, ◌<◌, ◌≤◌, List, length};
ghost use Rattle.mot_directory.specs.declared.directory.TheConstants.{MAX_DIRECTORY};
ghost use Rattle.mot_groups.specs.Entity.{segments_of};
ghost use Rattle.mot_numbers.specs.PacketLength.{room_of};
ghost use Rattle.mot_player.specs.Place.{packets_of_segments};

use mot_groups::segment_count;
use mot_numbers::{PacketLength, SegmentSize};
use mot_packets::packet_count;

/// How many bytes of a group are not its segment's.
const GROUP_FRAME: usize = 11;

/// How many packets an entity of so many bytes takes, which is no longer than a directory.
pub(crate) fn packets_of_entity(
    len: usize,
    segment_size: SegmentSize,
    full_length: PacketLength,
) -> usize
    requires some { 0 < len }
    requires short { len ≤ MAX_DIRECTORY }
    ensures value { (kind tid : ℕ) (bytes : List ℕ) → length bytes ≡ len → result
        ≡ packets_of_segments (room_of full_length) (segments_of kind tid segment_size bytes) }
    ensures few { result < 2 ^ 32 }
{
    let size = usize::from(segment_size.get());
    let full = segment_count(len, segment_size) - 1;
    let last = len - full * size;
    let packets_of_full = packet_count(size + GROUP_FRAME, full_length);
    full * packets_of_full + packet_count(last + GROUP_FRAME, full_length)
}
