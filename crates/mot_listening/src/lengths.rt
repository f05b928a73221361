//! The lengths of the packets of a group.
ghost use Rattle.std.specs.Prelude.{◌≡◌, ◌≤◌};
ghost use Rattle.mot_numbers.specs.PacketLength.{room_of};
ghost use Rattle.mot_listening.specs.Entities.{packet_length};
ghost use Rattle.mot_listening.specs.Lengths.{frame_packets};

use mot_numbers::PacketLength;

/// How many bytes of a group are none of its segment.
pub const GROUP_FRAME: usize = 11;

/// How many bytes the packet has that carries the next of what is left of a group.
pub fn packet_for(rest: usize, full_length: PacketLength) -> usize
    ensures { result ≡ packet_length (room_of full_length) rest }
{
    if rest <= full_length.room() {
        PacketLength::shortest_for(rest).bytes()
    } else {
        full_length.bytes()
    }
}

/// How many packets of this length a frame of a sub-channel of this rate in kbit/s holds, and one at
/// least: a frame of 24 ms has three bytes for each kbit/s.
pub fn frame_packets(rate: u32, length: u16) -> u32
    requires { 24 ≤ length }
    ensures { result ≡ frame_packets rate length }
{
    let packets = 3 * u64::from(rate) / u64::from(length);
    (packets as u32).max(1)
}
