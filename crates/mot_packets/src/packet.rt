//! A packet, and the packets of a data group.
ghost use Rattle.std.specs.Prelude.{◌≡◌, ℕ, ◌+◌, ◌<◌, ◌≤◌, List, [], ◌∷◌, ◌++◌, length, replicate};
ghost use Rattle.std.specs.Prelude.{Some, true};
ghost use Rattle.std.specs.Int.{div_ceil};
ghost use Rattle.arrayvec.specs.ArrayVec.{array_vec_len};
ghost use Rattle.mot_numbers.specs.Reading.{AreBytes, read_each};
ghost use Rattle.mot_numbers.specs.PacketLength.{bytes_of, room_of};
ghost use Rattle.mot_packets.specs.Cut.{piece_at, pieces_of};
ghost use Rattle.mot_packets.specs.Inner.{fields_of};
ghost use Rattle.mot_packets.specs.Gather.{gather, have_address};
ghost use Rattle.mot_packets.specs.Packet.{PacketFields, read_packet};
ghost use Rattle.mot_packets.specs.Written.{IsPacket, bytes_of_packet, packets_of_group};

use crate::header::Header;
use arrayvec::ArrayVec;
use mot_base::{array_append, array_append_number, crc16};
use mot_numbers::{Address, MAX_ADDRESS, PacketLength};

/// The bytes of the longest packet.
pub const MAX_PACKET: usize = 96;

/// The bytes of the data field of the shortest packet.
const SHORTEST_ROOM: usize = 19;

/// A packet's bytes: 24, 48, 72 or 96 of them (EN 300 401, clause 5.3.2).
pub type Packet = ArrayVec<u8, MAX_PACKET>;

/// How many packets carry a group of `len` bytes: each but the last is full.
pub fn packet_count(len: usize, full_length: PacketLength) -> usize
    ensures count { result ≡ div_ceil len (room_of full_length) }

    // Packets that read as the pieces of a group gather to it alone. The packets after them at the
    // same address gather as if the group were not there.
    ensures gathers { (address index : ℕ) (group : List ℕ) (packets : List (List ℕ))
        → length group ≡ len → 0 < len
        → read_each read_packet packets ≡ Some (pieces_of (room_of full_length) address index group)
        → (length packets ≡ result) × (gather packets ≡ Some (group ∷ [])) }
    ensures goes_on { (address index : ℕ) (group : List ℕ) (packets more : List (List ℕ))
        (parts : List PacketFields) (groups : List (List ℕ)) → length group ≡ len → 0 < len
        → read_each read_packet packets ≡ Some (pieces_of (room_of full_length) address index group)
        → read_each read_packet more ≡ Some parts → have_address address parts ≡ true
        → gather more ≡ Some groups → gather (packets ++ more) ≡ Some (group ∷ groups) }

    // The packets of a group are such packets.
    ensures packets { (address index : ℕ) (group : List ℕ) → 0 < address → address ≤ MAX_ADDRESS
        → read_each read_packet (packets_of_group (room_of full_length) address index group)
        ≡ Some (pieces_of (room_of full_length) address index group) }
{
    len.div_ceil(full_length.room())
}

/// The packet that carries the bytes of a group from `at` on, as many as fit (EN 300 401, clause
/// 5.3.2). It has the full length, but a group's last has the shortest length that holds the rest.
/// `index` is its continuity index, 0 to 3.
#[inline(always)]
pub fn cut_packet(
    group: &[u8],
    at: usize,
    full_length: PacketLength,
    address: Address,
    index: u8,
) -> Packet
    requires inside { at < length group.now }
    requires index { index < 4 }
    ensures written { result.items
        ≡ bytes_of_packet (piece_at (room_of full_length) address index group.now at) }
    ensures reads { read_packet result.items
        ≡ Some (piece_at (room_of full_length) address index group.now at) }
    ensures len { array_vec_len result
        ≡ (piece_at (room_of full_length) address index group.now at).room + 5 }
    ensures bytes { AreBytes result.items }

    // Each packet that can be written reads back, and only its own bytes read as it.
    ensures reads_back { (p : PacketFields) → IsPacket p
        → read_packet (bytes_of_packet p) ≡ Some p }
    ensures only { (bytes : List ℕ) (p : PacketFields) → AreBytes bytes
        → read_packet bytes ≡ Some p → bytes ≡ bytes_of_packet p }
{
    let mut packet = Packet::new();
    cut_packet_into(&mut packet, group, at, full_length, address, index);
    packet
}

/// As `cut_packet`, in the place of what `packet` holds.
#[inline(always)]
pub fn cut_packet_into(
    packet: &mut Packet,
    group: &[u8],
    at: usize,
    full_length: PacketLength,
    address: Address,
    index: u8,
)
    requires inside { at < length group.now }
    requires index { index < 4 }
    ensures written { packet.new.items
        ≡ bytes_of_packet (piece_at (room_of full_length) address index group.now at) }
    ensures reads { read_packet packet.new.items
        ≡ Some (piece_at (room_of full_length) address index group.now at) }
    ensures len { array_vec_len packet.new
        ≡ (piece_at (room_of full_length) address index group.now at).room + 5 }
    ensures bytes { AreBytes packet.new.items }
{
    let rest = &group[at..];
    let room = full_length.room();
    let is_last = rest.len() <= room;
    let (length, useful) = if is_last {
        (PacketLength::shortest_for(rest.len()), rest)
    } else {
        (full_length, &rest[..room])
    };
    let header = Header {
        length,
        index,
        is_first: at == 0,
        is_last,
        address,
    };
    // An empty one is six stores; to clear it would be a call.
    *packet = Packet::new();
    fill_packet(packet, header, useful);
}

/// Fills a packet, which is empty, by this header and useful data; the rest of its data field is
/// zeros.
#[inline(always)]
fn fill_packet(packet: &mut Packet, header: Header, useful: &[u8])
    requires empty { packet.old.items ≡ [] }
    requires fits { length useful.now ≤ room_of header.length }
    ensures written { packet.new.items ≡ bytes_of_packet (fields_of header useful.now) }
    ensures reads { read_packet packet.new.items ≡ Some (fields_of header useful.now) }
    ensures len { array_vec_len packet.new ≡ bytes_of header.length }
    ensures bytes { AreBytes packet.new.items }
{
    let room = header.length.room();
    array_append_number(packet, header.word());
    packet.push(useful.len() as u8);
    append_useful(packet, useful);
    append_zeros(packet, room - useful.len());
    let checksum = crc16(packet.as_slice());
    array_append_number(packet, checksum);
}

/// Adds bytes for which there is room. With their number known, as of a full data field of the
/// shortest packet, they are copied without a call.
#[inline(always)]
fn append_useful(packet: &mut Packet, useful: &[u8])
    requires { array_vec_len packet.old + length useful.now ≤ MAX_PACKET }
    ensures items { packet.new.items ≡ packet.old.items ++ useful.now }
    ensures len { array_vec_len packet.new ≡ array_vec_len packet.old + length useful.now }
{
    if useful.len() == SHORTEST_ROOM {
        array_append(packet, &useful[..SHORTEST_ROOM]);
    } else {
        array_append(packet, useful);
    }
}

/// Adds zeros for which there is room.
fn append_zeros(packet: &mut Packet, count: usize)
    requires { array_vec_len packet.old + count ≤ MAX_PACKET }
    ensures items { packet.new.items ≡ packet.old.items ++ replicate count 0 }
    ensures len { array_vec_len packet.new ≡ array_vec_len packet.old + count }
{
    for _ in 0..count {
        packet.push(0);
    }
}
