//! The sizes that are chosen once for a disk.
ghost use Rattle.std.specs.Prelude.{◌≡◌, IsTrue, ◌↔◌};
ghost use Rattle.mot_numbers.specs.PacketLength.{room_of};

use crate::{Address, MAX_ADDRESS, MAX_SEGMENT, MIN_SEGMENT, PacketLength, SegmentSize};

/// The greatest number of objects that any geometry allows.
pub const MAX_OBJECTS: u16 = 250;

/// The most bytes that bodies may take together, at any geometry.
pub const MAX_DATA_AREA: u32 = 268_435_456;

/// The sizes that a server is made with.
#[derive(Clone, Copy, Debug, PartialEq, Eq)]
pub struct Geometry {
    /// The greatest number of objects, 1 to 250.
    pub objects: u16,
    /// The bytes of a segment, 64 to 8,189; an entity's last may be shorter (EN 301 234).
    pub segment: u16,
    /// The address of the packets, 1 to 1,023 (EN 300 401, clause 5.3.2).
    pub address: u16,
    /// The bytes of a packet, 24, 48, 72 or 96; a group's last may be shorter (EN 300 401, clause
    /// 5.3.2).
    pub packet: u16,
    /// The bytes that bodies may take together, 1 to 268,435,456.
    pub area: u32,
}

impl Geometry {
    ghost use Rattle.mot_numbers.specs.Geometry.{IsValid, length_of, packet_room};

    /// Whether each number is in its range.
    pub fn is_valid(&self) -> bool
        ensures { IsTrue result ↔ IsValid self.now }
    {
        self.objects >= 1
            && self.objects <= MAX_OBJECTS
            && self.area >= 1
            && self.area <= MAX_DATA_AREA
            && self.segment >= MIN_SEGMENT
            && self.segment <= MAX_SEGMENT
            && self.address >= 1
            && self.address <= MAX_ADDRESS
            && matches!(self.packet, 24 | 48 | 72 | 96)
    }

    /// The bytes that a disk of it needs; a longer one does as well.
    pub fn length(&self) -> u64
        ensures { result ≡ length_of self.now }
    {
        1_024 * u64::from(self.objects) + 2_112 + u64::from(self.area)
    }

    /// The size of a valid geometry's segments.
    pub fn size_of_segments(&self) -> SegmentSize
        requires { IsValid self.now }
        ensures { result ≡ self.now.segment }
    {
        SegmentSize::new(self.segment).unwrap()
    }

    /// The address of a valid geometry's packets.
    pub fn address_of_packets(&self) -> Address
        requires { IsValid self.now }
        ensures { result ≡ self.now.address }
    {
        Address::new(self.address).unwrap()
    }

    /// The length of a valid geometry's packets, but of a group's last.
    pub fn length_of_packets(&self) -> PacketLength
        requires { IsValid self.now }
        ensures { room_of result ≡ packet_room self.now }
    {
        PacketLength::new(self.packet).unwrap()
    }
}

impl Default for Geometry {
    ghost use Rattle.mot_numbers.specs.Geometry.{IsDefault};

    ghost is_default = { IsDefault };

    /// 16 objects, 65,536 bytes for bodies, segments of 1,024 bytes, address 1, packets of 96
    /// bytes.
    fn default() -> Self {
        Geometry {
            objects: 16,
            segment: 1_024,
            address: 1,
            packet: 96,
            area: 65_536,
        }
    }
}
