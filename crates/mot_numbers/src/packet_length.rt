//! The four lengths of a packet.
ghost use Rattle.std.specs.Prelude.{◌≡◌, ◌≤◌, ◌↔◌, IsSome, IfSome};

/// The four lengths of a packet (EN 300 401, clause 5.3.2): 24, 48, 72 or 96 bytes, of which the
/// header takes 3 and the checksum 2.
#[derive(Clone, Copy, Debug, PartialEq, Eq)]
pub enum PacketLength {
    P24,
    P48,
    P72,
    P96,
}

impl PacketLength {
    ghost use Rattle.mot_numbers.specs.PacketLength.{IsLength, bytes_of, room_of, code_of};
    ghost use Rattle.mot_numbers.specs.PacketLength.{shortest_room};

    /// The length of so many bytes; `None` if no packet has so many.
    pub fn new(bytes: u16) -> Option<Self>
        ensures valid { IsSome result ↔ IsLength bytes }
        ensures value { IfSome result (λ length. bytes_of length ≡ bytes) }
    {
        match bytes {
            24 => Some(PacketLength::P24),
            48 => Some(PacketLength::P48),
            72 => Some(PacketLength::P72),
            96 => Some(PacketLength::P96),
            _ => None,
        }
    }

    /// The shortest length whose data field holds `count` bytes. The longest data field has 91.
    pub fn shortest_for(count: usize) -> Self
        requires { count ≤ 91 }
        ensures value { room_of result ≡ shortest_room count }
        ensures holds { count ≤ room_of result }
        ensures shortest { (other : PacketLength)
            → count ≤ room_of other → room_of result ≤ room_of other }
    {
        if count <= 19 {
            PacketLength::P24
        } else if count <= 43 {
            PacketLength::P48
        } else if count <= 67 {
            PacketLength::P72
        } else {
            PacketLength::P96
        }
    }

    /// How many bytes the packet has.
    pub fn bytes(self) -> usize
        ensures { result ≡ bytes_of self }
    {
        match self {
            PacketLength::P24 => 24,
            PacketLength::P48 => 48,
            PacketLength::P72 => 72,
            PacketLength::P96 => 96,
        }
    }

    /// How many bytes its data field has: 19, 43, 67 or 91.
    pub fn room(self) -> usize
        ensures { result ≡ room_of self }
    {
        self.bytes() - 5
    }

    /// The two bits of the header that name the length, 0 to 3.
    pub fn code(self) -> u8
        ensures { result ≡ code_of self }
    {
        match self {
            PacketLength::P24 => 0,
            PacketLength::P48 => 1,
            PacketLength::P72 => 2,
            PacketLength::P96 => 3,
        }
    }
}
