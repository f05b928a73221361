//! The header of a packet.
ghost use Rattle.std.specs.Prelude.{◌≡◌, ◌<◌, ◌≤◌};
ghost use Rattle.mot_numbers.specs.PacketLength.{code_of};
ghost use Rattle.mot_packets.specs.Written.{header_word};

use mot_numbers::{Address, PacketLength};

/// A packet's header but for the useful data length (EN 300 401, clause 5.3.2).
#[derive(Clone, Copy)]
pub struct Header {
    pub length: PacketLength,
    pub index: u8,
    pub is_first: bool,
    pub is_last: bool,
    pub address: Address,
    ghost index_in_range: { index < 4 },
}

impl Header {
    ghost use Rattle.mot_numbers.specs.declared.numbers.TheConstants.{MAX_ADDRESS};

    /// Its 16 bits as a number.
    pub fn word(self) -> u16
        ensures range { (1 ≤ self.address) × (self.address ≤ MAX_ADDRESS) }
        ensures word { result
            ≡ header_word (code_of self.length) self.index self.is_first self.is_last self.address }
    {
        let with_index = u16::from(self.length.code()) << 2 | u16::from(self.index);
        let with_first = with_index << 1 | u16::from(self.is_first);
        let with_last = with_first << 1 | u16::from(self.is_last);
        with_last << 10 | self.address.get()
    }
}
