//! What a receiver of our own makes of the packets that are played.
use crate::disks::Server;
use crate::serving::play_turn;
use std::alloc::Global;
use std::test::Fail;

/// What has come of a group, and the entities so far.
#[derive(Drop)]
pub struct Receiver {
    group: Vec<u8>,
    segments: u16,
    head: [u8; 3],
    /// Of each entity the type of its groups, its transport id, and its bytes.
    pub entities: Vec<u8>,
}

impl Receiver {
    fn new(alloc: Global) -> Self {
        Receiver {
            group: Vec::new(alloc),
            segments: 0,
            head: [0; 3],
            entities: Vec::new(alloc),
        }
    }

    /// Adds a packet's useful bytes to the group, and takes the group with its last packet.
    fn take_packet(&mut self, packet: &[u8]) -> Result<(), Fail> {
        let [head, _, useful, field @ ..] = packet else {
            return Err(Fail::new("no packet"));
        };
        let Some(part) = field.get(..usize::from(*useful)) else {
            return Err(Fail::new("more bytes than the data field has"));
        };
        self.group.extend_from_slice(part)?;
        if *head & 0x04 != 0 {
            self.take_group()?;
            self.group.clear();
        }
        Ok(())
    }

    /// Adds the segment of a group, whose number has to be the next of its entity.
    fn take_group(&mut self) -> Result<(), Fail> {
        let [
            kind,
            _,
            high,
            low,
            _,
            first,
            second,
            size_high,
            size_low,
            rest @ ..,
        ] = self.group.as_slice()
        else {
            return Err(Fail::new("no group"));
        };
        let head = [*kind, *first, *second];
        let number = u16::from_be_bytes([*high & 0x7F, *low]);
        if number != self.segments {
            return Err(Fail::new("a segment out of its order"));
        }
        if number == 0 {
            self.head = head;
            self.entities.extend_from_slice(&head)?;
        } else if head != self.head {
            return Err(Fail::new("a segment of another entity"));
        }
        let size = usize::from(u16::from_be_bytes([*size_high, *size_low]));
        let Some(segment) = rest.get(..size) else {
            return Err(Fail::new("a segment cut short"));
        };
        self.entities.extend_from_slice(segment)?;
        let is_last = *high & 0x80 != 0;
        self.segments = if is_last { 0 } else { number.wrapping_add(1) };
        Ok(())
    }
}

/// What a receiver makes of a turn, whose last entity has to be whole.
pub fn received_turn(alloc: Global, server: &mut Server) -> Result<Receiver, Fail> {
    let mut receiver = Receiver::new(alloc);
    let packets = play_turn(alloc, server)?;
    for packet in packets.as_slice() {
        receiver.take_packet(packet.as_slice())?;
    }
    if receiver.segments != 0 || !receiver.group.is_empty() {
        return Err(Fail::new("a turn that is cut short"));
    }
    Ok(receiver)
}
