//! A small receiver of our own: what it makes of the packets of one life.
use crate::stop::{Stop, ask};
use std::alloc::{AllocError, Global};

/// An entity that came whole: the type of its groups, its transport id, its bytes.
#[derive(Drop)]
pub struct Entity {
    pub kind: u8,
    pub id: u16,
    pub bytes: Vec<u8>,
}

/// What was received.
#[derive(Drop)]
pub struct Received {
    pub entities: Vec<Entity>,
}

/// An entity under way, and the number of its next segment.
#[derive(Drop)]
struct Begun {
    kind: u8,
    id: u16,
    next: u16,
    bytes: Vec<u8>,
}

/// The receiver between two packets.
#[derive(Drop)]
struct Receiver {
    alloc: Global,
    begun: Vec<Begun>,
    group: Vec<u8>,
    /// The continuity index of the last packet.
    counted: Option<u8>,
    entities: Vec<Entity>,
}

/// Receives these packets, each of which was one write. Entities may come between each other's groups; of
/// each the segments come in order, and it may begin again.
pub fn receive(alloc: Global, air: &[u8], writes: &[usize]) -> Result<Received, Stop> {
    let mut receiver = Receiver {
        alloc,
        begun: Vec::new(alloc),
        group: Vec::new(alloc),
        counted: None,
        entities: Vec::new(alloc),
    };
    let mut at = 0usize;
    for (number, count) in writes.iter().enumerate() {
        let end = at.saturating_add(*count);
        let Some(packet) = air.get(at..end) else {
            return Err(Stop::Wrong("a write of no packet"));
        };
        // Of the last packet of a life the reader may have taken a part.
        if is_whole(packet) || number.wrapping_add(1) != writes.len() {
            receiver.take(packet)?;
        }
        at = end;
    }
    Ok(Received {
        entities: receiver.entities,
    })
}

/// Whether the packet has the length that it says.
fn is_whole(packet: &[u8]) -> bool {
    match packet.first() {
        Some(head) => usize::from(*head >> 6).wrapping_add(1).wrapping_mul(24) == packet.len(),
        None => false,
    }
}

impl Receiver {
    /// Takes a packet.
    fn take(&mut self, packet: &[u8]) -> Result<(), Stop> {
        let [head, _, useful, field @ ..] = packet else {
            return Err(Stop::Wrong("a write of no packet"));
        };
        ask(is_whole(packet), "a write of no whole packet")?;
        let index = (*head >> 4) & 3;
        let is_next = match self.counted {
            Some(last) => index == last.wrapping_add(1) & 3,
            None => true,
        };
        ask(is_next, "a packet's continuity index")?;
        self.counted = Some(index);
        let Some(part) = field.get(..usize::from(*useful & 0x7F)) else {
            return Err(Stop::Wrong("a packet's useful length"));
        };
        ask(
            *head & 0x08 == 0 || self.group.is_empty(),
            "a group within a group",
        )?;
        self.group.extend_from_slice(part)?;
        if *head & 0x04 != 0 {
            self.take_group()?;
            self.group.clear();
        }
        Ok(())
    }

    /// Adds the segment of the group.
    fn take_group(&mut self) -> Result<(), Stop> {
        let [
            kind,
            _,
            high,
            low,
            _,
            first,
            second,
            size_high,
            size_low,
            rest @ ..,
        ] = self.group.as_slice()
        else {
            return Err(Stop::Wrong("no group"));
        };
        let kind = *kind & 0x0F;
        let id = u16::from_be_bytes([*first, *second]);
        let number = u16::from_be_bytes([*high & 0x7F, *low]);
        let size = usize::from(u16::from_be_bytes([*size_high & 0x1F, *size_low]));
        let Some(segment) = rest.get(..size) else {
            return Err(Stop::Wrong("a segment cut short"));
        };
        let segment = Vec::from_slice(self.alloc, segment)?;
        let is_last = *high & 0x80 != 0;
        if number == 0 {
            self.begin(kind, id)?;
        }
        self.add(kind, id, number, segment.as_slice())?;
        if is_last {
            self.finish(kind, id)?;
        }
        Ok(())
    }

    /// An entity begins, perhaps again.
    fn begin(&mut self, kind: u8, id: u16) -> Result<(), AllocError> {
        self.begun
            .retain(|other| other.kind != kind || other.id != id);
        self.begun.push(Begun {
            kind,
            id,
            next: 0,
            bytes: Vec::new(self.alloc),
        })?;
        Ok(())
    }

    fn add(&mut self, kind: u8, id: u16, number: u16, segment: &[u8]) -> Result<(), Stop> {
        let found = self
            .begun
            .iter_mut()
            .find(|other| other.kind == kind && other.id == id);
        let Some(entity) = found else {
            return Err(Stop::Wrong("a segment without a first one"));
        };
        ask(entity.next == number, "a segment out of its order")?;
        entity.next = number.wrapping_add(1);
        entity.bytes.extend_from_slice(segment)?;
        Ok(())
    }

    /// An entity is whole.
    fn finish(&mut self, kind: u8, id: u16) -> Result<(), AllocError> {
        if let Some(entity) = self
            .begun
            .iter()
            .find(|other| other.kind == kind && other.id == id)
        {
            self.entities.push(Entity {
                kind,
                id,
                bytes: Vec::from_slice(self.alloc, entity.bytes.as_slice())?,
            })?;
        }
        self.begun
            .retain(|other| other.kind != kind || other.id != id);
        Ok(())
    }
}

impl Received {
    /// Whether a body came with this id and these bytes.
    pub fn has(&self, id: u16, bytes: &[u8]) -> bool {
        self.entities.iter().any(|entity| entity.kind == 4
            && entity.id == id
            && entity.bytes.as_slice() == bytes)
    }

    /// How many objects the last directory lists, if one came.
    pub fn listed(&self) -> Option<usize> {
        let last = self
            .entities
            .iter()
            .filter(|entity| entity.kind == 6)
            .last()?;
        match last.bytes.as_slice() {
            [_, _, _, _, high, low, ..] => Some(usize::from(u16::from_be_bytes([*high, *low]))),
            _ => None,
        }
    }

    /// How many bodies came.
    pub fn bodies(&self) -> usize {
        self.entities
            .iter()
            .filter(|entity| entity.kind == 4)
            .count()
    }
}
