//! What was on air in all lives of a seed: an id means one thing for good, and nothing was sent that
//! nobody wrote.
use crate::answers::first_word;
use crate::model::body_in;
use crate::receiver::{Entity, Received, receive};
use crate::stop::{Stop, ask};
use crate::texts::INPUTS;
use mot_memory_files::World;
use std::alloc::{AllocError, Global};

/// The bodies and directories that were on air, each once.
#[derive(Drop)]
pub struct Air {
    alloc: Global,
    sent: Vec<Entity>,
    pub packets: u64,
    pub bodies: u64,
}

impl Air {
    /// Nothing was sent.
    pub fn new(alloc: Global) -> Air {
        Air {
            alloc,
            sent: Vec::new(alloc),
            packets: 0,
            bodies: 0,
        }
    }

    /// Takes the packets of a life.
    pub fn take(&mut self, w: &mut World) -> Result<Received, Stop> {
        let got = receive(self.alloc, w.air.as_slice(), w.writes.as_slice())?;
        self.packets = self.packets.wrapping_add(w.writes.len() as u64);
        self.bodies = self.bodies.wrapping_add(got.bodies() as u64);
        w.air.clear();
        w.writes.clear();
        for entity in &got.entities {
            self.take_one(w, entity)?;
        }
        Ok(got)
    }

    fn take_one(&mut self, w: &World, entity: &Entity) -> Result<(), Stop> {
        let known = self
            .sent
            .iter()
            .find(|other| other.kind == entity.kind && other.id == entity.id);
        if let Some(known) = known {
            return ask(
                known.bytes.as_slice() == entity.bytes.as_slice(),
                "an id was on air with other bytes before",
            );
        }
        if entity.kind == 4 {
            let bytes = entity.bytes.as_slice();
            let is_known = w
                .versions
                .iter()
                .any(|version| version.bytes.as_slice() == bytes)
                || is_in_file(self.alloc, w, bytes)?
                || is_in_lines(self.alloc, INPUTS, bytes)?;
            ask(is_known, "a body was on air that nobody wrote")?;
        }
        self.sent.push(Entity {
            kind: entity.kind,
            id: entity.id,
            bytes: Vec::from_slice(self.alloc, entity.bytes.as_slice())?,
        })?;
        Ok(())
    }
}

/// Whether a line of a file of lines ever put this body.
fn is_in_file(alloc: Global, w: &World, body: &[u8]) -> Result<bool, AllocError> {
    for version in &w.versions {
        if version.path.as_str().starts_with("lines/")
            && is_in_lines(alloc, &[version.bytes.as_slice()], body)?
        {
            return Ok(true);
        }
    }
    Ok(false)
}

/// Whether a line of these texts puts this body.
fn is_in_lines(alloc: Global, texts: &[&[u8]], body: &[u8]) -> Result<bool, AllocError> {
    for text in texts {
        for line in text.split(|byte| *byte == b'\n') {
            let name = first_word(first_word(line).1).0;
            if let Some(put) = body_in(alloc, line, name)?
                && put.as_slice() == body
            {
                return Ok(true);
            }
        }
    }
    Ok(false)
}
