//! What an operator was told that the disk has, and whether it has it.
use crate::answers::{first_word, line_at};
use crate::stop::{Stop, ask};
use crate::texts::INPUTS;
use disk_store::{Disk, RamDisk};
use mot_memory_files::World;
use mot_playout::Server;
use std::alloc::{AllocError, Global};

/// An object, and the bodies that it may have by what was told.
#[derive(Drop)]
pub struct Known {
    pub name: Vec<u8>,
    pub bodies: Vec<Vec<u8>>,
}

/// The carousel as it was told.
#[derive(Drop)]
pub struct Model {
    alloc: Global,
    pub objects: Vec<Known>,
    pub period: u32,
}

/// How far the disk may be from what was told.
#[derive(Clone, Copy, PartialEq, Eq)]
pub enum Open {
    /// Not at all.
    Nothing,
    /// One command under way may be there.
    OneCommand,
    /// The commands of a look under way may be there.
    OneLook,
}

impl Open {
    /// The farther of both.
    pub fn or(self, other: Open) -> Open {
        match (self, other) {
            (Open::OneLook, _) | (_, Open::OneLook) => Open::OneLook,
            (Open::OneCommand, _) | (_, Open::OneCommand) => Open::OneCommand,
            _ => Open::Nothing,
        }
    }
}

impl Model {
    /// No object.
    pub fn new(alloc: Global) -> Model {
        Model {
            alloc,
            objects: Vec::new(alloc),
            period: 0,
        }
    }

    /// The object of this name is withdrawn.
    pub fn withdraw(&mut self, name: &[u8]) {
        self.objects.retain(|known| known.name.as_slice() != name);
    }

    /// The object of this name has one of these bodies.
    pub fn put(&mut self, name: &[u8], bodies: Vec<Vec<u8>>) -> Result<(), AllocError> {
        self.withdraw(name);
        let name = Vec::from_slice(self.alloc, name)?;
        self.objects.push(Known { name, bodies })?;
        Ok(())
    }

    /// Compares the disk at this path with it, and takes over what the disk has.
    pub fn compare(&mut self, w: &World, path: &str, open: Open) -> Result<(), Stop> {
        let mut server = disk_at(self.alloc, w, path)?;
        let mut apart = 0u64;
        let mut next = Vec::new(self.alloc);
        for place in 0..server.carousel().objects.len() {
            let name = name_at(self.alloc, &server, place)?;
            let told = self.told(&mut server, place, name.as_slice())?;
            let bodies = if told.is_empty() {
                apart = apart.wrapping_add(1);
                possible(self.alloc, w, &mut server, place, name.as_slice())?
            } else {
                told
            };
            ask(!bodies.is_empty(), "an object has bytes that nobody wrote")?;
            next.push(Known { name, bodies })?;
        }
        let gone = self
            .objects
            .iter()
            .filter(|known| !has(&next, known.name.as_slice()))
            .count();
        let period = server.carousel().period.get();
        let others = if period == self.period { 0 } else { 1 };
        self.period = period;
        self.objects = next;
        let apart = apart.wrapping_add(gone as u64).wrapping_add(others);
        match open {
            Open::Nothing => ask(apart == 0, "the disk has not what was told"),
            Open::OneCommand => ask(
                apart <= 1,
                "the disk is more than one command from what was told",
            ),
            Open::OneLook => Ok(()),
        }
    }

    /// The bodies of the object at this place of the disk, as they were told.
    fn told(
        &self,
        server: &mut Server<RamDisk>,
        place: usize,
        name: &[u8],
    ) -> Result<Vec<Vec<u8>>, AllocError> {
        match self
            .objects
            .iter()
            .find(|known| known.name.as_slice() == name)
        {
            Some(known) => matching(self.alloc, server, place, &known.bodies),
            None => Ok(Vec::new(self.alloc)),
        }
    }
}

/// Whether one of these has this name.
fn has(objects: &[Known], name: &[u8]) -> bool {
    objects.iter().any(|known| known.name.as_slice() == name)
}

/// The name of the object at this place.
fn name_at(alloc: Global, server: &Server<RamDisk>, place: usize) -> Result<Vec<u8>, AllocError> {
    match server.carousel().objects.get(place) {
        Some(object) => Vec::from_slice(alloc, object.name.as_bytes()),
        None => Ok(Vec::new(alloc)),
    }
}

/// Those of these bodies that the object has.
fn matching(
    alloc: Global,
    server: &mut Server<RamDisk>,
    place: usize,
    bodies: &[Vec<u8>],
) -> Result<Vec<Vec<u8>>, AllocError> {
    let mut found = Vec::new(alloc);
    for body in bodies {
        if has_body(server, place, body.as_slice()) {
            found.push(Vec::from_slice(alloc, body.as_slice())?)?;
        }
    }
    Ok(found)
}

/// Whether the object at this place has this body.
pub fn has_body(server: &mut Server<RamDisk>, place: usize, body: &[u8]) -> bool {
    if place >= server.carousel().objects.len() {
        return false;
    }
    match server.body_is(place, body) {
        Ok(is_it) => is_it,
        Err(_) => false,
    }
}

/// Those of all bodies that an object of this name may ever have had, which this one has.
fn possible(
    alloc: Global,
    world: &World,
    server: &mut Server<RamDisk>,
    place: usize,
    name: &[u8],
) -> Result<Vec<Vec<u8>>, AllocError> {
    let mut bodies = Vec::new(alloc);
    for version in &world.versions {
        if is_path_of(version.path.as_str(), name) {
            bodies.push(Vec::from_slice(alloc, version.bytes.as_slice())?)?;
        } else if version.path.as_str().starts_with("lines/") {
            add_lines(alloc, &[version.bytes.as_slice()], name, &mut bodies)?;
        }
    }
    add_lines(alloc, INPUTS, name, &mut bodies)?;
    matching(alloc, server, place, &bodies)
}

/// Adds the bodies that the lines of these texts put for this name.
fn add_lines(
    alloc: Global,
    texts: &[&[u8]],
    name: &[u8],
    bodies: &mut Vec<Vec<u8>>,
) -> Result<(), AllocError> {
    for text in texts {
        for line in text.split(|byte| *byte == b'\n') {
            if let Some(body) = body_in(alloc, line, name)? {
                bodies.push(body)?;
            }
        }
    }
    Ok(())
}

/// Whether the path is that of an object of this name.
pub fn is_path_of(path: &str, name: &[u8]) -> bool {
    match path.strip_prefix("objects/") {
        Some(rest) => rest.as_bytes() == name,
        None => false,
    }
}

/// The body that the line puts for this name, if it puts one.
pub fn body_in(alloc: Global, line: &[u8], name: &[u8]) -> Result<Option<Vec<u8>>, AllocError> {
    let (command, rest) = first_word(line);
    if command != b"put".as_slice() && command != b"replace".as_slice() {
        return Ok(None);
    }
    let (put, rest) = first_word(rest);
    if put != name {
        return Ok(None);
    }
    let (_, rest) = first_word(rest);
    let (_, rest) = first_word(rest);
    let (_, digits) = first_word(rest);
    let mut body = Vec::new(alloc);
    for pair in digits.chunks(2) {
        let value = pair.iter().fold(0u8, |value, digit| {
            value.wrapping_mul(16).wrapping_add(value_of(*digit))
        });
        body.push(value)?;
    }
    Ok(Some(body))
}

/// The value of a digit, which may be hexadecimal.
fn value_of(digit: u8) -> u8 {
    match digit {
        b'a'..=b'f' => digit.wrapping_sub(b'a').wrapping_add(10),
        _ => digit.wrapping_sub(b'0'),
    }
}

/// The number that the digits are.
pub fn number_of(digits: &[u8]) -> u64 {
    digits.iter().fold(0u64, |number, digit| {
        number
            .wrapping_mul(10)
            .wrapping_add(u64::from(value_of(*digit)))
    })
}

/// The server of the disk at this path.
pub fn disk_at(alloc: Global, w: &World, path: &str) -> Result<Server<RamDisk>, Stop> {
    let Some(bytes) = w.file_at(path) else {
        return Err(Stop::Wrong("the disk is gone"));
    };
    match opened(alloc, bytes) {
        Some(server) => Ok(server),
        None => Err(Stop::Wrong("the disk does not open")),
    }
}

/// The server of a disk with these bytes, if it opens.
pub fn opened(alloc: Global, bytes: &[u8]) -> Option<Server<RamDisk>> {
    let mut disk = RamDisk::new(alloc, bytes.len() as u64)?;
    disk.write(0, bytes).ok()?;
    Server::open(alloc, disk).ok()
}

/// The line of this number, if it is the reply to `list` for an object: name and length.
pub fn listed(text: &[u8], number: u64) -> Option<(&[u8], u64)> {
    let (word, rest) = first_word(line_at(text, number));
    if word != b"object".as_slice() {
        return None;
    }
    let (_, rest) = first_word(rest);
    let (_, rest) = first_word(rest);
    let (_, rest) = first_word(rest);
    let (_, rest) = first_word(rest);
    let (length, rest) = first_word(rest);
    Some((first_word(rest).0, number_of(length)))
}
