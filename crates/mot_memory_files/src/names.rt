//! What the paths of the machine name.
use crate::node::{Entry, Node, Open, Version};
use crate::world::World;
use mot_files::{FileStat, Kind, Time};
use std::alloc::AllocError;

impl World {
    /// The place of what the path names.
    pub fn place_of(&self, path: &str) -> Option<usize> {
        place_in(self.entries.as_slice(), plain(path))
    }

    /// What the path names.
    pub fn node_of(&self, path: &str) -> Option<&Node> {
        match self.place_of(path) {
            Some(place) => self.nodes.get(place),
            None => None,
        }
    }

    /// The bytes of the regular file at the path.
    pub fn file_at(&self, path: &str) -> Option<&[u8]> {
        match self.node_of(path) {
            Some(node) if node.kind == Kind::File => Some(node.bytes.as_slice()),
            _ => None,
        }
    }

    /// Since when a file is at the path, if one is.
    pub fn there_since(&self, path: &str) -> Option<u64> {
        self.file_at(path)?;
        for entry in &self.entries {
            if entry.path.as_str() == path {
                return Some(entry.since);
            }
        }
        None
    }

    /// Whether the file at the path would be there as it is after a crash.
    pub fn is_firm(&self, path: &str) -> bool {
        let Some(place) = self.place_of(path) else {
            return true;
        };
        let is_synced = match self.nodes.get(place) {
            Some(node) => !node.is_loose,
            None => true,
        };
        is_synced && place_in(self.firm.as_slice(), path) == Some(place)
    }

    /// The paths, in the order in which they came.
    pub fn path_at(&self, at: usize) -> Option<&str> {
        match self.entries.get(at) {
            Some(entry) => Some(entry.path.as_str()),
            None => None,
        }
    }

    /// How many paths there are.
    pub fn count_paths(&self) -> usize {
        self.entries.len()
    }

    /// How many paths name the node at this place.
    pub(crate) fn count_names(&self, place: usize) -> u64 {
        let mut count = 0u64;
        for entry in &self.entries {
            if entry.place == place {
                count = count.saturating_add(1);
            }
        }
        count
    }

    /// The place at the end of the link that stands at this place; the same place if it is no link.
    pub(crate) fn end_of(&self, place: usize) -> usize {
        match self.nodes.get(place) {
            Some(node) => node.leads.unwrap_or(place),
            None => place,
        }
    }

    /// What the system says of the node at this place.
    pub(crate) fn seen(&self, place: usize) -> Option<FileStat> {
        match self.nodes.get(place) {
            Some(node) => Some(seen_of(node)),
            None => None,
        }
    }

    /// Adds a node without a name.
    pub(crate) fn add(
        &mut self,
        kind: Kind,
        bytes: &[u8],
        is_whole: bool,
    ) -> Result<usize, AllocError> {
        let place = self.nodes.len();
        let number = self.new_number();
        let now = self.stamp();
        let bytes = Vec::from_slice(self.alloc, bytes)?;
        let loose = vec![in self.alloc; true; bytes.len()]?;
        self.nodes.push(Node {
            kind,
            bytes,
            firm: Vec::new(self.alloc),
            loose,
            is_loose: true,
            is_disk: false,
            is_doubtful: false,
            is_whole,
            is_denied: false,
            leads: None,
            number,
            written: now,
            changed: now,
            locked: None,
        })?;
        Ok(place)
    }

    /// The number that was given back last, or one that no file ever had.
    fn new_number(&mut self) -> u64 {
        if self.plan.numbers_again
            && let Some(number) = self.free.pop()
        {
            return number;
        }
        self.next = self.next.wrapping_add(1);
        self.next
    }

    /// The path names the node at this place from now on.
    pub(crate) fn point(&mut self, path: &str, place: usize) -> Result<(), AllocError> {
        self.forget(path)?;
        self.turn = self.turn.wrapping_add(1);
        let entry = self.entry(path, place)?;
        self.entries.push(entry)?;
        self.keep(path)
    }

    /// The path as a name of the node at this place since now.
    pub(crate) fn entry(&self, path: &str, place: usize) -> Result<Entry, AllocError> {
        Ok(Entry {
            path: String::from_str(self.alloc, path)?,
            place,
            since: self.clock,
            turn: self.turn,
        })
    }

    /// The path names nothing from now on.
    pub(crate) fn forget(&mut self, path: &str) -> Result<(), AllocError> {
        let Some(place) = self.place_of(path) else {
            return Ok(());
        };
        self.turn = self.turn.wrapping_add(1);
        self.entries.retain(|entry| entry.path.as_str() != path);
        self.free_number(place)
    }

    /// The number of the node at this place is free, if it has no name and is not open.
    pub(crate) fn free_number(&mut self, place: usize) -> Result<(), AllocError> {
        if self.count_names(place) > 0 || self.is_open(place) {
            return Ok(());
        }
        if let Some(node) = self.nodes.get(place) {
            self.free.push(node.number)?;
        }
        Ok(())
    }

    fn is_open(&self, place: usize) -> bool {
        for open in &self.open {
            if let Open::Node(held) = open
                && held.place == place
            {
                return true;
            }
        }
        false
    }

    /// Notes the bytes that the file of this path has now, if it is one of objects or of lines.
    pub(crate) fn keep(&mut self, path: &str) -> Result<(), AllocError> {
        if !path.starts_with("objects/") && !path.starts_with("lines/") {
            return Ok(());
        }
        if let Some(version) = self.version_of(path)? {
            self.versions.push(version)?;
        }
        Ok(())
    }

    /// What the regular file of this path has now.
    fn version_of(&self, path: &str) -> Result<Option<Version>, AllocError> {
        match self.node_of(path) {
            Some(node) if node.kind == Kind::File => Ok(Some(Version {
                path: String::from_str(self.alloc, path)?,
                bytes: Vec::from_slice(self.alloc, node.bytes.as_slice())?,
                is_whole: node.is_whole,
                written: node.written,
                kept: self.clock,
            })),
            _ => Ok(None),
        }
    }
}

/// What the system says of it.
fn seen_of(node: &Node) -> FileStat {
    FileStat {
        kind: node.kind,
        device: 1,
        number: node.number,
        len: node.bytes.len() as u64,
        written: Time {
            nanos: u128::from(node.written),
        },
        changed: Time {
            nanos: u128::from(node.changed),
        },
        block: None,
    }
}

/// The place of what the path names by these entries.
pub(crate) fn place_in(entries: &[Entry], path: &str) -> Option<usize> {
    for entry in entries {
        if entry.path.as_str() == path {
            return Some(entry.place);
        }
    }
    None
}

/// The path without a slash, or the folder itself, at its end.
pub(crate) fn plain(path: &str) -> &str {
    match path.strip_suffix("/.") {
        Some(rest) => rest,
        None => match path.strip_suffix("/") {
            Some(rest) => rest,
            None => path,
        },
    }
}

/// Whether the path stands in this folder.
pub(crate) fn is_in(path: &str, folder: &str) -> bool {
    match path.rsplit_once("/") {
        Some((place, _)) => place == folder,
        None => folder == ".",
    }
}

/// The last part of the path.
pub(crate) fn name_in(path: &str) -> &str {
    match path.rsplit_once("/") {
        Some((_, name)) => name,
        None => path,
    }
}
