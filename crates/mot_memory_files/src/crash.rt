//! What a crash leaves of files and names.
use crate::chance::Chance;
use crate::names::{is_in, place_in};
use crate::node::{Entry, Node, Open};
use crate::plan::Plan;
use crate::world::World;
use std::alloc::{AllocError, Global};

/// How long the machine is down, in nanoseconds.
const DOWN: u64 = 30_000_000_000;

/// What is left of a file, where it was not synced.
#[derive(Clone, Copy)]
enum Left {
    /// All that was written.
    New,
    /// What was there at the last sync.
    Old,
    /// The first bytes of what was written; of a disk all of them.
    Front,
    /// The new bytes, the old ones, or others, by what the mixture draws.
    Mixed,
}

/// How bytes are mixed: what is left is drawn for a run of them.
#[derive(Clone, Copy)]
struct Mixture {
    /// How long a run is. 0: as long as a piece that was written.
    run: u64,
    /// What was drawn for this run: 0 the new bytes, 1 the old ones, 2 others.
    choice: u64,
    /// Whether the byte before was written.
    was_loose: bool,
}

impl World {
    /// The bytes of the node at this place last.
    pub(crate) fn make_firm(&mut self, place: usize) -> Result<(), AllocError> {
        if let Some(node) = self.nodes.get_mut(place) {
            firm_up(node)?;
        }
        Ok(())
    }

    /// The path lasts: it names what it names now.
    pub(crate) fn make_name_firm(&mut self, path: &str) -> Result<(), AllocError> {
        self.firm.retain(|entry| entry.path.as_str() != path);
        if let Some(place) = self.place_of(path) {
            let entry = self.entry(path, place)?;
            self.firm.push(entry)?;
        }
        Ok(())
    }

    /// All names of the folder last.
    pub(crate) fn make_names_firm(&mut self, folder: &str) -> Result<(), AllocError> {
        self.firm
            .retain(|entry| !is_in(entry.path.as_str(), folder));
        for at in 0..self.entries.len() {
            self.firm_entry(at, Some(folder))?;
        }
        Ok(())
    }

    /// The entry of this index lasts, if it is in this folder, or in any.
    fn firm_entry(&mut self, at: usize, folder: Option<&str>) -> Result<(), AllocError> {
        let Some(entry) = self.entries.get(at) else {
            return Ok(());
        };
        let path = entry.path.as_str();
        if let Some(folder) = folder
            && !is_in(path, folder)
        {
            return Ok(());
        }
        let entry = self.entry(path, entry.place)?;
        self.firm.push(entry)?;
        Ok(())
    }

    /// All that is there lasts.
    pub fn make_all_firm(&mut self) -> Result<(), AllocError> {
        for place in 0..self.nodes.len() {
            self.make_firm(place)?;
        }
        self.make_entries_firm()
    }

    /// Each name lasts as it is, and no other does.
    fn make_entries_firm(&mut self) -> Result<(), AllocError> {
        self.firm.clear();
        for at in 0..self.entries.len() {
            self.firm_entry(at, None)?;
        }
        Ok(())
    }

    /// The program has ended: nothing is open any more.
    pub fn exit(&mut self) {
        for open in &mut self.open {
            *open = Open::Closed;
        }
        self.unlock_all();
    }

    fn unlock_all(&mut self) {
        for node in &mut self.nodes {
            node.locked = None;
        }
    }

    /// The machine loses its power, and comes back calm. What was not synced is back in part: of each
    /// name what it named then or names now; of each file the old bytes, the new ones, the first of them,
    /// or some of both, by bytes or by longer pieces; of a disk also any byte where it is loose.
    pub fn crash(&mut self) -> Result<(), AllocError> {
        self.exit();
        self.plan = Plan::calm();
        for place in 0..self.nodes.len() {
            self.settle(place)?;
        }
        self.crash_names()?;
        self.number_anew();
        self.clock = self.clock.wrapping_add(DOWN);
        Ok(())
    }

    /// A file that was gone may be back, whose number another one has by now.
    fn number_anew(&mut self) {
        self.free.clear();
        let mut next = self.next;
        for node in &mut self.nodes {
            next = next.wrapping_add(1);
            node.number = next;
        }
        self.next = next;
    }

    fn crash_names(&mut self) -> Result<(), AllocError> {
        let mut left = Vec::new(self.alloc);
        for at in 0..self.entries.len() {
            if let Some(entry) = self.entry_after(at)? {
                left.push(entry)?;
            }
        }
        for at in 0..self.firm.len() {
            if let Some(entry) = self.entry_back(at)? {
                left.push(entry)?;
            }
        }
        self.entries = left;
        self.make_entries_firm()?;
        self.keep_all()
    }

    /// What is left of the entry of this index: the name with what it names, or with what it named at
    /// the last sync, or nothing.
    fn entry_after(&mut self, at: usize) -> Result<Option<Entry>, AllocError> {
        let takes_new = self.any(2) == 0;
        let Some(entry) = self.entries.get(at) else {
            return Ok(None);
        };
        let path = entry.path.as_str();
        match self.place_after(path, entry.place, takes_new) {
            Some(place) => Ok(Some(self.entry(path, place)?)),
            None => Ok(None),
        }
    }

    /// What the path names then: what it names now, or what it named at the last sync.
    fn place_after(&self, path: &str, now: usize, takes_new: bool) -> Option<usize> {
        if takes_new {
            return Some(now);
        }
        place_in(self.firm.as_slice(), path)
    }

    /// The entry of this index of those that were synced last, if its name is gone by now and comes
    /// back.
    fn entry_back(&mut self, at: usize) -> Result<Option<Entry>, AllocError> {
        let comes_back = self.any(2) == 0;
        let Some(entry) = self.firm.get(at) else {
            return Ok(None);
        };
        let path = entry.path.as_str();
        if !comes_back || self.place_of(path).is_some() {
            return Ok(None);
        }
        Ok(Some(self.entry(path, entry.place)?))
    }

    /// Notes the bytes that each file has now.
    fn keep_all(&mut self) -> Result<(), AllocError> {
        for at in 0..self.entries.len() {
            self.keep_at(at)?;
        }
        Ok(())
    }

    fn keep_at(&mut self, at: usize) -> Result<(), AllocError> {
        let path = match self.entries.get(at) {
            Some(entry) => String::from_str(self.alloc, entry.path.as_str())?,
            None => return Ok(()),
        };
        self.keep(path.as_str())
    }

    /// What was not synced of the node at this place is there in part, and that lasts.
    pub(crate) fn settle(&mut self, place: usize) -> Result<(), AllocError> {
        let alloc = self.alloc;
        let left = self.draw_left();
        if let Some(node) = self.nodes.get_mut(place) {
            node.is_doubtful = false;
            if node.is_loose {
                settle_node(alloc, node, left, &mut self.chance)?;
            }
        }
        Ok(())
    }

    /// What is left of a file.
    fn draw_left(&mut self) -> Left {
        match self.any(5) {
            0 => Left::New,
            1 => Left::Old,
            2 => Left::Front,
            _ => Left::Mixed,
        }
    }
}

/// What was not synced of the node is there in part.
fn settle_node(
    alloc: Global,
    node: &mut Node,
    left: Left,
    chance: &mut Chance,
) -> Result<(), AllocError> {
    let end = end_after(node, left, chance);
    node.bytes = bytes_after(alloc, node, end, left, chance)?;
    node.loose.clear();
    node.loose.resize(end, false)?;
    firm_up(node)
}

/// All of it lasts.
fn firm_up(node: &mut Node) -> Result<(), AllocError> {
    node.firm.clear();
    node.firm.extend_from_slice(node.bytes.as_slice())?;
    node.loose.fill(false);
    node.is_loose = false;
    Ok(())
}

/// How many bytes are left. A disk keeps its length. An empty file is no object, so one byte stays.
fn end_after(node: &Node, left: Left, chance: &mut Chance) -> usize {
    let len = node.bytes.len();
    let end = match left {
        _ if node.is_disk => len,
        Left::Old => node.firm.len(),
        Left::Front => chance.any((len as u64).saturating_add(1)) as usize,
        Left::New | Left::Mixed => len,
    };
    end.max(len.min(1))
}

/// So many bytes, each as a crash may leave it.
fn bytes_after(
    alloc: Global,
    node: &Node,
    end: usize,
    left: Left,
    chance: &mut Chance,
) -> Result<Vec<u8>, AllocError> {
    let mut bytes = Vec::with_capacity(alloc, end)?;
    let mut mixture = Mixture::drawn(chance);
    for at in 0..end {
        let is_loose = node.loose.get(at).copied().unwrap_or(true);
        mixture.step(at as u64, is_loose, chance);
        bytes.push(byte_after(node, at, left, mixture, chance))?;
    }
    Ok(bytes)
}

impl Mixture {
    /// By bytes, by runs of 64 or 512, or by the pieces that were written.
    fn drawn(chance: &mut Chance) -> Mixture {
        let run = match chance.any(4) {
            0 => 1,
            1 => 64,
            2 => 512,
            _ => 0,
        };
        Mixture {
            run,
            choice: chance.any(3),
            was_loose: false,
        }
    }

    /// Goes on to the byte at this position.
    fn step(&mut self, at: u64, is_loose: bool, chance: &mut Chance) {
        let begins = match at.checked_rem(self.run) {
            Some(past) => past == 0,
            None => is_loose && !self.was_loose,
        };
        if begins {
            self.choice = chance.any(3);
        }
        self.was_loose = is_loose;
    }
}

/// What stands at this position.
fn byte_after(node: &Node, at: usize, left: Left, mixture: Mixture, chance: &mut Chance) -> u8 {
    let new = node.bytes.get(at).copied().unwrap_or(0);
    if !mixture.was_loose {
        return new;
    }
    let old = node.firm.get(at).copied().unwrap_or(0);
    match left {
        Left::New | Left::Front => new,
        Left::Old => old,
        Left::Mixed => mixed(new, old, node.is_disk, mixture.choice, chance),
    }
}

/// The new byte, the old one, or another.
fn mixed(new: u8, old: u8, is_disk: bool, choice: u64, chance: &mut Chance) -> u8 {
    match choice {
        0 => new,
        1 => old,
        _ if is_disk => (chance.any(256) & 0xff) as u8,
        _ => 0,
    }
}
