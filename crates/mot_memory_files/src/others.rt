//! What other programs do between any two calls.
use crate::node::Node;
use crate::reached::Reach;
use crate::world::World;
use mot_files::Kind;
use std::alloc::AllocError;

/// How far in time to come a writer may put a file, in nanoseconds.
const AHEAD: u64 = 3_600_000_000_000;

/// The bytes of the file that a link leads to. It stands in no folder.
const ELSEWHERE: &[u8] = b"the end of a link";

impl World {
    /// Another program changes something, sometimes twice at once.
    pub(crate) fn change(&mut self) -> Result<(), AllocError> {
        self.count(Reach::Changed);
        self.change_once()?;
        if self.is_one_in(self.plan.doubles) {
            self.count(Reach::Doubled);
            self.change_once()?;
        }
        Ok(())
    }

    /// Three times in four it does so in the folder of objects.
    fn change_once(&mut self) -> Result<(), AllocError> {
        if self.any(4) == 0 {
            return self.change_lines();
        }
        let at = self.any(self.names.len() as u64) as usize;
        let Some(path) = self.names.get(at) else {
            return Ok(());
        };
        let path = *path;
        self.say_other(path);
        if self.plan.permissions && self.any(8) == 0 {
            self.turn_permission(path);
            return Ok(());
        }
        match self.any(10) {
            0 => self.place_other(path, Kind::Link),
            1 => self.place_other(path, Kind::Pipe),
            2 => self.place_other(path, Kind::Folder),
            3 => self.forget(path),
            4 | 5 => self.place_text(path),
            _ => self.rewrite(path),
        }
    }

    /// A file of lines comes, whole, or goes.
    fn change_lines(&mut self) -> Result<(), AllocError> {
        let at = self.any(self.line_names.len() as u64) as usize;
        let Some(path) = self.line_names.get(at) else {
            return Ok(());
        };
        let path = *path;
        self.say_other(path);
        let at = self.any(self.line_texts.len() as u64) as usize;
        let Some(text) = self.line_texts.get(at) else {
            return Ok(());
        };
        let text = *text;
        match self.any(8) {
            0 => self.forget(path),
            1 => self.place_other(path, Kind::Pipe),
            _ => self.place_file(path, text),
        }
    }

    fn say_other(&mut self, path: &str) {
        self.say(b"  other: ");
        self.say(path.as_bytes());
        self.say(b"\n");
    }

    /// Nobody may read the file at the path any more, or all may again.
    fn turn_permission(&mut self, path: &str) {
        let is_denied = match self.node_of(path) {
            Some(node) => node.is_denied,
            None => false,
        };
        self.set_denied(path, !is_denied);
        self.count(Reach::Permission);
    }

    /// Whether nobody may open what the path names.
    pub fn set_denied(&mut self, path: &str, is_denied: bool) {
        let now = self.stamp();
        if let Some(place) = self.place_of(path)
            && let Some(node) = self.nodes.get_mut(place)
        {
            node.is_denied = is_denied;
            node.changed = now;
        }
    }

    /// All may read every file again.
    pub fn permit_all(&mut self) {
        for node in &mut self.nodes {
            node.is_denied = false;
        }
    }

    /// A whole file takes the path, as by a rename.
    pub fn place_file(&mut self, path: &str, bytes: &[u8]) -> Result<(), AllocError> {
        let place = self.add(Kind::File, bytes, true)?;
        self.point(path, place)
    }

    /// Anything else takes the path. A link leads to a file that stands in no folder.
    pub fn place_other(&mut self, path: &str, kind: Kind) -> Result<(), AllocError> {
        let place = self.add(kind, b"", true)?;
        if kind == Kind::Link {
            let end = self.add(Kind::File, ELSEWHERE, true)?;
            self.lead(place, end);
        }
        self.point(path, place)
    }

    /// A link takes the path that leads to what the other path names, if it names something.
    pub fn place_link(&mut self, path: &str, to: &str) -> Result<(), AllocError> {
        let end = self.place_of(to);
        let place = self.add(Kind::Link, b"", true)?;
        if let Some(end) = end {
            self.lead(place, end);
        }
        self.point(path, place)
    }

    /// The path becomes a further name of what the other path names.
    pub fn place_name(&mut self, path: &str, of: &str) -> Result<(), AllocError> {
        match self.place_of(of) {
            Some(place) => self.point(path, place),
            None => Ok(()),
        }
    }

    fn lead(&mut self, place: usize, end: usize) {
        if let Some(node) = self.nodes.get_mut(place) {
            node.leads = Some(end);
        }
    }

    /// A file that its maker syncs, with its name.
    pub fn place_firm(&mut self, path: &str, bytes: &[u8]) -> Result<(), AllocError> {
        self.place_file(path, bytes)?;
        if let Some(place) = self.place_of(path) {
            self.make_firm(place)?;
        }
        self.make_name_firm(path)
    }

    /// The path is removed.
    pub fn take_path(&mut self, path: &str) -> Result<(), AllocError> {
        self.forget(path)
    }

    /// The path is removed, for good.
    pub fn take_path_firmly(&mut self, path: &str) -> Result<(), AllocError> {
        self.forget(path)?;
        self.make_name_firm(path)
    }

    /// One of the texts, and whether it is whole.
    fn text(&mut self) -> (&'static [u8], bool) {
        let texts = self.texts;
        let at = self.any(texts.len() as u64) as usize;
        let text = match texts.get(at) {
            Some(text) => *text,
            None => b"",
        };
        if !self.plan.in_place || self.any(4) != 0 {
            return (text, true);
        }
        let end = self
            .any((text.len() as u64).wrapping_sub(1))
            .wrapping_add(1) as usize;
        match text.get(..end) {
            Some(part) => (part, false),
            None => (text, true),
        }
    }

    fn place_text(&mut self, path: &str) -> Result<(), AllocError> {
        let (text, is_whole) = self.text();
        let written = self.time_of_writer();
        let place = self.add(Kind::File, text, is_whole)?;
        if let Some(node) = self.nodes.get_mut(place) {
            node.written = written;
        }
        self.point(path, place)
    }

    /// The time that a writer gives its file.
    fn time_of_writer(&mut self) -> u64 {
        let now = self.stamp();
        if self.is_one_in(self.plan.future) {
            return now.saturating_add(self.any(AHEAD));
        }
        now
    }

    /// The file of this path gets other bytes in place, sometimes with its old time.
    fn rewrite(&mut self, path: &str) -> Result<(), AllocError> {
        let is_file = match self.node_of(path) {
            Some(node) => node.kind == Kind::File,
            None => false,
        };
        if !is_file || !self.plan.in_place {
            return self.place_text(path);
        }
        let (text, is_whole) = self.text();
        let keeps_time = self.any(2) == 0;
        let written = if keeps_time {
            None
        } else {
            Some(self.time_of_writer())
        };
        self.write_over(path, text, is_whole, written)
    }

    /// Another program writes these bytes into the file of the path, in place.
    pub fn rewrite_file(&mut self, path: &str, bytes: &[u8]) -> Result<(), AllocError> {
        let now = self.stamp();
        self.write_over(path, bytes, true, Some(now))
    }

    fn write_over(
        &mut self,
        path: &str,
        bytes: &[u8],
        is_whole: bool,
        written: Option<u64>,
    ) -> Result<(), AllocError> {
        let now = self.stamp();
        if let Some(place) = self.place_of(path)
            && let Some(node) = self.nodes.get_mut(place)
        {
            refill(node, bytes)?;
            node.is_whole = is_whole;
            node.changed = now;
            node.written = written.unwrap_or(node.written);
        }
        self.keep(path)
    }
}

/// The node gets these bytes, which are not synced.
fn refill(node: &mut Node, bytes: &[u8]) -> Result<(), AllocError> {
    node.bytes.clear();
    node.bytes.extend_from_slice(bytes)?;
    node.loose.clear();
    node.loose.resize(bytes.len(), true)?;
    node.is_loose = true;
    Ok(())
}
