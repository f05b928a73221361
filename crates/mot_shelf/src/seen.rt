//! The regular files that a look asked for, each with its stamp then: so an unchanged one is not asked
//! for again.
ghost use Rattle.std.specs.List.{slice_get};
ghost use Rattle.std.specs.Prelude.{◌≡◌, ◌≤◌, [], ℕ, IfErr, Some, length, true};
ghost use Rattle.mot_shelf.specs.Calls.{IsSeen};
ghost use Rattle.mot_shelf.specs.Reader.{seen_of};

use mot_files::Stamp;
use std::alloc::Global;
use std::cmp::Ordering;

/// A regular file.
#[derive(Drop)]
pub struct SeenFile {
    /// Its name.
    pub(crate) name: Vec<u8>,
    /// Its stamp.
    pub(crate) stamp: Stamp,
}

/// Regular files.
#[derive(Drop)]
pub struct SeenFiles {
    /// In the order in which they were asked for.
    pub(crate) files: Vec<SeenFile>,
    /// Their places there, in the order of their names.
    order: Vec<usize>,
}

impl SeenFiles {
    /// None.
    pub(crate) fn new(alloc: Global) -> SeenFiles
        ensures { seen_of result ≡ [] }
    {
        SeenFiles {
            files: Vec::new(alloc),
            order: Vec::new(alloc),
        }
    }

    /// One more. Where there is no memory for it, it is read.
    pub(crate) fn add(&mut self, alloc: Global, name: &[u8], stamp: Stamp)
        ensures { IsSeen name.now (Some stamp) (seen_of self.old) (seen_of self.new) }
    {
        let Err(place) = self.search(name) else {
            return;
        };
        let Ok(name) = Vec::from_slice(alloc, name) else {
            return;
        };
        let number = self.files.len();
        if self.files.push(SeenFile { name, stamp }).is_ok() {
            let _is_found = self.order.insert(place, number).is_ok();
        }
    }

    /// Whether the file of this name was one of them, and had this stamp.
    pub(crate) fn has(&self, name: &[u8], stamp: &Stamp) -> bool
        ensures { result ≡ true
            → (place : ℕ) × (slice_get (seen_of self.now) place ≡ Some (name.now, stamp.now)) }
    {
        let Ok(place) = self.search(name) else {
            return false;
        };
        let Some(number) = self.order.get(place) else {
            return false;
        };
        let Some(file) = self.files.get(*number) else {
            return false;
        };
        is_same(file, name, stamp)
    }

    /// Its place in the order, or else the place of the first that it stands before, or of the end.
    fn search(&self, name: &[u8]) -> Result<usize, usize>
        ensures { IfErr result (λ place. place ≤ length self.now.order.items) }
    {
        let files = &self.files;
        self.order.binary_search_by(|number| match files.get(*number) {
            Some(file) => file.name.as_slice().cmp(name),
            None => Ordering::Less,
        })
    }
}

/// Whether the file has this name and this stamp.
fn is_same(file: &SeenFile, name: &[u8], stamp: &Stamp) -> bool
    ensures name { result ≡ true → file.now.name.items ≡ name.now }
    ensures stamp { result ≡ true → file.now.stamp ≡ stamp.now }
{
    file.name.as_slice() == name && file.stamp == *stamp
}
