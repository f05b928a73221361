//! What looks know of files, so that one that was not changed is not read again.
ghost use Rattle.std.specs.Prelude.{◌≡◌, ◌⊎◌, ◌||◌, ◌∷◌, ◌++◌, [], ℕ, IfSome, List, bytes_eq};
ghost use Rattle.std.specs.Prelude.{slice_get, true};
ghost use Rattle.std.specs.List.{AllByRecursion};
ghost use Rattle.mot_files.specs.declared.system.Stamp.{Stamp};
ghost use Rattle.mot_folder.specs.Inner.Knowing.{IsAdded, IsKept, IsKnownWith, NotesName, is_here};
ghost use Rattle.mot_folder.specs.Inner.Knowing.{is_there};
ghost use Rattle.mot_folder.specs.Inner.Names.{name_or_none};
ghost use Rattle.mot_folder.specs.Known.{Among};
ghost use Rattle.mot_folder.specs.declared.known.Known.{Known};
ghost use Rattle.mot_folder.specs.declared.known.StampedFile.{StampedFile};
ghost use Rattle.mot_update.specs.Updating.{is_known};

use crate::names::FileNames;
use mot_files::Stamp;
use mot_numbers::TransportId;
use mot_objects::{Carousel, Name, Object};
use std::alloc::Global;
use std::mem::replace;

/// A file that a look found equal to an object on air, or stored as it.
#[derive(Drop)]
pub struct Known {
    /// Its name, and the object's.
    pub name: Name,
    /// Its stamp then.
    pub stamp: Stamp,
    /// The object's transport id.
    pub tid: TransportId,
    /// The object's version.
    pub version: u8,
}

/// A file that was read.
#[derive(Drop)]
pub struct StampedFile {
    pub(crate) name: Name,
    /// Its stamp before that.
    pub(crate) stamp: Stamp,
}

/// What is known of the files of a folder, and what a look adds to it. Where memory is wanting, less
/// is known, and more is read.
#[derive(Drop)]
pub struct KnownFiles {
    /// What is known.
    pub known: Vec<Known>,
    /// The files that the look read.
    pub(crate) read: Vec<StampedFile>,
    /// The names of the objects that it could not put or replace.
    pub(crate) refused: FileNames,
    /// Whether there was no memory for one of them.
    pub(crate) any_lost: bool,
}

impl KnownFiles {
    /// Nothing is known.
    pub fn new(alloc: Global) -> KnownFiles
        ensures none { result.known.items ≡ [] }
    {
        KnownFiles {
            known: Vec::new(alloc),
            read: Vec::new(alloc),
            refused: FileNames::new(alloc),
            any_lost: false,
        }
    }

    /// A look begins, at this carousel. What it lacks is not known any more.
    pub(crate) fn start(&mut self, alloc: Global, carousel: &Carousel)
        ensures known { AllByRecursion (λ k. Among self.old.known.items k
            × (is_there carousel.now.objects.items k ≡ true)) self.new.known.items }
        ensures none { (self.new.read.items ≡ []) × (self.new.refused.names.items ≡ []) }
    {
        forget(&mut self.known, alloc, &[], carousel);
        self.read.clear();
        self.refused = FileNames::new(alloc);
        self.any_lost = false;
    }

    /// The stamp with which the file of this name is known.
    pub(crate) fn stamp_of(&self, name: &Name) -> Option<Stamp>
        ensures { IfSome result (λ stamp. IsKnownWith self.now.known.items (name.now, stamp)) }
    {
        for known in &self.known {
            if known.name == *name {
                return Some(known.stamp);
            }
        }
        None
    }

    /// The file of this name was read, and had this stamp before, if it had one.
    pub(crate) fn add(&mut self, name: &Name, stamp: Option<Stamp>)
        ensures read { (self.new.read.items ≡ self.old.read.items)
            ⊎ ((f : StampedFile) × (f.name ≡ name.now) × (stamp ≡ Some f.stamp)
            × (self.new.read.items ≡ self.old.read.items ++ f ∷ [])) }
        ensures known { self.new.known ≡ self.old.known }
        ensures noted { (self.new.refused ≡ self.old.refused)
            × (self.new.any_lost ≡ self.old.any_lost) }
    {
        let Some(stamp) = stamp else {
            return;
        };
        let Ok(name) = name.clone() else {
            return;
        };
        // Where there is no memory for it, it is read again.
        let _is_added = self.read.push(StampedFile { name, stamp }).is_ok();
    }

    /// The object of the name at this place was settled, or its file not taken. Notes the name, if
    /// it was refused.
    pub(crate) fn settle(&mut self, names: &FileNames, place: usize, is_refused: bool)
        ensures noted { NotesName self.old self.new
            (name_or_none (slice_get names.now.names.items place)) is_refused }
        ensures known { self.new.known ≡ self.old.known }
        ensures read { self.new.read ≡ self.old.read }
    {
        if is_refused && !note_name(&mut self.refused, names, place) {
            self.any_lost = true;
        }
    }

    /// A look ends, with this carousel: the files that it read are known, if their objects were not
    /// refused.
    pub(crate) fn finish(&mut self, alloc: Global, carousel: &Carousel)
        ensures { AllByRecursion (IsKept self.old carousel.now.objects.items)
            self.new.known.items }
    {
        if !self.any_lost {
            forget(&mut self.known, alloc, &self.read, carousel);
            add_all(&mut self.known, &self.read, &self.refused, carousel);
        }
    }
}

/// Forgets the files whose objects the carousel lacks, and those that were read since.
fn forget(known: &mut Vec<Known>, alloc: Global, read: &[StampedFile], carousel: &Carousel)
    ensures { AllByRecursion (λ k. Among known.old.items k
        × (is_there carousel.now.objects.items k ≡ true)) known.new.items }
{
    let mut all = replace(known, Vec::new(alloc));
    while let Some(one) = all.pop() {
        if is_there(&one, carousel) && !is_of_read(read, &one.name) {
            // Where there is no memory for it, it is read again.
            let _is_kept = known.push(one).is_ok();
        }
    }
}

/// Notes the name at this place; whether there was memory for it.
fn note_name(noted: &mut FileNames, names: &FileNames, place: usize) -> bool
    ensures { result ≡ true → (n : List ℕ) → is_known noted.new.names.items n
        ≡ (bytes_eq n (name_or_none (slice_get names.now.names.items place))
        || is_known noted.old.names.items n) }
{
    let Some(name) = names.names.get(place) else {
        return false;
    };
    let Ok(name) = name.clone() else {
        return false;
    };
    noted.add(name).is_ok()
}

/// Whether the carousel has the object that is known of a file.
fn is_there(known: &Known, carousel: &Carousel) -> bool
    ensures { result ≡ is_there carousel.now.objects.items known.now }
{
    carousel.objects.iter().any(|object| is_here(known, object))
}

/// Whether it is this object.
fn is_here(known: &Known, object: &Object) -> bool
    ensures { result ≡ is_here known.now object.now }
{
    object.name == known.name
        && object.tid.get() == known.tid.get()
        && object.version == known.version
}

/// Whether a file of this name was read.
fn is_of_read(read: &[StampedFile], name: &Name) -> bool {
    let name = name.as_bytes();
    // Files are read in the order of their names.
    read.binary_search_by(|file| file.name.as_bytes().cmp(name))
        .is_ok()
}

/// Adds the files that were read, but for those of these names.
fn add_all(known: &mut Vec<Known>, read: &[StampedFile], refused: &FileNames, carousel: &Carousel)
    ensures { AllByRecursion (λ k. Among known.old.items k
        ⊎ IsAdded read.now refused.now.names.items carousel.now.objects.items k) known.new.items }
{
    for file in read {
        if !refused.has(&file.name) {
            add_one(known, file, carousel);
        }
    }
}

/// Adds a file with the object of its name, if there is one, and memory for it.
fn add_one(known: &mut Vec<Known>, file: &StampedFile, carousel: &Carousel)
    ensures { (known.new.items ≡ known.old.items)
        ⊎ ((k : Known) × (k.name ≡ file.now.name) × (k.stamp ≡ file.now.stamp)
        × (is_there carousel.now.objects.items k ≡ true)
        × (known.new.items ≡ known.old.items ++ k ∷ [])) }
{
    let Some(place) = carousel.place_of(&file.name) else {
        return;
    };
    let object = &carousel.objects[place];
    let Ok(name) = file.name.clone() else {
        return;
    };
    let one = Known {
        name,
        stamp: file.stamp,
        tid: object.tid,
        version: object.version,
    };
    // It is there. (The line is there for the proof.)
    if is_here(&one, object) {
        let _is_added = known.push(one).is_ok();
    }
}
