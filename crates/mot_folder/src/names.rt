//! The names of files, in their order.
ghost use Rattle.std.proofs.Props.{props};
ghost use Rattle.std.specs.Cmp.Lexicographic.{slice_cmp};
ghost use Rattle.std.specs.List.{insert};
ghost use Rattle.std.specs.List.Sorted.{IsStrictlySortedBy};
ghost use Rattle.std.specs.Ordering.{nat_cmp};
ghost use Rattle.std.specs.Prelude.{◌≡◌, ◌↔◌, ◌+◌, ◌<◌, ◌≤◌, [], if◌then◌else◌, IfErr, IsOk, OnErr};
ghost use Rattle.std.specs.Prelude.{OnOk, is_ok, length};
ghost use Rattle.mot_folder.specs.Listed.{and_in_order};
ghost use Rattle.mot_folder.specs.declared.listing.TheConstants.{MAX_NAMES};
ghost use Rattle.mot_numbers.specs.declared.refusal.Refusal.TheVariants.{TooManyObjects};
ghost use Rattle.mot_update.specs.Updating.{is_known};

use crate::listing::MAX_NAMES;
use mot_numbers::Refusal;
use mot_objects::Name;
use std::alloc::{AllocError, Global};

/// Names of files, each once.
#[derive(Drop)]
pub struct FileNames {
    /// The names, in their order.
    pub names: Vec<Name>,
    /// How many names were counted.
    pub(crate) counted: u32,
    pub ghost ordered: { IsStrictlySortedBy (slice_cmp nat_cmp) names.items } by { Prim.hlevel props },
}

impl FileNames {
    /// No names.
    pub fn new(alloc: Global) -> FileNames
        ensures none { result.names.items ≡ [] }
        ensures counted { result.counted ≡ 0 }
    {
        FileNames {
            names: Vec::new(alloc),
            counted: 0,
        }
    }

    /// Counts a name with one of the suffixes, of an object or not; `TooManyObjects` if there are
    /// too many.
    pub(crate) fn count(&mut self) -> Result<(), Refusal>
        ensures same { self.new.names ≡ self.old.names }
        ensures counts { IsOk result ↔ (self.old.counted < MAX_NAMES) }
        ensures counted { OnOk result (self.new.counted ≡ self.old.counted + 1) }
        ensures many { IfErr result (λ refusal. refusal ≡ TooManyObjects) }
    {
        if self.counted >= MAX_NAMES {
            return Err(Refusal::TooManyObjects);
        }
        self.counted += 1;
        Ok(())
    }

    /// Whether it is one of them.
    pub fn has(&self, name: &Name) -> bool
        ensures { result ≡ is_known self.now.names.items name.now }
    {
        self.search(name).is_ok()
    }

    /// Its place, or else the place of the first that it stands before, or of the end.
    fn search(&self, name: &Name) -> Result<usize, usize>
        ensures known { is_ok result ≡ is_known self.now.names.items name.now }
        ensures within { IfErr result (λ place. place ≤ length self.now.names.items) }
        ensures ordered { IfErr result (λ place. insert self.now.names.items place name.now
            ≡ and_in_order self.now.names.items name.now) }
    {
        let name = name.as_bytes();
        let names = &self.names;
        names.binary_search_by(|other| other.as_bytes().cmp(name))
    }

    /// One more, in its place, if it is not one of them already.
    pub fn add(&mut self, name: Name) -> Result<(), AllocError>
        ensures added { OnOk result (self.new.names.items
            ≡ (if is_known self.old.names.items name then self.old.names.items
            else and_in_order self.old.names.items name)) }
        ensures kept { OnErr result (self.new.names.items ≡ self.old.names.items) }
        ensures counted { self.new.counted ≡ self.old.counted }
    {
        if let Err(place) = self.search(&name) {
            self.names.insert(place, name)?;
        }
        Ok(())
    }
}
