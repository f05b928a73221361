//! What a system has open, by the numbers that it handed out.
ghost use Rattle.std.specs.Prelude.{◌≡◌, ◌≢◌, ℕ, IfOk, MatchResult, None, Some, slice_get};
ghost use Rattle.std.specs.Option.{option_copied, option_copied_mut};
ghost use Rattle.mot_files.specs.Holding.{held};

use crate::system::{Fault, Handle};
use std::alloc::Global;
use std::io::{self, ErrorKind};

/// What is open.
#[derive(Drop)]
pub struct Table<T: Drop> {
    /// By its handle; nothing, once it was closed.
    places: Vec<Option<T>>,
}

impl<T: Drop> Table<T> {
    /// Nothing is open.
    pub fn new(alloc: Global) -> Table<T>
        ensures { (place : ℕ) → held result place ≡ None }
    {
        Table {
            places: Vec::new(alloc),
        }
    }

    /// Gives what was opened a handle that stood for nothing. The other handles stay as they are.
    pub fn keep(&mut self, opened: T) -> Result<Handle, Fault>
        ensures { MatchResult result
            (λ handle. (held self.old handle.slot ≡ None)
            × (held self.new handle.slot ≡ Some opened)
            × ((other : ℕ) → other ≢ handle.slot → held self.new other ≡ held self.old other))
            (λ _. (other : ℕ) → held self.new other ≡ held self.old other) }
    {
        let handle = self.vacate()?;
        self.put(handle, opened);
        Ok(handle)
    }

    /// A handle that stands for nothing, and a place for it. The other handles stay as they are.
    pub(crate) fn vacate(&mut self) -> Result<Handle, Fault>
        ensures free { IfOk result (λ handle. slice_get self.new.places.items handle.slot
            ≡ Some None) }
        ensures same { (place : ℕ) → held self.new place ≡ held self.old place }
    {
        if let Some(at) = self.places.iter().position(|place| place.is_none()) {
            return Ok(Handle { slot: at as u64 });
        }
        let slot = self.places.len() as u64;
        match self.places.push(None) {
            Ok(()) => Ok(Handle { slot }),
            Err(_) => Err(Fault::System(io::Error::from(ErrorKind::OutOfMemory))),
        }
    }

    /// Gives what was opened a handle that has a place.
    pub(crate) fn put(&mut self, handle: Handle, opened: T)
        requires { slice_get self.old.places.items handle.slot ≡ Some None }
        ensures put { held self.new handle.slot ≡ Some opened }
        ensures others { (other : ℕ) → other ≢ handle.slot
            → held self.new other ≡ held self.old other }
    {
        self.places[handle.slot as usize] = Some(opened);
    }

    /// What the handle stands for.
    pub fn get(&self, handle: Handle) -> Option<&T>
        ensures { option_copied result ≡ held self.now handle.slot }
    {
        self.places.get(handle.slot as usize)?.as_ref()
    }

    /// What the handle stands for.
    #[inline(always)]
    pub fn get_mut(&mut self, handle: Handle) -> Option<&mut T>
        ensures { option_copied_mut result ≡ held self.old handle.slot }
    {
        self.places.get_mut(handle.slot as usize)?.as_mut()
    }

    /// The handle stands for nothing.
    pub fn close(&mut self, handle: Handle)
        ensures nothing { held self.new handle.slot ≡ None }
        ensures others { (other : ℕ) → other ≢ handle.slot
            → held self.new other ≡ held self.old other }
    {
        if let Some(place) = self.places.get_mut(handle.slot as usize) {
            *place = None;
        }
    }
}
