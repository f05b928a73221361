//! Which line of which file is answered.
ghost use Rattle.std.specs.Prelude.{◌≡◌, ◌⊎◌, ◌+◌, ◌≤◌, [], length, min, vec_capacity};

use std::alloc::{AllocError, Global};

/// The most bytes of a file's name.
const NAME: usize = 255;

/// The file that lines come from, and how many of its lines were answered. It takes no memory but
/// when it is made.
#[derive(Drop)]
pub struct LineCount {
    /// The name of the file.
    pub file: Vec<u8>,
    /// How many lines of the file were answered.
    pub number: u64,
}

impl LineCount {
    /// No file. If there is no memory for a name now, it is taken as a name comes.
    pub fn new(alloc: Global) -> LineCount
        ensures none { (result.number ≡ 0) × (result.file.items ≡ []) }
    {
        let file = match Vec::with_capacity(alloc, NAME) {
            Ok(file) => file,
            Err(AllocError) => Vec::new(alloc),
        };
        LineCount { file, number: 0 }
    }

    /// A further file, of this name. If there is no memory for the name, it is told as an empty one.
    pub fn begin(&mut self, name: &[u8])
        ensures none { self.new.number ≡ 0 }
        ensures named { length name.now ≤ vec_capacity self.old.file
            → self.new.file.items ≡ name.now }
        ensures nameless { (self.new.file.items ≡ name.now) ⊎ (self.new.file.items ≡ []) }
    {
        self.number = 0;
        self.file.clear();
        let _ = self.file.extend_from_slice(name);
    }

    /// A further line is answered.
    pub fn add(&mut self)
        ensures further { self.new.number ≡ min (self.old.number + 1) 18446744073709551615 }
        ensures same { self.new.file ≡ self.old.file }
    {
        self.number = self.number.saturating_add(1);
    }

    /// The name of the file.
    pub fn file(&self) -> &[u8]
        ensures { result.now ≡ self.now.file.items }
    {
        self.file.as_slice()
    }
}
