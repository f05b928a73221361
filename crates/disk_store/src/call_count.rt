//! How many calls were made on a disk, as a number that only clauses read. It takes no memory.
ghost use Rattle.std.specs.Prelude.{◌≡◌, ◌+◌, ℕ};
ghost use Rattle.std.specs.Borrow.{ftrue};

use std::marker::{Model, PhantomData};

/// The calls so far, those that failed among them.
#[derive(Drop)]
pub struct CallCount {
    marker: PhantomData<u8>,
    pub ghost number: { ℕ },
}

impl Model for CallCount {
    ghost also_owns = { λ _. ftrue };
}

impl CallCount {
    /// No call.
    pub fn new() -> CallCount
        ensures { result.number ≡ 0 }
    {
        CallCount {
            marker: PhantomData,
        }
    }

    /// A call more. Its proof is written by hand: the number stands in no memory.
    pub fn raise(&mut self)
        ensures { self.new.number ≡ self.old.number + 1 }
    {}
}
