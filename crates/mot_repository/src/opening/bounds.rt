//! What is known of all objects of a fold at once.
ghost use Rattle.std.specs.Prelude.{◌≡◌, ◌+◌, ◌≤◌, ◌<◌, ℕ, List};
ghost use Rattle.mot_repository.specs.Inner.Bounds.{IsFlagged, flag_of, is_flagged};
ghost use Rattle.mot_repository.specs.declared.opening.bounds.TheConstants.{NAME_FLAGS};

use mot_objects::{Name, Object};

/// So many flags that the names of a whole carousel mostly have one each.
const NAME_FLAGS: usize = 4096;

/// Bounds of all objects of a fold, so that one beyond them need not be compared with any. They
/// hold on if an object is replaced or goes.
#[derive(Drop)]
pub(super) struct Bounds {
    /// No object has a greater id.
    pub greatest_id: u16,
    /// No body ends after it.
    pub greatest_end: u64,
    /// Each object's name has its flag on.
    names: [bool; NAME_FLAGS],
}

impl Bounds {
    /// Those of no object.
    pub fn of_none() -> Self {
        Bounds {
            greatest_id: 0,
            greatest_end: 0,
            names: [false; NAME_FLAGS],
        }
    }

    /// Whether the flag of a name is on; if it is off, no object has the name.
    pub fn has_flag(&self, name: &Name) -> bool
        ensures { result ≡ is_flagged self.now.names name.now }
    {
        self.names[flag_of_name(name)]
    }

    /// Widens them to this object, whose body begins and is as long as its extent says.
    pub fn widen(&mut self, object: &Object, extent: (u32, u32))
        ensures id { object.now.tid ≤ self.new.greatest_id }
        ensures ids { self.old.greatest_id ≤ self.new.greatest_id }
        ensures end { extent.0 + extent.1 ≤ self.new.greatest_end }
        ensures ends { self.old.greatest_end ≤ self.new.greatest_end }
        ensures name { IsFlagged self.new.names object.now.name }
        ensures names { (name : List ℕ) → IsFlagged self.old.names name
            → IsFlagged self.new.names name }
    {
        self.greatest_id = self.greatest_id.max(object.tid.get());
        let end = u64::from(extent.0) + u64::from(extent.1);
        self.greatest_end = self.greatest_end.max(end);
        self.names[flag_of_name(&object.name)] = true;
    }
}

/// The place of a name's flag.
fn flag_of_name(name: &Name) -> usize
    ensures flag { result ≡ flag_of name.now }
    ensures within { result < NAME_FLAGS }
{
    name.sum() as usize % NAME_FLAGS
}
