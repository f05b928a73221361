//! A list of calls that only clauses read. It takes no memory.
ghost use Rattle.std.specs.Prelude.{◌≡◌, ◌≤◌, List, [], ◌∷◌, ◌++◌, IfOk, length};
ghost use Rattle.std.specs.Borrow.{ftrue};
ghost use Rattle.mot_files.specs.Call.{Call, call, given};

use crate::system::{Event, Fault};
use std::marker::{Model, PhantomData};

/// The calls so far, the first of them first.
#[derive(Drop)]
pub struct CallLog {
    marker: PhantomData<u8>,
    pub ghost all: { List Call },
}

impl Model for CallLog {
    ghost also_owns = { λ _. ftrue };
}

impl CallLog {
    /// No call.
    pub fn new() -> CallLog
        ensures { result.all ≡ [] }
    {
        CallLog {
            marker: PhantomData,
        }
    }

    /// This one too. Its proof is written by hand: it adds to the list, which no memory holds.
    pub fn note(&mut self, _what: &Event, _bytes: &[u8], _more: &[u8])
        ensures { self.new.all ≡ self.old.all ++ call _what.now _bytes.now _more.now ∷ [] }
    {}

    /// Those of another log too. Its proof is written by hand, as that of `note`.
    pub fn join(&mut self, _more: &CallLog)
        ensures { self.new.all ≡ self.old.all ++ _more.now.all }
    {}

    /// This one too, which gave so many bytes of the room, for these.
    pub fn note_given(
        &mut self,
        what: &Event,
        room: &[u8],
        answer: Result<usize, Fault>,
        more: &[u8],
    )
        requires { IfOk answer (λ count. count ≤ length room.now) }
        ensures { self.new.all ≡ self.old.all ++ call what.now (given room.now answer) more.now ∷ [] }
    {
        match answer {
            Ok(count) => self.note(what, &room[..count], more),
            Err(_) => self.note(what, &[], more),
        }
    }
}
