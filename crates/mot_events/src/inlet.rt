//! What a program has to come to lines by that are given while it works.
ghost use Rattle.std.specs.Prelude.{◌≤◌, ℕ, List, length, take};

use crate::Tells;
use crate::line_count::LineCount;

/// What gives bytes of lines and waits for none.
pub trait Inlet {
    // What clauses see of it.
    ghost View: { Type 0 };

    ghost view: { Self → View };

    // One read went from the first of these to the second, and gave these bytes.
    ghost gave: { View → View → List ℕ → Type 0 };

    /// The next bytes, and how many they are: 0 where there are none now. They are of one file:
    /// `count` begins again with it. What is wrong with a file is told.
    fn read<T: Tells>(&mut self, room: &mut [u8], count: &mut LineCount, log: &mut T) -> usize
        ensures fits { result ≤ length room.new }
        ensures gave { gave (view self.old) (view self.new) (take result room.new) };
}
