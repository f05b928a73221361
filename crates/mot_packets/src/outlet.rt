//! Outlets: where packets go.
ghost use Rattle.std.specs.Prelude.{◌≤◌, ◌∷◌, ℕ, List, [], None, Option, length, take, IfOk};
ghost use Rattle.std.specs.Prelude.{MatchResult};
ghost use Rattle.mot_packets.specs.Written.{Grows};

use std::io;

/// Takes packets, each in one write of its own: a pipe, a device or a file.
pub trait Outlet {
    // What each write took, in order, if that is known: nothing, if it failed.
    ghost writes: { Self → Option (List (List ℕ)) } = { λ _. None };

    /// Offers the bytes in one write. It takes so many first bytes of them.
    fn write_once(&mut self, bytes: &[u8]) -> io::Result<usize>
        ensures bound { IfOk result (λ count. count ≤ length bytes.now) }
        ensures one { MatchResult result
            (λ count. Grows (writes self.old) (writes self.new) (take count bytes.now ∷ []))
            (λ _. Grows (writes self.old) (writes self.new) ([] ∷ [])) };
}
