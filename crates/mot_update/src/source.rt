//! The source of wanted objects.
ghost use Rattle.std.specs.Prelude.{◌≡◌, ◌+◌, ◌<◌, ◌≤◌, [], ◌∷◌, ℕ, Bool, true, List, Option, Some};
ghost use Rattle.std.specs.Prelude.{false, IfSome, MatchBool, MatchOption, None, ⊤, length};
ghost use Rattle.std.specs.Prelude.{slice_get};
ghost use Rattle.mot_update.specs.Looking.{Gives, was_settled, was_stored};
ghost use Rattle.mot_update.specs.Told.{Answer, TellsSince, Withdrew, answers_of, was_accepted};
ghost use Rattle.mot_update.specs.Updating.{is_known};
ghost use Rattle.mot_update.specs.declared.settling.SettleOutcome.{SettleOutcome};
ghost use Rattle.mot_objects.specs.declared.command.Item.{Item};

use crate::SettleOutcome;
use mot_objects::{Item, Name};
use mot_playout::Attempt;
use std::alloc::Global;

/// What an updated carousel is to have: names, all of them known at the beginning, and then the
/// objects of these names one after the other. If no object of a name comes, the one that the
/// carousel has of it stays as it is. An object that the carousel lacks, and has room for, is made to
/// last where it comes from before its command is run: so after a power cut the source has what the
/// carousel has, or what came later. The source learns what became of each.
pub trait Source {
    // The names that are known.
    ghost names: { Self → List (List ℕ) };

    // How many of them were gone over.
    ghost place: { Self → ℕ };

    // Whether nothing was refused so far, of the objects that it gave and of those that it learned
    // of.
    ghost is_fine: { Self → Bool };

    // What stays true of it while it is asked.
    ghost Since: { Type 0 };

    // What it learned so far is this, and what it gave is that.
    ghost was_told: { Self → Since → List Answer → List Item → Type 0 };

    // The same, once this object is offered, and before it is taken.
    ghost offers: { Self → Item → Since → List Answer → List Item → Type 0 };

    // The name of the object that it offered last.
    ghost last: { Self → List ℕ };

    // That object was made to last.
    ghost lasts: { Self → Type 0 } = { λ _. ⊤ };

    // The objects that it gave, if that is known.
    ghost given: { Self → Option (List Item) } = { λ _. None };

    /// Whether the name is known.
    fn knows(&self, name: &Name) -> bool
        ensures { result ≡ is_known (names self.now) name.now };

    /// The next object that it offers, of a further one of the names; `None` if there is none.
    fn next(&mut self, alloc: Global) -> Option<Item>
        ensures same { names self.new ≡ names self.old }
        ensures goes { place self.old ≤ place self.new }
        ensures gives { Gives (given self.old) (given self.new) [] }
        ensures named { IfSome result (λ wanted. (i : ℕ) × (place self.old ≤ i)
            × (i < place self.new) × (slice_get (names self.old) i ≡ Some wanted.name)) }
        ensures last { IfSome result (λ wanted. last self.new ≡ wanted.name) }
        ensures told { MatchOption result (TellsSince (was_told self.old) (was_told self.new) [] [])
            (λ wanted. TellsSince (was_told self.old) (offers self.new wanted) [] []) }
        ensures ended { MatchOption result (length (names self.old) ≤ place self.new) (λ _. ⊤) }
        ensures fine { is_fine self.new ≡ true → is_fine self.old ≡ true }

        // If nothing was refused, no name is passed over.
        ensures every { is_fine self.new ≡ true → MatchOption result
            (length (names self.old) ≤ place self.old)
            (λ wanted. place self.new ≡ place self.old + 1) };

    /// Takes the object that it offered last, this one: whether it gives it. One that is new to the
    /// carousel, which has room for it, is made to last before, and left if that fails.
    fn take(&mut self, wanted: &Item, is_new: bool) -> bool
        requires { last self.old ≡ wanted.now.name }
        ensures same { names self.new ≡ names self.old }
        ensures stays { (place self.new ≡ place self.old) × (last self.new ≡ last self.old) }
        ensures gives { MatchBool result (Gives (given self.old) (given self.new) (wanted.now ∷ []))
            (Gives (given self.old) (given self.new) []) }
        ensures told { MatchBool result
            (TellsSince (offers self.old wanted.now) (was_told self.new) [] (wanted.now ∷ []))
            (TellsSince (offers self.old wanted.now) (was_told self.new) [] []) }
        ensures fine { is_fine self.new ≡ true → (is_fine self.old ≡ true) × (result ≡ true) }

        // What is there already is given, and what is new was made to last.
        ensures there { is_new ≡ false → result ≡ true }
        ensures lasts { is_new ≡ true → result ≡ true → lasts self.new };

    /// What became of an object that is not known.
    fn withdrew(&mut self, name: &Name, attempt: Attempt)
        ensures same { names self.new ≡ names self.old }
        ensures stays { place self.new ≡ place self.old }
        ensures gives { Gives (given self.old) (given self.new) [] }
        ensures told { TellsSince (was_told self.old) (was_told self.new)
            (Withdrew name.now attempt ∷ []) [] }
        ensures fine { is_fine self.new ≡ true
            → (is_fine self.old ≡ true) × (was_accepted attempt ≡ true) };

    /// What became of the object that it offered last, and gave. If it was stored, it was made to
    /// last before.
    fn settled(&mut self, settled: SettleOutcome)
        requires { was_stored settled ≡ true → lasts self.old }
        ensures same { names self.new ≡ names self.old }
        ensures stays { place self.new ≡ place self.old }
        ensures gives { Gives (given self.old) (given self.new) [] }
        ensures told { TellsSince (was_told self.old) (was_told self.new)
            (answers_of (last self.old) settled) [] }
        ensures fine { is_fine self.new ≡ true
            → (is_fine self.old ≡ true) × (was_settled settled ≡ true) };
}
