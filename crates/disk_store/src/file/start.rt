//! What a file may hold as it is opened.
ghost use Rattle.std.specs.Prelude.{◌≡◌, ◌<◌, ℕ, List, [], All};
ghost use Rattle.std.proofs.lemmas.List.Elements.{All-nil};

use super::files::DiskFile;
use std::fs::File;
use std::marker::PhantomData;

/// The bytes that a file holds as it is opened. Nothing reads them then, and no value of the
/// program is them: they are a word of contracts alone. What is proved of a function over `S:
/// Start` is proved for all such bytes.
pub trait Start: Drop {
    /// The open files of the machine on which it is.
    type File: DiskFile;

    ghost bytes: { List ℕ };

    ghost are_bytes: { All (λ b. b < 256) bytes };

    /// What a second file holds as it is opened, of a task on two.
    ghost others: { List ℕ };

    ghost others_are_bytes: { All (λ b. b < 256) others };
}

/// For a program to name, at its outermost function. A clause at this type that uses its `bytes`
/// says nothing of a file that is not empty, so what speaks of first bytes belongs on a function
/// over `S: Start`.
#[derive(Drop)]
pub struct Unknown;

impl Start for Unknown {
    type File = File;

    ghost bytes = { [] };

    ghost are_bytes = { All-nil (λ b. b < 256) };

    ghost others = { [] };

    ghost others_are_bytes = { All-nil (λ b. b < 256) };
}

/// What the second of two files holds as it is opened.
#[derive(Drop)]
pub struct Second<S: Start> {
    start: PhantomData<S>,
}

/// The value again, for the first of two files, and one for the second.
pub fn with_second<S: Start>(start: S) -> (S, Second<S>)
    ensures { result.0 ≡ start }
{
    (start, Second { start: PhantomData })
}

impl<S: Start> Start for Second<S> {
    type File = S::File;

    ghost bytes = { S.Start.others };

    ghost are_bytes = { S.Start.others_are_bytes };

    ghost others = { [] };

    ghost others_are_bytes = { All-nil (λ b. b < 256) };
}
