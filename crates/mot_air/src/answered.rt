//! What a command came to that came to nothing else.
ghost use Rattle.std.specs.Prelude.{◌≡◌, Err, MatchResult, Ok};

use crate::Ended;
use disk_model::Disk;

/// The same end with this answer, if it is not a refusal.
pub(crate) fn answered<D: Disk>(ended: Ended<D, ()>, answer: bool) -> Ended<D, bool>
    ensures disk { result.disk ≡ ended.disk }
    ensures answer { MatchResult ended.result (λ _. result.result ≡ Ok answer)
        (λ r. result.result ≡ Err r) }
{
    Ended {
        disk: ended.disk,
        result: match ended.result {
            Ok(()) => Ok(answer),
            Err(refusal) => Err(refusal),
        },
        reason: ended.reason,
    }
}
