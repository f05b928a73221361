//! Whether a look went by its folder's list.
ghost use Rattle.std.specs.Prelude.{◌≡◌};
ghost use Rattle.mot_events.specs.Events.{is_listed, is_of_folder};

use crate::event::{LookEvent, LookResult};

/// Whether the last look went by the folder's list.
pub fn is_listed(events: &[LookEvent]) -> bool
    ensures { result ≡ is_listed events.now }
{
    for event in events {
        if is_of_folder(&event.outcome) {
            return false;
        }
    }
    true
}

/// Whether the whole look went wrong.
fn is_of_folder(outcome: &LookResult) -> bool
    ensures { result ≡ is_of_folder outcome.now }
{
    match outcome {
        LookResult::Refused(step, _, _) => step.is_look(),
        LookResult::Kept | LookResult::KeptMost(_, _) => true,
        _ => false,
    }
}
